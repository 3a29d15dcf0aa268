//! What the ARM2 computes with, below its memory: the registers with the PC and the flags, the conditions, the shifts, the
//! operands and the sixteen operations of data processing. The source is the VL86C010 (ARM2) data manual.
#![tactic(auto)]

mod operands;
mod operations;
mod pc;
mod psr;
mod regs;
mod shifts;

pub use operands::{ahead_of, amount_operand, is_by_register, register_at, second_operand};
pub use operations::{Computed, compute, compute_immediate, is_test};
pub use pc::{PC_END, Pc};
pub use psr::{PSR_END, Psr};
pub use regs::Regs;
pub use shifts::{Shifted, shift, shift_by_field};
