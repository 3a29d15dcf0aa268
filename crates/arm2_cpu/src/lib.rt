//! The processor ARM2: one instruction over any memory that meets the laws of `Memory`. The source is the VL86C010 (ARM2)
//! data manual.
#![tactic(auto)]

mod access;
mod block;
mod branch;
mod data_processing;
mod event;
mod memory;
mod multiply;
mod single;
mod step;
mod unpredictable;

pub use access::Access;
pub use arm2_alu::{PC_END, PSR_END, Pc, Psr, Regs};
pub use event::CpuEvent;
pub use memory::Memory;
pub use step::step_cpu;
