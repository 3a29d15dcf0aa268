//! The words of the ARM2: which instruction a word is, which word an instruction is, and which numbers an operand of
//! twelve bits can hold. The source is the VL86C010 (ARM2) data manual.
#![tactic(auto)]

mod classes;
mod decoding;
mod encoding;
mod fields;
mod immediates;
mod instruction;
pub mod numbers;

pub use classes::{Class, class_of};
pub use decoding::decode;
pub use encoding::encode;
pub use fields::bit;
pub use immediates::immediate;
pub use instruction::{BRANCH_WORDS, Instr, NIBBLES, OPERANDS, SWI_NUMBERS};
