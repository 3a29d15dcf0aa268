//! Machine code for the flat code: a piece of code for each operation, and the image of a program.
#![tactic(auto)]

mod data;
mod generate;
mod image_texts;
mod instructions;
mod labels;
mod loads;
mod loops;
mod operands;
mod operations;
mod operators;
mod placing;
mod program;
mod registers;

pub use generate::generate_code;
