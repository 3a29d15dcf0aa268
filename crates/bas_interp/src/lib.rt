//! The interpreter: it executes the flat code of a program, with stacks of its own.
#![tactic(auto)]

mod act;
mod columns;
mod interp;
mod loops;
mod memory;
mod operators;
mod places;
mod quick;
mod read;
mod run;
mod stack;
mod write;

pub use interp::Interp;
