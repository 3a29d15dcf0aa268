//! The meaning of programs of BBC BASIC V: the state of a run, what each expression and each item does, and what a run
//! shows of itself at a bound of steps. All of it stands in `specs/`; here are its laws.
#![tactic(auto)]

mod laws;

pub use laws::{bound_kept, end_unique, execution_goes_on, outermost_ends};
