//! The tests of `code_frag`, by its public calls alone: three programs, each of one routine and its caller, which are proved
//! down to the board, and what is only tested.
#![tactic(auto)]

mod copying;
mod division;
#[cfg(test)]
mod fragments;
mod instructions;
mod laws;
mod numbers;
#[cfg(test)]
mod programs;
mod rows;

pub use copying::copying_words;
pub use division::division_words;
pub use laws::register_moves;
pub use rows::rows_words;
