//! Tokenising: a program's file from its text.
#![tactic(auto)]

mod body;
mod error;
mod laws;
mod part;
mod piece;
mod rules;
mod text;

pub use error::CrunchError;
pub use laws::one_answer;
pub use text::crunch;
