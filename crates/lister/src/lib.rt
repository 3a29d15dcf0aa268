//! The listing of tokenised BASIC V.
#![tactic(auto)]

mod line;
mod lines;
mod symbol;

pub use line::list_line;
pub use lines::list_lines;
