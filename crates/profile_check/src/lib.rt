//! From the lines of a file to the program that they are: symbols, names, trees, structures and limits, or the first cause
//! why they are none.
#![tactic(auto)]

mod cut_line;
mod cutting;
mod file;
mod labels;
mod laws;
mod lines;
mod program;
mod refusal;
mod size;
mod tables;

pub use file::read_program;
pub use laws::one_verdict;
pub use program::check;
pub use refusal::{LONG_FILE, Refusal, Which};
