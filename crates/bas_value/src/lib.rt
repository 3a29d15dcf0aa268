//! Values of BBC BASIC V: strings, the column of the output, and the texts of errors. What the statements of output
//! write, and the column after it, is defined in `specs/Output.antt`.
#![tactic(auto)]

mod column;
mod errors;
mod string;

pub use column::Column;
pub use errors::error_text;
pub use string::{LONGEST_STRING, Str};
