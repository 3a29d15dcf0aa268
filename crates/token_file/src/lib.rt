//! Tokenised BASIC V files: the records of a file, which are the lines of its program.
#![tactic(auto)]

mod laws;
mod line;
mod read;
mod write;

pub use laws::one_reading;
pub use line::{END_MARK, HEAD_BYTES, Line, RECORD_START};
pub use read::{FileError, read_file};
pub use write::write_file;
