//! A line of a program, and the bytes of its record.
use bv_base::{LINE_NUMBERS, LONGEST_TEXT};
use sqlite_items::Items;

/// The byte that begins each record, and the program's end. No text has it.
pub const RECORD_START: u8 = 13;

/// The byte that follows `RECORD_START` at the program's end. It is no line number's high byte.
pub const END_MARK: u8 = 0xff;

/// The number of bytes before a record's text: `RECORD_START`, two of the line's number, and one of the record's
/// length.
pub const HEAD_BYTES: u8 = 4;

/// A line of a program: its number and its tokenised text.
#[derive(Debug, Drop)]
pub struct Line {
    pub number: u16,
    pub text: Items<u8>,
}

impl Line {
    ghost use Rattle.std.specs.Prelude.{IsTrue, ◌↔◌};
    ghost use Rattle.token_file.specs.Lines.{IsLine};

    /// Whether a record of a file can hold the line: its number is below `LINE_NUMBERS`, and its text has at most
    /// `LONGEST_TEXT` bytes, none of which is `RECORD_START`.
    pub fn fits_record(&self) -> bool
        ensures { IsTrue result ↔ IsLine self.now }
    {
        if self.number >= LINE_NUMBERS || self.text.len() > LONGEST_TEXT {
            return false;
        }
        !self.text.as_slice().contains(&RECORD_START)
    }
}
