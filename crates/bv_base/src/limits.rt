//! All limits of the product. This project's own, but for those that the format of a file sets. A limit is passed where
//! a count is greater than its number. Each is the number that `specs/Limits.antt` has for it.

/// The greatest number of bytes in a program's file.
pub const FILE_BYTES: u32 = 65_536;

/// The greatest number of bytes in a line's text. A record's length is one byte, which counts the text and the four
/// bytes before it.
pub const LONGEST_TEXT: usize = 251;

/// Line numbers are below this, since the high byte of a record's number is not the end's mark &FF.
pub const LINE_NUMBERS: u16 = 0xff00;

/// The greatest number of distinct names of variables, arrays, labels, procedures and functions in a program.
pub const NAMES: u32 = 4_096;

/// The greatest number of strings that one statement has pending.
pub const PENDING_STRINGS: u32 = 16;

/// The greatest number of formals, or of arguments, in one list.
pub const PARAMETERS: u32 = 16;

/// The greatest number of subscripts in one list.
pub const DIMENSIONS: u32 = 4;

/// The greatest number of bytes in an input's file.
pub const INPUT_BYTES: u32 = 1_048_576;

/// The greatest number of words in an image.
pub const IMAGE_WORDS: u32 = 2_097_152;

/// The greatest number of bytes in an image's file: those of its head, and of its words.
pub const IMAGE_BYTES: u32 = 8 + 4 * IMAGE_WORDS;

/// The greatest number of bytes in a text that is to be tokenised.
pub const TEXT_FILE_BYTES: u32 = 1_048_576;

/// The greatest number of bytes in a file that is tokenised from a text.
pub const CRUNCHED_FILE_BYTES: u32 = 262_144;
