//! The numbers of the library's entries. The definitions have them in `library_entries` of `Library.antt`.

/// The product of two numbers.
pub const PRODUCT: u16 = 1;

/// DIV.
pub const QUOTIENT: u16 = 2;

/// MOD.
pub const MODULUS: u16 = 3;

/// A number in decimal.
pub const DECIMAL_NUMBER: u16 = 4;

/// A number in hexadecimal.
pub const HEXADECIMAL_NUMBER: u16 = 5;

/// SPC.
pub const SOME_SPACES: u16 = 6;

/// A new line.
pub const LINE_END: u16 = 7;

/// A string.
pub const STRING_OUT: u16 = 8;

/// The closing text, and the end of the run.
pub const CLOSING_TEXT: u16 = 9;

/// FOR, REPEAT, WHILE and GOSUB.
pub const OPENING: u16 = 10;

/// UNTIL, ENDWHILE and RETURN.
pub const CLOSING_WORD: u16 = 11;

/// The next item of DATA.
pub const NEXT_ITEM: u16 = 14;

/// The number of an item of DATA.
pub const ITEM_NUMBER: u16 = 15;

/// A comma.
pub const TO_FIELD: u16 = 17;

/// TAB.
pub const TO_TAB: u16 = 18;

/// NEXT.
pub const TURNING: u16 = 19;
