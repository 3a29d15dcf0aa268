//! The labels of the routines. The definitions have them in `label_of` of `Entries.antt`.
use code_frag::Label;

/// The product of two numbers.
pub const PRODUCT: Label = Label { number: 0 };

/// DIV.
pub const QUOTIENT: Label = Label { number: 1 };

/// MOD.
pub const MODULUS: Label = Label { number: 2 };

/// A number in decimal.
pub const DECIMAL_NUMBER: Label = Label { number: 3 };

/// A number in hexadecimal.
pub const HEXADECIMAL_NUMBER: Label = Label { number: 4 };

/// SPC.
pub const SOME_SPACES: Label = Label { number: 5 };

/// A new line.
pub const LINE_END: Label = Label { number: 6 };

/// A string.
pub const STRING_OUT: Label = Label { number: 7 };

/// The closing text, and the end of the run.
pub const CLOSING_TEXT: Label = Label { number: 8 };

/// A comma.
pub const TO_FIELD: Label = Label { number: 9 };

/// TAB.
pub const TO_TAB: Label = Label { number: 10 };

/// R1 spaces, for the other routines.
pub const RUN: Label = Label { number: 11 };

/// The division of words, for the other routines.
pub const DIVISION: Label = Label { number: 12 };

/// FOR, REPEAT, WHILE and GOSUB.
pub const OPENING: Label = Label { number: 13 };

/// UNTIL, ENDWHILE and RETURN.
pub const CLOSING_WORD: Label = Label { number: 14 };

/// NEXT.
pub const TURNING: Label = Label { number: 15 };

/// The next item of DATA.
pub const NEXT_ITEM: Label = Label { number: 16 };

/// The number of an item of DATA.
pub const ITEM_NUMBER: Label = Label { number: 17 };
