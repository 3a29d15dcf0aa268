//! The numbers of the signs, which are their places in the table of signs.

/// `+`
pub const PLUS: u8 = 0;

/// `-`
pub const MINUS: u8 = 1;

/// `*`
pub const TIMES: u8 = 2;

/// `=`
pub const EQUALS: u8 = 3;

/// `<`
pub const LESS: u8 = 4;

/// `>`
pub const GREATER: u8 = 5;

/// `<>`
pub const NOT_EQUAL: u8 = 6;

/// `<=`
pub const LESS_OR_EQUAL: u8 = 7;

/// `>=`
pub const GREATER_OR_EQUAL: u8 = 8;

/// `<<`
pub const SHIFT_LEFT: u8 = 9;

/// `>>`
pub const SHIFT_RIGHT: u8 = 10;

/// `>>>`
pub const SHIFT_RIGHT_LOGICAL: u8 = 11;

/// `+=`
pub const PLUS_EQUALS: u8 = 12;

/// `-=`
pub const MINUS_EQUALS: u8 = 13;

/// `(`
pub const OPEN_ROUND: u8 = 14;

/// `)`
pub const CLOSE_ROUND: u8 = 15;

/// `,`
pub const COMMA: u8 = 16;

/// `;`
pub const SEMICOLON: u8 = 17;

/// `:`
pub const COLON: u8 = 18;

/// `'`
pub const APOSTROPHE: u8 = 19;

/// `~`
pub const TILDE: u8 = 20;

/// `?`
pub const QUESTION: u8 = 21;

/// `!`
pub const EXCLAMATION: u8 = 22;

/// `$`
pub const DOLLAR: u8 = 23;

/// `#`
pub const HASH: u8 = 24;

/// `[`
pub const OPEN_SQUARE: u8 = 25;

/// `]`
pub const CLOSE_SQUARE: u8 = 26;

/// `{`
pub const OPEN_CURLY: u8 = 27;

/// `}`
pub const CLOSE_CURLY: u8 = 28;

/// `^`
pub const CARET: u8 = 29;
