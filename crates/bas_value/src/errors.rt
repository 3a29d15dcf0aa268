//! The texts of errors.
ghost use Rattle.std.specs.Prelude.{◌≡◌};
ghost use Rattle.bas_value.specs.Errors.{error_text};

/// The text of an error that the language raises itself, and the empty one for other numbers.
pub fn error_text(error: u8) -> &'static [u8]
    ensures { result.now ≡ error_text error }
{
    match error {
        0 => b"STOP",
        1 => b"Unpredictable instruction",
        2 => b"Bad immediate constant",
        3 => b"Bad register",
        6 => b"Type mismatch",
        7 => b"Not in a function",
        10 => b"Bad DIM",
        11 => b"No room for this dimension",
        12 => b"Not in a call",
        13 => b"Not in a procedure",
        14 => b"Undefined array",
        15 => b"Subscript out of range",
        18 => b"Division by zero",
        19 => b"String too long",
        20 => b"Number too big",
        26 => b"Unknown or missing variable",
        29 => b"No such function or procedure",
        31 => b"Wrong number of arguments",
        32 => b"No FOR",
        33 => b"Can't match FOR",
        37 => b"No room for call or loop",
        38 => b"Not in a subroutine",
        40 => b"ON range",
        41 => b"No such line",
        42 => b"Out of data",
        43 => b"Not in a REPEAT loop",
        46 => b"Not in a WHILE loop",
        48 => b"No saved error handler",
        _ => b"",
    }
}
