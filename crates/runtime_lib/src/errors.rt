//! The texts of errors, as they stand in an image.
ghost use Rattle.std.specs.Prelude.{◌≡◌};
ghost use Rattle.runtime_lib.specs.Entries.{error_table};

/// For each error its number, the number of its text's bytes, and its text; and at the end 255 and 0.
static TEXTS: [u8; 534] = *b"\
    \x00\x04STOP\
    \x01\x19Unpredictable instruction\
    \x02\x16Bad immediate constant\
    \x03\x0cBad register\
    \x06\x0dType mismatch\
    \x07\x11Not in a function\
    \x0a\x07Bad DIM\
    \x0b\x1aNo room for this dimension\
    \x0c\x0dNot in a call\
    \x0d\x12Not in a procedure\
    \x0e\x0fUndefined array\
    \x0f\x16Subscript out of range\
    \x12\x10Division by zero\
    \x13\x0fString too long\
    \x14\x0eNumber too big\
    \x1a\x1bUnknown or missing variable\
    \x1d\x1dNo such function or procedure\
    \x1f\x19Wrong number of arguments\
    \x20\x06No FOR\
    \x21\x0fCan't match FOR\
    \x25\x18No room for call or loop\
    \x26\x13Not in a subroutine\
    \x28\x08ON range\
    \x29\x0cNo such line\
    \x2a\x0bOut of data\
    \x2b\x14Not in a REPEAT loop\
    \x2e\x13Not in a WHILE loop\
    \x30\x16No saved error handler\
    \xff\x00";

/// The texts of all errors, as the routine of the closing text finds them in an image.
pub fn error_table() -> &'static [u8]
    ensures { result.now ≡ error_table }
{
    &TEXTS
}
