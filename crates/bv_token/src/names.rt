//! The bytes of names.
ghost use Rattle.std.specs.Prelude.{◌≡◌};
ghost use Rattle.bv_token.specs.Names.{begins_name, is_in_name};

/// The pound sign, in Acorn's character set.
const POUND_SIGN: u8 = 0x60;

/// Whether a name may begin with the byte: a letter, `_` or the pound sign.
pub fn begins_name(byte: u8) -> bool
    ensures { result ≡ begins_name byte }
{
    byte.is_ascii_alphabetic() || byte == b'_' || byte == POUND_SIGN
}

/// Whether a name may go on with the byte: one that may begin it, or a digit.
pub fn is_in_name(byte: u8) -> bool
    ensures { result ≡ is_in_name byte }
{
    begins_name(byte) || byte.is_ascii_digit()
}
