//! The numbers that texts spell.
ghost use Rattle.std.specs.Prelude.{◌≡◌, ◌≤◌, ◌^◌, min, length};
ghost use Rattle.bv_num.specs.Value.{after_spaces, after_sign, front_digits, front_value, value_of, data_value};

use crate::arithmetic::{TOO_BIG, narrow};

/// Numbers of 32 bits are below this.
const WORD_VALUES: u64 = 0x1_0000_0000;

/// The text without the spaces that begin it.
pub fn skip_spaces(text: &[u8]) -> &[u8]
    ensures { result.now ≡ after_spaces text.now }
{
    let mut rest = text;
    while let [b' ', after @ ..] = rest {
        rest = after;
    }
    rest
}

/// The digits that begin a text.
#[derive(Clone, Copy, Debug, Drop)]
pub struct DigitRun {
    /// Their value, or 2^32 where it is greater than that.
    pub value: u64,
    /// The number of digits.
    pub count: usize,
}

/// The digits of a base that begin a text, of which there may be none.
pub fn digit_run(base: u32, text: &[u8]) -> DigitRun
    requires least { 2 ≤ base }
    requires greatest { base ≤ 36 }
    ensures value { result.value ≡ min (front_value base text.now) (2 ^ 32) }
    ensures count { result.count ≡ length (front_digits base text.now) }
{
    let mut value = 0;
    let mut count = 0;
    for byte in text {
        let Some(digit) = char::from(*byte).to_digit(base) else {
            return DigitRun { value, count };
        };
        value = (value * u64::from(base) + u64::from(digit)).min(WORD_VALUES);
        count += 1;
    }
    DigitRun { value, count }
}

/// The text after the sign that may begin it.
fn skip_sign(text: &[u8]) -> &[u8]
    ensures { result.now ≡ after_sign text.now }
{
    match text {
        [b'+' | b'-', after @ ..] => after,
        _ => text,
    }
}

/// VAL: the number that a text begins with, after spaces and at most one sign; 0 where no digit is there, and
/// `TOO_BIG` past 32 bits. What follows the digits is ignored.
pub fn value_of(text: &[u8]) -> Result<i32, u8>
    ensures { result ≡ value_of text.now }
{
    let text = skip_spaces(text);
    let size = digit_run(10, skip_sign(text)).value as i64;
    if text.first() == Some(&b'-') {
        return narrow(-size);
    }
    narrow(size)
}

/// READ's number of an item of DATA: after `&` the value of the hexadecimal digits of either case, which are 32 bits,
/// and else VAL of the text. `TOO_BIG` where it is greater.
pub fn data_value(text: &[u8]) -> Result<i32, u8>
    ensures { result ≡ data_value text.now }
{
    let [b'&', digits @ ..] = text else {
        return value_of(text);
    };
    let value = digit_run(16, digits).value;
    if value >= WORD_VALUES {
        return Err(TOO_BIG);
    }
    Ok((value as u32).cast_signed())
}
