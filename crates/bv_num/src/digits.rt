//! The digits of numbers, as PRINT and the listing write them.
ghost use Rattle.std.specs.Prelude.{◌≡◌, ◌≢◌, ◌≤◌, ◌<◌, ◌∷◌, [], length, slice_index};
ghost use Rattle.std.specs.Fmt.{signed_decimal};
ghost use Rattle.bv_num.specs.Bits.{signed};
ghost use Rattle.bv_num.specs.Digits.{digit_byte, digits, decimal_text, hex_digits};
ghost use Rattle.bv_num.specs.Value.{value_of, data_value};

use crate::growing::GrowingText;
use std::marker::Model;

/// The greatest number of bytes in a number's text: a minus sign and ten digits.
pub const LONGEST_NUMBER: usize = 11;

/// The text of a number: its digits, highest first, with a minus sign before them where it is negative.
#[derive(Clone, Copy, Debug, PartialEq, Eq)]
pub struct Digits {
    /// The text is at the front, and zeros follow it.
    pub bytes: [u8; LONGEST_NUMBER],
    /// The number of the text's bytes.
    pub len: u8,
}

impl Model for Digits {
    ghost use Rattle.std.specs.Prelude.{ℕ, List};

    ghost Value = { List ℕ };

    ghost use Rattle.bv_num.specs.Text.{text_of, IsPlaced, placed, placed-text_of};

    ghost view = { text_of };

    ghost invariant = { IsPlaced };

    ghost inverse = { placed };

    ghost inverse_ok = { placed-text_of };
}

impl Digits {
    /// The digits of this text.
    fn of_text(text: &[u8]) -> Digits
        requires { length text.now ≤ LONGEST_NUMBER }
        ensures { result ≡ text.now }
    {
        let mut bytes = [0; LONGEST_NUMBER];
        bytes[..text.len()].copy_from_slice(text);
        Digits {
            bytes,
            len: text.len() as u8,
        }
    }

    /// The bytes of the text.
    pub fn as_slice(&self) -> &[u8]
        ensures { result.now ≡ self.now }
    {
        &self.bytes[..usize::from(self.len)]
    }
}

/// The byte of a digit below 16: `0` to `9`, then `A` to `F`.
pub fn digit_byte(digit: u32) -> u8
    requires { digit < 16 }
    ensures { result ≡ digit_byte digit }
{
    if digit < 10 {
        b'0' + digit as u8
    } else {
        b'A' + (digit as u8 - 10)
    }
}

/// The digits of a number in a base from 10 to 16.
fn in_base(base: u32, n: u32) -> GrowingText
    requires least { 10 ≤ base }
    requires greatest { base ≤ 16 }
    ensures value { result ≡ digits base n }
    ensures short { length result < LONGEST_NUMBER }
{
    let mut digits = GrowingText::of_byte(digit_byte(n % base));
    let mut rest = n / base;
    while rest > 0 {
        digits.push_front(digit_byte(rest % base));
        rest /= base;
    }
    digits
}

/// The decimal digits of a number, with its sign.
fn with_sign(n: i32) -> GrowingText
    ensures value { result ≡ decimal_text n }
    ensures short { length result ≤ LONGEST_NUMBER }
{
    let mut digits = in_base(10, n.unsigned_abs());
    if n < 0 {
        digits.push_front(b'-');
    }
    digits
}

/// The decimal text of a number, as std writes it, which VAL reads back.
pub fn decimal(n: i32) -> Digits
    ensures value { result ≡ decimal_text n }
    ensures written { result ≡ signed_decimal n }
    ensures reading { value_of result ≡ Ok n }
    ensures short { length result ≤ LONGEST_NUMBER }
{
    Digits::of_text(with_sign(n).as_slice())
}

/// The hexadecimal text of a number's 32 bits, in upper case and without leading zeros, which READ reads back after
/// `&`.
pub fn hex(n: u32) -> Digits
    ensures value { result ≡ hex_digits n }
    ensures first { 0 < n → slice_index result 0 ≢ 48 }
    ensures reading { data_value (38 ∷ result) ≡ Ok (signed n) }
    ensures short { length result ≤ 8 }
{
    Digits::of_text(in_base(16, n).as_slice())
}
