//! The bits of a word.
ghost use Rattle.std.specs.Prelude.{◌≡◌, ◌≤◌, ◌<◌, ◌+◌};
ghost use Rattle.arm_isa.specs.Fields.{bits, bit, has_bits_7_and_4};

/// Bits `high` to `low` of a word, as a number.
pub fn bits(word: u32, high: u32, low: u32) -> u32
    requires order { low ≤ high }
    requires top { high < 32 }
    ensures { result ≡ bits word high low }
{
    (word >> low) & (u32::MAX >> (31 - (high - low)))
}

/// Whether a bit of a word is 1.
pub fn bit(word: u32, at: u32) -> bool
    requires { at < 32 }
    ensures { result ≡ bit word at }
{
    bits(word, at, at) == 1
}

/// The four bits of a word from bit `low` up.
pub fn nibble(word: u32, low: u32) -> u8
    requires { low < 29 }
    ensures { result ≡ bits word (low + 3) low }
{
    bits(word, low + 3, low) as u8
}

/// Whether bits 7 and 4 of a word are both 1, which no register operand of data processing has.
pub fn has_bits_7_and_4(word: u32) -> bool
    ensures { result ≡ has_bits_7_and_4 word }
{
    bit(word, 7) && bit(word, 4)
}
