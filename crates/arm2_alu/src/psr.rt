//! The flags.
ghost use Rattle.std.specs.Prelude.{◌≡◌, ◌+◌, ◌*◌, ◌%◌, ◌^◌, ◌<◌};
ghost use Rattle.std.specs.Int.{from_bool};

use std::marker::Model;

/// Values of the flags are below this.
pub const PSR_END: u8 = 64;

/// The flags N Z C V I F, in bits 5 to 0 of a number below `PSR_END`.
#[derive(Clone, Copy, Debug, PartialEq, Eq)]
pub struct Psr {
    bits: u8,
}

impl Model for Psr {
    ghost use Rattle.std.specs.Prelude.{◌^◌, ◌<◌, ℕ};

    ghost Value = { ℕ };

    ghost view = { λ psr. psr.bits };

    ghost invariant = { λ psr. psr.bits < 2 ^ 6 };

    ghost inverse = { λ n. record { bits = n } };
}

impl Psr {
    /// The flags in bits 5 to 0 of a number.
    #[inline]
    pub fn of(bits: u8) -> Psr
        ensures { result ≡ bits % 2 ^ 6 }
    {
        Psr {
            bits: bits % PSR_END,
        }
    }

    /// The number.
    #[inline]
    pub fn bits(self) -> u8
        ensures value { result ≡ self }
        ensures within { result < 2 ^ 6 }
    {
        self.bits
    }

    /// The flags with other N, Z, C and V.
    #[inline]
    pub fn with_flags(self, negative: bool, zero: bool, carry: bool, overflow: bool) -> Psr
        ensures { result ≡ from_bool negative * 2 ^ 5 + from_bool zero * 2 ^ 4 + from_bool carry * 2 ^ 3 + from_bool overflow * 2 ^ 2 + self % 2 ^ 2 }
    {
        Psr {
            bits: u8::from(negative) * 32
                + u8::from(zero) * 16
                + u8::from(carry) * 8
                + u8::from(overflow) * 4
                + self.bits % 4,
        }
    }
}
