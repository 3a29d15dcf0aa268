//! The program counter.
ghost use Rattle.std.specs.Prelude.{◌≡◌, ◌+◌, ◌*◌, ◌/◌, ◌%◌, ◌^◌, ◌<◌};

use std::marker::Model;

/// Addresses of instructions are below this: the PC has 26 bits.
pub const PC_END: u32 = 0x400_0000;

/// The address of an instruction: a multiple of 4 below `PC_END`.
#[derive(Clone, Copy, Debug, PartialEq, Eq)]
pub struct Pc {
    address: u32,
}

impl Model for Pc {
    ghost use Rattle.std.specs.Prelude.{◌≡◌, ◌%◌, ◌^◌, ◌<◌, ℕ};

    ghost Value = { ℕ };

    ghost view = { λ pc. pc.address };

    ghost invariant = { λ pc. (pc.address % 4 ≡ 0) × (pc.address < 2 ^ 26) };

    ghost inverse = { λ n. record { address = n } };
}

impl Pc {
    /// The address in bits 25 to 2 of a value, which is the value where that is a multiple of 4 below `PC_END`.
    #[inline]
    pub fn of(value: u32) -> Pc
        ensures { result ≡ value % 2 ^ 26 / 4 * 4 }
    {
        Pc {
            address: value % PC_END / 4 * 4,
        }
    }

    /// The address.
    #[inline]
    pub fn address(self) -> u32
        ensures value { result ≡ self }
        ensures aligned { result % 4 ≡ 0 }
        ensures within { result < 2 ^ 26 }
    {
        self.address
    }

    /// The address a multiple of 4 bytes further on, modulo `PC_END`.
    #[inline]
    pub fn plus(self, bytes: u32) -> Pc
        requires { bytes % 4 ≡ 0 }
        ensures { result ≡ (self + bytes) % 2 ^ 26 }
    {
        Pc {
            address: self.address.wrapping_add(bytes) % PC_END,
        }
    }
}
