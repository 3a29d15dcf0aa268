//! Strings of at most 255 bytes.
ghost use Rattle.std.specs.Prelude.{◌≡◌, ◌≤◌, [], length};

use std::marker::Model;

/// The greatest number of bytes in a string.
pub const LONGEST_STRING: usize = 255;

/// A string of BBC BASIC V: at most 255 bytes of any value.
#[derive(Clone, Copy, Debug, PartialEq, Eq)]
pub struct Str {
    /// The string stands at the front, and zeros after it.
    bytes: [u8; LONGEST_STRING],
    /// The number of its bytes.
    len: u8,
}

impl Model for Str {
    ghost use Rattle.std.specs.Prelude.{ℕ, List};

    ghost Value = { List ℕ };

    ghost use Rattle.bas_value.specs.Text.{text_of, IsPlaced, placed, placed-text_of};

    ghost view = { text_of };

    ghost invariant = { IsPlaced };

    ghost inverse = { placed };

    ghost inverse_ok = { placed-text_of };
}

impl Str {
    /// The string without bytes.
    pub fn empty() -> Str
        ensures { result ≡ [] }
    {
        Str {
            bytes: [0; LONGEST_STRING],
            len: 0,
        }
    }

    /// The string of these bytes.
    pub fn of_bytes(bytes: &[u8]) -> Str
        requires { length bytes.now ≤ LONGEST_STRING }
        ensures { result ≡ bytes.now }
    {
        let mut room = [0; LONGEST_STRING];
        room[..bytes.len()].copy_from_slice(bytes);
        Str {
            bytes: room,
            len: bytes.len() as u8,
        }
    }

    /// Its bytes.
    pub fn as_slice(&self) -> &[u8]
        ensures value { result.now ≡ self.now }
        ensures short { length result.now ≤ LONGEST_STRING }
    {
        &self.bytes[..usize::from(self.len)]
    }

    /// The number of its bytes.
    pub fn len(&self) -> u8
        ensures { result ≡ length self.now }
    {
        self.len
    }
}
