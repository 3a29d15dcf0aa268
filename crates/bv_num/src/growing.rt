//! A short text that grows at its front.
ghost use Rattle.std.specs.Prelude.{◌≡◌, ◌<◌, ◌∷◌, [], length};

use crate::digits::LONGEST_NUMBER;
use std::marker::Model;

/// A text of at most `LONGEST_NUMBER` bytes, which is at the end of its array.
#[derive(Drop)]
pub struct GrowingText {
    bytes: [u8; LONGEST_NUMBER],
    len: u8,
}

impl Model for GrowingText {
    ghost use Rattle.std.specs.Prelude.{ℕ, List, ◌≤◌};

    ghost Value = { List ℕ };

    ghost use Rattle.bv_num.specs.Text.{text_at_end};

    ghost view = { λ inside. text_at_end inside.bytes inside.len };

    ghost invariant = { λ inside. inside.len ≤ 11 };
}

impl GrowingText {
    /// A text of one byte.
    pub fn of_byte(byte: u8) -> GrowingText
        ensures { result ≡ byte ∷ [] }
    {
        let mut bytes = [0; LONGEST_NUMBER];
        bytes[LONGEST_NUMBER - 1] = byte;
        GrowingText { bytes, len: 1 }
    }

    /// Adds a byte in front.
    pub fn push_front(&mut self, byte: u8)
        requires { length self.old < LONGEST_NUMBER }
        ensures { self.new ≡ byte ∷ self.old }
    {
        self.len += 1;
        self.bytes[LONGEST_NUMBER - usize::from(self.len)] = byte;
    }

    /// The bytes of the text.
    pub fn as_slice(&self) -> &[u8]
        ensures { result.now ≡ self.now }
    {
        &self.bytes[LONGEST_NUMBER - usize::from(self.len)..]
    }
}
