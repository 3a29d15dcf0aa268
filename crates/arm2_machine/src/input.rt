//! The input of a run.
ghost use Rattle.std.specs.Prelude.{◌≡◌};

use std::marker::Model;

/// The bytes of the input that are left.
#[derive(Drop)]
pub struct Input {
    bytes: Vec<u8>,
    /// How many of the bytes were taken.
    taken: usize,
}

impl Model for Input {
    ghost use Rattle.std.specs.Prelude.{◌≤◌, ℕ, List, length, drop};

    ghost Value = { List ℕ };

    ghost view = { λ i. drop i.taken i.bytes.items };

    ghost invariant = { λ i. i.taken ≤ length i.bytes.items };
}

impl Input {
    ghost use Rattle.arm2_machine.specs.Input.{TakesByte};

    /// An input of which nothing was taken.
    pub fn new(bytes: Vec<u8>) -> Input
        ensures { result ≡ bytes.items }
    {
        Input { bytes, taken: 0 }
    }

    /// Takes the next byte, or `None` at the input's end.
    pub fn next(&mut self) -> Option<u8>
        ensures { TakesByte self.old result self.new }
    {
        let byte = *self.bytes.get(self.taken)?;
        self.taken += 1;
        Some(byte)
    }
}
