//! The column of the output.
ghost use Rattle.std.specs.Prelude.{◌≡◌};
ghost use Rattle.bas_value.specs.Output.{advanced, to_field};

/// The number of bytes that were written since the last new line, modulo 65,536 (BBC BASIC Reference Manual, COUNT).
#[derive(Clone, Copy, Debug, PartialEq, Eq)]
pub struct Column {
    pub at: u16,
}

impl Column {
    /// The column after some more bytes.
    pub fn after(self, bytes: u32) -> Column
        ensures { result.at ≡ advanced bytes self.at }
    {
        Column {
            at: ((u32::from(self.at) + bytes % 0x1_0000) % 0x1_0000) as u16,
        }
    }

    /// The number of spaces that a comma of PRINT writes: up to the next column that is a multiple of 10.
    pub fn to_field(self) -> u32
        ensures { result ≡ to_field self.at }
    {
        (10 - u32::from(self.at) % 10) % 10
    }
}
