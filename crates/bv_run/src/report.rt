//! The ways in which a run ends. This project's own.

/// Why the processor could not execute an instruction. Where a report hands a kind over in a register, the kinds are
/// numbered 1 to 5 in this order.
#[derive(Clone, Copy, Debug, PartialEq, Eq)]
pub enum Trap {
    /// An access to memory at an address that is not allowed.
    Data,
    /// An instruction at an address that is not allowed.
    Fetch,
    /// A word that is no instruction of the ARM2.
    Undefined,
    /// A word that this project traps, since the ARM2's manual gives it no one effect.
    Unpredictable,
    /// A software interrupt whose number the board does not have in the mode in which it comes, or that would end the
    /// run with a report that is none.
    Swi,
}

/// How a BASIC program's run ended.
#[derive(Clone, Copy, Debug, PartialEq, Eq)]
pub enum Report {
    /// The program came to its end.
    Done,
    /// An error that no handler took, with the number of the line where it arose.
    Failed { error: i32, line: u16 },
    /// An access or a called routine left what it may use, or could not go on. `address` is in bytes.
    Stray { kind: Trap, address: u32, line: u16 },
    /// The program asked for input after the end of its input.
    InputEnded { line: u16 },
}

/// How a run under a bound ended.
#[derive(Clone, Copy, Debug, PartialEq, Eq)]
pub enum RunEnd {
    /// The program's run is over.
    Over(Report),
    /// The bound was reached, and the run can go on.
    Going,
    /// The machine itself could not go on. `address` is in bytes.
    Broken { kind: Trap, address: u32 },
}
