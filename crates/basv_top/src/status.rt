//! The statuses with which the program ends.
/// The status that the program ends with, by its number.
#[derive(Clone, Copy, Debug, PartialEq, Eq)]
pub enum Status {
    /// The command succeeded.
    Done = 0,
    /// The words are no command.
    Usage = 1,
    /// The file is no tokenised program.
    Malformed = 2,
    /// A line is outside the language.
    Outside = 3,
    /// A limit is passed.
    Limit = 4,
    /// A file could not be read.
    ReadFault = 5,
    /// A file or an output could not be written.
    WriteFault = 6,
    /// The file is no image.
    NotImage = 7,
    /// The program's run ended with an error.
    Failed = 8,
    /// The run's bound was reached.
    Bound = 9,
    /// Memory ran out.
    NoMemory = 10,
    /// An access or a called routine left what it may use.
    Stray = 11,
    /// The program asked for input after the end of its input.
    InputEnded = 12,
    /// The board could not go on.
    Broken = 13,
    /// A piece of the text is no line.
    BadText = 14,
}

impl Status {
    ghost use Rattle.std.specs.Prelude.{◌≡◌};
    ghost use Rattle.basv_top.specs.Ending.{status_number};

    /// The number of the status, as a process ends with it.
    pub fn code(self) -> u8
        ensures { result ≡ status_number self }
    {
        self as u8
    }
}
