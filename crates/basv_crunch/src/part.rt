//! What a part of a line's body is, and what is awaited after it.

/// Where a part of a body begins, by what comes before it.
#[derive(Clone, Copy, Debug, PartialEq, Eq)]
pub enum Place {
    /// Only spaces come before it.
    Start,
    /// None of the others.
    Code,
    /// Between quotation marks.
    Quotes,
    /// After REM or DATA, to the line's end.
    Tail,
    /// Directly after FN or PROC.
    Call,
    /// A reference to a line is awaited.
    Awaiting,
    /// After a reference to a line, and spaces.
    Referred,
}

/// The kinds of parts.
#[derive(Clone, Copy, Debug, PartialEq, Eq)]
pub enum Kind {
    /// A byte between quotation marks, or in a tail.
    Kept(u8),
    /// The name after FN or PROC.
    Called,
    /// A reference to the line of this number.
    Reference(u16),
    /// A keyword with its token, or its pair as 256 times the first byte plus the second.
    Word(u16),
    /// A name, or a hexadecimal number.
    Row,
    /// Any other byte.
    Single(u8),
}

/// A part at the front of a text.
#[derive(Clone, Copy, Debug)]
pub struct Part {
    pub kind: Kind,
    /// The number of its bytes.
    pub size: usize,
}
