//! The terminals of the grammar.

use crate::expressions::{BinaryOp, Width};
use crate::keywords::Keyword;

/// A terminal of the grammar: a symbol of a line, as what the grammar takes it. A name has its number, and a string
/// that of its text.
#[derive(Debug, Clone, Copy, PartialEq, Eq, Drop)]
pub enum Terminal {
    Number(i32),
    /// A string between quotation marks.
    Literal(u32),
    /// A name that ends in `%`.
    IntName(u16),
    /// A name that ends in `$`.
    StrName(u16),
    /// A name that ends in `%(`.
    IntArray(u16),
    /// A name that ends in `$(`.
    StrArray(u16),
    /// A name without suffix that is a label of the file.
    Label(u16),
    /// FN with a name that doesn't end in `$`.
    NumFunction(u16),
    /// The same with the bracket.
    NumFunctionOpen(u16),
    /// FN with a name that ends in `$`.
    StrFunction(u16),
    /// The same with the bracket.
    StrFunctionOpen(u16),
    /// PROC with a name.
    Procedure(u16),
    /// The same with the bracket.
    ProcedureOpen(u16),
    /// A reference to the line of this number.
    LineRef(u16),
    /// The bytes after REM or DATA.
    Tail(u32),
    /// An operator between two operands. `=` is also that of assignments, and `+` and `-` may come before one operand.
    Operator(BinaryOp),
    /// `?` or `!`.
    Indirection(Width),
    Dollar,
    PlusEquals,
    MinusEquals,
    Open,
    Close,
    Comma,
    Semicolon,
    Colon,
    Apostrophe,
    Tilde,
    OpenSquare,
    CloseSquare,
    Keyword(Keyword),
    /// A symbol that no production has.
    Other,
}
