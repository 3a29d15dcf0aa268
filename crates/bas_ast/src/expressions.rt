//! Expressions. Those of numbers and those of strings are separate types, which lead to each other.
//!
//! A name, and a string's text, is a number: in the tree of a line that was parsed by itself it is the place of the
//! symbol in the line, and in a program the place in its table of names, or of texts.

use sqlite_items::{Boxed, Items};

/// A comparison, of two numbers or of two strings. It gives -1 where it holds, and else 0.
#[derive(Debug, Clone, Copy, PartialEq, Eq, Drop)]
pub enum Comparison {
    Equal,
    NotEqual,
    Less,
    Greater,
    LessOrEqual,
    GreaterOrEqual,
}

/// An operator between two numbers. `Add` also joins two strings, and `Compare` compares them.
#[derive(Debug, Clone, Copy, PartialEq, Eq, Drop)]
pub enum BinaryOp {
    Or,
    Eor,
    And,
    Compare(Comparison),
    /// `<<`
    ShiftLeft,
    /// `>>`, which keeps the sign.
    ShiftRightSigned,
    /// `>>>`
    ShiftRight,
    Add,
    Subtract,
    Multiply,
    /// DIV
    Divide,
    /// MOD
    Remainder,
}

/// A word or sign before one number.
#[derive(Debug, Clone, Copy, PartialEq, Eq, Drop)]
pub enum UnaryOp {
    Plus,
    Minus,
    Not,
    Abs,
    Sgn,
    Int,
}

/// A number made of a string.
#[derive(Debug, Clone, Copy, PartialEq, Eq, Drop)]
pub enum TextFunction {
    Asc,
    Len,
    Val,
}

/// Which end of a string LEFT$( or RIGHT$( takes.
#[derive(Debug, Clone, Copy, PartialEq, Eq, Drop)]
pub enum Side {
    Left,
    Right,
}

/// What an indirection reaches: one byte by `?`, or four by `!`.
#[derive(Debug, Clone, Copy, PartialEq, Eq, Drop)]
pub enum Width {
    Byte,
    Word,
}

/// How a number is written: in decimal, or after `~` in hexadecimal.
#[derive(Debug, Clone, Copy, PartialEq, Eq, Drop)]
pub enum NumberFormat {
    Decimal,
    Hexadecimal,
}

/// A variable of the kind that its place in the tree says.
#[cycle(expression)]
#[derive(Drop)]
pub enum Variable {
    Simple(u16),
    /// An array's element, with its subscripts, of which there is at least one.
    Element(u16, Items<NumExpr>),
}

/// An expression whose value is a number.
#[cycle(expression)]
#[derive(Drop)]
pub enum NumExpr {
    Number(i32),
    True,
    False,
    Err,
    Erl,
    Count,
    Get,
    /// A label of the assembler, which is a variable without suffix.
    Label(u16),
    Variable(Variable),
    /// `?x` or `!x`.
    Indirect(Width, Boxed<NumExpr>),
    /// `v?x` or `v!x`, at the sum of the two.
    IndirectSum(Width, Variable, Boxed<NumExpr>),
    Bracket(Boxed<NumExpr>),
    Unary(UnaryOp, Boxed<NumExpr>),
    Binary(BinaryOp, Boxed<NumExpr>, Boxed<NumExpr>),
    CompareText(Comparison, Boxed<StrExpr>, Boxed<StrExpr>),
    OfText(TextFunction, Boxed<StrExpr>),
    /// The place of the second string in the first, from the number on, or from the first byte.
    Instr(Boxed<StrExpr>, Boxed<StrExpr>, Option<Boxed<NumExpr>>),
    Usr(Boxed<NumExpr>),
    /// A call of FN, with its arguments.
    Function(u16, Items<Any>),
}

/// An expression whose value is a string.
#[cycle(expression)]
#[derive(Drop)]
pub enum StrExpr {
    Literal(u32),
    Variable(Variable),
    Bracket(Boxed<StrExpr>),
    /// `$x`
    Indirect(Boxed<NumExpr>),
    /// Two strings joined by `+`.
    Join(Boxed<StrExpr>, Boxed<StrExpr>),
    /// CHR$
    Character(Boxed<NumExpr>),
    /// STR$
    Written(NumberFormat, Boxed<NumExpr>),
    /// GET$
    Get,
    /// LEFT$( or RIGHT$(
    Part(Side, Boxed<StrExpr>, Option<Boxed<NumExpr>>),
    /// MID$(
    Middle(Boxed<StrExpr>, Boxed<NumExpr>, Option<Boxed<NumExpr>>),
    /// STRING$(
    Copies(Boxed<NumExpr>, Boxed<StrExpr>),
    /// A call of FN with a name that ends in `$`, with its arguments.
    Function(u16, Items<Any>),
}

/// An expression of either kind.
#[cycle(expression)]
#[derive(Drop)]
pub enum Any {
    Number(NumExpr),
    Text(StrExpr),
}
