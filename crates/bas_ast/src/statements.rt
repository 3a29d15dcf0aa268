//! Plain statements: those after which the next item needs a `:`, by what they are for.

use crate::expressions::{Any, NumExpr, NumberFormat, StrExpr};
use crate::targets::{NumTarget, SimpleVariable, StrTarget, Target};
use sqlite_items::Items;

/// A plain statement.
#[derive(Drop)]
pub enum Stmt {
    Assign(Assignment),
    Flow(Flow),
    Call(Call),
    Error(ErrorStmt),
    Output(Output),
    Dim(Items<DimPart>),
    /// Whether it is INPUT LINE, and its parts.
    Input(bool, Items<InputPart>),
    Read(Items<Target>),
    Restore(Option<u16>),
}

/// A statement that stores values.
#[derive(Drop)]
pub enum Assignment {
    Number(NumTarget, NumExpr),
    Text(StrTarget, StrExpr),
    /// `+=` of a number.
    Add(NumTarget, NumExpr),
    /// `+=` of a string.
    Append(StrTarget, StrExpr),
    /// `-=`
    Subtract(NumTarget, NumExpr),
    SwapNumbers(NumTarget, NumTarget),
    SwapTexts(StrTarget, StrTarget),
}

/// A statement that says where the run goes on.
#[derive(Drop)]
pub enum Flow {
    Goto(u16),
    Gosub(u16),
    Return,
    /// The variable, the start, the limit and the step.
    For(u16, NumExpr, NumExpr, Option<NumExpr>),
    /// The variables, of which there may be none.
    Next(Items<u16>),
    Until(NumExpr),
    While(NumExpr),
    EndWhile,
    End,
    Stop,
    Quit,
}

/// A statement about procedures, functions and machine code.
#[derive(Drop)]
pub enum Call {
    /// A call of PROC, with its arguments.
    Procedure(u16, Items<Any>),
    EndProcedure,
    /// `=` with a function's value.
    Result(Any),
    Local(Items<SimpleVariable>),
    /// CALL of machine code.
    Code(NumExpr),
}

/// A statement about errors and their handlers, other than ON ERROR with items.
#[derive(Drop)]
pub enum ErrorStmt {
    /// ERROR, with the number and the text.
    Raise(NumExpr, StrExpr),
    Report,
    OnErrorOff,
    LocalError,
    RestoreError,
}

/// A statement that writes output.
#[derive(Drop)]
pub enum Output {
    Print(Items<PrintPart>),
    Vdu(Items<VduPart>),
    Mode(NumExpr),
    Colour(NumExpr),
    Cls,
}

/// A part of PRINT.
#[derive(Drop)]
pub enum PrintPart {
    Comma,
    Semicolon,
    /// `'`
    NewLine,
    Number(NumberFormat, NumExpr),
    Text(StrExpr),
    /// SPC
    Spaces(NumExpr),
    Tab(NumExpr),
}

/// A number of VDU: one byte, or two where `;` follows it.
#[derive(Drop)]
pub enum VduPart {
    Byte(NumExpr),
    Word(NumExpr),
}

/// A part of INPUT.
#[derive(Drop)]
pub enum InputPart {
    Prompt(u32),
    /// A target at whose input `?` is written.
    Asked(Target),
    /// A target directly after a prompt, without a separator.
    Prompted(Target),
}

/// A part of DIM.
#[derive(Drop)]
pub enum DimPart {
    /// A variable that gets the address of a block of one byte more than this number.
    Bytes(u16, NumExpr),
    /// An array of numbers, with its bounds.
    Numbers(u16, Items<NumExpr>),
    /// An array of strings, with its bounds.
    Texts(u16, Items<NumExpr>),
}
