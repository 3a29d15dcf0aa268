//! The items of a line.

use crate::assembly::AsmStmt;
use crate::expressions::{Any, NumExpr};
use crate::statements::Stmt;
use crate::targets::SimpleVariable;
use sqlite_items::Items;

/// An item of a line: what the run executes as one.
#[derive(Drop)]
pub enum Item {
    /// What only the start of a line has.
    Head(Head),
    Stmt(Stmt),
    /// IF, with or without THEN, whose items are the rest of the line.
    If(NumExpr),
    /// IF with THEN as the line's last symbol.
    BlockIf(NumExpr),
    /// ELSE within a line.
    Else,
    /// ON, with the lines that the number chooses from.
    On(NumExpr, Jump, Items<u16>),
    /// CASE .. OF
    Case(Any),
    Repeat,
    /// ON ERROR, whose items are the rest of the line.
    OnError,
    /// ON ERROR LOCAL, whose items are the rest of the line.
    OnErrorLocal,
    /// DATA. Its number is that of its tail's symbol in a line that was parsed by itself, and in a program the place of
    /// its first item among the program's.
    Data(u32),
    /// REM
    Remark,
    /// `[`
    BeginAssembly,
    Assembly(AsmStmt),
    /// `]`
    EndAssembly,
}

/// What begins a line and is found nowhere else.
#[derive(Drop)]
pub enum Head {
    DefProcedure(u16, Items<Formal>),
    DefFunction(u16, Items<Formal>),
    /// WHEN, with its values.
    When(Items<Any>),
    Otherwise,
    /// ELSE of a block IF.
    BlockElse,
    EndIf,
    EndCase,
}

/// A formal parameter.
#[derive(Debug, Clone, Copy, PartialEq, Eq, Drop)]
pub struct Formal {
    /// Whether its value goes back to the argument at the end of the call.
    pub returns: bool,
    pub variable: SimpleVariable,
}

/// Where ON leads.
#[derive(Debug, Clone, Copy, PartialEq, Eq, Drop)]
pub enum Jump {
    Goto,
    Gosub,
}
