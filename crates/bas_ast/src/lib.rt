//! The trees of a BASIC V program, and the terminals of its grammar. A tree has one variant for each alternative of the
//! grammar, with that alternative's parts in order; what can't be written, as a string stored in an integer, has no
//! tree.
#![tactic(auto)]

mod assembly;
mod expressions;
mod keywords;
mod lines;
mod program;
mod statements;
mod targets;
mod terminals;

pub use assembly::{
    Address, ArithmeticOp, AsmStmt, BlockMode, Condition, DataSize, Instruction, MoveOp, Offset,
    Operand, Register, RegisterRange, ShiftOp, TestOp, TransferOp,
};
pub use expressions::{
    Any, BinaryOp, Comparison, NumExpr, NumberFormat, Side, StrExpr, TextFunction, UnaryOp,
    Variable, Width,
};
pub use keywords::Keyword;
pub use lines::{Formal, Head, Item, Jump};
pub use program::{DataItem, Name, NameKind, Prog, ProgLine};
pub use statements::{
    Assignment, Call, DimPart, ErrorStmt, Flow, InputPart, Output, PrintPart, Stmt, VduPart,
};
pub use targets::{NumTarget, SimpleVariable, StrTarget, Target};
pub use terminals::Terminal;
