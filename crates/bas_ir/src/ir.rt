//! The flat code of a program, with its tables.

use crate::op::Op;
use bas_ast::{Name, SimpleVariable};
use bas_value::Str;
use sqlite_items::Items;

/// The flat code of a program.
#[derive(Drop)]
pub struct Ir {
    /// The operations of all items, in the order of the file.
    pub ops: Items<Op>,
    /// For each operation, whether it is the first of its item.
    pub marks: Items<bool>,
    /// For each item, the place of its first operation.
    pub starts: Items<u32>,
    /// The number of pending numbers and strings before each operation, of the call that it is in.
    pub heights: Items<Height>,
    /// The bodies of procedures and functions.
    pub routines: Items<Routine>,
    /// The string literals.
    pub texts: Items<Str>,
    pub names: Items<Name>,
    /// The texts of the items of DATA.
    pub data_items: Items<Str>,
    /// For each line, its number and the place of its first operation.
    pub line_starts: Items<LineStart>,
    /// A bound of the program's weight, in units of which each stands for at most 96 bytes of machine code.
    pub size: u32,
}

/// The body of a procedure or function.
#[derive(Drop)]
pub struct Routine {
    /// Its first item.
    pub at: u32,
    pub formals: Items<SimpleVariable>,
}

/// A number of pending numbers, and one of pending strings.
#[derive(Debug, Clone, Copy, PartialEq, Eq, Drop)]
pub struct Height {
    pub numbers: u32,
    pub texts: u32,
}

/// Where a line begins.
#[derive(Debug, Clone, Copy, PartialEq, Eq, Drop)]
pub struct LineStart {
    pub number: u16,
    /// The place of its first operation, or of the one that follows where it has none.
    pub op: u32,
}
