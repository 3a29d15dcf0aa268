//! The tables of the flat code, to which one item after the other is added.
ghost use Rattle.std.specs.Prelude.{◌≡◌, ◌+◌, ◌<◌, [], ◌∷◌, ◌++◌, ℕ, length, drop, OnOk};
ghost use Rattle.bas_sem.specs.Places.{rows, rest_of_line};
ghost use Rattle.ir_build.specs.Code as spec;
ghost use Rattle.ir_build.specs.Ends.{AreEndsOf};
ghost use Rattle.ir_build.specs.Tables.{no_tables, with_codes, line_rows, rows_among};

use crate::ends::Ends;
use crate::heights::push_heights;
use crate::numbers::plus;
use crate::statements::row_code;
use bas_ast::{Prog, ProgLine};
use bas_ir::{Height, Op};
use bv_base::NoMemory;
use sqlite_items::Items;
use std::alloc::Global;

/// The operations of items, and what stands beside them.
#[derive(Drop)]
pub struct Tables {
    pub ops: Items<Op>,
    /// For each operation, whether it is the first of its item.
    pub marks: Items<bool>,
    /// For each item, the place of its first operation.
    pub starts: Items<u32>,
    /// What is pending before each operation.
    pub heights: Items<Height>,
}

impl Tables {
    /// Those of no item.
    pub fn new(alloc: Global) -> Tables
        ensures { result ≡ no_tables }
    {
        Tables {
            ops: Items::new(alloc),
            marks: Items::new(alloc),
            starts: Items::new(alloc),
            heights: Items::new(alloc),
        }
    }
}

/// Adds the marks of the operations of an item.
fn push_marks(code: &[Op], marks: &mut Items<bool>) -> Result<(), NoMemory>
    ensures { OnOk result (marks.new ≡ marks.old ++ spec.marks_of code.now) }
{
    let mut is_first = true;
    for i in 0..code.len() {
        marks.push(is_first)?;
        is_first = false;
    }
    Ok(())
}

/// Adds an item with its code.
fn add_item(tables: &mut Tables, code: Items<Op>) -> Result<(), NoMemory>
    ensures { OnOk result (tables.new ≡ with_codes tables.old (code ∷ [])) }
{
    tables.starts.push(plus(0, tables.ops.len())?)?;
    push_marks(code.as_slice(), &mut tables.marks)?;
    push_heights(code.as_slice(), &mut tables.heights)?;
    tables.ops.append(code)?;
    Ok(())
}

/// Adds the items of a line, of which the first is at a place, and after which these lines stand, with the ends of the program's
/// structures.
pub fn add_line(
    alloc: Global,
    prog: &Prog,
    ends: &Ends,
    first: u32,
    line: &ProgLine,
    later: &[ProgLine],
    tables: &mut Tables,
) -> Result<(), NoMemory>
    requires ends { AreEndsOf ends.now prog.now }
    requires rests { (k : ℕ) → k < length line.now.items → rest_of_line prog.now (first + k) ≡ drop (k + 1) line.now.items }
    requires rows { drop first (rows prog.now) ≡ line_rows line.now ++ rows_among later.now }
    ensures { OnOk result (tables.new ≡ with_codes tables.old (spec.codes_from prog.now first (line_rows line.now))) }
{
    let items = line.items.as_slice();
    for i in 0..items.len() {
        let place = plus(first, i)?;
        let rest = &items[i + 1..];
        let end = ends.after_end(place);
        let code = row_code(alloc, prog, place, line.number, &items[i], rest, later, end)?;
        add_item(tables, code)?;
    }
    Ok(())
}
