//! The code of CASE, which has the values of its WHENs, and so is made from the lines after it.
ghost use Rattle.std.specs.Prelude.{◌≡◌, ◌+◌, ◌<◌, ◌∷◌, ◌++◌, List, Some, length, drop, IfOk, OnOk};
ghost use Rattle.bas_sem.specs.Places.{Row, rows, branches_of, after_end};
ghost use Rattle.bas_sem.specs.Places as spec_places;
ghost use Rattle.bas_ast.specs.Structures.{OpensCase, case_family, bound};
ghost use Rattle.ir_build.specs.Branches.{branches_left};
ghost use Rattle.ir_build.specs.Code as spec;
ghost use Rattle.ir_build.specs.Tables.{rows_of, rows_among};

use crate::expressions::push_expr;
use crate::numbers::plus;
use crate::ops::put;
use bas_ast::{Any, Head, Item, Prog, ProgLine};
use bas_ir::Op;
use bv_base::NoMemory;
use sqlite_items::Items;

/// Adds the code of the values of a WHEN, which has this place after it.
fn push_values(
    prog: &Prog,
    line: u16,
    after: u32,
    values: &[Any],
    ops: &mut Items<Op>,
) -> Result<(), NoMemory>
    ensures { OnOk result (ops.new ≡ ops.old ++ spec.values_code prog.now line after values.now) }
{
    for i in 0..values.len() {
        match &values[i] {
            Any::Number(x) => {
                push_expr(prog, line, x, ops)?;
                put(ops, Op::GoIfEqual(after))?;
            }
            Any::Text(_) => return put(ops, Op::End),
        }
    }
    Ok(())
}

/// Adds the values of an item at a place, if it is a WHEN of a CASE before it, within which no other is open. Answers how many
/// are open after it, or nothing where it ends the search.
fn scan_own(
    prog: &Prog,
    line: u16,
    place: u32,
    item: &Item,
    ops: &mut Items<Op>,
) -> Result<Option<u32>, NoMemory>
    ensures { IfOk result (λ left. (rest : List Row) → ops.new ++ branches_left prog.now left rest (place + 1)
        ≡ ops.old ++ branches_left prog.now (Some 0) (record { line = line; item = item.now } ∷ rest) place) }
{
    match item {
        Item::Head(Head::When(values)) => {
            push_values(prog, line, plus(place, 1)?, values.as_slice(), ops)?;
            Ok(Some(0))
        }
        Item::Head(Head::Otherwise) => Ok(None),
        Item::Head(Head::EndCase) => Ok(None),
        Item::Case(_) => Ok(Some(1)),
        _ => Ok(Some(0)),
    }
}

/// How many CASEs are open after an item, by how many are before it.
fn depth_after(item: &Item, depth: u32) -> Result<u32, NoMemory>
    requires { 0 < depth }
    ensures { IfOk result (λ after. after ≡ spec_places.depth_after case_family (bound item.now) depth) }
{
    match item {
        Item::Case(_) => plus(depth, 1),
        Item::Head(Head::EndCase) => Ok(depth - 1),
        _ => Ok(depth),
    }
}

/// Adds the values of an item at a place, if it is a WHEN of a CASE before it, within which this number of others are open.
/// Answers how many are open after it, or nothing where it ends the search.
fn scan_item(
    prog: &Prog,
    line: u16,
    place: u32,
    item: &Item,
    depth: u32,
    ops: &mut Items<Op>,
) -> Result<Option<u32>, NoMemory>
    ensures { IfOk result (λ left. (rest : List Row) → ops.new ++ branches_left prog.now left rest (place + 1)
        ≡ ops.old ++ branches_left prog.now (Some depth) (record { line = line; item = item.now } ∷ rest) place) }
{
    if depth == 0 {
        return scan_own(prog, line, place, item, ops);
    }
    let after = depth_after(item, depth)?;
    Ok(Some(after))
}

/// The same for the items of a line, of which the first is at a place.
fn scan_items(
    prog: &Prog,
    line: u16,
    first: u32,
    items: &[Item],
    depth: u32,
    ops: &mut Items<Op>,
) -> Result<Option<u32>, NoMemory>
    ensures { IfOk result (λ left. (rest : List Row) → ops.new ++ branches_left prog.now left rest (first + length items.now)
        ≡ ops.old ++ branches_left prog.now (Some depth) (rows_of line items.now ++ rest) first) }
{
    let mut left = depth;
    for i in 0..items.len() {
        match scan_item(prog, line, plus(first, i)?, &items[i], left, ops)? {
            Some(after) => left = after,
            None => return Ok(None),
        }
    }
    Ok(Some(left))
}

/// The same for the items of lines, of which the first is at a place, after which nothing is left.
fn scan_lines(
    prog: &Prog,
    first: u32,
    lines: &[ProgLine],
    depth: u32,
    ops: &mut Items<Op>,
) -> Result<(), NoMemory>
    ensures { OnOk result (ops.new ≡ ops.old ++ branches_left prog.now (Some depth) (rows_among lines.now) first) }
{
    let mut left = depth;
    let mut place = first;
    for i in 0..lines.len() {
        let line = &lines[i];
        let items = line.items.as_slice();
        match scan_items(prog, line.number, place, items, left, ops)? {
            Some(after) => left = after,
            None => return Ok(()),
        }
        place = plus(place, items.len())?;
    }
    Ok(())
}

/// Adds the code of the WHENs of a CASE at a place, after which these items stand on its line and then these lines.
fn push_branches(
    prog: &Prog,
    place: u32,
    line: u16,
    rest: &[Item],
    later: &[ProgLine],
    ops: &mut Items<Op>,
) -> Result<(), NoMemory>
    requires { drop (place + 1) (rows prog.now) ≡ rows_of line rest.now ++ rows_among later.now }
    ensures { OnOk result (ops.new ≡ ops.old ++ spec.branches_code prog.now (branches_of prog.now place)) }
{
    let next = plus(place, 1)?;
    match scan_items(prog, line, next, rest, 0, ops)? {
        Some(depth) => scan_lines(prog, plus(next, rest.len())?, later, depth, ops),
        None => Ok(()),
    }
}

/// Adds the code of CASE at a place, after which these items stand on its line and then these lines. The end is the place after
/// its OTHERWISE or ENDCASE.
pub fn push_case(
    prog: &Prog,
    place: u32,
    line: u16,
    value: &Any,
    rest: &[Item],
    later: &[ProgLine],
    end: u32,
    ops: &mut Items<Op>,
) -> Result<(), NoMemory>
    requires later { drop (place + 1) (rows prog.now) ≡ rows_of line rest.now ++ rows_among later.now }
    requires end { end ≡ after_end prog.now OpensCase place }
    ensures { OnOk result (ops.new ≡ ops.old ++ spec.case_code prog.now place line value.now) }
{
    match value {
        Any::Number(x) => {
            push_expr(prog, line, x, ops)?;
            push_branches(prog, place, line, rest, later, ops)?;
            put(ops, Op::Discard)?;
            put(ops, Op::Go(end))
        }
        Any::Text(_) => put(ops, Op::End),
    }
}
