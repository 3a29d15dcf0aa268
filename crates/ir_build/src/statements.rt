//! The code of statements and items. A statement of a new kind gets a function here, and an arm in `push_statement`.
ghost use Rattle.std.specs.Prelude.{◌≡◌, ◌+◌, [], ◌∷◌, ◌++◌, drop, IfOk, OnOk};
ghost use Rattle.bas_ast.specs.declared.lines.Item.TheVariants as items;
ghost use Rattle.bas_ast.specs.Structures.{bound};
ghost use Rattle.bas_ir.specs.declared.op.Op.TheVariants as operations;
ghost use Rattle.bas_sem.specs.Places.{Row, rows, rest_of_line, after_end};
ghost use Rattle.bas_store.specs.Cells.{integer_cell};
ghost use Rattle.ir_build.specs.Code as spec;
ghost use Rattle.ir_build.specs.Tables.{rows_of, rows_among};

use crate::cases::push_case;
use crate::data::{push_reads, restore_op};
use crate::expressions::{push_expr, read_op, store_op};
use crate::flow::{push_flow, push_on};
use crate::fused::fused;
use crate::numbers::plus;
use crate::ops::put;
use crate::output::push_output;
use crate::places::after_else;
use bas_ast::{
    Assignment, BinaryOp, Head, Item, NumExpr, NumTarget, Prog, ProgLine, Stmt, Variable,
};
use bas_ir::Op;
use bv_base::NoMemory;
use sqlite_items::Items;
use std::alloc::Global;

/// Adds the code of LET of an integer.
fn push_let(
    prog: &Prog,
    line: u16,
    name: u16,
    x: &NumExpr,
    ops: &mut Items<Op>,
) -> Result<(), NoMemory>
    ensures { OnOk result (ops.new ≡ ops.old ++ (spec.expr_code prog.now line x.now ++ spec.store_op (integer_cell prog.now.names name) ∷ [])) }
{
    push_expr(prog, line, x, ops)?;
    put(ops, store_op(prog, name))
}

/// Adds the code of `+=` or `-=` of an integer.
fn push_change(
    prog: &Prog,
    line: u16,
    name: u16,
    op: BinaryOp,
    x: &NumExpr,
    ops: &mut Items<Op>,
) -> Result<(), NoMemory>
    ensures { OnOk result (ops.new ≡ ops.old ++ spec.read_op line (integer_cell prog.now.names name)
        ∷ (spec.expr_code prog.now line x.now ++ operations.Binary op line ∷ spec.store_op (integer_cell prog.now.names name) ∷ [])) }
{
    put(ops, read_op(prog, line, name))?;
    push_expr(prog, line, x, ops)?;
    put(ops, Op::Binary { op, line })?;
    put(ops, store_op(prog, name))
}

/// Adds the code of a statement that stores values.
fn push_assignment(
    prog: &Prog,
    line: u16,
    assignment: &Assignment,
    ops: &mut Items<Op>,
) -> Result<(), NoMemory>
    ensures { OnOk result (ops.new ≡ ops.old ++ spec.assignment_code prog.now line assignment.now) }
{
    match assignment {
        Assignment::Number(NumTarget::Variable(Variable::Simple(name)), x) => {
            push_let(prog, line, *name, x, ops)
        }
        Assignment::Add(NumTarget::Variable(Variable::Simple(name)), x) => {
            push_change(prog, line, *name, BinaryOp::Add, x, ops)
        }
        Assignment::Subtract(NumTarget::Variable(Variable::Simple(name)), x) => {
            push_change(prog, line, *name, BinaryOp::Subtract, x, ops)
        }
        _ => put(ops, Op::End),
    }
}

/// Adds the code of a plain statement at a place. The end is the place after what its structure leads to.
fn push_statement(
    prog: &Prog,
    place: u32,
    line: u16,
    statement: &Stmt,
    end: u32,
    ops: &mut Items<Op>,
) -> Result<(), NoMemory>
    requires { end ≡ after_end prog.now (bound (items.Stmt statement.now)) place }
    ensures { OnOk result (ops.new ≡ ops.old ++ spec.statement_code prog.now place line statement.now) }
{
    match statement {
        Stmt::Assign(assignment) => push_assignment(prog, line, assignment, ops),
        Stmt::Flow(flow) => push_flow(prog, place, line, flow, end, ops),
        Stmt::Output(output) => push_output(prog, line, output, ops),
        Stmt::Read(targets) => push_reads(prog, line, targets.as_slice(), ops),
        Stmt::Restore(to) => put(ops, restore_op(prog, line, *to)?),
        _ => put(ops, Op::End),
    }
}

/// Adds the code of what begins a line. The end is the place after what its structure leads to.
fn push_head(
    prog: &Prog,
    place: u32,
    head: &Head,
    end: u32,
    ops: &mut Items<Op>,
) -> Result<(), NoMemory>
    requires { end ≡ after_end prog.now (bound (items.Head head.now)) place }
    ensures { OnOk result (ops.new ≡ ops.old ++ spec.head_code prog.now place head.now) }
{
    match head {
        Head::BlockElse | Head::When(_) | Head::Otherwise => put(ops, Op::Go(end)),
        Head::EndIf | Head::EndCase => Ok(()),
        _ => put(ops, Op::End),
    }
}

/// Adds the code of an item at a place, after which these stand on its line and then these lines. The end is the place after what
/// its structure leads to.
fn push_item(
    prog: &Prog,
    place: u32,
    line: u16,
    item: &Item,
    rest: &[Item],
    later: &[ProgLine],
    end: u32,
    ops: &mut Items<Op>,
) -> Result<(), NoMemory>
    requires rest { rest.now ≡ rest_of_line prog.now place }
    requires later { drop (place + 1) (rows prog.now) ≡ rows_of line rest.now ++ rows_among later.now }
    requires end { end ≡ after_end prog.now (bound item.now) place }
    ensures { OnOk result (ops.new ≡ ops.old ++ spec.item_code prog.now place line item.now) }
{
    match item {
        Item::Head(head) => push_head(prog, place, head, end, ops),
        Item::Stmt(statement) => push_statement(prog, place, line, statement, end, ops),
        Item::If(x) => {
            let otherwise = after_else(rest, plus(place, 1)?)?;
            push_expr(prog, line, x, ops)?;
            put(ops, Op::GoIfZero(otherwise))
        }
        Item::BlockIf(x) => {
            push_expr(prog, line, x, ops)?;
            put(ops, Op::GoIfZero(end))
        }
        Item::On(x, jump, numbers) => {
            push_on(prog, place, line, x, *jump, numbers.as_slice(), rest, ops)
        }
        Item::Case(value) => push_case(prog, place, line, value, rest, later, end, ops),
        Item::Repeat => put(ops, Op::OpenRepeat { line }),
        Item::Else => {
            let next_line = plus(plus(place, 1)?, rest.len())?;
            put(ops, Op::Go(next_line))
        }
        Item::Data(_) | Item::Remark => Ok(()),
        _ => put(ops, Op::End),
    }
}

/// The code of an item at a place, after which these stand on its line and then these lines. The end is the place after what its
/// structure leads to.
pub fn row_code(
    alloc: Global,
    prog: &Prog,
    place: u32,
    line: u16,
    item: &Item,
    rest: &[Item],
    later: &[ProgLine],
    end: u32,
) -> Result<Items<Op>, NoMemory>
    requires rest { rest.now ≡ rest_of_line prog.now place }
    requires later { drop (place + 1) (rows prog.now) ≡ rows_of line rest.now ++ rows_among later.now }
    requires end { end ≡ after_end prog.now (bound item.now) place }
    ensures { IfOk result (λ code. code ≡ spec.row_code prog.now place (record { line = line; item = item.now })) }
{
    let mut ops = Items::new(alloc);
    push_item(prog, place, line, item, rest, later, end, &mut ops)?;
    if ops.is_empty() {
        put(&mut ops, Op::Go(plus(place, 1)?))?;
    }
    fused(alloc, ops.as_slice())
}
