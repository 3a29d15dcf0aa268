//! The code of statements that say where the run goes on, and of ON. A new one gets an arm in `push_flow`.
ghost use Rattle.std.specs.Prelude.{◌≡◌, [], ◌∷◌, ◌++◌, IfOk, OnOk};
ghost use Rattle.bas_ast.specs.declared.lines.Item.TheVariants as items;
ghost use Rattle.bas_ast.specs.declared.statements.Stmt.TheVariants as statements;
ghost use Rattle.bas_ast.specs.Structures.{bound};
ghost use Rattle.bas_sem.specs.Places as places;
ghost use Rattle.bas_store.specs.Cells.{integer_cell};
ghost use Rattle.ir_build.specs.Code as spec;

use crate::expressions::{counter, push_expr, store_op};
use crate::numbers::plus;
use crate::ops::put;
use crate::places::{NO_SUCH_LINE, found_else, line_place};
use bas_ast::{Flow, Item, Jump, NumExpr, Prog};
use bas_ir::Op;
use bv_base::NoMemory;
use sqlite_items::Items;

/// The error of STOP.
const STOPPED: u8 = 0;

/// The error of a number of ON that has no line.
const ON_RANGE: u8 = 40;

/// The operation of a GOTO.
fn go_op(prog: &Prog, line: u16, number: u16) -> Result<Op, NoMemory>
    ensures { IfOk result (λ op. op ≡ spec.go_op (places.line_place prog.now number) line) }
{
    match line_place(prog, number)? {
        Some(place) => Ok(Op::Go(place)),
        None => Ok(Op::Raise {
            error: NO_SUCH_LINE,
            line,
        }),
    }
}

/// The operation of a GOSUB.
fn gosub_op(prog: &Prog, line: u16, number: u16) -> Result<Op, NoMemory>
    ensures { IfOk result (λ op. op ≡ spec.gosub_op (places.line_place prog.now number) line) }
{
    match line_place(prog, number)? {
        Some(item) => Ok(Op::Gosub { line, item }),
        None => Ok(Op::Raise {
            error: NO_SUCH_LINE,
            line,
        }),
    }
}

/// Adds the code of the step of a FOR.
fn push_step(
    prog: &Prog,
    line: u16,
    step: &Option<NumExpr>,
    ops: &mut Items<Op>,
) -> Result<(), NoMemory>
    ensures { OnOk result (ops.new ≡ ops.old ++ spec.step_code prog.now line step.now) }
{
    match step {
        Some(x) => push_expr(prog, line, x, ops),
        None => put(ops, Op::Push(1)),
    }
}

/// Adds the code of FOR.
fn push_for(
    prog: &Prog,
    line: u16,
    name: u16,
    start: &NumExpr,
    limit: &NumExpr,
    step: &Option<NumExpr>,
    ops: &mut Items<Op>,
) -> Result<(), NoMemory>
    ensures { OnOk result (ops.new ≡ ops.old ++ spec.for_code prog.now line (integer_cell prog.now.names name) start.now limit.now step.now) }
{
    push_expr(prog, line, start, ops)?;
    put(ops, store_op(prog, name))?;
    push_expr(prog, line, limit, ops)?;
    push_step(prog, line, step, ops)?;
    let counter = counter(prog, name);
    put(ops, Op::OpenFor { counter, line })
}

/// Adds the code of NEXT of each of these variables.
fn push_nexts(prog: &Prog, line: u16, names: &[u16], ops: &mut Items<Op>) -> Result<(), NoMemory>
    ensures { OnOk result (ops.new ≡ ops.old ++ spec.nexts_code prog.now line names.now) }
{
    for name in names {
        let counter = counter(prog, *name);
        put(ops, Op::Next { counter, line })?;
    }
    Ok(())
}

/// Adds the code of NEXT.
fn push_next(prog: &Prog, line: u16, names: &[u16], ops: &mut Items<Op>) -> Result<(), NoMemory>
    ensures { OnOk result (ops.new ≡ ops.old ++ spec.next_code prog.now line names.now) }
{
    match names {
        [] => put(ops, Op::NextAny { line }),
        _ => push_nexts(prog, line, names, ops),
    }
}

/// Adds the code of a statement that says where the run goes on. The end is the place
/// after the ENDWHILE of a WHILE.
pub fn push_flow(
    prog: &Prog,
    place: u32,
    line: u16,
    flow: &Flow,
    end: u32,
    ops: &mut Items<Op>,
) -> Result<(), NoMemory>
    requires { end ≡ places.after_end prog.now (bound (items.Stmt (statements.Flow flow.now))) place }
    ensures { OnOk result (ops.new ≡ ops.old ++ spec.flow_code prog.now place line flow.now) }
{
    match flow {
        Flow::Goto(number) => put(ops, go_op(prog, line, *number)?),
        Flow::Gosub(number) => put(ops, gosub_op(prog, line, *number)?),
        Flow::Return => put(ops, Op::Return { line }),
        Flow::For(name, start, limit, step) => {
            push_for(prog, line, *name, start, limit, step, ops)
        }
        Flow::Next(names) => push_next(prog, line, names.as_slice(), ops),
        Flow::Until(x) => {
            push_expr(prog, line, x, ops)?;
            put(ops, Op::Until { line })
        }
        Flow::While(x) => {
            push_expr(prog, line, x, ops)?;
            put(ops, Op::GoIfZero(end))?;
            put(ops, Op::OpenWhile { line })
        }
        Flow::EndWhile => put(ops, Op::EndWhile { line }),
        Flow::Stop => put(
            ops,
            Op::Raise {
                error: STOPPED,
                line,
            },
        ),
        Flow::End | Flow::Quit => put(ops, Op::End),
    }
}

/// The operation of a line of ON.
fn choice_op(prog: &Prog, line: u16, jump: Jump, number: u16) -> Result<Op, NoMemory>
    ensures { IfOk result (λ op. op ≡ spec.choice_op jump (places.line_place prog.now number) line) }
{
    match (line_place(prog, number)?, jump) {
        (Some(item), Jump::Goto) => Ok(Op::GoIfOne(item)),
        (Some(item), Jump::Gosub) => Ok(Op::GosubIfOne { line, item }),
        (None, _) => Ok(Op::RaiseIfOne {
            error: NO_SUCH_LINE,
            line,
        }),
    }
}

/// Adds the code of the lines of ON.
fn push_choices(
    prog: &Prog,
    line: u16,
    jump: Jump,
    numbers: &[u16],
    ops: &mut Items<Op>,
) -> Result<(), NoMemory>
    ensures { OnOk result (ops.new ≡ ops.old ++ spec.choices_code prog.now line jump numbers.now) }
{
    for number in numbers {
        put(ops, choice_op(prog, line, jump, *number)?)?;
    }
    Ok(())
}

/// The operation of ON whose number has no line.
fn otherwise_op(line: u16, otherwise: Option<u32>) -> Op
    ensures { result ≡ spec.otherwise_op otherwise line }
{
    match otherwise {
        Some(place) => Op::Go(place),
        None => Op::Raise {
            error: ON_RANGE,
            line,
        },
    }
}

/// Adds the code of ON at a place, after which these stand on its line.
pub fn push_on(
    prog: &Prog,
    place: u32,
    line: u16,
    x: &NumExpr,
    jump: Jump,
    numbers: &[u16],
    rest: &[Item],
    ops: &mut Items<Op>,
) -> Result<(), NoMemory>
    requires { rest.now ≡ places.rest_of_line prog.now place }
    ensures { OnOk result (ops.new ≡ ops.old ++ spec.on_code prog.now place line x.now jump numbers.now) }
{
    let otherwise = found_else(rest, plus(place, 1)?)?;
    push_expr(prog, line, x, ops)?;
    push_choices(prog, line, jump, numbers, ops)?;
    put(ops, Op::Discard)?;
    put(ops, otherwise_op(line, otherwise))
}
