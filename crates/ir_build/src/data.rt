//! The code of READ and RESTORE.
ghost use Rattle.std.specs.Prelude.{◌≡◌, ◌++◌, IfOk, OnOk};
ghost use Rattle.bas_sem.specs.Data as spec_data;
ghost use Rattle.ir_build.specs.Code as spec;

use crate::expressions::store_op;
use crate::numbers::plus;
use crate::ops::put;
use crate::places::{NO_SUCH_LINE, line_of_number};
use bas_ast::{DataItem, NumTarget, Prog, Target, Variable};
use bas_ir::Op;
use bv_base::NoMemory;
use sqlite_items::Items;

/// Adds the code of READ.
pub fn push_reads(
    prog: &Prog,
    line: u16,
    targets: &[Target],
    ops: &mut Items<Op>,
) -> Result<(), NoMemory>
    ensures { OnOk result (ops.new ≡ ops.old ++ spec.reads_code prog.now line targets.now) }
{
    for i in 0..targets.len() {
        match &targets[i] {
            Target::Number(NumTarget::Variable(Variable::Simple(name))) => {
                put(ops, Op::ReadNumber { line })?;
                put(ops, store_op(prog, *name))?;
            }
            _ => return put(ops, Op::End),
        }
    }
    Ok(())
}

/// The number of items of DATA in lines before the one at a place among the lines.
fn items_before(items: &[DataItem], line: u32) -> Result<u32, NoMemory>
    ensures { IfOk result (λ count. count ≡ spec_data.items_before items.now line) }
{
    for i in 0..items.len() {
        if items[i].line >= line {
            return plus(0, i);
        }
    }
    plus(0, items.len())
}

/// The operation of RESTORE.
pub fn restore_op(prog: &Prog, line: u16, to: Option<u16>) -> Result<Op, NoMemory>
    ensures { IfOk result (λ op. op ≡ spec.restore_op (spec_data.restored prog.now to) line) }
{
    let number = match to {
        Some(number) => number,
        None => return Ok(Op::Restore(0)),
    };
    match line_of_number(prog, number)? {
        Some(at) => {
            let item = items_before(prog.data_items.as_slice(), at)?;
            Ok(Op::Restore(item))
        }
        None => Ok(Op::Raise {
            error: NO_SUCH_LINE,
            line,
        }),
    }
}
