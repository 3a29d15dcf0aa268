//! The laws of the machine of flat code, for every flat code.
ghost use Rattle.bas_ir.specs.Coded.{HasWidths, AllHaveWidths};
ghost use Rattle.bas_ir.specs.Machine.{flat_step, IsHandled};
ghost use Rattle.bas_ir.specs.Places.{Place};
ghost use Rattle.bas_sem.specs.State.{State};

use crate::ir::Ir;
use crate::op::Op;

/// A step of the machine hands out no error: it goes on at the error's handler, or the run is over.
pub fn errors_handled(ir: &Ir)
    ensures { (place : Place) (s : State) → IsHandled (flat_step ir.now place s) }
{}

/// The numbers of an operation have the widths of their fields.
fn has_widths(op: Op)
    ensures { HasWidths op }
{}

/// The numbers of each operation have the widths of their fields. It goes over the operations, and does nothing else.
pub fn all_have_widths(ir: &Ir)
    ensures { AllHaveWidths ir.now }
{
    let ops = ir.ops.as_slice();
    for i in 0..ops.len() {
        has_widths(ops[i]);
    }
}
