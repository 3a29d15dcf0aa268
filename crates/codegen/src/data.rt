//! The pieces of operations on items of DATA.
ghost use Rattle.std.specs.Prelude.{◌≡◌, ◌<◌, length, OnOk};
ghost use Rattle.bas_ir.specs.declared.op.Op.TheVariants as o;
ghost use Rattle.codegen.specs.Emission.{with_code, code_of};
ghost use Rattle.codegen.specs.Operations.{raise_label, restore};

use crate::instructions::{emit_transfer, push, single};
use crate::labels::{ITEM_NUMBER, NEXT_ITEM};
use crate::loads::{emit_load, emit_operate};
use crate::registers::{self, BASE, NUMBERS};
use arm_isa::Instr;
use arm_isa::numbers::AL;
use bv_base::NoMemory;
use code_frag::{Frag, Item};

/// Adds the pushing of the number of the next item. The only error is want of memory.
pub fn emit_read_number(frag: &mut Frag, line: u16) -> Result<(), NoMemory>
    requires { raise_label < length frag.old.places }
    ensures { OnOk result (frag.new ≡ with_code (code_of (o.ReadNumber line)) frag.old) }
{
    frag.emit_all(&[push!(0, NUMBERS)])?;
    emit_operate(frag, NEXT_ITEM, line)?;
    emit_operate(frag, ITEM_NUMBER, line)
}

/// Adds the code by which the item at an address is the next one. The only error is want of memory.
pub fn emit_restore(frag: &mut Frag, address: u32) -> Result<(), NoMemory>
    ensures { OnOk result (frag.new ≡ with_code (restore address) frag.old) }
{
    emit_load(frag, 2, address)?;
    emit_transfer(frag, false, 2, BASE, registers::NEXT_ITEM)
}
