//! Operations one after another, with the labels of their items.
ghost use Rattle.std.specs.Prelude.{◌≡◌, ℕ, ◌+◌, ◌*◌, ◌<◌, ◌≤◌, ◌^◌, true, IfOk, OnOk, Some, length, slice_get};
ghost use Rattle.bas_ir.specs.declared.op.Op.{Op};
ghost use Rattle.bas_ir.specs.Places.{marks_in};
ghost use Rattle.bv_base.specs.MemoryMap.{image_start};
ghost use Rattle.code_frag.specs.Words.{IsOpen};
ghost use Rattle.codegen.specs.Emission.{LeadsInto};
ghost use Rattle.codegen.specs.Operations.{raise_label, item_label};
ghost use Rattle.codegen.specs.Program.{item_after, named_text};
ghost use Rattle.codegen.specs.Placing.{with_place_if, with_labels, with_branches, with_op, with_ops, AreOpen, addresses};

use crate::image_texts::address_of;
use crate::labels::item_label;
use crate::operations::emit_op;
use arm_isa::numbers::AL;
use bas_ir::{Ir, Op};
use bv_base::{IMAGE_START, NoMemory};
use code_frag::Frag;

/// The greatest number of operations whose items have labels.
const MOST_OPERATIONS: usize = 0xffff_0000;

/// Gives an item's label its place where an operation is the first of its item, and answers the item that begins next.
fn place_if(frag: &mut Frag, marked: bool, item: u32) -> u32
    requires open { marked ≡ true → IsOpen frag.old (item_label item) }
    requires small { item_label item < 2 ^ 32 }
    ensures placed { frag.new ≡ with_place_if marked item frag.old }
    ensures next { result ≡ item_after marked item }
    ensures labels { length frag.new.places ≡ length frag.old.places }
{
    if marked {
        frag.place(item_label(item));
        item + 1
    } else {
        item
    }
}

/// Adds a label where an operation is the first of its item. The only error is want of memory.
fn label_if(frag: &mut Frag, marked: bool) -> Result<(), NoMemory>
    requires { length frag.old.places + 1 < 2 ^ 32 }
    ensures { OnOk result (frag.new ≡ with_labels (item_after marked 0) frag.old) }
{
    if marked {
        frag.label()?;
    }
    Ok(())
}

/// Adds the labels of the raising of errors, of each item, and of the end. The only error is want of memory.
pub fn add_labels(frag: &mut Frag, marks: &[bool]) -> Result<(), NoMemory>
    requires { length frag.old.places ≡ raise_label }
    ensures ok { OnOk result (frag.new ≡ with_labels (marks_in marks.now + 2) frag.old) }
    ensures few { OnOk result (length frag.new.places < 2 ^ 32) }
{
    if marks.len() > MOST_OPERATIONS {
        return Err(NoMemory);
    }
    frag.label()?;
    for marked in marks {
        label_if(frag, *marked)?;
    }
    frag.label()?;
    Ok(())
}

/// The number of items of a fragment whose words have addresses.
const MOST_ITEMS: usize = 0x1000_0000;

/// The bytes of a word.
const WORD_BYTES: u32 = 4;

/// The address of the next item of an image's fragment. One past the end of `u32` is answered as want of memory.
fn next_address(frag: &Frag) -> Result<u32, NoMemory>
    ensures { IfOk result (λ address. address ≡ image_start + 4 * length frag.now.items) }
{
    let count = frag.item_count();
    if count > MOST_ITEMS {
        return Err(NoMemory);
    }
    Ok(IMAGE_START + WORD_BYTES * count as u32)
}

/// Adds a branch to each item and one to the end, and answers the address of the first one. The only error is want of memory.
pub fn emit_branches(frag: &mut Frag, items: u32) -> Result<u32, NoMemory>
    requires labels { length frag.old.places ≡ item_label items + 1 }
    requires few { length frag.old.places < 2 ^ 32 }
    ensures code { OnOk result (frag.new ≡ with_branches items frag.old) }
    ensures start { IfOk result (λ start. start ≡ image_start + 4 * length frag.old.items) }
{
    let start = next_address(frag)?;
    for item in 0..items + 1 {
        frag.branch(AL, false, item_label(item))?;
    }
    Ok(start)
}

/// The address of the branch to an item. One past the end of `u32` is answered as want of memory.
fn branch_address(branches: u32, item: u32) -> Result<u32, NoMemory>
    ensures { IfOk result (λ address. address ≡ branches + 4 * item) }
{
    let offset = item.checked_mul(WORD_BYTES).ok_or(NoMemory)?;
    branches.checked_add(offset).ok_or(NoMemory)
}

/// Adds the code of an operation, with the label of its item if it is the first of it, and answers the item that begins next. The
/// addresses are those of the text or item of DATA that it names and of the branches to items. The only error is want of memory.
fn emit_marked(
    frag: &mut Frag,
    op: Op,
    marked: bool,
    item: u32,
    text_address: u32,
    branches: u32,
) -> Result<u32, NoMemory>
    requires raise { raise_label < length frag.old.places }
    requires leads { LeadsInto (length frag.old.places) op }
    requires few { length frag.old.places ≤ 2 ^ 32 }
    requires label { item_label item < length frag.old.places }
    requires open { IsOpen frag.old (item_label item) }
    ensures code { OnOk result (frag.new ≡ with_op text_address branches op marked item frag.old) }
    ensures next { IfOk result (λ next. next ≡ item_after marked item) }
    ensures labels { OnOk result (length frag.new.places ≡ length frag.old.places) }
{
    let next = place_if(frag, marked, item);
    emit_op(frag, op, text_address, branch_address(branches, next)?)?;
    Ok(next)
}

/// Adds the code of all operations, by the table of the texts' addresses and the address of the branches to items, and answers the
/// number of items. The only error is want of memory.
pub fn emit_ops(frag: &mut Frag, ir: &Ir, table: &[u32], branches: u32) -> Result<u32, NoMemory>
    requires marks { length ir.now.marks ≡ length ir.now.ops }
    requires leads { (pc : ℕ) (op : Op) → slice_get ir.now.ops pc ≡ Some op → LeadsInto (length frag.old.places) op }
    requires open { AreOpen 0 frag.old }
    requires labels { length frag.old.places ≡ item_label (marks_in ir.now.marks) + 1 }
    requires few { length frag.old.places ≤ 2 ^ 32 }
    requires addresses { table.now ≡ addresses ir.now }
    ensures code { OnOk result (frag.new ≡ with_ops (named_text ir.now) branches ir.now.ops ir.now.marks 0 frag.old) }
    ensures items { IfOk result (λ items. items ≡ marks_in ir.now.marks) }
    ensures open { OnOk result (IsOpen frag.new (item_label (marks_in ir.now.marks))) }
{
    let ops = ir.ops.as_slice();
    let marks = ir.marks.as_slice();
    let mut item = 0;
    for pc in 0..ops.len() {
        let text_address = address_of(ir, ops[pc], table);
        item = emit_marked(frag, ops[pc], marks[pc], item, text_address, branches)?;
    }
    Ok(item)
}
