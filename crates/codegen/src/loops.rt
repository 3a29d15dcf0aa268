//! The pieces of operations on loops and GOSUBs, and of those that count down to a choice.
ghost use Rattle.std.specs.Prelude.{◌≡◌, ◌<◌, ◌≤◌, ◌^◌, length, OnOk};
ghost use Rattle.bas_ir.specs.declared.op.Op.TheVariants as o;
ghost use Rattle.code_frag.specs.Instructions.{num, mov};
ghost use Rattle.code_frag.specs.Language.{◌⨾◌};
ghost use Rattle.codegen.specs.Emission.{with_code, code_of, code_with};
ghost use Rattle.codegen.specs.Operations.{raise_label, item_label, variable_address, find_variable, open_entry, close_entry, turn};
ghost use Rattle.bas_store.specs.declared.cell.IntegerCell.TheVariants.{Named};

use crate::instructions::{cmp, data, emit_process, ldr, leave_to, mov, over, pull, single, store};
use crate::labels::{CLOSING_WORD, OPENING, TURNING, item_label};
use crate::loads::{emit_load, emit_operate, emit_raise};
use crate::registers::{BASE, CELL_BYTES, CELLS, NUMBERS, OPENED_COUNT, RESIDENTS};
use arm_isa::Instr;
use arm_isa::numbers::{ADD, AL, CMP, EQ, GT, MOV, NE, R15, SUB};
use bas_store::IntegerCell;
use bv_base::NoMemory;
use code_frag::{Frag, Item};

/// What R1 has for an entry that is no FOR: the numbers of REPEAT, WHILE and GOSUB.
pub const REPEAT: u16 = 1;

pub const WHILE: u16 = 2;

const GOSUB: u16 = 3;

/// The address of a name's integer.
fn name_address(name: u16) -> u32
    ensures { result ≡ variable_address (Named name) }
{
    RESIDENTS + CELLS + CELL_BYTES * name as u32
}

/// Adds the code by which R1 takes the address of a FOR's variable. The only error is want of memory.
fn emit_find_variable(frag: &mut Frag, counter: IntegerCell) -> Result<(), NoMemory>
    ensures { OnOk result (frag.new ≡ with_code (find_variable counter) frag.old) }
{
    match counter {
        IntegerCell::Resident(index) => emit_process(frag, AL, ADD, 1, BASE, 4 * index as u16),
        IntegerCell::Named(name) => emit_load(frag, 1, name_address(name)),
    }
}

// ---- opening

/// Adds the opening of an entry by what R1 has for it, with the address of the branch to the next item. The only error is want of
/// memory.
fn emit_open_entry(frag: &mut Frag, back: u32, line: u16) -> Result<(), NoMemory>
    requires { raise_label < length frag.old.places }
    ensures { OnOk result (frag.new ≡ with_code (open_entry back line) frag.old) }
{
    emit_load(frag, 2, back)?;
    emit_operate(frag, OPENING, line)
}

/// Adds the opening of an entry by its number. The only error is want of memory.
pub fn emit_open(frag: &mut Frag, kind: u16, back: u32, line: u16) -> Result<(), NoMemory>
    requires raise { raise_label < length frag.old.places }
    requires kind { kind < 2 ^ 8 }
    ensures { OnOk result (frag.new ≡ with_code (mov 1 (num kind) ⨾ open_entry back line) frag.old) }
{
    emit_process(frag, AL, MOV, 1, 0, kind)?;
    emit_open_entry(frag, back, line)
}

/// Adds the opening of a FOR. The only error is want of memory.
pub fn emit_open_for(
    frag: &mut Frag,
    counter: IntegerCell,
    back: u32,
    line: u16,
) -> Result<(), NoMemory>
    requires { raise_label < length frag.old.places }
    ensures { OnOk result (frag.new ≡ with_code (code_with 0 back (o.OpenFor counter line)) frag.old) }
{
    frag.emit_all(&[mov!(4, reg 0), pull!(3, NUMBERS), pull!(0, NUMBERS)])?;
    emit_find_variable(frag, counter)?;
    emit_open_entry(frag, back, line)
}

/// Adds the opening of a GOSUB, and the jump to its item. The only error is want of memory.
pub fn emit_gosub(frag: &mut Frag, item: u32, back: u32, line: u16) -> Result<(), NoMemory>
    requires raise { raise_label < length frag.old.places }
    requires label { item_label item < length frag.old.places }
    requires few { length frag.old.places ≤ 2 ^ 32 }
    ensures { OnOk result (frag.new ≡ with_code (code_with 0 back (o.Gosub line item)) frag.old) }
{
    emit_open(frag, GOSUB, back, line)?;
    frag.branch(AL, false, item_label(item))
}

// ---- closing

/// Adds the closing of the nearest entry by its number. The only error is want of memory.
fn emit_close(frag: &mut Frag, kind: u16, line: u16) -> Result<(), NoMemory>
    requires raise { raise_label < length frag.old.places }
    requires kind { kind < 2 ^ 8 }
    ensures { OnOk result (frag.new ≡ with_code (mov 1 (num kind) ⨾ close_entry line) frag.old) }
{
    emit_process(frag, AL, MOV, 1, 0, kind)?;
    emit_operate(frag, CLOSING_WORD, line)
}

/// The items by which a REPEAT that was closed stays open where R0 is 0, and goes round again.
static REOPEN: [Item; 7] = [
    cmp!(0, num 0),
    pull!(0, NUMBERS),
    over!(NE, 4),
    ldr!(1, BASE, OPENED_COUNT),
    data!(AL, ADD, false, 1, 1, num 1),
    store!(1, BASE, OPENED_COUNT),
    leave_to!(2),
];

/// Adds the code of UNTIL. The only error is want of memory.
pub fn emit_until(frag: &mut Frag, line: u16) -> Result<(), NoMemory>
    requires { raise_label < length frag.old.places }
    ensures { OnOk result (frag.new ≡ with_code (code_of (o.Until line)) frag.old) }
{
    emit_close(frag, REPEAT, line)?;
    frag.emit_all(&REOPEN)
}

/// Adds the code of ENDWHILE: the item before the one that comes after WHILE is WHILE's. The only error is want of memory.
pub fn emit_end_while(frag: &mut Frag, line: u16) -> Result<(), NoMemory>
    requires { raise_label < length frag.old.places }
    ensures { OnOk result (frag.new ≡ with_code (code_of (o.EndWhile line)) frag.old) }
{
    emit_close(frag, WHILE, line)?;
    frag.emit_all(&[data!(AL, SUB, false, 2, 2, num 4), leave_to!(2)])
}

/// Adds the code of RETURN. The only error is want of memory.
pub fn emit_return(frag: &mut Frag, line: u16) -> Result<(), NoMemory>
    requires { raise_label < length frag.old.places }
    ensures { OnOk result (frag.new ≡ with_code (code_of (o.Return line)) frag.old) }
{
    emit_close(frag, GOSUB, line)?;
    frag.emit_all(&[leave_to!(2)])
}

// ---- NEXT

/// Adds the code of NEXT, with the address of its variable in R1, or 0 for any. The only error is want of memory.
fn emit_turn(frag: &mut Frag, line: u16) -> Result<(), NoMemory>
    requires { raise_label < length frag.old.places }
    ensures { OnOk result (frag.new ≡ with_code (turn line) frag.old) }
{
    emit_operate(frag, TURNING, line)?;
    frag.emit_all(&[cmp!(2, num 0), over!(EQ, 1), leave_to!(2)])
}

/// Adds the code of NEXT of a variable. The only error is want of memory.
pub fn emit_next(frag: &mut Frag, counter: IntegerCell, line: u16) -> Result<(), NoMemory>
    requires { raise_label < length frag.old.places }
    ensures { OnOk result (frag.new ≡ with_code (code_of (o.Next counter line)) frag.old) }
{
    emit_find_variable(frag, counter)?;
    emit_turn(frag, line)
}

/// Adds the code of NEXT without a variable. The only error is want of memory.
pub fn emit_next_any(frag: &mut Frag, line: u16) -> Result<(), NoMemory>
    requires { raise_label < length frag.old.places }
    ensures { OnOk result (frag.new ≡ with_code (code_of (o.NextAny line)) frag.old) }
{
    frag.emit_all(&[mov!(1, num 0)])?;
    emit_turn(frag, line)
}

// ---- what counts down

/// The items by which a number that is more than 1 counts down, by the flags of its comparison with 1.
static COUNT_DOWN: [Item; 1] = [data!(GT, SUB, false, 0, 0, num 1)];

/// Adds a jump to an item where the topmost number is 1. The only error is want of memory.
pub fn emit_go_if_one(frag: &mut Frag, item: u32) -> Result<(), NoMemory>
    requires label { item_label item < length frag.old.places }
    requires few { length frag.old.places ≤ 2 ^ 32 }
    ensures { OnOk result (frag.new ≡ with_code (code_of (o.GoIfOne item)) frag.old) }
{
    frag.emit_all(&[cmp!(0, num 1), over!(NE, 2), pull!(0, NUMBERS)])?;
    frag.branch(AL, false, item_label(item))?;
    frag.emit_all(&COUNT_DOWN)
}

/// Adds a GOSUB to an item where the topmost number is 1. The only error is want of memory.
pub fn emit_gosub_if_one(frag: &mut Frag, item: u32, back: u32, line: u16) -> Result<(), NoMemory>
    requires raise { raise_label < length frag.old.places }
    requires label { item_label item < length frag.old.places }
    requires few { length frag.old.places ≤ 2 ^ 32 }
    ensures { OnOk result (frag.new ≡ with_code (code_with 0 back (o.GosubIfOne line item)) frag.old) }
{
    frag.emit_all(&[cmp!(0, num 1), over!(NE, 14), pull!(0, NUMBERS)])?;
    emit_gosub(frag, item, back, line)?;
    frag.emit_all(&COUNT_DOWN)
}

/// Adds the raising of an error where the topmost number is 1. The only error is want of memory.
pub fn emit_raise_if_one(frag: &mut Frag, error: u8, line: u16) -> Result<(), NoMemory>
    requires { raise_label < length frag.old.places }
    ensures { OnOk result (frag.new ≡ with_code (code_of (o.RaiseIfOne error line)) frag.old) }
{
    frag.emit_all(&[cmp!(0, num 1), over!(NE, 4)])?;
    emit_raise(frag, error, line)?;
    frag.emit_all(&COUNT_DOWN)
}
