//! The pieces of operations, as `op_code` of `Operations.antt` has them.
ghost use Rattle.std.specs.Prelude.{◌≡◌, ℕ, ◌<◌, ◌≤◌, ◌*◌, ◌^◌, length, OnOk};
ghost use Rattle.bas_ir.specs.declared.op.Op.TheVariants as o;
ghost use Rattle.code_frag.specs.Language.{Skip, Call, ◌⨾◌};
ghost use Rattle.codegen.specs.Emission.{with_code, LeadsInto, code_of, code_with};
ghost use Rattle.codegen.specs.Program.{last_piece};
ghost use Rattle.codegen.specs.Operations.{raise_label, library_label, item_label, number_routine, drop};

use crate::data::{emit_read_number, emit_restore};
use crate::instructions::{
    cmp, data, emit_process, emit_transfer, ldr, mov, over, pull, push, single, store, swi,
};
use crate::labels::{
    DECIMAL_NUMBER, HEXADECIMAL_NUMBER, SOME_SPACES, STRING_OUT, TO_FIELD, TO_TAB, item_label,
};
use crate::loads::{cell_place, emit_find_cell, emit_load, emit_number, emit_raise};
use crate::loops::{
    REPEAT, WHILE, emit_end_while, emit_go_if_one, emit_gosub, emit_gosub_if_one, emit_next,
    emit_next_any, emit_open, emit_open_for, emit_raise_if_one, emit_return, emit_until,
};
use crate::operands::{
    emit_binary_with, emit_binary_with_resident, emit_change_resident, emit_go_unless,
    emit_go_unless_with,
};
use crate::operators::{emit_binary, emit_unary};
use crate::registers::{BASE, COLUMN, NUMBERS, TEXT, TEXTS};
use arm_isa::Instr;
use arm_isa::numbers::{AL, CMP, EQ, MOV, NE};
use arm2_machine::{SWI_END, SWI_NEW_LINE, SWI_WRITE};
use bas_ast::{BinaryOp, NumberFormat};
use bas_ir::{Mark, Op, Piece};
use bas_store::UNKNOWN_VARIABLE;
use bv_base::NoMemory;
use code_frag::{Frag, Item, Label};

// ---- numbers and strings that are pushed

/// Adds the pushing of a number. The only error is want of memory.
fn emit_push(frag: &mut Frag, value: i32) -> Result<(), NoMemory>
    ensures { OnOk result (frag.new ≡ with_code (code_of (o.Push value)) frag.old) }
{
    frag.emit_all(&[push!(0, NUMBERS)])?;
    emit_number(frag, value.cast_unsigned())
}

/// Adds the pushing of a resident. The only error is want of memory.
fn emit_push_resident(frag: &mut Frag, index: u8) -> Result<(), NoMemory>
    ensures { OnOk result (frag.new ≡ with_code (code_of (o.PushResident index)) frag.old) }
{
    frag.emit_all(&[push!(0, NUMBERS)])?;
    emit_transfer(frag, true, 0, BASE, 4 * index as u16)
}

/// Adds the pushing of a name's integer, or the raising of the error that it was never made. The only error is want of memory.
fn emit_push_integer(frag: &mut Frag, name: u16, line: u16) -> Result<(), NoMemory>
    requires { raise_label < length frag.old.places }
    ensures { OnOk result (frag.new ≡ with_code (code_of (o.PushInteger name line)) frag.old) }
{
    frag.emit_all(&[push!(0, NUMBERS)])?;
    emit_find_cell(frag, name)?;
    emit_transfer(frag, true, 2, 1, cell_place(name) + 4)?;
    frag.emit_all(&[cmp!(2, num 0), over!(NE, 4)])?;
    emit_raise(frag, UNKNOWN_VARIABLE, line)?;
    emit_transfer(frag, true, 0, 1, cell_place(name))
}

/// Adds the pushing of the string at an address. The only error is want of memory.
fn emit_push_text(frag: &mut Frag, number: u32, address: u32) -> Result<(), NoMemory>
    ensures { OnOk result (frag.new ≡ with_code (code_with address 0 (o.PushText number)) frag.old) }
{
    frag.emit_all(&[push!(TEXT, TEXTS)])?;
    emit_load(frag, TEXT, address)
}

/// Adds an operator between the two topmost numbers. The only error is want of memory.
fn emit_two(frag: &mut Frag, op: BinaryOp, line: u16) -> Result<(), NoMemory>
    requires { raise_label < length frag.old.places }
    ensures { OnOk result (frag.new ≡ with_code (code_of (o.Binary op line)) frag.old) }
{
    frag.emit_all(&[pull!(1, NUMBERS)])?;
    emit_binary(frag, op, line)
}

// ---- numbers that are stored

/// Adds the storing of a number in a resident. The only error is want of memory.
fn emit_store_resident(frag: &mut Frag, index: u8) -> Result<(), NoMemory>
    ensures { OnOk result (frag.new ≡ with_code (code_of (o.StoreResident index)) frag.old) }
{
    emit_transfer(frag, false, 0, BASE, 4 * index as u16)?;
    frag.emit_all(&[pull!(0, NUMBERS)])
}

/// Adds the storing of a number in a name's integer. The only error is want of memory.
fn emit_store_integer(frag: &mut Frag, name: u16) -> Result<(), NoMemory>
    ensures { OnOk result (frag.new ≡ with_code (code_of (o.StoreInteger name)) frag.old) }
{
    emit_find_cell(frag, name)?;
    emit_transfer(frag, false, 0, 1, cell_place(name))?;
    frag.emit_all(&[mov!(2, num 1)])?;
    emit_transfer(frag, false, 2, 1, cell_place(name) + 4)?;
    frag.emit_all(&[pull!(0, NUMBERS)])
}

// ---- output

/// The routine that writes a number.
fn number_routine(format: NumberFormat) -> Label
    ensures { result.number ≡ library_label (number_routine format) }
{
    match format {
        NumberFormat::Decimal => DECIMAL_NUMBER,
        NumberFormat::Hexadecimal => HEXADECIMAL_NUMBER,
    }
}

/// Adds the writing of a number. The only error is want of memory.
fn emit_write_number(frag: &mut Frag, padded: bool, format: NumberFormat) -> Result<(), NoMemory>
    requires { raise_label < length frag.old.places }
    ensures { OnOk result (frag.new ≡ with_code (code_of (o.WriteNumber padded format)) frag.old) }
{
    emit_process(frag, AL, MOV, 1, 0, padded as u16)?;
    frag.branch(AL, true, number_routine(format))?;
    frag.emit_all(&[pull!(0, NUMBERS)])
}

/// Adds the writing of the topmost string. The only error is want of memory.
fn emit_write_text(frag: &mut Frag) -> Result<(), NoMemory>
    requires { raise_label < length frag.old.places }
    ensures { OnOk result (frag.new ≡ with_code (code_of o.WriteText) frag.old) }
{
    frag.emit_all(&[push!(0, NUMBERS), mov!(0, reg TEXT as u16)])?;
    frag.branch(AL, true, STRING_OUT)?;
    frag.emit_all(&[pull!(0, NUMBERS), pull!(TEXT, TEXTS)])
}

/// Adds a routine's call that takes the topmost number. The only error is want of memory.
fn emit_write_by(frag: &mut Frag, routine: Label) -> Result<(), NoMemory>
    requires { routine.number < length frag.old.places }
    ensures { OnOk result (frag.new ≡ with_code (Call routine.number ⨾ drop ⨾ Skip) frag.old) }
{
    frag.branch(AL, true, routine)?;
    frag.emit_all(&[pull!(0, NUMBERS)])
}

/// The items of VDU, of VDU with `;`, of MODE and of COLOUR.
static BYTE: [Item; 2] = [swi!(SWI_WRITE), pull!(0, NUMBERS)];

static WORD: [Item; 4] = [
    swi!(SWI_WRITE),
    mov!(0, lsr 0, 8),
    swi!(SWI_WRITE),
    pull!(0, NUMBERS),
];

static MODE: [Item; 8] = [
    mov!(1, reg 0),
    mov!(0, num 22),
    swi!(SWI_WRITE),
    mov!(0, reg 1),
    swi!(SWI_WRITE),
    mov!(2, num 0),
    store!(2, BASE, COLUMN),
    pull!(0, NUMBERS),
];

static COLOUR: [Item; 6] = [
    mov!(1, reg 0),
    mov!(0, num 17),
    swi!(SWI_WRITE),
    mov!(0, reg 1),
    swi!(SWI_WRITE),
    pull!(0, NUMBERS),
];

/// Adds what a statement of output makes of a number. The only error is want of memory.
fn emit_write(frag: &mut Frag, part: Piece) -> Result<(), NoMemory>
    requires { raise_label < length frag.old.places }
    ensures { OnOk result (frag.new ≡ with_code (code_of (o.Write part)) frag.old) }
{
    match part {
        Piece::Spaces => emit_write_by(frag, SOME_SPACES),
        Piece::Tab => emit_write_by(frag, TO_TAB),
        Piece::Byte => frag.emit_all(&BYTE),
        Piece::Word => frag.emit_all(&WORD),
        Piece::Mode => frag.emit_all(&MODE),
        Piece::Colour => frag.emit_all(&COLOUR),
    }
}

/// The items of a new line and of CLS.
static NEW_LINE: [Item; 3] = [swi!(SWI_NEW_LINE), mov!(2, num 0), store!(2, BASE, COLUMN)];

static CLEAR: [Item; 6] = [
    mov!(1, reg 0),
    mov!(0, num 12),
    swi!(SWI_WRITE),
    mov!(0, reg 1),
    mov!(2, num 0),
    store!(2, BASE, COLUMN),
];

/// Adds what a statement of output writes without a number. The only error is want of memory.
fn emit_write_mark(frag: &mut Frag, mark: Mark) -> Result<(), NoMemory>
    requires { raise_label < length frag.old.places }
    ensures { OnOk result (frag.new ≡ with_code (code_of (o.WriteMark mark)) frag.old) }
{
    match mark {
        Mark::Field => {
            frag.emit_all(&[push!(0, NUMBERS)])?;
            emit_write_by(frag, TO_FIELD)
        }
        Mark::NewLine => frag.emit_all(&NEW_LINE),
        Mark::Clear => frag.emit_all(&CLEAR),
    }
}

// ---- jumps

/// Adds a jump to an item where the topmost number is 0. The only error is want of memory.
fn emit_go_if_zero(frag: &mut Frag, item: u32) -> Result<(), NoMemory>
    requires label { item_label item < length frag.old.places }
    requires few { length frag.old.places ≤ 2 ^ 32 }
    ensures { OnOk result (frag.new ≡ with_code (code_of (o.GoIfZero item)) frag.old) }
{
    frag.emit_all(&[cmp!(0, num 0), pull!(0, NUMBERS)])?;
    frag.branch(EQ, false, item_label(item))
}

/// Adds a jump to an item where the topmost number is the one below it, which is left if it isn't. The only error is want of memory.
fn emit_go_if_equal(frag: &mut Frag, item: u32) -> Result<(), NoMemory>
    requires label { item_label item < length frag.old.places }
    requires few { length frag.old.places ≤ 2 ^ 32 }
    ensures { OnOk result (frag.new ≡ with_code (code_of (o.GoIfEqual item)) frag.old) }
{
    frag.emit_all(&[
        pull!(1, NUMBERS),
        cmp!(1, reg 0),
        mov!(0, reg 1),
        over!(NE, 2),
        pull!(0, NUMBERS),
    ])?;
    frag.branch(AL, false, item_label(item))
}

/// The items of the end of a run.
static END: [Item; 2] = [mov!(0, num 0), swi!(SWI_END)];

/// Adds the end of a run. The only error is want of memory.
pub fn emit_end(frag: &mut Frag) -> Result<(), NoMemory>
    ensures { OnOk result (frag.new ≡ with_code last_piece frag.old) }
{
    frag.emit_all(&END)
}

/// Adds the code of an operation. The addresses are those of the text or item of DATA that it names, if it names one, and of the
/// branch to the item that an entry goes on at, if it opens one. An operation whose form has no code yet ends the run. The only error is want of
/// memory.
pub fn emit_op(frag: &mut Frag, op: Op, text_address: u32, back: u32) -> Result<(), NoMemory>
    requires raise { raise_label < length frag.old.places }
    requires leads { LeadsInto (length frag.old.places) op }
    requires few { length frag.old.places ≤ 2 ^ 32 }
    ensures { OnOk result (frag.new ≡ with_code (code_with text_address back op) frag.old) }
{
    match op {
        Op::Push(value) => emit_push(frag, value),
        Op::PushColumn => frag.emit_all(&[push!(0, NUMBERS), ldr!(0, BASE, COLUMN)]),
        Op::PushResident(index) => emit_push_resident(frag, index),
        Op::PushInteger { name, line } => emit_push_integer(frag, name, line),
        Op::PushText(number) => emit_push_text(frag, number, text_address),
        Op::Unary { op, line } => emit_unary(frag, op, line),
        Op::Binary { op, line } => emit_two(frag, op, line),
        Op::BinaryWith { op, line, number } => emit_binary_with(frag, op, line, number),
        Op::BinaryWithResident { op, resident, line } => {
            emit_binary_with_resident(frag, op, resident, line)
        }
        Op::ChangeResident {
            op,
            resident,
            line,
            number,
        } => emit_change_resident(frag, op, resident, line, number),
        Op::StoreResident(index) => emit_store_resident(frag, index),
        Op::StoreInteger(name) => emit_store_integer(frag, name),
        Op::WriteNumber { padded, format } => emit_write_number(frag, padded, format),
        Op::WriteText => emit_write_text(frag),
        Op::Write(part) => emit_write(frag, part),
        Op::WriteMark(mark) => emit_write_mark(frag, mark),
        Op::Go(item) => frag.branch(AL, false, item_label(item)),
        Op::GoIfZero(item) => emit_go_if_zero(frag, item),
        Op::GoUnless { relation, item } => emit_go_unless(frag, relation, item),
        Op::GoUnlessWith {
            relation,
            item,
            number,
        } => emit_go_unless_with(frag, relation, item, number),
        Op::Discard => frag.emit_all(&[pull!(0, NUMBERS)]),
        Op::GoIfOne(item) => emit_go_if_one(frag, item),
        Op::GosubIfOne { line, item } => emit_gosub_if_one(frag, item, back, line),
        Op::RaiseIfOne { error, line } => emit_raise_if_one(frag, error, line),
        Op::GoIfEqual(item) => emit_go_if_equal(frag, item),
        Op::OpenFor { counter, line } => emit_open_for(frag, counter, back, line),
        Op::OpenRepeat { line } => emit_open(frag, REPEAT, back, line),
        Op::OpenWhile { line } => emit_open(frag, WHILE, back, line),
        Op::Gosub { line, item } => emit_gosub(frag, item, back, line),
        Op::Next { counter, line } => emit_next(frag, counter, line),
        Op::NextAny { line } => emit_next_any(frag, line),
        Op::Until { line } => emit_until(frag, line),
        Op::EndWhile { line } => emit_end_while(frag, line),
        Op::Return { line } => emit_return(frag, line),
        Op::ReadNumber { line } => emit_read_number(frag, line),
        Op::Restore(_) => emit_restore(frag, text_address),
        Op::Raise { error, line } => emit_raise(frag, error, line),
        Op::End
        | Op::Enter { .. }
        | Op::LeaveProcedure { .. }
        | Op::NeedFunction { .. }
        | Op::LeaveNumber
        | Op::LeaveText
        | Op::HandleAll(_)
        | Op::HandleHere(_)
        | Op::HandleNone => emit_end(frag),
    }
}
