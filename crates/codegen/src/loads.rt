//! The pieces that the pieces of operations are made of: numbers, errors, and the cells of names.
ghost use Rattle.std.specs.Prelude.{◌≡◌, ◌<◌, length, OnOk};
ghost use Rattle.code_frag.specs.Language.{Skip, Call, ◌⨾◌};
ghost use Rattle.codegen.specs.Emission.{with_code};
ghost use Rattle.codegen.specs.Operations.{raise_label, load, load_short, raise, raise_if_failed, raise_if_too_big, find_cell, cell_offset, cell_place};
ghost use Rattle.codegen.specs.Operations as pieces;

use crate::instructions::{cmp, data, emit_process, mov, over};
use crate::labels::RAISE;
use crate::registers::{BASE, CELL_BYTES, CELLS};
use arm_isa::Instr;
use arm_isa::numbers::{ADD, AL, CMP, EQ, MOV, MVN, VC};
use bv_base::NoMemory;
use bv_num::TOO_BIG;
use code_frag::{Frag, Item, Label};

/// The immediate of a byte moved left by 8 bits, without the byte.
const SECOND_BYTE: u16 = 0xc00;

/// That of a byte moved left by 16 bits.
pub const THIRD_BYTE: u16 = 0x800;

/// That of a byte moved left by 24 bits.
const FOURTH_BYTE: u16 = 0x400;

/// The immediate of a multiple of 4,096, without the byte.
const PAGE: u16 = 0xa00;

/// The numbers from this on are the complements of bytes.
const COMPLEMENTS: u32 = 0xffff_ff00;

/// The bytes of a load's greatest offset and one more.
const PAGE_BYTES: u32 = 0x1000;

/// Adds the code by which a register takes a number below 2^16. The only error is want of memory.
pub fn emit_load_short(frag: &mut Frag, rd: u8, number: u16) -> Result<(), NoMemory>
    requires { rd < 16 }
    ensures { OnOk result (frag.new ≡ with_code (load_short rd number) frag.old) }
{
    emit_process(frag, AL, MOV, rd, 0, number % 0x100)?;
    emit_process(frag, AL, ADD, rd, rd, SECOND_BYTE + number / 0x100 % 0x100)
}

/// Adds the code by which a register takes a number. The only error is want of memory.
pub fn emit_load(frag: &mut Frag, rd: u8, number: u32) -> Result<(), NoMemory>
    requires { rd < 16 }
    ensures { OnOk result (frag.new ≡ with_code (load rd number) frag.old) }
{
    emit_process(frag, AL, MOV, rd, 0, (number % 0x100) as u16)?;
    emit_process(
        frag,
        AL,
        ADD,
        rd,
        rd,
        SECOND_BYTE + (number / 0x100 % 0x100) as u16,
    )?;
    emit_process(
        frag,
        AL,
        ADD,
        rd,
        rd,
        THIRD_BYTE + (number / 0x1_0000 % 0x100) as u16,
    )?;
    emit_process(
        frag,
        AL,
        ADD,
        rd,
        rd,
        FOURTH_BYTE + (number / 0x100_0000 % 0x100) as u16,
    )
}

/// Adds the code by which R0 takes a number. The only error is want of memory.
pub fn emit_number(frag: &mut Frag, number: u32) -> Result<(), NoMemory>
    ensures { OnOk result (frag.new ≡ with_code (pieces.number number) frag.old) }
{
    if number < 0x100 {
        emit_process(frag, AL, MOV, 0, 0, number as u16)
    } else if number >= COMPLEMENTS {
        emit_process(frag, AL, MVN, 0, 0, (u32::MAX - number) as u16)
    } else {
        emit_load(frag, 0, number)
    }
}

/// Adds the raising of an error at a line. The only error is want of memory.
pub fn emit_raise(frag: &mut Frag, error: u8, line: u16) -> Result<(), NoMemory>
    requires { raise_label < length frag.old.places }
    ensures { OnOk result (frag.new ≡ with_code (raise error line) frag.old) }
{
    emit_process(frag, AL, MOV, 0, 0, error as u16)?;
    emit_load_short(frag, 1, line)?;
    frag.branch(AL, false, RAISE)
}

/// Adds the raising of the error in R1 if it isn't 0. The only error is want of memory.
pub fn emit_raise_if_failed(frag: &mut Frag, line: u16) -> Result<(), NoMemory>
    requires { raise_label < length frag.old.places }
    ensures { OnOk result (frag.new ≡ with_code (raise_if_failed line) frag.old) }
{
    frag.emit_all(&[cmp!(1, num 0), over!(EQ, 4), mov!(0, reg 1)])?;
    emit_load_short(frag, 1, line)?;
    frag.branch(AL, false, RAISE)
}

/// Adds the raising of an error where the flags show a result of more than 32 bits. The only error is want of memory.
pub fn emit_raise_if_too_big(frag: &mut Frag, line: u16) -> Result<(), NoMemory>
    requires { raise_label < length frag.old.places }
    ensures { OnOk result (frag.new ≡ with_code (raise_if_too_big line) frag.old) }
{
    frag.emit_all(&[over!(VC, 4)])?;
    emit_raise(frag, TOO_BIG, line)
}

/// Adds a routine's call and the raising of the error that it leaves in R1. The only error is want of memory.
pub fn emit_operate(frag: &mut Frag, routine: Label, line: u16) -> Result<(), NoMemory>
    requires raise { raise_label < length frag.old.places }
    requires routine { routine.number < length frag.old.places }
    ensures { OnOk result (frag.new ≡ with_code (Call routine.number ⨾ raise_if_failed line ⨾ Skip) frag.old) }
{
    frag.branch(AL, true, routine)?;
    emit_raise_if_failed(frag, line)
}

/// The place of a cell after the residents' address, in bytes.
fn cell_offset(name: u16) -> u32
    ensures { result ≡ cell_offset name }
{
    CELLS + CELL_BYTES * name as u32
}

/// The place of a cell after the address that R1 has for it.
pub fn cell_place(name: u16) -> u16
    ensures { result ≡ cell_place name }
{
    (cell_offset(name) % PAGE_BYTES) as u16
}

/// Adds the code by which R1 takes the address of 4,096 bytes in which a cell is. The only error is want of memory.
pub fn emit_find_cell(frag: &mut Frag, name: u16) -> Result<(), NoMemory>
    ensures { OnOk result (frag.new ≡ with_code (find_cell name) frag.old) }
{
    emit_process(
        frag,
        AL,
        ADD,
        1,
        BASE,
        PAGE + (cell_offset(name) / PAGE_BYTES) as u16,
    )
}
