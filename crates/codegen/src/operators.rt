//! The pieces of operators: those between two numbers, and those before one.
ghost use Rattle.std.specs.Prelude.{◌≡◌, ◌<◌, ◌^◌, false, length, OnOk};
ghost use Rattle.bas_ast.specs.declared.expressions.BinaryOp.TheVariants.{Compare};
ghost use Rattle.bas_ast.specs.declared.expressions.UnaryOp.TheVariants.{Abs};
ghost use Rattle.codegen.specs.Emission.{with_code};
ghost use Rattle.codegen.specs.Operations.{raise_label, condition_of, takes_operand, operator, binary_code, unary_code};

use crate::instructions::{cmp, data, emit_data, emit_process, mov, over, tst};
use crate::labels::{MODULUS, PRODUCT, QUOTIENT};
use crate::loads::{emit_operate, emit_raise_if_too_big};
use arm_isa::Instr;
use arm_isa::numbers::{
    ADD, AL, AND, CMP, CS, EOR, EQ, GE, GT, LE, LT, MOV, MVN, NE, ORR, RSB, SUB, TST,
};
use bas_ast::{BinaryOp, Comparison, UnaryOp};
use bv_base::NoMemory;
use code_frag::{Frag, Item};

/// The condition under which a comparison holds.
fn condition_of(comparison: Comparison) -> u8
    ensures value { result ≡ condition_of comparison }
    ensures small { result < 16 }
{
    match comparison {
        Comparison::Equal => EQ,
        Comparison::NotEqual => NE,
        Comparison::Less => LT,
        Comparison::Greater => GT,
        Comparison::LessOrEqual => LE,
        Comparison::GreaterOrEqual => GE,
    }
}

/// The items of `<<`: R1 is shifted by each bit of the amount in R0, and then by what is left of it.
static SHIFT_LEFT: [Item; 14] = [
    tst!(0, num 1),
    data!(NE, MOV, false, 1, 0, lsl 1, 1),
    tst!(0, num 2),
    data!(NE, MOV, false, 1, 0, lsl 1, 2),
    tst!(0, num 4),
    data!(NE, MOV, false, 1, 0, lsl 1, 4),
    tst!(0, num 8),
    data!(NE, MOV, false, 1, 0, lsl 1, 8),
    tst!(0, num 16),
    data!(NE, MOV, false, 1, 0, lsl 1, 16),
    mov!(2, lsl 0, 24),
    cmp!(2, num 0x420),
    data!(CS, MOV, false, 1, 0, num 0),
    mov!(0, reg 1),
];

/// The items of `>>`.
static SHIFT_RIGHT_SIGNED: [Item; 14] = [
    tst!(0, num 1),
    data!(NE, MOV, false, 1, 0, asr 1, 1),
    tst!(0, num 2),
    data!(NE, MOV, false, 1, 0, asr 1, 2),
    tst!(0, num 4),
    data!(NE, MOV, false, 1, 0, asr 1, 4),
    tst!(0, num 8),
    data!(NE, MOV, false, 1, 0, asr 1, 8),
    tst!(0, num 16),
    data!(NE, MOV, false, 1, 0, asr 1, 16),
    mov!(2, lsl 0, 24),
    cmp!(2, num 0x420),
    data!(CS, MOV, false, 1, 0, asr 1, 31),
    mov!(0, reg 1),
];

/// The items of `>>>`.
static SHIFT_RIGHT: [Item; 14] = [
    tst!(0, num 1),
    data!(NE, MOV, false, 1, 0, lsr 1, 1),
    tst!(0, num 2),
    data!(NE, MOV, false, 1, 0, lsr 1, 2),
    tst!(0, num 4),
    data!(NE, MOV, false, 1, 0, lsr 1, 4),
    tst!(0, num 8),
    data!(NE, MOV, false, 1, 0, lsr 1, 8),
    tst!(0, num 16),
    data!(NE, MOV, false, 1, 0, lsr 1, 16),
    mov!(2, lsl 0, 24),
    cmp!(2, num 0x420),
    data!(CS, MOV, false, 1, 0, num 0),
    mov!(0, reg 1),
];

/// Whether an operator's code takes any operand of an instruction, and no routine.
pub fn takes_operand(op: BinaryOp) -> bool
    ensures { result ≡ takes_operand op }
{
    match op {
        BinaryOp::Or
        | BinaryOp::Eor
        | BinaryOp::And
        | BinaryOp::Compare(_)
        | BinaryOp::Add
        | BinaryOp::Subtract => true,
        BinaryOp::ShiftLeft
        | BinaryOp::ShiftRightSigned
        | BinaryOp::ShiftRight
        | BinaryOp::Multiply
        | BinaryOp::Divide
        | BinaryOp::Remainder => false,
    }
}

/// Adds the code of a comparison between Rn and an operand, into Rd. The only error is want of memory.
fn emit_compare(
    frag: &mut Frag,
    comparison: Comparison,
    rd: u8,
    rn: u8,
    imm: bool,
    field: u16,
) -> Result<(), NoMemory>
    requires rd { rd < 16 }
    requires rn { rn < 16 }
    requires field { field < 2 ^ 8 }
    requires register { imm ≡ false → field < 2 ^ 4 }
    ensures { OnOk result (frag.new ≡ with_code (operator rd rn (record { imm = imm; field = field }) (Compare comparison) 0) frag.old) }
{
    emit_data(frag, true, CMP, 0, rn, imm, field)?;
    emit_process(frag, AL, MOV, rd, 0, 0)?;
    emit_process(frag, condition_of(comparison), MVN, rd, 0, 0)
}

/// Adds the code of an operator that takes any operand, between Rn and one, into Rd; nothing for another operator. The operand is a byte or
/// a register. The only error is want of memory.
pub fn emit_operator(
    frag: &mut Frag,
    op: BinaryOp,
    rd: u8,
    rn: u8,
    imm: bool,
    field: u16,
    line: u16,
) -> Result<(), NoMemory>
    requires raise { raise_label < length frag.old.places }
    requires rd { rd < 16 }
    requires rn { rn < 16 }
    requires field { field < 2 ^ 8 }
    requires register { imm ≡ false → field < 2 ^ 4 }
    ensures { OnOk result (frag.new ≡ with_code (operator rd rn (record { imm = imm; field = field }) op line) frag.old) }
{
    match op {
        BinaryOp::Or => emit_data(frag, false, ORR, rd, rn, imm, field),
        BinaryOp::Eor => emit_data(frag, false, EOR, rd, rn, imm, field),
        BinaryOp::And => emit_data(frag, false, AND, rd, rn, imm, field),
        BinaryOp::Compare(comparison) => emit_compare(frag, comparison, rd, rn, imm, field),
        BinaryOp::Add => {
            emit_data(frag, true, ADD, rd, rn, imm, field)?;
            emit_raise_if_too_big(frag, line)
        }
        BinaryOp::Subtract => {
            emit_data(frag, true, SUB, rd, rn, imm, field)?;
            emit_raise_if_too_big(frag, line)
        }
        BinaryOp::ShiftLeft
        | BinaryOp::ShiftRightSigned
        | BinaryOp::ShiftRight
        | BinaryOp::Multiply
        | BinaryOp::Divide
        | BinaryOp::Remainder => frag.emit_all(&[]),
    }
}

/// Adds the code of an operator between R1 and R0, into R0. The only error is want of memory.
pub fn emit_binary(frag: &mut Frag, op: BinaryOp, line: u16) -> Result<(), NoMemory>
    requires { raise_label < length frag.old.places }
    ensures { OnOk result (frag.new ≡ with_code (binary_code op line) frag.old) }
{
    match op {
        BinaryOp::Or
        | BinaryOp::Eor
        | BinaryOp::And
        | BinaryOp::Compare(_)
        | BinaryOp::Add
        | BinaryOp::Subtract => emit_operator(frag, op, 0, 1, false, 0, line),
        BinaryOp::ShiftLeft => frag.emit_all(&SHIFT_LEFT),
        BinaryOp::ShiftRightSigned => frag.emit_all(&SHIFT_RIGHT_SIGNED),
        BinaryOp::ShiftRight => frag.emit_all(&SHIFT_RIGHT),
        BinaryOp::Multiply => emit_operate(frag, PRODUCT, line),
        BinaryOp::Divide => emit_operate(frag, QUOTIENT, line),
        BinaryOp::Remainder => emit_operate(frag, MODULUS, line),
    }
}

/// Adds the code of ABS. The only error is want of memory.
fn emit_abs(frag: &mut Frag, line: u16) -> Result<(), NoMemory>
    requires { raise_label < length frag.old.places }
    ensures { OnOk result (frag.new ≡ with_code (unary_code Abs line) frag.old) }
{
    frag.emit_all(&[
        cmp!(0, num 0),
        over!(GE, 6),
        data!(AL, RSB, true, 0, 0, num 0),
    ])?;
    emit_raise_if_too_big(frag, line)
}

/// The items of SGN.
static SIGN: [Item; 3] = [
    cmp!(0, num 0),
    data!(GT, MOV, false, 0, 0, num 1),
    data!(LT, MVN, false, 0, 0, num 0),
];

/// Adds the code of a word or sign before R0. The only error is want of memory.
pub fn emit_unary(frag: &mut Frag, op: UnaryOp, line: u16) -> Result<(), NoMemory>
    requires { raise_label < length frag.old.places }
    ensures { OnOk result (frag.new ≡ with_code (unary_code op line) frag.old) }
{
    match op {
        UnaryOp::Plus | UnaryOp::Int => frag.emit_all(&[mov!(0, reg 0)]),
        UnaryOp::Minus => {
            frag.emit_all(&[data!(AL, RSB, true, 0, 0, num 0)])?;
            emit_raise_if_too_big(frag, line)
        }
        UnaryOp::Not => frag.emit_all(&[data!(AL, MVN, false, 0, 0, reg 0)]),
        UnaryOp::Abs => emit_abs(frag, line),
        UnaryOp::Sgn => frag.emit_all(&SIGN),
    }
}
