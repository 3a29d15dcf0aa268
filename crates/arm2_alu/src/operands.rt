//! The second operand of data processing, which is also the register offset of a transfer.
ghost use Rattle.std.specs.Prelude.{◌≡◌, ◌<◌, ◌≤◌, ◌%◌, ◌/◌, ◌^◌};
ghost use Rattle.arm_isa.specs.Immediates.{immediate_value, turns_of};
ghost use Rattle.arm2_alu.specs.Operands.{by_register, ahead_of, immediate_operand, amount_operand, register_operand, second_operand};

use crate::regs::Regs;
use crate::shifts::{Shifted, shift, shift_by_field, shift_left_by_field};
use arm_isa::bit;
use arm_isa::numbers::LSL;

/// Whether a second operand has the amount of its shift in a register.
#[inline]
pub fn is_by_register(imm: bool, op2: u16) -> bool
    ensures { result ≡ by_register imm op2 }
{
    !imm && bit(op2.into(), 4)
}

/// How many bytes ahead of the instruction R15 reads.
#[inline]
pub fn ahead_of(imm: bool, op2: u16) -> u32
    ensures { result ≡ ahead_of imm op2 }
{
    if is_by_register(imm, op2) { 12 } else { 8 }
}

/// The number in the low four bits of a field from bit `low` up.
#[inline]
pub fn register_at(field: u16, low: u16) -> u8
    requires { low ≤ 12 }
    ensures { result ≡ field / 2 ^ low % 16 }
{
    ((field >> low) % 16) as u8
}

#[tactic(auto, using(crate::proofs::OperandLaws::immediate_laws))]
/// The value of an immediate operand.
#[inline(always)]
pub(crate) fn immediate_value(op2: u16) -> u32
    requires { op2 < 2 ^ 12 }
    ensures { result ≡ immediate_value op2 }
{
    u32::from(op2 % 256).rotate_right(2 * u32::from(op2 >> 8))
}

#[tactic(auto, using(crate::proofs::OperandLaws::immediate_laws), unfolding(crate::specs::Operands::immediate_operand))]
/// An immediate operand with its carry.
#[inline(always)]
pub(crate) fn immediate_operand(op2: u16, carry: bool) -> Shifted
    requires { op2 < 2 ^ 12 }
    ensures { result ≡ immediate_operand op2 carry }
{
    let value = immediate_value(op2);
    let carry = if op2 >> 8 == 0 { carry } else { bit(value, 31) };
    Shifted { value, carry }
}

#[tactic(auto, unfolding(crate::specs::Operands::amount_operand))]
/// A register, shifted by an amount of five bits.
#[inline(always)]
pub fn amount_operand(regs: &Regs, op2: u16) -> Shifted
    requires { op2 < 2 ^ 12 }
    ensures { result ≡ amount_operand regs.now op2 }
{
    let value = regs.whole_operand(8, register_at(op2, 0));
    let carry = regs.has_carry();
    let kind = ((op2 >> 5) % 4) as u8;
    let amount = u32::from(op2 >> 7);
    if kind == LSL {
        shift_left_by_field(value, amount, carry)
    } else {
        shift_by_field(kind, value, amount, carry)
    }
}

#[tactic(auto, unfolding(crate::specs::Operands::register_operand))]
/// A register, shifted by the low byte of another.
#[inline(never)]
fn register_operand(regs: &Regs, op2: u16) -> Shifted
    requires { op2 < 2 ^ 12 }
    ensures { result ≡ register_operand regs.now op2 }
{
    let kind = ((op2 >> 5) % 4) as u8;
    let amount = regs.register(register_at(op2, 8)) % 256;
    let value = regs.whole_operand(12, register_at(op2, 0));
    shift(kind, value, amount, regs.has_carry())
}

#[tactic(auto, unfolding(crate::specs::Operands::second_operand))]
/// The second operand of data processing.
#[inline(always)]
pub fn second_operand(regs: &Regs, imm: bool, op2: u16) -> Shifted
    requires { op2 < 2 ^ 12 }
    ensures { result ≡ second_operand regs.now imm op2 }
{
    if imm {
        immediate_operand(op2, regs.has_carry())
    } else if bit(op2.into(), 4) {
        register_operand(regs, op2)
    } else {
        amount_operand(regs, op2)
    }
}
