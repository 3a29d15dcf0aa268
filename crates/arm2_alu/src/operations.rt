//! The sixteen operations of data processing.
ghost use Rattle.std.specs.Prelude.{◌≡◌, ◌<◌, ◌^◌, not, true, pos, ◌+ℤ◌, ◌-ℤ◌};
ghost use Rattle.std.specs.Int.{w32, cast_signed, from_bool};
ghost use Rattle.arm2_alu.specs.Operands.{immediate_operand};
ghost use Rattle.arm2_alu.specs.Operations.{is_signed_word, added, subtracted, is_test, logical, computed};

use crate::operands::{immediate_operand, immediate_value};
use crate::shifts::Shifted;
use arm_isa::numbers::{ADC, ADD, AND, BIC, CMN, CMP, EOR, MOV, ORR, RSB, RSC, SBC, SUB, TEQ, TST};

/// What an operation gives.
#[derive(Clone, Copy)]
pub struct Computed {
    /// The result modulo 2^32, of which N and Z tell.
    pub value: u32,
    /// C: a sum passed 32 bits, or a difference borrowed nothing; of an operation without a sum, the carry of the shift.
    pub carry: bool,
    /// V: the sum or difference of the signed words is outside -2^31 up to 2^31; an operation without a sum keeps V.
    pub overflow: bool,
}

/// Signed words are below this, and not below its negative.
const SIGNED_WORDS: i64 = 0x8000_0000;

#[inline]
fn is_signed_word(n: i64) -> bool
    ensures { result ≡ is_signed_word n }
{
    -SIGNED_WORDS <= n && n < SIGNED_WORDS
}

#[inline]
fn exact_signed_sum(a: i32, b: i32, carry: bool) -> i64
    ensures { result ≡ a +ℤ b +ℤ pos (from_bool carry) }
{
    i64::from(a) + i64::from(b) + i64::from(carry)
}

#[tactic(auto, unfolding(crate::specs::Operations::added))]
#[inline]
fn add(a: u32, b: u32, carry: bool) -> Computed
    ensures { result ≡ added a b carry }
{
    let total = u64::from(a) + u64::from(b) + u64::from(carry);
    let signed = exact_signed_sum(a.cast_signed(), b.cast_signed(), carry);
    Computed {
        value: (total % (1 << 32)) as u32,
        carry: 1 << 32 <= total,
        overflow: !is_signed_word(signed),
    }
}

#[inline]
fn exact_signed_difference(a: i32, b: i32) -> i64
    ensures { result ≡ a -ℤ b }
{
    i64::from(a) - i64::from(b)
}

/// Whether a difference of signed words is no signed word.
#[inline]
fn difference_overflows(a: u32, b: u32) -> bool
    ensures { result ≡ not (is_signed_word (cast_signed w32 a -ℤ cast_signed w32 b)) }
{
    !is_signed_word(exact_signed_difference(a.cast_signed(), b.cast_signed()))
}

/// A difference, whose carry says that nothing was borrowed.
#[inline]
fn subtract(a: u32, b: u32) -> Computed
    ensures { result ≡ subtracted a b true }
{
    Computed {
        value: a.wrapping_sub(b),
        carry: b <= a,
        overflow: difference_overflows(a, b),
    }
}

/// Whether an operation only sets flags.
#[inline]
pub fn is_test(op: u8) -> bool
    ensures { result ≡ is_test op }
{
    TST <= op && op <= CMN
}

/// The value of an operation without a sum, with C by the shift and V as it was.
#[inline]
fn carry_on(value: u32, b: Shifted, overflow: bool) -> Computed
    ensures { result ≡ record { value = value; carry = b.carry; overflow = overflow } }
{
    Computed {
        value,
        carry: b.carry,
        overflow,
    }
}

#[tactic(auto, unfolding(crate::specs::Operations::logical))]
/// The value of an operation without a sum.
#[inline(always)]
fn logical(op: u8, a: u32, b: u32) -> u32
    ensures { result ≡ logical op a b }
{
    match op {
        AND | TST => a & b,
        EOR | TEQ => a ^ b,
        ORR => a | b,
        MOV => b,
        BIC => a & !b,
        _ => !b,
    }
}

#[tactic(auto, unfolding(crate::specs::Operations::computed))]
/// An operation on a first operand and a shifted second one, with C and V as they were.
#[inline(always)]
pub fn compute(op: u8, a: u32, b: Shifted, carry: bool, overflow: bool) -> Computed
    ensures { result ≡ computed op a b carry overflow }
{
    match op {
        SUB | CMP => subtract(a, b.value),
        RSB => subtract(b.value, a),
        ADD | CMN => add(a, b.value, false),
        ADC => add(a, b.value, carry),
        SBC => add(a, !b.value, carry),
        RSC => add(b.value, !a, carry),
        _ => carry_on(logical(op, a, b.value), b, overflow),
    }
}

#[tactic(auto, unfolding(crate::specs::Operations::computed, crate::specs::Operands::immediate_operand))]
/// An operation on a first operand and an immediate one, with C and V as they were. Only an operation without a sum looks for the
/// immediate's own carry.
#[inline(always)]
pub fn compute_immediate(op: u8, a: u32, op2: u16, carry: bool, overflow: bool) -> Computed
    requires { op2 < 2 ^ 12 }
    ensures { result ≡ computed op a (immediate_operand op2 carry) carry overflow }
{
    let value = immediate_value(op2);
    match op {
        SUB | CMP => subtract(a, value),
        RSB => subtract(value, a),
        ADD | CMN => add(a, value, false),
        ADC => add(a, value, carry),
        SBC => add(a, !value, carry),
        RSC => add(value, !a, carry),
        _ => carry_on(
            logical(op, a, value),
            immediate_operand(op2, carry),
            overflow,
        ),
    }
}
