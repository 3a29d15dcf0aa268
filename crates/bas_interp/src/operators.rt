//! The operators of the language.
ghost use Rattle.std.specs.Prelude.{◌≡◌, pos};
ghost use Rattle.std.specs.Ordering.{int_eq};
ghost use Rattle.bas_sem.specs.Operators.{of_one, of_two, sign, comparison};
ghost use Rattle.bv_num.specs.Operation.{exact};

use bas_ast::{BinaryOp, Comparison, UnaryOp};
use bv_num::ShiftKind;

/// SGN
fn sign(x: i32) -> i32
    ensures { result ≡ sign x }
{
    if x == 0 {
        0
    } else if x < 0 {
        -1
    } else {
        1
    }
}

/// What a word or sign makes of a number, or its error.
#[inline(always)]
pub(crate) fn of_one(op: UnaryOp, x: i32) -> Result<i32, u8>
    ensures { result ≡ of_one op x }
{
    match op {
        UnaryOp::Plus | UnaryOp::Int => Ok(x),
        UnaryOp::Minus => bv_num::neg(x),
        UnaryOp::Not => Ok(bv_num::not(x)),
        UnaryOp::Abs => bv_num::abs(x),
        UnaryOp::Sgn => Ok(sign(x)),
    }
}

/// What a comparison makes of two numbers.
#[inline(always)]
fn compared(op: Comparison, x: i32, y: i32) -> i32
    ensures { result ≡ exact (comparison op) x y }
{
    match op {
        Comparison::Equal => bv_num::equal(x, y),
        Comparison::NotEqual => bv_num::not_equal(x, y),
        Comparison::Less => bv_num::less(x, y),
        Comparison::Greater => bv_num::greater(x, y),
        Comparison::LessOrEqual => bv_num::less_or_equal(x, y),
        Comparison::GreaterOrEqual => bv_num::greater_or_equal(x, y),
    }
}

/// Whether two numbers do not compare so.
#[tactic(auto, using(crate::proofs::Comparisons::is_zero_not))]
#[inline(always)]
pub(crate) fn fails(relation: Comparison, x: i32, y: i32) -> bool
    ensures { result ≡ int_eq (exact (comparison relation) x y) (pos 0) }
{
    match relation {
        Comparison::Equal => x != y,
        Comparison::NotEqual => x == y,
        Comparison::Less => x >= y,
        Comparison::Greater => x <= y,
        Comparison::LessOrEqual => x > y,
        Comparison::GreaterOrEqual => x < y,
    }
}

/// What an operator makes of two numbers, or its error.
#[inline(always)]
pub(crate) fn of_two(op: BinaryOp, x: i32, y: i32) -> Result<i32, u8>
    ensures { result ≡ of_two op x y }
{
    match op {
        BinaryOp::Or => Ok(bv_num::or(x, y)),
        BinaryOp::Eor => Ok(bv_num::eor(x, y)),
        BinaryOp::And => Ok(bv_num::and(x, y)),
        BinaryOp::Compare(comparison) => Ok(compared(comparison, x, y)),
        BinaryOp::ShiftLeft => Ok(bv_num::shift(ShiftKind::Left, x, y)),
        BinaryOp::ShiftRightSigned => Ok(bv_num::shift(ShiftKind::Right, x, y)),
        BinaryOp::ShiftRight => Ok(bv_num::shift(ShiftKind::RightLogical, x, y)),
        BinaryOp::Add => bv_num::add(x, y),
        BinaryOp::Subtract => bv_num::sub(x, y),
        BinaryOp::Multiply => bv_num::mul(x, y),
        BinaryOp::Divide => bv_num::div(x, y),
        BinaryOp::Remainder => bv_num::rem(x, y),
    }
}
