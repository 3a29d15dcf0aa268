//! The shifts of a register operand.
ghost use Rattle.std.specs.Prelude.{◌≡◌, ◌<◌, ◌≤◌};
ghost use Rattle.arm2_alu.specs.Shifts.{shifted_left, shifted_right, shifted_signed, turned_right, shifted, rotated_through_carry, shifted_by_field};

use arm_isa::bit;
use arm_isa::numbers::{ASR, LSL, LSR};

/// A word that was shifted.
#[derive(Clone, Copy)]
pub struct Shifted {
    /// The word that comes out.
    pub value: u32,
    /// The last bit that was shifted out, or the carry flag where nothing was.
    pub carry: bool,
}

#[tactic(auto, using(crate::proofs::ShiftLaws::left_laws), unfolding(crate::specs::Shifts::shifted_left))]
#[inline(always)]
fn shift_left(n: u32, by: u32) -> Shifted
    requires { by < 256 }
    ensures { result ≡ shifted_left n by }
{
    if by > 32 {
        return Shifted {
            value: 0,
            carry: false,
        };
    }
    let wide = u64::from(n) << by;
    Shifted {
        value: (wide % (1 << 32)) as u32,
        carry: (wide >> 32) % 2 == 1,
    }
}

#[tactic(auto, using(crate::proofs::ShiftLaws::right_laws), unfolding(crate::specs::Shifts::shifted_right))]
fn shift_right(n: u32, by: u32) -> Shifted
    requires from { 0 < by }
    requires to { by < 256 }
    ensures { result ≡ shifted_right n by }
{
    if by > 32 {
        return Shifted {
            value: 0,
            carry: false,
        };
    }
    let last = n >> (by - 1);
    Shifted {
        value: last >> 1,
        carry: last % 2 == 1,
    }
}

#[tactic(auto, unfolding(crate::specs::Shifts::shifted_signed))]
fn shift_signed(n: u32, by: u32) -> Shifted
    requires from { 0 < by }
    requires to { by < 256 }
    ensures { result ≡ shifted_signed n by }
{
    if !bit(n, 31) {
        return shift_right(n, by);
    }
    let mirrored = shift_right(!n, by);
    Shifted {
        value: !mirrored.value,
        carry: !mirrored.carry,
    }
}

#[tactic(auto, using(crate::proofs::ShiftLaws::turn_laws), unfolding(crate::specs::Shifts::turned_right))]
fn turn_right(n: u32, by: u32) -> Shifted
    ensures { result ≡ turned_right n by }
{
    let value = n.rotate_right(by % 32);
    Shifted {
        value,
        carry: bit(value, 31),
    }
}

#[tactic(auto, unfolding(crate::specs::Shifts::rotated_through_carry))]
fn rotate_through_carry(n: u32, carry: bool) -> Shifted
    ensures { result ≡ rotated_through_carry n carry }
{
    Shifted {
        value: (u32::from(carry) << 31) + (n >> 1),
        carry: n % 2 == 1,
    }
}

#[tactic(auto, unfolding(crate::specs::Shifts::shifted))]
/// A word shifted by an amount from a register's low byte.
pub fn shift(kind: u8, n: u32, by: u32, carry: bool) -> Shifted
    requires { by < 256 }
    ensures { result ≡ shifted kind n by carry }
{
    if by == 0 {
        return Shifted { value: n, carry };
    }
    match kind {
        LSL => shift_left(n, by),
        LSR => shift_right(n, by),
        ASR => shift_signed(n, by),
        _ => turn_right(n, by),
    }
}

#[tactic(auto, unfolding(crate::specs::Shifts::shifted_by_field, crate::specs::Shifts::shifted))]
/// LSL by an amount of five bits in the instruction, which is the most common shift.
#[inline(always)]
pub fn shift_left_by_field(n: u32, by: u32, carry: bool) -> Shifted
    requires { by < 32 }
    ensures { result ≡ shifted_by_field LSL n by carry }
{
    if by == 0 {
        Shifted { value: n, carry }
    } else {
        shift_left(n, by)
    }
}

#[tactic(auto, unfolding(crate::specs::Shifts::shifted_by_field))]
/// A word shifted by an amount of five bits in the instruction.
#[inline(never)]
pub fn shift_by_field(kind: u8, n: u32, by: u32, carry: bool) -> Shifted
    requires { by < 32 }
    ensures { result ≡ shifted_by_field kind n by carry }
{
    if by > 0 {
        return shift(kind, n, by, carry);
    }
    match kind {
        LSL => Shifted { value: n, carry },
        LSR | ASR => shift(kind, n, 32, carry),
        _ => rotate_through_carry(n, carry),
    }
}
