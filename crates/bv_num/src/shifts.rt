//! The shifts of numbers.
ghost use Rattle.std.specs.Prelude.{◌≡◌};
ghost use Rattle.bv_num.specs.Shift.{shifted};

/// The shifts of BBC BASIC V.
#[derive(Clone, Copy, Debug, PartialEq, Eq)]
pub enum ShiftKind {
    /// `<<`: the bits that leave at the top are dropped.
    Left,
    /// `>>`: the arithmetic shift, which keeps the sign.
    Right,
    /// `>>>`: the logical shift, which brings in zeros.
    RightLogical,
}

/// The number `a` shifted by as many bits as the low byte of `b` says.
pub fn shift(kind: ShiftKind, a: i32, b: i32) -> i32
    ensures { result ≡ shifted kind a b }
{
    let amount = b.cast_unsigned() % 0x100;
    match kind {
        ShiftKind::Left => a.unbounded_shl(amount),
        ShiftKind::Right => a.unbounded_shr(amount),
        ShiftKind::RightLogical => a.cast_unsigned().unbounded_shr(amount).cast_signed(),
    }
}
