//! The routines on numbers, item by item. Their pieces are in `Numbers.antt`.
ghost use Rattle.std.specs.Prelude.{◌≡◌, length, OnOk, OnErr};
ghost use Rattle.runtime_lib.specs.Routines.{routines_count, with_piece};
ghost use Rattle.runtime_lib.specs.Numbers.{product, quotient, modulus, division};

use crate::instructions::{
    TOP_BIT, add, answered, back, branch, call, cmp, data, data_if, mov, mul, rsb, sub,
};
use crate::labels::DIVISION;
use arm_isa::Instr;
use arm_isa::numbers::{ADC, ADD, AL, CC, CMP, CS, EQ, LS, MOV, NE, RSB, SUB};
use bv_base::NoMemory;
use bv_num::{DIVISION_BY_ZERO, TOO_BIG};
use code_frag::{Frag, Item};

/// The field of the immediate 2^16.
const HALF_WORD: u16 = 0x801;

/// The distance over what DIV does where the divisor isn't 0.
const DIV_WORDS: i32 = 25;

/// The distance over what MOD does where the divisor isn't 0.
const MOD_WORDS: i32 = 25;

/// The items of the routine that divides words.
static WORDS: [Item; 26] = [
    mov!(2, num 0),
    mov!(3, num 8),
    // four bits of the quotient
    data!(ADD, true, 0, 0, reg 0),
    data!(ADC, true, 2, 2, reg 2),
    data_if!(CC, CMP, true, 0, 2, reg 1),
    data_if!(CS, SUB, false, 2, 2, reg 1),
    data_if!(CS, ADD, false, 0, 0, num 1),
    data!(ADD, true, 0, 0, reg 0),
    data!(ADC, true, 2, 2, reg 2),
    data_if!(CC, CMP, true, 0, 2, reg 1),
    data_if!(CS, SUB, false, 2, 2, reg 1),
    data_if!(CS, ADD, false, 0, 0, num 1),
    data!(ADD, true, 0, 0, reg 0),
    data!(ADC, true, 2, 2, reg 2),
    data_if!(CC, CMP, true, 0, 2, reg 1),
    data_if!(CS, SUB, false, 2, 2, reg 1),
    data_if!(CS, ADD, false, 0, 0, num 1),
    data!(ADD, true, 0, 0, reg 0),
    data!(ADC, true, 2, 2, reg 2),
    data_if!(CC, CMP, true, 0, 2, reg 1),
    data_if!(CS, SUB, false, 2, 2, reg 1),
    data_if!(CS, ADD, false, 0, 0, num 1),
    data!(SUB, true, 3, 3, num 1),
    branch!(NE, -23),
    mov!(1, reg 2),
    back!(),
];

/// Adds the routine that divides words. The only error is want of memory, and then the fragment is as it was.
pub fn emit_division(frag: &mut Frag) -> Result<(), NoMemory>
    ensures ok { OnOk result (frag.new ≡ with_piece division frag.old) }
    ensures kept { OnErr result (frag.new ≡ frag.old) }
{
    frag.emit_all(&WORDS)
}

/// An operation on signed numbers: what comes first; the magnitudes of both, with what a negative right one does to the sign; the
/// operation on them; the answer; and what comes last.
macro_rules! operation {
    (first [$($first:expr),*], sign $words:expr, [$($sign:expr),*], magnitudes [$($magnitudes:expr),*], last [$($last:expr),*]) => {
        answered!(
            before [
                $($first,)*
                mov!(5, num 0),
                cmp!(1, num TOP_BIT),
                branch!(CC, 1),
                rsb!(1, 1, num 0),
                mov!(5, num 1),
                cmp!(0, num TOP_BIT),
                branch!(CC, $words),
                rsb!(0, 0, num 0),
                $($sign,)*
                mov!(2, reg 0),
                mov!(0, reg 1),
                mov!(1, reg 2)
                $(, $magnitudes)*
            ],
            after [$($last,)* back!()]
        )
    };
}

/// The items of the routine of DIV.
static QUOTIENT: [Item; 31] = operation!(
    first [
        cmp!(0, num 0),
        branch!(NE, 1),
        mov!(1, num DIVISION_BY_ZERO as u16),
        branch!(AL, DIV_WORDS),
        mov!(4, reg 14)
    ],
    sign 1, [rsb!(5, 5, num 1)],
    magnitudes [call!(DIVISION)],
    last [mov!(14, reg 4)]
);

/// Adds the routine of DIV. The only error is want of memory, and then the fragment is as it was.
pub fn emit_quotient(frag: &mut Frag) -> Result<(), NoMemory>
    requires { length frag.old.places ≡ routines_count }
    ensures ok { OnOk result (frag.new ≡ with_piece quotient frag.old) }
    ensures kept { OnErr result (frag.new ≡ frag.old) }
{
    frag.emit_all(&QUOTIENT)
}

/// The items of the routine of MOD.
static MODULUS: [Item; 31] = operation!(
    first [
        cmp!(0, num 0),
        branch!(NE, 1),
        mov!(1, num DIVISION_BY_ZERO as u16),
        branch!(AL, MOD_WORDS),
        mov!(4, reg 14)
    ],
    sign 0, [],
    magnitudes [call!(DIVISION), mov!(0, reg 1)],
    last [mov!(14, reg 4)]
);

/// Adds the routine of MOD. The only error is want of memory, and then the fragment is as it was.
pub fn emit_modulus(frag: &mut Frag) -> Result<(), NoMemory>
    requires { length frag.old.places ≡ routines_count }
    ensures ok { OnOk result (frag.new ≡ with_piece modulus frag.old) }
    ensures kept { OnErr result (frag.new ≡ frag.old) }
{
    frag.emit_all(&MODULUS)
}

/// The items of the routine of a product.
static PRODUCT: [Item; 44] = operation!(
    first [],
    sign 1, [rsb!(5, 5, num 1)],
    magnitudes [
        cmp!(0, reg 1),
        branch!(CS, 2),
        mov!(2, reg 0),
        mov!(0, reg 1),
        mov!(1, reg 2),
        cmp!(1, num HALF_WORD),
        branch!(CC, 1),
        mov!(1, num TOO_BIG as u16),
        branch!(AL, 21),
        mov!(2, lsr 0, 16),
        sub!(3, 0, lsl 2, 16),
        mul!(6, 2, 1),
        mul!(7, 3, 1),
        add!(6, 6, lsr 7, 16),
        cmp!(6, num HALF_WORD),
        branch!(CC, 1),
        mov!(1, num TOO_BIG as u16),
        branch!(AL, 12),
        mul!(2, 0, 1),
        mov!(0, reg 2)
    ],
    last []
);

/// Adds the routine of a product. The only error is want of memory, and then the fragment is as it was.
pub fn emit_product(frag: &mut Frag) -> Result<(), NoMemory>
    ensures ok { OnOk result (frag.new ≡ with_piece product frag.old) }
    ensures kept { OnErr result (frag.new ≡ frag.old) }
{
    frag.emit_all(&PRODUCT)
}
