//! The routines that write numbers, item by item. Their pieces are in `Digits.antt`.
ghost use Rattle.std.specs.Prelude.{◌≡◌, length, OnOk, OnErr};
ghost use Rattle.runtime_lib.specs.Routines.{routines_count, with_piece};
ghost use Rattle.runtime_lib.specs.Digits.{decimal_number, hexadecimal_number};

use crate::instructions::{
    BASE, COLUMN, TOP_BIT, add, back, branch, call, cmp, data, data_if, ldr, mov, rsb, single,
    store, sub, swi,
};
use crate::labels::RUN;
use arm_isa::Instr;
use arm_isa::numbers::{ADD, AL, CC, CMP, CS, EQ, MOV, RSB, SUB};
use arm2_machine::SWI_WRITE;
use bv_base::NoMemory;
use code_frag::{Frag, Item};

/// A routine that writes a number: what comes first; and for each power of the base, from the highest to the base, the items by
/// which it comes into R2, once for the count of the digits and once for the digit.
macro_rules! number {
    (first [$($first:expr),*], powers [$([$($power:expr),*]),*]) => {
        [
            $($first,)*
            mov!(7, reg 0),
            mov!(4, reg 0),
            add!(6, 5, num 1),
            $(
                $($power,)*
                cmp!(7, reg 2),
                data_if!(CS, ADD, false, 6, 6, num 1),
            )*
            // the spaces before the text
            cmp!(1, num 0),
            branch!(EQ, 1),
            data!(RSB, true, 1, 6, num 10),
            data_if!(CC, MOV, false, 1, 0, num 0),
            // the column
            ldr!(2, BASE, COLUMN),
            add!(2, 2, reg 6),
            add!(2, 2, reg 1),
            mov!(2, lsl 2, 16),
            mov!(2, lsr 2, 16),
            store!(2, BASE, COLUMN),
            call!(RUN),
            // the sign
            cmp!(5, num 0),
            branch!(EQ, 1),
            mov!(0, num 45),
            swi!(SWI_WRITE),
            $(
                $($power,)*
                cmp!(7, reg 2),
                branch!(CC, 8),
                mov!(0, num 48),
                cmp!(4, reg 2),
                branch!(CC, 2),
                sub!(4, 4, reg 2),
                add!(0, 0, num 1),
                branch!(AL, -6),
                cmp!(0, num 58),
                data_if!(CS, ADD, false, 0, 0, num 7),
                swi!(SWI_WRITE),
            )*
            // the last digit
            add!(0, 4, num 48),
            cmp!(0, num 58),
            data_if!(CS, ADD, false, 0, 0, num 7),
            swi!(SWI_WRITE),
            mov!(14, reg 8),
            back!(),
        ]
    };
}

/// The items of the routine of a number in decimal.
static DECIMAL: [Item; 183] = number!(
    first [
        mov!(8, reg 14),
        mov!(5, num 0),
        cmp!(0, num TOP_BIT),
        branch!(CC, 1),
        rsb!(0, 0, num 0),
        mov!(5, num 1)
    ],
    powers [
        [mov!(2, num 0x43b), add!(2, 2, num 0x89a), add!(2, 2, num 0xcca)],
        [mov!(2, num 0x65f), add!(2, 2, num 0xa5e), add!(2, 2, num 0xc01)],
        [mov!(2, num 0x898), add!(2, 2, num 0xc96), add!(2, 2, num 0x80)],
        [mov!(2, num 0x93d), add!(2, 2, num 0xe24)],
        [mov!(2, num 0xb61), add!(2, 2, num 0xe2a)],
        [mov!(2, num 0xd9c), add!(2, 2, num 0x10)],
        [mov!(2, num 0xffa)],
        [mov!(2, num 100)],
        [mov!(2, num 10)]
    ]
);

/// Adds the routine of a number in decimal. The only error is want of memory, and then the fragment is as it was.
pub fn emit_decimal_number(frag: &mut Frag) -> Result<(), NoMemory>
    requires { length frag.old.places ≡ routines_count }
    ensures ok { OnOk result (frag.new ≡ with_piece decimal_number frag.old) }
    ensures kept { OnErr result (frag.new ≡ frag.old) }
{
    frag.emit_all(&DECIMAL)
}

/// The items of the routine of a number in hexadecimal.
static HEXADECIMAL: [Item; 131] = number!(
    first [mov!(8, reg 14), mov!(5, num 0)],
    powers [
        [mov!(2, num 0x201)],
        [mov!(2, num 0x401)],
        [mov!(2, num 0x601)],
        [mov!(2, num 0x801)],
        [mov!(2, num 0xa01)],
        [mov!(2, num 0xc01)],
        [mov!(2, num 0xe01)]
    ]
);

/// Adds the routine of a number in hexadecimal. The only error is want of memory, and then the fragment is as it was.
pub fn emit_hexadecimal_number(frag: &mut Frag) -> Result<(), NoMemory>
    requires { length frag.old.places ≡ routines_count }
    ensures ok { OnOk result (frag.new ≡ with_piece hexadecimal_number frag.old) }
    ensures kept { OnErr result (frag.new ≡ frag.old) }
{
    frag.emit_all(&HEXADECIMAL)
}
