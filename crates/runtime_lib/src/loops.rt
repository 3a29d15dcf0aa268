//! The routines on open loops and GOSUBs, item by item. Their pieces are in `Loops.antt`.
ghost use Rattle.std.specs.Prelude.{◌≡◌, OnOk, OnErr};
ghost use Rattle.runtime_lib.specs.Routines.{with_piece};
ghost use Rattle.runtime_lib.specs.Loops.{opening, closing_word, turning};

use crate::instructions::{
    BASE, COUNT, DEPTH, add, back, branch, cmp, data, data_if, ldr, ldr_below, mov, rsb, single,
    store, sub,
};
use arm_isa::Instr;
use arm_isa::numbers::{ADD, AL, CC, CMP, CS, EQ, GE, HI, LT, MOV, NE, RSB, SUB, VC};
use bv_base::NoMemory;
use bv_num::TOO_BIG;
use code_frag::{Frag, Item};

/// The errors of these routines, by their numbers.
const NO_ROOM: u16 = 37;

const NO_FOR: u16 = 32;

const OTHER_FOR: u16 = 33;

const NO_SUBROUTINE: u16 = 38;

const NO_REPEAT: u16 = 43;

const NO_WHILE: u16 = 46;

/// The fields of the two immediates whose sum is the address of the first entry.
const ENTRIES_HIGH: u16 = 0x8bc;

const ENTRIES_LOW: u16 = 0xcb0;

/// The field of the immediate 4096.
const MOST_ENTRIES: u16 = 0xa01;

/// The field of the immediate 256, by which the cells of names come after the residents.
const CELLS: u16 = 0xc01;

/// The items of the routine that opens an entry.
static OPENING: [Item; 18] = [
    ldr!(5, BASE, COUNT),
    cmp!(5, num MOST_ENTRIES),
    branch!(CC, 1),
    mov!(1, num NO_ROOM),
    branch!(AL, 11),
    mov!(6, num ENTRIES_HIGH),
    add!(6, 6, num ENTRIES_LOW),
    add!(6, 6, lsl 5, 5),
    ldr!(7, BASE, DEPTH),
    store!(7, 6, 0),
    store!(1, 6, 4),
    store!(3, 6, 8),
    store!(4, 6, 12),
    store!(2, 6, 16),
    add!(5, 5, num 1),
    store!(5, BASE, COUNT),
    mov!(1, num 0),
    back!(),
];

/// Adds the routine that opens an entry. The only error is want of memory, and then the fragment is as it was.
pub fn emit_opening(frag: &mut Frag) -> Result<(), NoMemory>
    ensures ok { OnOk result (frag.new ≡ with_piece opening frag.old) }
    ensures kept { OnErr result (frag.new ≡ frag.old) }
{
    frag.emit_all(&OPENING)
}

/// A routine with searches: what comes before each, and what comes after the last.
macro_rules! searches {
    ($(search after [$($before:expr),*],)* last [$($last:expr),*]) => {
        [
            $(
                $($before,)*
                ldr!(5, BASE, COUNT),
                ldr!(7, BASE, DEPTH),
                mov!(6, num ENTRIES_HIGH),
                add!(6, 6, num ENTRIES_LOW),
                add!(6, 6, lsl 5, 5),
                // whether there is one more entry to look at
                cmp!(5, num 1),
                branch!(CC, 8),
                ldr_below!(2, 6, 32),
                cmp!(2, reg 7),
                branch!(EQ, 2),
                mov!(5, num 0),
                cmp!(5, num 1),
                branch!(AL, 2),
                ldr_below!(2, 6, 28),
                sub!(2, 2, reg 1),
                cmp!(2, reg 4),
                branch!(CC, 2),
                // the entry before it
                sub!(5, 5, num 1),
                sub!(6, 6, num 32),
                branch!(AL, -16),
            )*
            $($last,)*
            back!(),
        ]
    };
}

/// The items of the routine of UNTIL, ENDWHILE and RETURN.
static CLOSING_WORD: [Item; 33] = searches!(
    search after [mov!(4, num 1)],
    last [
        cmp!(5, num 0),
        branch!(NE, 4),
        cmp!(1, num 2),
        mov!(1, num NO_WHILE),
        data_if!(CC, MOV, false, 1, 0, num NO_REPEAT),
        data_if!(HI, MOV, false, 1, 0, num NO_SUBROUTINE),
        branch!(AL, 3),
        ldr_below!(2, 6, 16),
        sub!(5, 5, num 1),
        store!(5, BASE, COUNT),
        mov!(1, num 0)
    ]
);

/// Adds the routine of UNTIL, ENDWHILE and RETURN. The only error is want of memory, and then the fragment is as it was.
pub fn emit_closing_word(frag: &mut Frag) -> Result<(), NoMemory>
    ensures ok { OnOk result (frag.new ≡ with_piece closing_word frag.old) }
    ensures kept { OnErr result (frag.new ≡ frag.old) }
{
    frag.emit_all(&CLOSING_WORD)
}

/// The items of the routine of NEXT.
static TURNING: [Item; 77] = searches!(
    search after [
        mov!(4, num 1),
        cmp!(1, num 1),
        data_if!(CC, MOV, false, 1, 0, reg BASE as u16),
        data_if!(CC, RSB, false, 4, BASE, num 0)
    ],
    search after [
        cmp!(5, num 0),
        branch!(NE, 25),
        mov!(1, reg BASE as u16),
        rsb!(4, BASE, num 0)
    ],
    last [
        cmp!(5, num 0),
        mov!(1, num OTHER_FOR),
        data_if!(EQ, MOV, false, 1, 0, num NO_FOR),
        branch!(AL, 23),
        // the variable, its number, the step and the limit
        ldr_below!(1, 6, 28),
        ldr!(2, 1, 0),
        ldr_below!(3, 6, 20),
        ldr_below!(4, 6, 24),
        data!(ADD, true, 2, 2, reg 3),
        branch!(VC, 1),
        mov!(1, num TOO_BIG as u16),
        branch!(AL, 15),
        store!(2, 1, 0),
        add!(7, BASE, num CELLS),
        cmp!(1, reg 7),
        branch!(CC, 1),
        mov!(7, num 1),
        store!(7, 1, 4),
        // whether the loop goes on
        cmp!(3, num 0),
        branch!(GE, 1),
        cmp!(2, reg 4),
        branch!(AL, 0),
        cmp!(4, reg 2),
        data_if!(LT, SUB, false, 5, 5, num 1),
        ldr_below!(2, 6, 16),
        data_if!(LT, MOV, false, 2, 0, num 0),
        store!(5, BASE, COUNT),
        mov!(1, num 0)
    ]
);

/// Adds the routine of NEXT. The only error is want of memory, and then the fragment is as it was.
pub fn emit_turning(frag: &mut Frag) -> Result<(), NoMemory>
    ensures ok { OnOk result (frag.new ≡ with_piece turning frag.old) }
    ensures kept { OnErr result (frag.new ≡ frag.old) }
{
    frag.emit_all(&TURNING)
}
