//! The routines on the items of DATA, item by item. Their pieces are in `Reading.antt`.
ghost use Rattle.std.specs.Prelude.{◌≡◌, OnOk, OnErr};
ghost use Rattle.runtime_lib.specs.Routines.{with_piece};
ghost use Rattle.runtime_lib.specs.Reading.{next_item, item_number};

use crate::instructions::{
    BASE, NEXT_ADDRESS, TOP_BIT, add, answered, back, branch, cmp, data, data_if, ldr, ldrb, mov,
    mul, rsb, single, store, sub,
};
use arm_isa::Instr;
use arm_isa::numbers::{ADD, AL, CC, CMP, CS, EQ, LS, MOV, NE, RSB, SUB};
use bv_base::NoMemory;
use bv_num::TOO_BIG;
use code_frag::{Frag, Item};

/// The error of READ after the last item.
const OUT_OF_DATA: u16 = 42;

/// The byte after the last item.
const END_MARK: u16 = 255;

/// The field of the immediate 2^28.
const HEXADECIMAL_BOUND: u16 = 0x201;

/// The items of the routine of the next item.
static NEXT_ITEM: [Item; 11] = [
    ldr!(0, BASE, NEXT_ADDRESS),
    ldrb!(2, 0, 0),
    cmp!(2, num END_MARK),
    branch!(NE, 1),
    mov!(1, num OUT_OF_DATA),
    branch!(AL, 3),
    add!(2, 2, reg 0),
    add!(2, 2, num 1),
    store!(2, BASE, NEXT_ADDRESS),
    mov!(1, num 0),
    back!(),
];

/// Adds the routine of the next item of DATA. The only error is want of memory, and then the fragment is as it was.
pub fn emit_next_item(frag: &mut Frag) -> Result<(), NoMemory>
    ensures ok { OnOk result (frag.new ≡ with_piece next_item frag.old) }
    ensures kept { OnErr result (frag.new ≡ frag.old) }
{
    frag.emit_all(&NEXT_ITEM)
}

/// The items of the routine of an item's number.
static ITEM_NUMBER: [Item; 70] = answered!(
    before [
        ldrb!(8, 0, 0),
        add!(2, 0, num 1),
        add!(8, 8, reg 2),
        mov!(0, num 0),
        mov!(1, num 0),
        mov!(3, num 0),
        cmp!(2, reg 8),
        branch!(CS, 0),
        ldrb!(3, 2, 0),
        cmp!(3, num 38),
        branch!(NE, 3),
        // after an ampersand
        add!(2, 2, num 1),
        mov!(6, num 16),
        mov!(7, num HEXADECIMAL_BOUND),
        branch!(AL, 18),
        // spaces
        mov!(3, num 0),
        cmp!(2, reg 8),
        branch!(CS, 0),
        ldrb!(3, 2, 0),
        cmp!(3, num 32),
        branch!(NE, 1),
        add!(2, 2, num 1),
        branch!(AL, -9),
        // a sign
        mov!(5, num 0),
        cmp!(3, num 45),
        data_if!(EQ, MOV, false, 5, 0, num 1),
        data_if!(EQ, ADD, false, 2, 2, num 1),
        cmp!(3, num 43),
        data_if!(EQ, ADD, false, 2, 2, num 1),
        mov!(6, num 10),
        // 214748365
        mov!(7, num 0x6cc),
        add!(7, 7, num 0xacc),
        add!(7, 7, num 0xecc),
        add!(7, 7, num 13),
        // digits
        mov!(3, num 0),
        cmp!(2, reg 8),
        branch!(CS, 0),
        ldrb!(3, 2, 0),
        sub!(4, 3, num 48),
        cmp!(4, num 10),
        branch!(CC, 4),
        cmp!(3, num 97),
        data_if!(CS, SUB, false, 3, 3, num 32),
        sub!(4, 3, num 65),
        cmp!(3, num 65),
        data_if!(CS, ADD, false, 4, 4, num 10),
        cmp!(4, reg 6),
        branch!(CS, 5),
        cmp!(0, reg 7),
        data_if!(CS, MOV, false, 1, 0, num TOO_BIG as u16),
        mul!(3, 0, 6),
        add!(0, 3, reg 4),
        add!(2, 2, num 1),
        branch!(AL, -21),
        // no answer where there is an error, or after an ampersand
        cmp!(1, num 0),
        branch!(NE, 12),
        cmp!(6, num 10),
        branch!(NE, 10)
    ],
    after [back!()]
);

/// Adds the routine of an item's number. The only error is want of memory, and then the fragment is as it was.
pub fn emit_item_number(frag: &mut Frag) -> Result<(), NoMemory>
    ensures ok { OnOk result (frag.new ≡ with_piece item_number frag.old) }
    ensures kept { OnErr result (frag.new ≡ frag.old) }
{
    frag.emit_all(&ITEM_NUMBER)
}
