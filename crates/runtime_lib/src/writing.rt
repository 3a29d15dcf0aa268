//! The routines that write, item by item. Their pieces are in `Writing.antt`.
ghost use Rattle.std.specs.Prelude.{◌≡◌, length, OnOk, OnErr};
ghost use Rattle.runtime_lib.specs.Routines.{routines_count, with_piece};
ghost use Rattle.runtime_lib.specs.Writing.{run, some_spaces, line_end, string_out, closing_text, to_field, to_tab};

use crate::instructions::{
    BASE, COLUMN, add, back, branch, call, cmp, data, ldr, ldrb, mov, mul, rsb, single, store, sub,
    swi,
};
use crate::labels::{DECIMAL_NUMBER, RUN};
use arm_isa::Instr;
use arm_isa::numbers::{ADD, AL, CMP, EQ, HI, MOV, RSB, SUB};
use arm2_machine::{SWI_END, SWI_NEW_LINE, SWI_WRITE};
use bv_base::NoMemory;
use code_frag::{Frag, Item};

/// The items of the routine that writes R1 spaces.
static SPACES: [Item; 7] = [
    mov!(0, num 32),
    cmp!(1, num 0),
    branch!(EQ, 2),
    swi!(SWI_WRITE),
    sub!(1, 1, num 1),
    branch!(AL, -6),
    back!(),
];

/// Adds the routine that writes R1 spaces. The only error is want of memory, and then the fragment is as it was.
pub fn emit_run(frag: &mut Frag) -> Result<(), NoMemory>
    ensures ok { OnOk result (frag.new ≡ with_piece run frag.old) }
    ensures kept { OnErr result (frag.new ≡ frag.old) }
{
    frag.emit_all(&SPACES)
}

/// The items of the routine of SPC.
static SOME_SPACES: [Item; 11] = [
    mov!(8, reg 14),
    mov!(1, lsl 0, 24),
    mov!(1, lsr 1, 24),
    ldr!(3, BASE, COLUMN),
    add!(3, 3, reg 1),
    mov!(3, lsl 3, 16),
    mov!(3, lsr 3, 16),
    store!(3, BASE, COLUMN),
    call!(RUN),
    mov!(14, reg 8),
    back!(),
];

/// Adds the routine of SPC. The only error is want of memory, and then the fragment is as it was.
pub fn emit_some_spaces(frag: &mut Frag) -> Result<(), NoMemory>
    requires { length frag.old.places ≡ routines_count }
    ensures ok { OnOk result (frag.new ≡ with_piece some_spaces frag.old) }
    ensures kept { OnErr result (frag.new ≡ frag.old) }
{
    frag.emit_all(&SOME_SPACES)
}

/// The items of the routine of a new line.
static LINE_END: [Item; 4] = [
    swi!(SWI_NEW_LINE),
    mov!(0, num 0),
    store!(0, BASE, COLUMN),
    back!(),
];

/// Adds the routine of a new line. The only error is want of memory, and then the fragment is as it was.
pub fn emit_line_end(frag: &mut Frag) -> Result<(), NoMemory>
    ensures ok { OnOk result (frag.new ≡ with_piece line_end frag.old) }
    ensures kept { OnErr result (frag.new ≡ frag.old) }
{
    frag.emit_all(&LINE_END)
}

/// The items of the routine of a string.
static STRING_OUT: [Item; 17] = [
    mov!(2, reg 0),
    ldrb!(4, 2, 0),
    mov!(1, reg 4),
    add!(2, 2, num 1),
    cmp!(4, num 0),
    branch!(EQ, 4),
    ldrb!(0, 2, 0),
    swi!(SWI_WRITE),
    add!(2, 2, num 1),
    sub!(4, 4, num 1),
    branch!(AL, -8),
    ldr!(3, BASE, COLUMN),
    add!(3, 3, reg 1),
    mov!(3, lsl 3, 16),
    mov!(3, lsr 3, 16),
    store!(3, BASE, COLUMN),
    back!(),
];

/// Adds the routine of a string. The only error is want of memory, and then the fragment is as it was.
pub fn emit_string_out(frag: &mut Frag) -> Result<(), NoMemory>
    ensures ok { OnOk result (frag.new ≡ with_piece string_out frag.old) }
    ensures kept { OnErr result (frag.new ≡ frag.old) }
{
    frag.emit_all(&STRING_OUT)
}

/// The items of the routine of the closing text.
static CLOSING_TEXT: [Item; 50] = [
    mov!(9, reg 0),
    mov!(10, reg 1),
    swi!(SWI_NEW_LINE), // before the text
    mov!(2, num 0x601),
    add!(2, 2, num 12),
    ldrb!(3, 2, 0),
    cmp!(3, reg 9),
    branch!(EQ, 0),
    cmp!(3, num 255),
    branch!(EQ, 3),
    ldrb!(4, 2, 1),
    add!(2, 2, num 2),
    add!(2, 2, reg 4),
    branch!(AL, -10),
    ldrb!(4, 2, 1),
    add!(2, 2, num 2),
    cmp!(4, num 0),
    branch!(EQ, 4),
    ldrb!(0, 2, 0),
    swi!(SWI_WRITE),
    add!(2, 2, num 1),
    sub!(4, 4, num 1),
    branch!(AL, -8),
    // ` at line `
    mov!(0, num 32),
    swi!(SWI_WRITE),
    mov!(0, num 97),
    swi!(SWI_WRITE),
    mov!(0, num 116),
    swi!(SWI_WRITE),
    mov!(0, num 32),
    swi!(SWI_WRITE),
    mov!(0, num 108),
    swi!(SWI_WRITE),
    mov!(0, num 105),
    swi!(SWI_WRITE),
    mov!(0, num 110),
    swi!(SWI_WRITE),
    mov!(0, num 101),
    swi!(SWI_WRITE),
    mov!(0, num 32),
    swi!(SWI_WRITE),
    mov!(0, reg 10),
    mov!(1, num 0),
    call!(DECIMAL_NUMBER),
    swi!(SWI_NEW_LINE),
    mov!(0, num 1),
    mov!(1, reg 9),
    mov!(2, reg 10),
    swi!(SWI_END),
    back!(),
];

/// Adds the routine of the closing text. The only error is want of memory, and then the fragment is as it was.
pub fn emit_closing_text(frag: &mut Frag) -> Result<(), NoMemory>
    requires { length frag.old.places ≡ routines_count }
    ensures ok { OnOk result (frag.new ≡ with_piece closing_text frag.old) }
    ensures kept { OnErr result (frag.new ≡ frag.old) }
{
    frag.emit_all(&CLOSING_TEXT)
}

/// The items of the routine of a comma.
static TO_FIELD: [Item; 17] = [
    mov!(8, reg 14),
    ldr!(2, BASE, COLUMN),
    add!(3, 2, num 9),
    mov!(4, num 0xccc),
    add!(4, 4, num 0xcd),
    mul!(5, 3, 4),
    mov!(5, lsr 5, 19),
    add!(5, 5, lsl 5, 2),
    rsb!(1, 2, lsl 5, 1),
    ldr!(3, BASE, COLUMN),
    add!(3, 3, reg 1),
    mov!(3, lsl 3, 16),
    mov!(3, lsr 3, 16),
    store!(3, BASE, COLUMN),
    call!(RUN),
    mov!(14, reg 8),
    back!(),
];

/// Adds the routine of a comma. The only error is want of memory, and then the fragment is as it was.
pub fn emit_to_field(frag: &mut Frag) -> Result<(), NoMemory>
    requires { length frag.old.places ≡ routines_count }
    ensures ok { OnOk result (frag.new ≡ with_piece to_field frag.old) }
    ensures kept { OnErr result (frag.new ≡ frag.old) }
{
    frag.emit_all(&TO_FIELD)
}

/// The items of the routine of TAB.
static TO_TAB: [Item; 13] = [
    mov!(8, reg 14),
    mov!(1, lsl 0, 24),
    mov!(1, lsr 1, 24),
    ldr!(2, BASE, COLUMN),
    store!(1, BASE, COLUMN),
    cmp!(2, reg 1),
    branch!(HI, 1),
    sub!(1, 1, reg 2),
    branch!(AL, 0),
    swi!(SWI_NEW_LINE),
    call!(RUN),
    mov!(14, reg 8),
    back!(),
];

/// Adds the routine of TAB. The only error is want of memory, and then the fragment is as it was.
pub fn emit_to_tab(frag: &mut Frag) -> Result<(), NoMemory>
    requires { length frag.old.places ≡ routines_count }
    ensures ok { OnOk result (frag.new ≡ with_piece to_tab frag.old) }
    ensures kept { OnErr result (frag.new ≡ frag.old) }
{
    frag.emit_all(&TO_TAB)
}
