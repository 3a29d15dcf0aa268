//! A program with one entry, which copies words and has a frame.
ghost use Rattle.std.specs.Prelude.{◌≡◌, [], ◌∷◌, IfOk};
ghost use Rattle.code_frag.proofs.ExampleCopy.{program};
ghost use Rattle.frag_tests.specs.Shows.{Shows};

use crate::instructions::{
    add, back, block, branch, call, cmp, data, mov, pull_all, push_all, single, sub, swi,
};
use crate::numbers::emit_number;
use arm_isa::Instr;
use arm_isa::numbers::{ADD, AL, CMP, EQ, MOV, SUB};
use arm2_machine::{SWI_END, SWI_WRITE};
use bv_base::{IMAGE_START, NoMemory};
use code_frag::{Frag, Item, Label};
use std::alloc::Global;

/// The caller up to the first number: the stack, the two places and how many words.
static PLACES: [Item; 4] = [
    mov!(13, num 0x8b0),
    mov!(0, num 0x890),
    mov!(1, num 0x8a0),
    mov!(2, num 2),
];

/// The first number is stored.
static FIRST: [Item; 1] = [single!(true, false, 3, 0, 0)];

/// The second number is stored, both are copied, and the copies are written.
static SECOND: [Item; 8] = [
    single!(true, false, 3, 0, 4),
    call!(0),
    single!(true, true, 0, 1, 0),
    swi!(SWI_WRITE),
    single!(true, true, 0, 1, 4),
    swi!(SWI_WRITE),
    mov!(0, num 0),
    swi!(SWI_END),
];

/// The entry: R2 words from R0 on are copied to R1 on.
static COPY: [Item; 10] = [
    push_all!(13, 0xf),
    cmp!(2, num 0),
    branch!(EQ, 4),
    single!(false, true, 3, 0, 4),
    single!(true, false, 3, 1, 0),
    add!(1, 1, num 4),
    sub!(2, 2, num 1),
    branch!(AL, -8),
    pull_all!(13, 0xf),
    back!(),
];

/// The code of the program.
fn code(alloc: Global, first: u8, second: u8) -> Result<Frag, NoMemory>
    ensures { IfOk result (λ frag. frag ≡ program first second) }
{
    let mut frag = Frag::new(alloc);
    let entry = frag.label()?;
    frag.emit_all(&PLACES)?;
    emit_number(&mut frag, 3, first)?;
    frag.emit_all(&FIRST)?;
    emit_number(&mut frag, 3, second)?;
    frag.emit_all(&SECOND)?;
    frag.place(entry);
    frag.emit_all(&COPY)?;
    Ok(frag)
}

/// The words of a program that stores two numbers, copies both to another place, and writes the copies. The only error is want
/// of memory.
pub fn copying_words(alloc: Global, first: u8, second: u8) -> Result<Vec<u32>, NoMemory>
    ensures { IfOk result (λ words. Shows words.items (first ∷ second ∷ [])) }
{
    let frag = code(alloc, first, second)?;
    let words = frag.resolve(alloc, IMAGE_START)?;
    Ok(words)
}
