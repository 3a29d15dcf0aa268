//! A program with two entries, one of which has a frame and calls the other.
ghost use Rattle.std.specs.Prelude.{◌≡◌, [], ◌∷◌, ◌++◌, replicate, IfOk};
ghost use Rattle.code_frag.proofs.ExampleFrame.{program};
ghost use Rattle.frag_tests.specs.Shows.{Shows};

use crate::instructions::{
    back, block, branch, call, cmp, data, mov, pull_all, push_all, sub, swi,
};
use crate::numbers::emit_number;
use arm_isa::Instr;
use arm_isa::numbers::{AL, CMP, EQ, MOV, SUB};
use arm2_machine::{SWI_END, SWI_NEW_LINE, SWI_WRITE};
use bv_base::{IMAGE_START, NoMemory};
use code_frag::{Frag, Item, Label};
use std::alloc::Global;

/// The stack.
static STACK: [Item; 1] = [mov!(13, num 0x8b0)];

/// The caller, after the number.
static CALLER: [Item; 3] = [call!(1), mov!(0, num 0), swi!(SWI_END)];

/// The entry that is called: R1 spaces.
static SPACES: [Item; 7] = [
    mov!(0, num 32),
    cmp!(1, num 0),
    branch!(EQ, 2),
    swi!(SWI_WRITE),
    sub!(1, 1, num 1),
    branch!(AL, -6),
    back!(),
];

/// The entry that calls it: R1 spaces, a new line, and R1 spaces again.
static ROWS: [Item; 8] = [
    push_all!(13, 0x4010),
    mov!(4, reg 1),
    call!(0),
    swi!(SWI_NEW_LINE),
    mov!(1, reg 4),
    call!(0),
    pull_all!(13, 0x4010),
    back!(),
];

/// The code of the program.
fn code(alloc: Global, n: u8) -> Result<Frag, NoMemory>
    ensures { IfOk result (λ frag. frag ≡ program n) }
{
    let mut frag = Frag::new(alloc);
    let spaces = frag.label()?;
    let rows = frag.label()?;
    frag.emit_all(&STACK)?;
    emit_number(&mut frag, 1, n)?;
    frag.emit_all(&CALLER)?;
    frag.place(spaces);
    frag.emit_all(&SPACES)?;
    frag.place(rows);
    frag.emit_all(&ROWS)?;
    Ok(frag)
}

/// The words of a program that writes n spaces, a new line, and n spaces. The only error is want of memory.
pub fn rows_words(alloc: Global, n: u8) -> Result<Vec<u32>, NoMemory>
    ensures { IfOk result (λ words. Shows words.items (replicate n 32 ++ (10 ∷ 13 ∷ replicate n 32))) }
{
    let frag = code(alloc, n)?;
    let words = frag.resolve(alloc, IMAGE_START)?;
    Ok(words)
}
