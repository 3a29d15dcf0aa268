//! A program with one entry, which divides by a loop.
ghost use Rattle.std.specs.Prelude.{◌≡◌, ◌<◌, ◌/◌, ◌%◌, [], ◌∷◌, IfOk};
ghost use Rattle.code_frag.proofs.ExampleDivision.{program};
ghost use Rattle.frag_tests.specs.Shows.{Shows};

use crate::instructions::{add, back, branch, call, cmp, data, mov, sub, swi};
use crate::numbers::emit_number;
use arm_isa::Instr;
use arm_isa::numbers::{ADD, AL, CC, CMP, MOV, SUB};
use arm2_machine::{SWI_END, SWI_WRITE};
use bv_base::{IMAGE_START, NoMemory};
use code_frag::{Frag, Item, Label};
use std::alloc::Global;

/// The caller, after the numbers: it writes the quotient and the rest.
static CALLER: [Item; 8] = [
    call!(0),
    mov!(3, reg 0),
    mov!(0, reg 2),
    swi!(SWI_WRITE),
    mov!(0, reg 3),
    swi!(SWI_WRITE),
    mov!(0, num 0),
    swi!(SWI_END),
];

/// The entry: R2 = R0 divided by R1, and R0 the rest.
static DIVIDE: [Item; 7] = [
    mov!(2, num 0),
    cmp!(0, reg 1),
    branch!(CC, 2),
    sub!(0, 0, reg 1),
    add!(2, 2, num 1),
    branch!(AL, -6),
    back!(),
];

/// The code of the program.
fn code(alloc: Global, x: u8, y: u8) -> Result<Frag, NoMemory>
    ensures { IfOk result (λ frag. frag ≡ program x y) }
{
    let mut frag = Frag::new(alloc);
    let entry = frag.label()?;
    emit_number(&mut frag, 0, x)?;
    emit_number(&mut frag, 1, y)?;
    frag.emit_all(&CALLER)?;
    frag.place(entry);
    frag.emit_all(&DIVIDE)?;
    Ok(frag)
}

/// The words of a program that divides x by y, and writes the quotient and the rest. The only error is want of memory.
pub fn division_words(alloc: Global, x: u8, y: u8) -> Result<Vec<u32>, NoMemory>
    requires { 0 < y }
    ensures { IfOk result (λ words. Shows words.items (x / y ∷ x % y ∷ [])) }
{
    let frag = code(alloc, x, y)?;
    let words = frag.resolve(alloc, IMAGE_START)?;
    Ok(words)
}
