//! The code of a whole program: an image's first words, the texts, the library, the branches to items, and the operations.
ghost use Rattle.std.specs.Prelude.{◌≡◌, ◌+◌, ◌<◌, ◌^◌, ◌++◌, IfOk, OnOk, length};
ghost use Rattle.bas_ir.specs.Places.{marks_in};
ghost use Rattle.bas_ir.specs.WellFormed.{IsLaidOut};
ghost use Rattle.code_frag.specs.Words.{IsOpen};
ghost use Rattle.codegen.specs.Agrees.{AreBytes};
ghost use Rattle.codegen.specs.Emission.{with_code};
ghost use Rattle.codegen.specs.Operations.{main_label, raise_label, item_label};
ghost use Rattle.codegen.specs.Placing.{front, with_library, with_beginning, with_program, AreOpen, addresses};
ghost use Rattle.codegen.specs.Program.{header, prologue, program, data_bytes, branches_start};

use crate::data::emit_restore;
use crate::image_texts::{data_bytes, emit_bytes, first_item, text_addresses};
use crate::instructions::emit_process;
use crate::labels::{CLOSING_TEXT, MAIN, RAISE, item_label};
use crate::loads::{THIRD_BYTE, emit_load};
use crate::operations::emit_end;
use crate::placing::{add_labels, emit_branches, emit_ops};
use crate::registers::{BASE, NUMBERS, NUMBERS_END, RESIDENTS, STACK, STACK_END, TEXTS, TEXTS_END};
use arm_isa::numbers::{AL, MOV};
use bas_ir::Ir;
use bv_base::NoMemory;
use code_frag::Frag;
use runtime_lib::routines;
use std::alloc::Global;

/// Adds an image's first words, which lead to where the program begins. The only error is want of memory.
fn emit_header(frag: &mut Frag) -> Result<(), NoMemory>
    requires { main_label < length frag.old.places }
    ensures { OnOk result (frag.new ≡ record { items = frag.old.items ++ header; places = frag.old.places }) }
{
    frag.branch(AL, false, MAIN)?;
    frag.branch(AL, false, MAIN)?;
    frag.branch(AL, false, MAIN)
}

/// An image's first words and the texts. The only error is want of memory.
fn begin(alloc: Global, ir: &Ir) -> Result<Frag, NoMemory>
    ensures built { IfOk result (λ frag. frag ≡ front ir.now) }
    ensures labels { IfOk result (λ frag. length frag.places ≡ 1) }
    ensures bytes { IfOk result (λ frag. AreBytes (data_bytes ir.now)) }
{
    let mut frag = Frag::new(alloc);
    frag.label()?;
    emit_header(&mut frag)?;
    let bytes = data_bytes(alloc, ir)?;
    emit_bytes(&mut frag, bytes.as_slice())?;
    Ok(frag)
}

/// The library after them, with all labels. The only error is want of memory.
fn with_library(alloc: Global, ir: &Ir) -> Result<Frag, NoMemory>
    ensures built { IfOk result (λ frag. frag ≡ with_library ir.now) }
    ensures few { IfOk result (λ frag. length frag.places < 2 ^ 32) }
    ensures bytes { IfOk result (λ frag. AreBytes (data_bytes ir.now)) }
{
    let mut frag = begin(alloc, ir)?;
    let library = routines(alloc)?;
    frag.join(&library.frag)?;
    add_labels(&mut frag, ir.marks.as_slice())?;
    Ok(frag)
}

/// Adds the setting of the registers that code keeps everywhere, and of the item of DATA that is the first. The only error is want of
/// memory.
fn emit_prologue(frag: &mut Frag, first: u32) -> Result<(), NoMemory>
    ensures { OnOk result (frag.new ≡ with_code (prologue first) frag.old) }
{
    emit_process(
        frag,
        AL,
        MOV,
        BASE,
        0,
        THIRD_BYTE + (RESIDENTS / 0x1_0000) as u16,
    )?;
    emit_load(frag, NUMBERS, NUMBERS_END)?;
    emit_load(frag, TEXTS, TEXTS_END)?;
    emit_load(frag, STACK, STACK_END)?;
    emit_restore(frag, first)
}

/// Adds the raising of errors, and the beginning of the program, by the address of the first item of DATA. The only error is want of
/// memory.
fn emit_beginning(frag: &mut Frag, first: u32) -> Result<(), NoMemory>
    requires raise { IsOpen frag.old raise_label }
    requires main { IsOpen frag.old main_label }
    requires labels { raise_label < length frag.old.places }
    ensures { OnOk result (frag.new ≡ with_beginning first frag.old) }
{
    frag.place(RAISE);
    frag.branch(AL, true, CLOSING_TEXT)?;
    frag.place(MAIN);
    emit_prologue(frag, first)
}

/// Adds the operations and the end after them, by the table of the texts' addresses and the address of the branches to items. The
/// only error is want of memory.
fn emit_program(frag: &mut Frag, ir: &Ir, table: &[u32], branches: u32) -> Result<(), NoMemory>
    requires laid_out { IsLaidOut ir.now }
    requires open { AreOpen 0 frag.old }
    requires labels { length frag.old.places ≡ item_label (marks_in ir.now.marks) + 1 }
    requires few { length frag.old.places < 2 ^ 32 }
    requires addresses { table.now ≡ addresses ir.now }
    requires branches { branches ≡ branches_start ir.now }
    ensures { OnOk result (frag.new ≡ with_program ir.now frag.old) }
{
    let items = emit_ops(frag, ir, table, branches)?;
    frag.place(item_label(items));
    emit_end(frag)
}

/// The code of a program. The only error is want of memory.
pub fn program_frag(alloc: Global, ir: &Ir) -> Result<Frag, NoMemory>
    requires laid_out { IsLaidOut ir.now }
    requires items { marks_in ir.now.marks ≡ length ir.now.starts }
    ensures built { IfOk result (λ frag. frag ≡ program ir.now) }
    ensures bytes { IfOk result (λ frag. AreBytes (data_bytes ir.now)) }
{
    let mut frag = with_library(alloc, ir)?;
    let branches = emit_branches(&mut frag, ir.starts.len() as u32)?;
    let table = text_addresses(alloc, ir)?;
    emit_beginning(&mut frag, first_item(ir, table.as_slice()))?;
    emit_program(&mut frag, ir, table.as_slice(), branches)?;
    Ok(frag)
}
