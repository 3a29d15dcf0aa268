//! From the bytes of a file to those of its image.
ghost use Rattle.std.specs.Prelude.{◌≡◌, ◌⊎◌, IfOk, IfErr, IsOkUnless, IsErrAnd};
ghost use Rattle.bas_ast.specs.declared.program.Prog.{Prog as Program};
ghost use Rattle.bas_ast.specs.WellFormed.{WellFormed};
ghost use Rattle.bas_compile.specs.Correct.{CompilesTo};
ghost use Rattle.profile_check.specs.Files.{Accepted, Refused, FileExplained};
ghost use Rattle.profile_check.specs.declared.refusal.Refusal.{Refusal as Reason};
ghost use Rattle.std.specs.Prelude.{◌≤◌, length};
ghost use Rattle.std.specs.List.{AllByRecursion};
ghost use Rattle.bas_sem.specs.Meaning.{source_run};
ghost use Rattle.bv_base.specs.Limits.{file_bytes, image_words};
ghost use Rattle.bv_base.specs.Words.{AreWords};
ghost use Rattle.bv_base.specs.declared.limits.TheConstants.{LONGEST_TEXT};
ghost use Rattle.codegen.specs.Agrees.{Agrees};

use arm2_machine::write_image;
use bas_ast::Prog;
use bv_base::NoMemory;
use codegen::generate_code;
use ir_build::{all_have_code, build, code_in_items, code_well_formed, flat_runs_agree};
use profile_check::{Refusal, read_program};
use std::alloc::Global;

/// The words of a program's image, by its flat code. The only error is want of memory.
fn image_of(alloc: Global, prog: &Prog) -> Result<Vec<u32>, NoMemory>
    requires well_formed { WellFormed prog.now }
    requires texts { AllByRecursion (λ text. length text ≤ LONGEST_TEXT) prog.now.texts }
    requires data { AllByRecursion (λ d. length d.text ≤ LONGEST_TEXT) prog.now.data_items }
    requires size { prog.now.size ≤ file_bytes }
    ensures agrees { IfOk result (λ words. Agrees (source_run prog.now) words.items) }
    ensures are_words { IfOk result (λ words. AreWords words.items) }
    ensures few { IfOk result (λ words. length words.items ≤ image_words) }
{
    code_well_formed(prog);
    code_in_items(prog);
    all_have_code(prog);
    flat_runs_agree(prog);
    let ir = build(alloc, prog)?;
    generate_code(alloc, &ir)
}

/// The image file of a tokenised program, or why it has none.
fn build_image(alloc: Global, bytes: &[u8]) -> Result<Vec<u8>, Refusal>
    ensures headline { IfOk result (λ contents. CompilesTo bytes.now contents.items) }
    ensures refused { IfErr result (FileExplained bytes.now) }
{
    let prog = read_program(alloc, bytes)?;
    let words = image_of(alloc, &prog)?;
    let contents = write_image(alloc, &words)?;
    Ok(contents)
}

/// The image file of a tokenised program, which does what the program does.
pub fn compile(alloc: Global, bytes: &[u8]) -> Result<Vec<u8>, Refusal>
    ensures headline { IfOk result (λ contents. CompilesTo bytes.now contents.items) }
    ensures refused { IfErr result (FileExplained bytes.now) }

    // An accepted file is compiled, and a refused one refused for its reason, where there is memory.
    ensures complete { (program : Program) → Accepted bytes.now program → IsOkUnless result Refusal.NoMemory }
    ensures exact { (reason : Reason) → Refused bytes.now reason
        → IsErrAnd result (λ error. (error ≡ reason) ⊎ (error ≡ Refusal.NoMemory)) }
{
    build_image(alloc, bytes)
}
