//! The words of a program's image.
ghost use Rattle.std.specs.Prelude.{◌≡◌, ◌+◌, ◌*◌, ◌≤◌, IfOk, length};
ghost use Rattle.std.specs.List.{AllByRecursion};
ghost use Rattle.bas_ir.specs.Coded.{AllHaveCode, IsInItems};
ghost use Rattle.bas_ir.specs.Machine.{flat_run};
ghost use Rattle.bas_ir.specs.WellFormed.{IsWellFormed};
ghost use Rattle.bv_base.specs.Limits.{file_bytes, image_words, longest_text};
ghost use Rattle.bv_base.specs.Words.{AreWords};
ghost use Rattle.codegen.specs.Agrees.{Agrees};
ghost use Rattle.codegen.specs.Program.{most_beside};

use crate::program::program_frag;
use bas_ir::{Ir, all_have_widths};
use bv_base::{IMAGE_START, NoMemory};
use std::alloc::Global;

/// The words of the image of a flat code, in the order of their addresses. On every input the board does with them what the
/// machine of the flat code does. The only error is want of memory.
pub fn generate_code(alloc: Global, ir: &Ir) -> Result<Vec<u32>, NoMemory>
    requires well_formed { IsWellFormed ir.now }
    requires in_items { IsInItems ir.now }
    requires have_code { AllHaveCode ir.now }
    requires size { ir.now.size ≤ file_bytes }
    requires short_data { AllByRecursion (λ text. length text ≤ longest_text) ir.now.data_items }
    ensures agrees { IfOk result (λ words. Agrees (flat_run ir.now) words.items) }
    ensures are_words { IfOk result (λ words. AreWords words.items) }
    ensures short { IfOk result (λ words. 4 * length words.items ≤ 96 * ir.now.size + most_beside) }
    ensures few { IfOk result (λ words. length words.items ≤ image_words) }
{
    all_have_widths(ir);
    let frag = program_frag(alloc, ir)?;
    frag.resolve(alloc, IMAGE_START)
}
