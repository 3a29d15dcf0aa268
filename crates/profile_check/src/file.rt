//! From the bytes of a file to the program that it holds.

ghost use Rattle.std.specs.Prelude.{◌≡◌, ◌≤◌, ◌⊎◌, length, IfOk, IfErr, IsOkUnless, IsErrAnd};
ghost use Rattle.std.specs.List.{AllByRecursion};
ghost use Rattle.bv_base.specs.declared.limits.TheConstants.{LONGEST_TEXT};
ghost use Rattle.bas_ast.specs.declared.program.Prog.{Prog as Program};
ghost use Rattle.bas_ast.specs.WellFormed.{WellFormed};
ghost use Rattle.profile_check.specs.Files.{Accepted, Refused, FileExplained};
ghost use Rattle.profile_check.specs.declared.refusal.Refusal.{Refusal as Reason};

use crate::program::check;
use crate::refusal::{LONG_FILE, Refusal};
use bas_ast::Prog;
use bv_base::FILE_BYTES;
use std::alloc::Global;
use token_file::{FileError, read_file};

impl From<FileError> for Refusal {
    ghost use Rattle.std.specs.Prelude.{◌≡◌};
    ghost use Rattle.profile_check.specs.Files.{refusal_of};

    ghost from_gives = { λ error refusal. refusal ≡ refusal_of error };

    fn from(error: FileError) -> Refusal {
        match error {
            FileError::Malformed { at } => Refusal::Malformed { at },
            FileError::NoMemory => Refusal::NoMemory,
        }
    }
}

/// The program that a file holds, or why it is refused.
fn read_bytes(alloc: Global, bytes: &[u8]) -> Result<Prog, Refusal>
    ensures ok { IfOk result (Accepted bytes.now) }
    ensures well_formed { IfOk result WellFormed }
    ensures texts { IfOk result (λ prog. AllByRecursion (λ text. length text ≤ LONGEST_TEXT) prog.texts) }
    ensures data { IfOk result (λ prog. AllByRecursion (λ d. length d.text ≤ LONGEST_TEXT) prog.data_items) }
    ensures err { IfErr result (FileExplained bytes.now) }
{
    if bytes.len() > FILE_BYTES as usize {
        return Err(LONG_FILE);
    }
    let lines = read_file(alloc, bytes)?;
    check(alloc, lines.as_slice())
}

/// The program that a file holds; or the first cause why it is refused: it has too many bytes, it is malformed, or its
/// lines are no program.
pub fn read_program(alloc: Global, bytes: &[u8]) -> Result<Prog, Refusal>
    ensures accepted { IfOk result (Accepted bytes.now) }
    ensures well_formed { IfOk result WellFormed }
    ensures texts { IfOk result (λ prog. AllByRecursion (λ text. length text ≤ LONGEST_TEXT) prog.texts) }
    ensures data { IfOk result (λ prog. AllByRecursion (λ d. length d.text ≤ LONGEST_TEXT) prog.data_items) }
    ensures refused { IfErr result (FileExplained bytes.now) }

    // An accepted file is read, and a refused one refused for its reason, where there is memory.
    ensures complete { (prog : Program) → Accepted bytes.now prog → IsOkUnless result Refusal.NoMemory }
    ensures exact { (reason : Reason) → Refused bytes.now reason → IsErrAnd result (λ error. (error ≡ reason) ⊎ (error ≡ Refusal.NoMemory)) }
{
    read_bytes(alloc, bytes)
}
