//! The lines of a program cut into symbols, each read with the assembler as the line before left it.

ghost use Rattle.std.specs.Prelude.{◌≤◌, false, length, IfOk};
ghost use Rattle.std.specs.List.{AllByRecursion};
ghost use Rattle.profile_check.specs.Cutting.{IsCut, cuts_of};

use crate::cut_line::CutLine;
use bas_lex::{LexError, symbols};
use bv_base::{LONGEST_TEXT, NoMemory};
use sqlite_items::Items;
use std::alloc::Global;
use token_file::Line;

/// The lines up to the first that has a place where no symbol begins.
#[derive(Drop)]
pub struct Cutting<'a> {
    pub lines: Items<CutLine<'a>>,
    /// The number of the line with such a place, if there is one.
    pub bad: Option<u16>,
}

/// Cuts the lines, from the first on, which begins outside the assembler.
pub fn cut_lines(alloc: Global, lines: &[Line]) -> Result<Cutting<'_>, NoMemory>
    requires { AllByRecursion (λ line. length line.text ≤ LONGEST_TEXT) lines.now }
    ensures { IfOk result (λ cutting. IsCut false lines.now (cuts_of cutting.lines) cutting.bad) }
{
    let mut cut = Items::new(alloc);
    let mut asm = false;
    for line in lines {
        match symbols(alloc, line.text.as_slice(), asm) {
            Ok(run) => {
                cut.push(CutLine {
                    number: line.number,
                    text: line.text.as_slice(),
                    asm,
                    symbols: run.list,
                })?;
                asm = run.asm_after;
            }
            Err(LexError::Bad { .. }) => {
                return Ok(Cutting {
                    lines: cut,
                    bad: Some(line.number),
                });
            }
            Err(LexError::NoMemory) => return Err(NoMemory),
        }
    }
    Ok(Cutting {
        lines: cut,
        bad: None,
    })
}
