//! From the lines of a file to the program that they are.

ghost use Rattle.std.specs.Prelude.{◌≤◌, ◌<◌, ◌^◌, length, IfOk, IfErr};
ghost use Rattle.std.specs.List.{AllByRecursion};
ghost use Rattle.bas_ast.specs.WellFormed.{WellFormed};
ghost use Rattle.profile_check.specs.Programs.{IsProgram, file_size};
ghost use Rattle.profile_check.specs.Refused.{Explained};

use crate::cutting::cut_lines;
use crate::labels::labels_of;
use crate::lines::parse_lines;
use crate::refusal::{Refusal, TOO_MANY_NAMES};
use crate::size::file_size;
use crate::tables::Tables;
use bas_ast::Prog;
use bas_rules::{find_unclosed, listed};
use bv_base::{LONGEST_TEXT, NAMES};
use std::alloc::Global;
use token_file::Line;

/// The program that the lines of a file are; or the first cause why they are none: a line outside the language, a
/// structure without its end, or too many names. A name, a string literal and an item of DATA have their places in the
/// program's lists, in the order of the file.
pub fn check(alloc: Global, lines: &[Line]) -> Result<Prog, Refusal>
    requires short { AllByRecursion (λ line. length line.text ≤ LONGEST_TEXT) lines.now }
    requires small { file_size lines.now < 2 ^ 32 }
    ensures ok { IfOk result (IsProgram lines.now) }
    ensures well_formed { IfOk result WellFormed }
    ensures texts { IfOk result (λ prog. AllByRecursion (λ text. length text ≤ LONGEST_TEXT) prog.texts) }
    ensures data { IfOk result (λ prog. AllByRecursion (λ d. length d.text ≤ LONGEST_TEXT) prog.data_items) }
    ensures err { IfErr result (Explained lines.now) }
{
    let cutting = cut_lines(alloc, lines)?;
    let labels = labels_of(alloc, cutting.lines.as_slice())?;
    let mut tables = Tables::new(alloc);
    let progs = parse_lines(
        alloc,
        labels.as_slice(),
        cutting.lines.as_slice(),
        &mut tables,
    )?;
    match cutting.bad {
        Some(line) => return Err(Refusal::Outside { line }),
        None => {}
    }
    match find_unclosed(progs.as_slice())? {
        Some(line) => return Err(Refusal::Outside { line }),
        None => {}
    }
    if tables.names.len() > NAMES as usize {
        return Err(TOO_MANY_NAMES);
    }
    Ok(Prog {
        lines: progs,
        names: listed(alloc, &tables.names)?,
        texts: tables.texts,
        data_items: tables.data_items,
        size: file_size(lines),
    })
}
