//! The lines of a program as trees.

ghost use Rattle.std.specs.Prelude.{◌≡◌, ◌+◌, ◌<◌, ◌^◌, IfOk, OnOk, IfErr, length};
ghost use Rattle.profile_check.specs.Cutting.{cut_of, cuts_of};
ghost use Rattle.profile_check.specs.Tables.{lists_of, no_lists};
ghost use Rattle.profile_check.specs.Parsed as spec;

use crate::cut_line::CutLine;
use crate::refusal::Refusal;
use crate::tables::{Tables, number_line};
use bas_ast::{Item, Name, ProgLine};
use bas_parse::{one_run, parse_run};
use bas_rules::in_profile;
use bv_base::NoMemory;
use expr_parse::{ParseError, terminals};
use sqlite_items::Items;
use std::alloc::Global;

/// The items of the line at a place; or that it is outside.
fn parse_items<'a>(
    alloc: Global,
    labels: &[Name],
    place: u32,
    line: &CutLine<'a>,
    tables: &mut Tables<'a>,
) -> Result<Option<Items<Item>>, NoMemory>
    ensures items { IfOk result (spec.ItemsParsed labels.now place (lists_of tables.old) (cut_of line.now)) }
    ensures lists { OnOk result (lists_of tables.new ≡ spec.lists_after labels.now place (lists_of tables.old) (cut_of line.now)) }
{
    let symbols = line.symbols.as_slice();
    let list = terminals(alloc, labels, line.text, symbols)?;
    let numbered = number_line(alloc, tables, place, line.text, symbols, list.as_slice())?;
    if line.asm {
        return Ok(None);
    }
    match parse_run(alloc, numbered.as_slice()) {
        Ok(items) => {
            one_run(numbered.as_slice());
            if in_profile(items.as_slice()) {
                Ok(Some(items))
            } else {
                Ok(None)
            }
        }
        Err(ParseError::Outside) => Ok(None),
        Err(ParseError::NoMemory) => Err(NoMemory),
    }
}

/// The lines as trees, and what they made; or the first that is outside.
pub fn parse_lines<'a>(
    alloc: Global,
    labels: &[Name],
    lines: &[CutLine<'a>],
    tables: &mut Tables<'a>,
) -> Result<Items<ProgLine>, Refusal>
    requires few { length lines.now < 2 ^ 32 }
    requires none { lists_of tables.old ≡ no_lists }
    ensures ok { IfOk result (λ progs. spec.LinesParsed labels.now (cuts_of lines.now) progs (lists_of tables.new)) }
    ensures err { IfErr result (spec.ExplainsLines labels.now (cuts_of lines.now)) }
{
    let mut progs = Items::new(alloc);
    for i in 0..lines.len() {
        let line = &lines[i];
        let number = line.number;
        match parse_items(alloc, labels, i as u32, line, tables)? {
            Some(items) => progs.push(ProgLine { number, items })?,
            None => return Err(Refusal::Outside { line: number }),
        }
    }
    Ok(progs)
}
