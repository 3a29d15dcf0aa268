ghost use Rattle.std.specs.Prelude.{◌<◌, ◌^◌, length};
ghost use Rattle.expr_parse.specs.Terminals.{AreWithin, terminals_of};
ghost use Rattle.bas_parse.specs.Parsed.{RunParsed};

use crate::runs::parse_run;
use bas_ast::{Item, Name};
use bas_lex::Sym;
use expr_parse::{ParseError, terminals};
use sqlite_items::Items;
use std::alloc::Global;

/// The items of a line's symbols, which are a run. A name in the tree is the place of its symbol, from 0.
pub fn parse_line(
    alloc: Global,
    labels: &[Name],
    text: &[u8],
    syms: &[Sym],
) -> Result<Items<Item>, ParseError>
    requires few { length syms.now < 2 ^ 16 }
    requires within { AreWithin text.now syms.now }
    ensures { RunParsed (terminals_of labels.now text.now syms.now) result }
{
    let list = terminals(alloc, labels, text, syms)?;
    parse_run(alloc, list.as_slice())
}
