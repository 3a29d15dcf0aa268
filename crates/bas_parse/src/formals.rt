//! Formal parameters of DEF.

ghost use Rattle.expr_parse.specs.Reads.{Reads};
ghost use Rattle.bas_parse.specs.Operands as spec;

use crate::targets::simple;
use bas_ast::{Formal, Keyword, Terminal};
use expr_parse::{Failure, close, comma, past, pushed, with};
use sqlite_items::Items;
use std::alloc::Global;

/// A variable that is a formal parameter.
#[tactic(auto, unfolding(crate::specs::Operands::formal_by, expr_parse::specs::Parse::on_front))]
fn by(returns: bool, list: &mut &[Terminal]) -> Result<Formal, Failure>
    ensures { Reads (spec.formal_by returns list.old.now) result list.new.now }
{
    let variable = simple(list)?;
    Ok(Formal { returns, variable })
}

/// A formal parameter.
#[tactic(auto, unfolding(crate::specs::Operands::formal_at))]
fn formal(list: &mut &[Terminal]) -> Result<Formal, Failure>
    ensures { Reads (spec.formal_at list.old.now) result list.new.now }
{
    match *list {
        [Terminal::Keyword(Keyword::Return), rest @ ..] => {
            *list = rest;
            by(true, list)
        }
        _ => by(false, list),
    }
}

/// Formal parameters, with the bracket that closes them.
#[tactic(auto, unfolding(crate::specs::Operands::formals_at, expr_parse::specs::Parse::on_some))]
pub fn formals(alloc: Global, list: &mut &[Terminal]) -> Result<Items<Formal>, Failure>
    ensures { Reads (spec.formals_at list.old.now) result list.new.now }
{
    let mut found = Items::new(alloc);
    for _turn in 0..list.len() + 1 {
        let (before, formal) = with(found, formal(list))?;
        found = pushed(before, formal)?;
        if close(list).is_ok() {
            return Ok(found);
        }
        found = past(found, comma(list))?;
    }
    Err(Failure::Absent)
}
