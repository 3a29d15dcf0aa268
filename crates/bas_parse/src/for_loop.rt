//! FOR.

ghost use Rattle.expr_parse.specs.Reads.{Reads};
ghost use Rattle.bas_parse.specs.Statements as spec;

use crate::marks::{equals, step_word, to_word};
use crate::targets::int_name;
use bas_ast::{Flow, NumExpr, Stmt, Terminal};
use expr_parse::{Failure, longest_num, past, with};
use std::alloc::Global;

/// The step of FOR, which may be absent.
#[tactic(auto, unfolding(expr_parse::specs::Parse::on_front, expr_parse::specs::Parse::on_some))]
fn for_step(
    alloc: Global,
    name: u16,
    start: NumExpr,
    limit: NumExpr,
    list: &mut &[Terminal],
) -> Result<Stmt, Failure>
    ensures { Reads (spec.for_step name start limit list.old.now) result list.new.now }
{
    if step_word(list).is_err() {
        return Ok(Stmt::Flow(Flow::For(name, start, limit, None)));
    }
    let ((start, limit), step) = with((start, limit), longest_num(alloc, list))?;
    Ok(Stmt::Flow(Flow::For(name, start, limit, Some(step))))
}

/// The limit of FOR.
#[tactic(auto, unfolding(expr_parse::specs::Parse::on_front))]
fn for_limit(
    alloc: Global,
    name: u16,
    start: NumExpr,
    list: &mut &[Terminal],
) -> Result<Stmt, Failure>
    ensures { Reads (spec.for_limit name start list.old.now) result list.new.now }
{
    let (start, limit) = with(start, longest_num(alloc, list))?;
    for_step(alloc, name, start, limit, list)
}

/// The start of FOR.
#[tactic(auto, unfolding(expr_parse::specs::Parse::on_front, expr_parse::specs::Parse::on_some))]
fn for_start(alloc: Global, name: u16, list: &mut &[Terminal]) -> Result<Stmt, Failure>
    ensures { Reads (spec.for_start name list.old.now) result list.new.now }
{
    let start = longest_num(alloc, list)?;
    let start = past(start, to_word(list))?;
    for_limit(alloc, name, start, list)
}

/// What follows FOR.
#[tactic(auto, unfolding(crate::specs::Statements::for_at, expr_parse::specs::Parse::on_front, expr_parse::specs::Parse::on_some))]
pub fn for_loop(alloc: Global, list: &mut &[Terminal]) -> Result<Stmt, Failure>
    ensures { Reads (spec.for_at list.old.now) result list.new.now }
{
    let name = int_name(list)?;
    equals(list)?;
    for_start(alloc, name, list)
}
