//! Assignments, LET and SWAP.

ghost use Rattle.std.specs.Prelude.{◌≡◌};
ghost use Rattle.expr_parse.specs.Reads.{Reads};
ghost use Rattle.bas_parse.specs.Statements as spec;

use crate::kept::{absent, nothing};
use crate::marks::equals;
use crate::targets::target;
use bas_ast::{Assignment, BinaryOp, Comparison, Target, Terminal};
use expr_parse::{Failure, comma, longest_num, longest_text, past, with};
use std::alloc::Global;

/// A value for a target after `=`.
#[tactic(auto, unfolding(expr_parse::specs::Parse::on_front))]
fn stored(alloc: Global, target: Target, list: &mut &[Terminal]) -> Result<Assignment, Failure>
    ensures { Reads (spec.stored target list.old.now) result list.new.now }
{
    match target {
        Target::Number(number) => {
            let (number, x) = with(number, longest_num(alloc, list))?;
            Ok(Assignment::Number(number, x))
        }
        Target::Text(text) => {
            let (text, y) = with(text, longest_text(alloc, list))?;
            Ok(Assignment::Text(text, y))
        }
    }
}

/// A value for a target after `+=`.
#[tactic(auto, unfolding(expr_parse::specs::Parse::on_front))]
fn added(alloc: Global, target: Target, list: &mut &[Terminal]) -> Result<Assignment, Failure>
    ensures { Reads (spec.added target list.old.now) result list.new.now }
{
    match target {
        Target::Number(number) => {
            let (number, x) = with(number, longest_num(alloc, list))?;
            Ok(Assignment::Add(number, x))
        }
        Target::Text(text) => {
            let (text, y) = with(text, longest_text(alloc, list))?;
            Ok(Assignment::Append(text, y))
        }
    }
}

/// A value for a target after `-=`.
#[tactic(auto, unfolding(expr_parse::specs::Parse::on_front))]
fn subtracted(alloc: Global, target: Target, list: &mut &[Terminal]) -> Result<Assignment, Failure>
    ensures { Reads (spec.subtracted target list.old.now) result list.new.now }
{
    match target {
        Target::Number(number) => {
            let (number, x) = with(number, longest_num(alloc, list))?;
            Ok(Assignment::Subtract(number, x))
        }
        Target::Text(text) => absent(text),
    }
}

/// A sign and a value for a target.
#[tactic(auto, unfolding(crate::specs::Statements::signed))]
fn signed(alloc: Global, target: Target, list: &mut &[Terminal]) -> Result<Assignment, Failure>
    ensures { Reads (spec.signed target list.old.now) result list.new.now }
{
    match *list {
        [
            Terminal::Operator(BinaryOp::Compare(Comparison::Equal)),
            rest @ ..,
        ] => {
            *list = rest;
            stored(alloc, target, list)
        }
        [Terminal::PlusEquals, rest @ ..] => {
            *list = rest;
            added(alloc, target, list)
        }
        [Terminal::MinusEquals, rest @ ..] => {
            *list = rest;
            subtracted(alloc, target, list)
        }
        _ => absent(target),
    }
}

/// An assignment by any of its signs.
#[tactic(auto, unfolding(crate::specs::Statements::assignment_at, expr_parse::specs::Parse::on_front))]
pub fn assignment(alloc: Global, list: &mut &[Terminal]) -> Result<Assignment, Failure>
    ensures { Reads (spec.assignment_at list.old.now) result list.new.now }
{
    let target = target(alloc, list)?;
    signed(alloc, target, list)
}

/// What follows LET: an assignment by `=`.
#[tactic(auto, unfolding(crate::specs::Statements::let_at, expr_parse::specs::Parse::on_front, expr_parse::specs::Parse::on_some))]
pub fn let_assignment(alloc: Global, list: &mut &[Terminal]) -> Result<Assignment, Failure>
    ensures { Reads (spec.let_at list.old.now) result list.new.now }
{
    let target = target(alloc, list)?;
    let target = past(target, equals(list))?;
    stored(alloc, target, list)
}

/// Two targets of one kind.
fn swapped(left: Target, right: Target) -> Option<Assignment>
    ensures { result ≡ spec.swap_of left right }
{
    match left {
        Target::Number(left) => match right {
            Target::Number(right) => Some(Assignment::SwapNumbers(left, right)),
            Target::Text(right) => nothing((left, right)),
        },
        Target::Text(left) => match right {
            Target::Number(right) => nothing((left, right)),
            Target::Text(right) => Some(Assignment::SwapTexts(left, right)),
        },
    }
}

/// The second target of SWAP.
#[tactic(auto, unfolding(expr_parse::specs::Parse::on_front, expr_parse::specs::Parse::on_some))]
fn swap_with(alloc: Global, left: Target, list: &mut &[Terminal]) -> Result<Assignment, Failure>
    ensures { Reads (spec.swap_with left list.old.now) result list.new.now }
{
    let (left, right) = with(left, target(alloc, list))?;
    match swapped(left, right) {
        Some(swap) => Ok(swap),
        None => Err(Failure::Absent),
    }
}

/// What follows SWAP.
#[tactic(auto, unfolding(crate::specs::Statements::swap_at, expr_parse::specs::Parse::on_front, expr_parse::specs::Parse::on_some))]
pub fn swap(alloc: Global, list: &mut &[Terminal]) -> Result<Assignment, Failure>
    ensures { Reads (spec.swap_at list.old.now) result list.new.now }
{
    let left = target(alloc, list)?;
    let left = past(left, comma(list))?;
    swap_with(alloc, left, list)
}
