//! The parts of PRINT, VDU and INPUT.

ghost use Rattle.std.specs.Prelude.{◌≡◌, [], true, false};
ghost use Rattle.expr_parse.specs.Reads.{Reads};
ghost use Rattle.bas_ast.specs.Statements.{input_target};
ghost use Rattle.bas_parse.specs.Statements as spec;

use crate::marks::{ended, joins, semicolon, separator};
use crate::targets::target;
use bas_ast::{Any, InputPart, Keyword, NumberFormat, PrintPart, Target, Terminal, VduPart};
use expr_parse::{
    Failure, close, comma, longest_any, longest_num, longest_operand, optional, past, pushed, with,
};
use sqlite_items::Items;
use std::alloc::Global;

/// An expression as a part of PRINT.
fn printed(expression: Any) -> PrintPart
    ensures { result ≡ spec.printed expression }
{
    match expression {
        Any::Number(x) => PrintPart::Number(NumberFormat::Decimal, x),
        Any::Text(y) => PrintPart::Text(y),
    }
}

/// A number of PRINT after `~`.
#[tactic(auto, unfolding(expr_parse::specs::Parse::on_front))]
fn hexadecimal(alloc: Global, list: &mut &[Terminal]) -> Result<(PrintPart, bool), Failure>
    ensures { Reads (spec.hexadecimal_part list.old.now) result list.new.now }
{
    let x = longest_num(alloc, list)?;
    Ok((PrintPart::Number(NumberFormat::Hexadecimal, x), true))
}

/// What follows SPC.
#[tactic(auto, unfolding(expr_parse::specs::Parse::on_front))]
fn spaces(alloc: Global, list: &mut &[Terminal]) -> Result<(PrintPart, bool), Failure>
    ensures { Reads (spec.spaces_part list.old.now) result list.new.now }
{
    let x = longest_operand(alloc, list)?;
    Ok((PrintPart::Spaces(x), true))
}

/// What follows TAB(
#[tactic(auto, unfolding(expr_parse::specs::Parse::on_front, expr_parse::specs::Parse::on_some))]
fn tab(alloc: Global, list: &mut &[Terminal]) -> Result<(PrintPart, bool), Failure>
    ensures { Reads (spec.tab_part list.old.now) result list.new.now }
{
    let x = longest_num(alloc, list)?;
    let x = past(x, close(list))?;
    Ok((PrintPart::Tab(x), false))
}

/// An expression of PRINT, where one stands directly before or not.
#[tactic(auto, unfolding(expr_parse::specs::Parse::on_front))]
fn expression(
    alloc: Global,
    after: bool,
    list: &mut &[Terminal],
) -> Result<(PrintPart, bool), Failure>
    ensures { Reads (spec.expression_part after list.old.now) result list.new.now }
{
    if after && joins(list) {
        return Err(Failure::Absent);
    }
    let x = longest_any(alloc, list)?;
    Ok((printed(x), true))
}

/// A part of PRINT, where an expression stands directly before or not, and whether one stands directly before what is
/// next.
#[tactic(auto, unfolding(crate::specs::Statements::print_part_at))]
fn print_part(
    alloc: Global,
    after: bool,
    list: &mut &[Terminal],
) -> Result<(PrintPart, bool), Failure>
    ensures { Reads (spec.print_part_at after list.old.now) result list.new.now }
{
    match *list {
        [Terminal::Comma, rest @ ..] => {
            *list = rest;
            Ok((PrintPart::Comma, false))
        }
        [Terminal::Semicolon, rest @ ..] => {
            *list = rest;
            Ok((PrintPart::Semicolon, false))
        }
        [Terminal::Apostrophe, rest @ ..] => {
            *list = rest;
            Ok((PrintPart::NewLine, false))
        }
        [Terminal::Tilde, rest @ ..] => {
            *list = rest;
            hexadecimal(alloc, list)
        }
        [Terminal::Keyword(Keyword::Spc), rest @ ..] => {
            *list = rest;
            spaces(alloc, list)
        }
        [Terminal::Keyword(Keyword::Tab), rest @ ..] => {
            *list = rest;
            tab(alloc, list)
        }
        _ => expression(alloc, after, list),
    }
}

/// What follows PRINT.
#[tactic(auto, unfolding(crate::specs::Statements::print_at))]
pub fn print(alloc: Global, list: &mut &[Terminal]) -> Result<Items<PrintPart>, Failure>
    ensures { Reads (spec.print_at list.old.now) result list.new.now }
{
    let mut parts = Items::new(alloc);
    let mut after = false;
    for _turn in 0..list.len() {
        let mut rest = *list;
        let (before, found) = with(parts, optional(print_part(alloc, after, &mut rest)))?;
        match found {
            Some((part, expression)) => {
                *list = rest;
                parts = pushed(before, part)?;
                after = expression;
            }
            None => return Ok(before),
        }
    }
    Ok(parts)
}

/// What follows VDU.
#[tactic(auto, unfolding(crate::specs::Statements::vdu_at, expr_parse::specs::Parse::on_some))]
pub fn vdu(alloc: Global, list: &mut &[Terminal]) -> Result<Items<VduPart>, Failure>
    ensures { Reads (spec.vdu_at list.old.now) result list.new.now }
{
    let mut parts = Items::new(alloc);
    for _turn in 0..list.len() + 1 {
        let (before, x) = with(parts, longest_num(alloc, list))?;
        if comma(list).is_ok() {
            parts = pushed(before, VduPart::Byte(x))?;
        } else if semicolon(list).is_ok() {
            parts = pushed(before, VduPart::Word(x))?;
            if ended(list) {
                return Ok(parts);
            }
        } else {
            return Ok(pushed(before, VduPart::Byte(x))?);
        }
    }
    Err(Failure::Absent)
}

/// A target of INPUT, where a prompt stands directly before or not.
fn input_target(prompted: bool, target: Target) -> InputPart
    ensures { result ≡ input_target prompted target }
{
    if prompted {
        InputPart::Prompted(target)
    } else {
        InputPart::Asked(target)
    }
}

/// A part of INPUT, where a prompt stands directly before or not, and whether it is a prompt.
#[tactic(auto, unfolding(crate::specs::Statements::input_part_at, expr_parse::specs::Parse::on_front))]
fn input_part(
    alloc: Global,
    prompted: bool,
    list: &mut &[Terminal],
) -> Result<(InputPart, bool), Failure>
    ensures { Reads (spec.input_part_at prompted list.old.now) result list.new.now }
{
    match *list {
        [Terminal::Literal(number), rest @ ..] => {
            *list = rest;
            Ok((InputPart::Prompt(*number), true))
        }
        _ => input_from(alloc, prompted, list),
    }
}

/// A target as a part of INPUT.
#[tactic(auto, unfolding(expr_parse::specs::Parse::on_front))]
fn input_from(
    alloc: Global,
    prompted: bool,
    list: &mut &[Terminal],
) -> Result<(InputPart, bool), Failure>
    ensures { Reads (spec.target_part prompted list.old.now) result list.new.now }
{
    let target = target(alloc, list)?;
    Ok((input_target(prompted, target), false))
}

/// What follows INPUT, and LINE after it.
#[tactic(auto, unfolding(crate::specs::Statements::input_at, expr_parse::specs::Parse::on_some))]
pub fn input(alloc: Global, list: &mut &[Terminal]) -> Result<Items<InputPart>, Failure>
    ensures { Reads (spec.input_at list.old.now) result list.new.now }
{
    let mut parts = Items::new(alloc);
    let mut prompted = false;
    for _turn in 0..list.len() + 1 {
        let (before, (part, prompt)) = with(parts, input_part(alloc, prompted, list))?;
        parts = pushed(before, part)?;
        let more = prompt && !ended(list);
        if separator(list).is_ok() {
            prompted = false;
        } else if more {
            prompted = true;
        } else {
            return Ok(parts);
        }
    }
    Err(Failure::Absent)
}
