//! Targets, variables and the parts of DIM.

ghost use Rattle.expr_parse.specs.Reads.{Reads, Takes};
ghost use Rattle.bas_parse.specs.Operands as spec;

use bas_ast::{DimPart, NumTarget, SimpleVariable, StrTarget, Target, Terminal, Variable, Width};
use expr_parse::{
    Failure, longest_num, longest_offset, longest_operand, optional, whole_subscripts, with,
};
use std::alloc::Global;

/// Where a number is stored, after its variable.
#[tactic(auto, unfolding(crate::specs::Operands::placed, expr_parse::specs::Parse::or_front))]
fn placed(alloc: Global, variable: Variable, list: &mut &[Terminal]) -> Result<Target, Failure>
    ensures { Reads (spec.placed variable list.old.now) result list.new.now }
{
    let mut after = *list;
    let (variable, offset) = with(variable, optional(longest_offset(alloc, &mut after)))?;
    match offset {
        Some((width, x)) => {
            *list = after;
            Ok(Target::Number(NumTarget::IndirectSum(width, variable, x)))
        }
        None => Ok(Target::Number(NumTarget::Variable(variable))),
    }
}

/// Where a number is stored, after the name of an array.
#[tactic(auto, unfolding(crate::specs::Operands::target_at, expr_parse::specs::Parse::on_front))]
fn element(alloc: Global, name: u16, list: &mut &[Terminal]) -> Result<Target, Failure>
    ensures { Reads (spec.element_target name list.old.now) result list.new.now }
{
    let subscripts = whole_subscripts(alloc, list)?;
    placed(alloc, Variable::Element(name, subscripts), list)
}

/// Where a string is stored, after the name of an array.
#[tactic(auto, unfolding(expr_parse::specs::Parse::on_front))]
fn text_element(alloc: Global, name: u16, list: &mut &[Terminal]) -> Result<Target, Failure>
    ensures { Reads (spec.text_element_target name list.old.now) result list.new.now }
{
    let subscripts = whole_subscripts(alloc, list)?;
    let variable = Variable::Element(name, subscripts);
    Ok(Target::Text(StrTarget::Variable(variable)))
}

/// Where a number is stored, after `?` or `!`.
#[tactic(auto, unfolding(expr_parse::specs::Parse::on_front))]
fn indirect(alloc: Global, width: Width, list: &mut &[Terminal]) -> Result<Target, Failure>
    ensures { Reads (spec.indirect_target width list.old.now) result list.new.now }
{
    let x = longest_operand(alloc, list)?;
    Ok(Target::Number(NumTarget::Indirect(width, x)))
}

/// Where a string is stored, after `$`.
#[tactic(auto, unfolding(expr_parse::specs::Parse::on_front))]
fn text_indirect(alloc: Global, list: &mut &[Terminal]) -> Result<Target, Failure>
    ensures { Reads (spec.text_indirect_target list.old.now) result list.new.now }
{
    let x = longest_operand(alloc, list)?;
    Ok(Target::Text(StrTarget::Indirect(x)))
}

/// Where a value of either kind is stored.
#[tactic(auto, unfolding(crate::specs::Operands::target_at))]
pub fn target(alloc: Global, list: &mut &[Terminal]) -> Result<Target, Failure>
    ensures { Reads (spec.target_at list.old.now) result list.new.now }
{
    match *list {
        [Terminal::IntName(name), rest @ ..] => {
            *list = rest;
            placed(alloc, Variable::Simple(*name), list)
        }
        [Terminal::IntArray(name), rest @ ..] => {
            *list = rest;
            element(alloc, *name, list)
        }
        [Terminal::StrName(name), rest @ ..] => {
            *list = rest;
            let variable = Variable::Simple(*name);
            Ok(Target::Text(StrTarget::Variable(variable)))
        }
        [Terminal::StrArray(name), rest @ ..] => {
            *list = rest;
            text_element(alloc, *name, list)
        }
        [Terminal::Indirection(width), rest @ ..] => {
            *list = rest;
            indirect(alloc, *width, list)
        }
        [Terminal::Dollar, rest @ ..] => {
            *list = rest;
            text_indirect(alloc, list)
        }
        _ => Err(Failure::Absent),
    }
}

/// A variable that is no array's element.
#[tactic(auto, unfolding(crate::specs::Operands::simple_at))]
pub fn simple(list: &mut &[Terminal]) -> Result<SimpleVariable, Failure>
    ensures { Takes (spec.simple_at list.old.now) result list.old.now list.new.now }
{
    match *list {
        [Terminal::IntName(name), rest @ ..] => {
            *list = rest;
            Ok(SimpleVariable::Number(*name))
        }
        [Terminal::StrName(name), rest @ ..] => {
            *list = rest;
            Ok(SimpleVariable::Text(*name))
        }
        _ => Err(Failure::Absent),
    }
}

/// A variable of FOR and NEXT.
#[tactic(auto, unfolding(crate::specs::Operands::int_name_at))]
pub fn int_name(list: &mut &[Terminal]) -> Result<u16, Failure>
    ensures { Takes (spec.int_name_at list.old.now) result list.old.now list.new.now }
{
    match *list {
        [Terminal::IntName(name), rest @ ..] => {
            *list = rest;
            Ok(*name)
        }
        _ => Err(Failure::Absent),
    }
}

/// A reference to a line.
#[tactic(auto, unfolding(crate::specs::Operands::line_at))]
pub fn line(list: &mut &[Terminal]) -> Result<u16, Failure>
    ensures { Takes (spec.line_at list.old.now) result list.old.now list.new.now }
{
    match *list {
        [Terminal::LineRef(number), rest @ ..] => {
            *list = rest;
            Ok(*number)
        }
        _ => Err(Failure::Absent),
    }
}

/// A part of DIM that reserves bytes, after its variable.
#[tactic(auto, unfolding(expr_parse::specs::Parse::on_front))]
fn dim_bytes(alloc: Global, name: u16, list: &mut &[Terminal]) -> Result<DimPart, Failure>
    ensures { Reads (spec.dim_bytes name list.old.now) result list.new.now }
{
    let x = longest_num(alloc, list)?;
    Ok(DimPart::Bytes(name, x))
}

/// A part of DIM that makes an array of numbers, after its name.
#[tactic(auto, unfolding(expr_parse::specs::Parse::on_front))]
fn dim_numbers(alloc: Global, name: u16, list: &mut &[Terminal]) -> Result<DimPart, Failure>
    ensures { Reads (spec.dim_numbers name list.old.now) result list.new.now }
{
    let bounds = whole_subscripts(alloc, list)?;
    Ok(DimPart::Numbers(name, bounds))
}

/// A part of DIM that makes an array of strings, after its name.
#[tactic(auto, unfolding(expr_parse::specs::Parse::on_front))]
fn dim_texts(alloc: Global, name: u16, list: &mut &[Terminal]) -> Result<DimPart, Failure>
    ensures { Reads (spec.dim_texts name list.old.now) result list.new.now }
{
    let bounds = whole_subscripts(alloc, list)?;
    Ok(DimPart::Texts(name, bounds))
}

/// A part of DIM.
#[tactic(auto, unfolding(crate::specs::Operands::dim_part_at))]
pub fn dim_part(alloc: Global, list: &mut &[Terminal]) -> Result<DimPart, Failure>
    ensures { Reads (spec.dim_part_at list.old.now) result list.new.now }
{
    match *list {
        [Terminal::IntName(name), rest @ ..] => {
            *list = rest;
            dim_bytes(alloc, *name, list)
        }
        [Terminal::IntArray(name), rest @ ..] => {
            *list = rest;
            dim_numbers(alloc, *name, list)
        }
        [Terminal::StrArray(name), rest @ ..] => {
            *list = rest;
            dim_texts(alloc, *name, list)
        }
        _ => Err(Failure::Absent),
    }
}
