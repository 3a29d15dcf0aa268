//! Runs of a line: from the line's start or from a `]`, to its end or to a `[`.

ghost use Rattle.std.specs.Prelude.{◌≡◌, [], IfOk};
ghost use Rattle.expr_parse.specs.Reads.{Reads};
ghost use Rattle.bas_parse.specs.Parsed.{RunParsed};
ghost use Rattle.bas_parse.specs.Runs as spec;

use crate::formals::formals;
use crate::place::Place;
use crate::rows::{AnExpression, list_of};
use crate::steps::{Step, step};
use bas_ast::{Formal, Head, Item, Keyword, Terminal};
use expr_parse::{Failure, ParseError, optional, pushed, with};
use sqlite_items::Items;
use std::alloc::{AllocError, Global};

/// The items so far, with what a step found.
fn with_found(found: Items<Item>, item: Option<Item>) -> Result<Items<Item>, AllocError>
    ensures { IfOk result (λ items. items ≡ spec.with_found found item) }
{
    match item {
        Some(item) => pushed(found, item),
        None => Ok(found),
    }
}

/// The items so far, where nothing is left.
fn at_end(found: Items<Item>, list: &[Terminal]) -> Option<Items<Item>>
    ensures { result ≡ spec.at_end found list.now }
{
    match list {
        [] => Some(found),
        _ => None,
    }
}

/// The items from a place on, after those that were read.
fn items(
    alloc: Global,
    place: Place,
    read: Items<Item>,
    list: &[Terminal],
) -> Result<Option<Items<Item>>, AllocError>
    ensures { IfOk result (λ found. found ≡ spec.items_of_place place read list.now) }
{
    let mut found = read;
    let mut place = place;
    let mut rest = list;
    for _turn in 0..list.len() {
        let mut after = rest;
        let (before, next) = with(found, optional(step(alloc, place, &mut after)))?;
        match next {
            Some((item, place_after)) => {
                found = with_found(before, item)?;
                place = place_after;
                rest = after;
            }
            None => return Ok(at_end(before, rest)),
        }
    }
    Ok(at_end(found, rest))
}

/// A head that begins a line, after which items may follow without a `:`.
fn begun(head: Head) -> Step
    ensures { result ≡ spec.begun head }
{
    (Some(Item::Head(head)), Place::line_start())
}

/// The head of a procedure with its formal parameters.
#[tactic(auto, unfolding(expr_parse::specs::Parse::on_front))]
fn def_procedure(alloc: Global, name: u16, list: &mut &[Terminal]) -> Result<Step, Failure>
    ensures { Reads (spec.def_procedure name list.old.now) result list.new.now }
{
    let formals = formals(alloc, list)?;
    Ok(begun(Head::DefProcedure(name, formals)))
}

/// The head of a function with its formal parameters.
#[tactic(auto, unfolding(expr_parse::specs::Parse::on_front))]
fn def_function(alloc: Global, name: u16, list: &mut &[Terminal]) -> Result<Step, Failure>
    ensures { Reads (spec.def_function name list.old.now) result list.new.now }
{
    let formals = formals(alloc, list)?;
    Ok(begun(Head::DefFunction(name, formals)))
}

/// What stands after DEF.
#[tactic(auto, unfolding(crate::specs::Runs::def_at))]
fn def(alloc: Global, list: &mut &[Terminal]) -> Result<Step, Failure>
    ensures { Reads (spec.def_at list.old.now) result list.new.now }
{
    match *list {
        [Terminal::Procedure(name), rest @ ..] => {
            *list = rest;
            let formals: Items<Formal> = Items::new(alloc);
            Ok(begun(Head::DefProcedure(*name, formals)))
        }
        [
            Terminal::NumFunction(name) | Terminal::StrFunction(name),
            rest @ ..,
        ] => {
            *list = rest;
            let formals: Items<Formal> = Items::new(alloc);
            Ok(begun(Head::DefFunction(*name, formals)))
        }
        [Terminal::ProcedureOpen(name), rest @ ..] => {
            *list = rest;
            def_procedure(alloc, *name, list)
        }
        [
            Terminal::NumFunctionOpen(name) | Terminal::StrFunctionOpen(name),
            rest @ ..,
        ] => {
            *list = rest;
            def_function(alloc, *name, list)
        }
        _ => Err(Failure::Absent),
    }
}

/// What stands after WHEN.
#[tactic(auto, unfolding(expr_parse::specs::Parse::on_front))]
fn when(alloc: Global, list: &mut &[Terminal]) -> Result<Step, Failure>
    ensures { Reads (spec.when_at list.old.now) result list.new.now }
{
    let values = list_of::<AnExpression>(alloc, list)?;
    let head = Item::Head(Head::When(values));
    Ok((Some(head), Place::line_start().after_item()))
}

/// A head that needs a `:` after it.
fn ended_head(head: Head) -> Step
    ensures { result ≡ spec.ended_head head }
{
    (Some(Item::Head(head)), Place::line_start().after_item())
}

/// What begins a run: a head, a `]`, or nothing that is read yet.
#[tactic(auto, unfolding(crate::specs::Runs::first_step, crate::specs::Runs::head_at))]
fn first_step(alloc: Global, list: &mut &[Terminal]) -> Result<Step, Failure>
    ensures { Reads (spec.first_step list.old.now) result list.new.now }
{
    match *list {
        [Terminal::Keyword(Keyword::Def), rest @ ..] => {
            *list = rest;
            def(alloc, list)
        }
        [Terminal::Keyword(Keyword::When), rest @ ..] => {
            *list = rest;
            when(alloc, list)
        }
        [Terminal::Keyword(Keyword::Otherwise), rest @ ..] => {
            *list = rest;
            Ok(begun(Head::Otherwise))
        }
        [Terminal::Keyword(Keyword::BlockElse), rest @ ..] => {
            *list = rest;
            Ok(begun(Head::BlockElse))
        }
        [Terminal::Keyword(Keyword::EndIf), rest @ ..] => {
            *list = rest;
            Ok(ended_head(Head::EndIf))
        }
        [Terminal::Keyword(Keyword::EndCase), rest @ ..] => {
            *list = rest;
            Ok(ended_head(Head::EndCase))
        }
        [Terminal::CloseSquare, rest @ ..] => {
            *list = rest;
            Ok((Some(Item::EndAssembly), Place::after_ruling()))
        }
        _ => Ok((None, Place::line_start())),
    }
}

/// The items of a run, if it has any by the grammar.
#[tactic(auto, unfolding(crate::specs::Runs::run_items, crate::specs::Runs::after_step))]
fn run_items(alloc: Global, list: &[Terminal]) -> Result<Option<Items<Item>>, AllocError>
    ensures { IfOk result (λ found. found ≡ spec.run_items list.now) }
{
    let mut rest = list;
    match optional(first_step(alloc, &mut rest))? {
        Some((item, place)) => {
            let found = with_found(Items::new(alloc), item)?;
            items(alloc, place, found, rest)
        }
        None => Ok(None),
    }
}

/// The items of a run of a line: from the line's start or from a `]`, to its end or to a `[`.
#[tactic(auto, using(crate::proofs::SoundLines::run_sound, crate::proofs::CompleteRuns::run_none))]
pub fn parse_run(alloc: Global, list: &[Terminal]) -> Result<Items<Item>, ParseError>
    ensures { RunParsed list.now result }
{
    match run_items(alloc, list) {
        Ok(Some(items)) => Ok(items),
        Ok(None) => Err(ParseError::Outside),
        Err(_) => Err(ParseError::NoMemory),
    }
}
