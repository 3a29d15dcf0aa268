//! Plain statements.

ghost use Rattle.std.specs.Prelude.{[]};
ghost use Rattle.expr_parse.specs.Reads.{Reads};
ghost use Rattle.bas_parse.specs.Statements as spec;

use crate::assignments::{assignment, let_assignment, swap};
use crate::for_loop::for_loop;
use crate::parts::{input, print, vdu};
use crate::rows::{AnIntName, list_of};
use crate::words::{NumberWord, dim, gosub, goto, local, number_word, raise, read};
use bas_ast::{BinaryOp, Call, Comparison, ErrorStmt, Flow, Keyword, Output, Stmt, Terminal};
use expr_parse::{Failure, longest_any, optional, whole_arguments};
use sqlite_items::Items;
use std::alloc::Global;

/// What follows NEXT.
#[tactic(auto, unfolding(expr_parse::specs::Parse::or_front))]
fn next(alloc: Global, list: &mut &[Terminal]) -> Result<Stmt, Failure>
    ensures { Reads (spec.next_at list.old.now) result list.new.now }
{
    let mut after = *list;
    match optional(list_of::<AnIntName>(alloc, &mut after))? {
        Some(names) => {
            *list = after;
            Ok(Stmt::Flow(Flow::Next(names)))
        }
        None => Ok(Stmt::Flow(Flow::Next(Items::new(alloc)))),
    }
}

/// What follows RESTORE.
#[tactic(auto, unfolding(crate::specs::Statements::restore_at))]
fn restore(list: &mut &[Terminal]) -> Result<Stmt, Failure>
    ensures { Reads (spec.restore_at list.old.now) result list.new.now }
{
    match *list {
        [Terminal::Keyword(Keyword::Error), rest @ ..] => {
            *list = rest;
            Ok(Stmt::Error(ErrorStmt::RestoreError))
        }
        [Terminal::LineRef(number), rest @ ..] => {
            *list = rest;
            Ok(Stmt::Restore(Some(*number)))
        }
        _ => Ok(Stmt::Restore(None)),
    }
}

/// What follows ON, where that is ON ERROR OFF.
#[tactic(auto, unfolding(crate::specs::Statements::error_off_at))]
fn error_off(list: &mut &[Terminal]) -> Result<Stmt, Failure>
    ensures { Reads (spec.error_off_at list.old.now) result list.new.now }
{
    match *list {
        [
            Terminal::Keyword(Keyword::Error),
            Terminal::Keyword(Keyword::Off),
            rest @ ..,
        ] => {
            *list = rest;
            Ok(Stmt::Error(ErrorStmt::OnErrorOff))
        }
        _ => Err(Failure::Absent),
    }
}

/// The parts of INPUT or of INPUT LINE.
#[tactic(auto, unfolding(expr_parse::specs::Parse::on_front))]
fn input_parts(alloc: Global, line: bool, list: &mut &[Terminal]) -> Result<Stmt, Failure>
    ensures { Reads (spec.input_parts line list.old.now) result list.new.now }
{
    let parts = input(alloc, list)?;
    Ok(Stmt::Input(line, parts))
}

/// What follows INPUT.
#[tactic(auto, unfolding(crate::specs::Statements::input_stmt_at))]
fn input_stmt(alloc: Global, list: &mut &[Terminal]) -> Result<Stmt, Failure>
    ensures { Reads (spec.input_stmt_at list.old.now) result list.new.now }
{
    match *list {
        [Terminal::Keyword(Keyword::Line), rest @ ..] => {
            *list = rest;
            input_parts(alloc, true, list)
        }
        _ => input_parts(alloc, false, list),
    }
}

/// What follows LET, as a statement.
#[tactic(auto, unfolding(expr_parse::specs::Parse::on_front))]
fn let_stmt(alloc: Global, list: &mut &[Terminal]) -> Result<Stmt, Failure>
    ensures { Reads (spec.own_form Keyword.Let list.old.now) result list.new.now }
{
    let stored = let_assignment(alloc, list)?;
    Ok(Stmt::Assign(stored))
}

/// What follows SWAP, as a statement.
#[tactic(auto, unfolding(expr_parse::specs::Parse::on_front))]
fn swap_stmt(alloc: Global, list: &mut &[Terminal]) -> Result<Stmt, Failure>
    ensures { Reads (spec.own_form Keyword.Swap list.old.now) result list.new.now }
{
    let swap = swap(alloc, list)?;
    Ok(Stmt::Assign(swap))
}

/// What follows PRINT, as a statement.
#[tactic(auto, unfolding(expr_parse::specs::Parse::on_front))]
fn print_stmt(alloc: Global, list: &mut &[Terminal]) -> Result<Stmt, Failure>
    ensures { Reads (spec.own_form Keyword.Print list.old.now) result list.new.now }
{
    let parts = print(alloc, list)?;
    Ok(Stmt::Output(Output::Print(parts)))
}

/// What follows VDU, as a statement.
#[tactic(auto, unfolding(expr_parse::specs::Parse::on_front))]
fn vdu_stmt(alloc: Global, list: &mut &[Terminal]) -> Result<Stmt, Failure>
    ensures { Reads (spec.own_form Keyword.Vdu list.old.now) result list.new.now }
{
    let parts = vdu(alloc, list)?;
    Ok(Stmt::Output(Output::Vdu(parts)))
}

/// What follows a word with punctuation of its own.
fn own_word(alloc: Global, word: Keyword, list: &mut &[Terminal]) -> Result<Stmt, Failure>
    ensures { Reads (spec.own_form word list.old.now) result list.new.now }
{
    match word {
        Keyword::Let => let_stmt(alloc, list),
        Keyword::Swap => swap_stmt(alloc, list),
        Keyword::For => for_loop(alloc, list),
        Keyword::Next => next(alloc, list),
        Keyword::Restore => restore(list),
        Keyword::On => error_off(list),
        Keyword::Print => print_stmt(alloc, list),
        Keyword::Vdu => vdu_stmt(alloc, list),
        Keyword::Input => input_stmt(alloc, list),
        _ => Err(Failure::Absent),
    }
}

/// What follows a statement's word.
#[tactic(auto, unfolding(crate::specs::Statements::word_at))]
fn word(alloc: Global, word: Keyword, list: &mut &[Terminal]) -> Result<Stmt, Failure>
    ensures { Reads (spec.word_at word list.old.now) result list.new.now }
{
    match word {
        Keyword::Return => Ok(Stmt::Flow(Flow::Return)),
        Keyword::EndWhile => Ok(Stmt::Flow(Flow::EndWhile)),
        Keyword::End => Ok(Stmt::Flow(Flow::End)),
        Keyword::Stop => Ok(Stmt::Flow(Flow::Stop)),
        Keyword::Quit => Ok(Stmt::Flow(Flow::Quit)),
        Keyword::EndProc => Ok(Stmt::Call(Call::EndProcedure)),
        Keyword::Report => Ok(Stmt::Error(ErrorStmt::Report)),
        Keyword::Cls => Ok(Stmt::Output(Output::Cls)),
        Keyword::Goto => goto(list),
        Keyword::Gosub => gosub(list),
        Keyword::Until => number_word(alloc, NumberWord::Until, list),
        Keyword::While => number_word(alloc, NumberWord::While, list),
        Keyword::Call => number_word(alloc, NumberWord::Call, list),
        Keyword::Mode => number_word(alloc, NumberWord::Mode, list),
        Keyword::Colour => number_word(alloc, NumberWord::Colour, list),
        Keyword::Error => raise(alloc, list),
        Keyword::Local => local(alloc, list),
        Keyword::Read => read(alloc, list),
        Keyword::Dim => dim(alloc, list),
        _ => own_word(alloc, word, list),
    }
}

/// A call of a procedure, after its name.
#[tactic(auto, unfolding(expr_parse::specs::Parse::on_front))]
fn procedure(alloc: Global, name: u16, list: &mut &[Terminal]) -> Result<Stmt, Failure>
    ensures { Reads (spec.procedure name list.old.now) result list.new.now }
{
    let arguments = whole_arguments(alloc, list)?;
    Ok(Stmt::Call(Call::Procedure(name, arguments)))
}

/// A function's value, after `=`.
#[tactic(auto, unfolding(expr_parse::specs::Parse::on_front))]
fn result(alloc: Global, list: &mut &[Terminal]) -> Result<Stmt, Failure>
    ensures { Reads (spec.result list.old.now) result list.new.now }
{
    let value = longest_any(alloc, list)?;
    Ok(Stmt::Call(Call::Result(value)))
}

/// An assignment, as a statement.
#[tactic(auto, unfolding(expr_parse::specs::Parse::on_front))]
fn assign(alloc: Global, list: &mut &[Terminal]) -> Result<Stmt, Failure>
    ensures { Reads (spec.assign list.old.now) result list.new.now }
{
    let stored = assignment(alloc, list)?;
    Ok(Stmt::Assign(stored))
}

/// A plain statement.
#[tactic(auto, unfolding(crate::specs::Statements::stmt_at))]
pub fn stmt(alloc: Global, list: &mut &[Terminal]) -> Result<Stmt, Failure>
    ensures { Reads (spec.stmt_at list.old.now) result list.new.now }
{
    match *list {
        [Terminal::Keyword(keyword), rest @ ..] => {
            *list = rest;
            word(alloc, *keyword, list)
        }
        [Terminal::Procedure(name), rest @ ..] => {
            *list = rest;
            let call = Call::Procedure(*name, Items::new(alloc));
            Ok(Stmt::Call(call))
        }
        [Terminal::ProcedureOpen(name), rest @ ..] => {
            *list = rest;
            procedure(alloc, *name, list)
        }
        [
            Terminal::Operator(BinaryOp::Compare(Comparison::Equal)),
            rest @ ..,
        ] => {
            *list = rest;
            result(alloc, list)
        }
        _ => assign(alloc, list),
    }
}
