//! Statements that are a word and plain operands.

ghost use Rattle.std.specs.Prelude.{◌≡◌, Some};
ghost use Rattle.expr_parse.specs.Reads.{Reads};
ghost use Rattle.expr_parse.specs.Parse.{on_front, longest_num};
ghost use Rattle.bas_ast.specs.Statements.{form};
ghost use Rattle.bas_parse.specs.Statements as spec;
ghost use Rattle.bas_parse.specs.Words.{number_stmt};

use crate::marks::error_word;
use crate::rows::{ADimPart, ATarget, AVariable, list_of};
use crate::targets::line;
use bas_ast::{Call, ErrorStmt, Flow, Keyword, NumExpr, Output, Stmt, Terminal};
use expr_parse::{Failure, comma, longest_num, longest_text, past, with};
use std::alloc::Global;

/// A word before one number.
#[derive(Debug, Clone, Copy, PartialEq, Eq, Drop)]
pub enum NumberWord {
    Until,
    While,
    Call,
    Mode,
    Colour,
}

/// The statement of a word and its number.
fn with_number(word: NumberWord, x: NumExpr) -> Stmt
    ensures { result ≡ number_stmt word x }
{
    match word {
        NumberWord::Until => Stmt::Flow(Flow::Until(x)),
        NumberWord::While => Stmt::Flow(Flow::While(x)),
        NumberWord::Call => Stmt::Call(Call::Code(x)),
        NumberWord::Mode => Stmt::Output(Output::Mode(x)),
        NumberWord::Colour => Stmt::Output(Output::Colour(x)),
    }
}

/// What follows a word before one number.
#[tactic(auto, unfolding(expr_parse::specs::Parse::on_front))]
pub fn number_word(alloc: Global, word: NumberWord, list: &mut &[Terminal]) -> Result<Stmt, Failure>
    ensures { Reads (spec.with_number (number_stmt word) list.old.now) result list.new.now }
{
    let x = longest_num(alloc, list)?;
    Ok(with_number(word, x))
}

/// What follows GOTO.
#[tactic(auto, unfolding(crate::specs::Statements::word_at, expr_parse::specs::Parse::on_front))]
pub fn goto(list: &mut &[Terminal]) -> Result<Stmt, Failure>
    ensures { Reads (spec.word_at Keyword.Goto list.old.now) result list.new.now }
{
    let number = line(list)?;
    Ok(Stmt::Flow(Flow::Goto(number)))
}

/// What follows GOSUB.
#[tactic(auto, unfolding(crate::specs::Statements::word_at, expr_parse::specs::Parse::on_front))]
pub fn gosub(list: &mut &[Terminal]) -> Result<Stmt, Failure>
    ensures { Reads (spec.word_at Keyword.Gosub list.old.now) result list.new.now }
{
    let number = line(list)?;
    Ok(Stmt::Flow(Flow::Gosub(number)))
}

/// The text of ERROR, after its number.
#[tactic(auto, unfolding(expr_parse::specs::Parse::on_front))]
fn raise_text(alloc: Global, number: NumExpr, list: &mut &[Terminal]) -> Result<Stmt, Failure>
    ensures { Reads (spec.raise_text number list.old.now) result list.new.now }
{
    let (number, text) = with(number, longest_text(alloc, list))?;
    Ok(Stmt::Error(ErrorStmt::Raise(number, text)))
}

/// What follows ERROR.
#[tactic(auto, unfolding(crate::specs::Statements::word_at, expr_parse::specs::Parse::on_front, expr_parse::specs::Parse::on_some))]
pub fn raise(alloc: Global, list: &mut &[Terminal]) -> Result<Stmt, Failure>
    ensures { Reads (spec.word_at Keyword.Error list.old.now) result list.new.now }
{
    let number = longest_num(alloc, list)?;
    let number = past(number, comma(list))?;
    raise_text(alloc, number, list)
}

/// What follows LOCAL.
#[tactic(auto, unfolding(crate::specs::Statements::word_at, expr_parse::specs::Parse::on_front, expr_parse::specs::Parse::on_some))]
pub fn local(alloc: Global, list: &mut &[Terminal]) -> Result<Stmt, Failure>
    ensures { Reads (spec.word_at Keyword.Local list.old.now) result list.new.now }
{
    if error_word(list).is_ok() {
        return Ok(Stmt::Error(ErrorStmt::LocalError));
    }
    let variables = list_of::<AVariable>(alloc, list)?;
    Ok(Stmt::Call(Call::Local(variables)))
}

/// What follows READ.
#[tactic(auto, unfolding(crate::specs::Statements::word_at, expr_parse::specs::Parse::on_front))]
pub fn read(alloc: Global, list: &mut &[Terminal]) -> Result<Stmt, Failure>
    ensures { Reads (spec.word_at Keyword.Read list.old.now) result list.new.now }
{
    let targets = list_of::<ATarget>(alloc, list)?;
    Ok(Stmt::Read(targets))
}

/// What follows DIM.
#[tactic(auto, unfolding(crate::specs::Statements::word_at, expr_parse::specs::Parse::on_front))]
pub fn dim(alloc: Global, list: &mut &[Terminal]) -> Result<Stmt, Failure>
    ensures { Reads (spec.word_at Keyword.Dim list.old.now) result list.new.now }
{
    let parts = list_of::<ADimPart>(alloc, list)?;
    Ok(Stmt::Dim(parts))
}
