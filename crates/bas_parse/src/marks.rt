//! Single terminals at the front of a list, and where an item ends. Where one is absent, the list stays as it was.

ghost use Rattle.std.specs.Prelude.{◌≡◌};
ghost use Rattle.bas_ast.specs.Lines.{continues};
ghost use Rattle.bas_ast.specs.Statements.{joins};
ghost use Rattle.expr_parse.specs.Reads.{Passes};
ghost use Rattle.bas_parse.specs.Statements as spec;

use bas_ast::{BinaryOp, Comparison, Keyword, Terminal};
use expr_parse::Failure;

/// Whether an item may end before a list: it is empty, or a `:` or an ELSE is next.
pub fn ended(list: &[Terminal]) -> bool
    ensures { result ≡ spec.ended list.now }
{
    matches!(
        list,
        [] | [Terminal::Colon | Terminal::Keyword(Keyword::Else), ..]
    )
}

/// Whether a list begins with what could go on with an expression before it.
pub fn joins(list: &[Terminal]) -> bool
    ensures { result ≡ joins list.now }
{
    matches!(
        list,
        [
            Terminal::Operator(BinaryOp::Add | BinaryOp::Subtract) | Terminal::Indirection(_),
            ..
        ]
    )
}

/// Whether a list begins with what could go on with a condition before it.
pub fn continues(list: &[Terminal]) -> bool
    ensures { result ≡ continues list.now }
{
    matches!(
        list,
        [
            Terminal::Operator(BinaryOp::Compare(Comparison::Equal)) | Terminal::Indirection(_),
            ..
        ]
    )
}

/// `=`
pub fn equals(list: &mut &[Terminal]) -> Result<(), Failure>
    ensures { Passes (spec.after_equals list.old.now) result list.old.now list.new.now }
{
    match *list {
        [
            Terminal::Operator(BinaryOp::Compare(Comparison::Equal)),
            rest @ ..,
        ] => {
            *list = rest;
            Ok(())
        }
        _ => Err(Failure::Absent),
    }
}

/// A semicolon.
pub fn semicolon(list: &mut &[Terminal]) -> Result<(), Failure>
    ensures { Passes (spec.after_semicolon list.old.now) result list.old.now list.new.now }
{
    match *list {
        [Terminal::Semicolon, rest @ ..] => {
            *list = rest;
            Ok(())
        }
        _ => Err(Failure::Absent),
    }
}

/// A separator of INPUT.
pub fn separator(list: &mut &[Terminal]) -> Result<(), Failure>
    ensures { Passes (spec.after_separator list.old.now) result list.old.now list.new.now }
{
    match *list {
        [Terminal::Comma | Terminal::Semicolon, rest @ ..] => {
            *list = rest;
            Ok(())
        }
        _ => Err(Failure::Absent),
    }
}

/// TO
pub fn to_word(list: &mut &[Terminal]) -> Result<(), Failure>
    ensures { Passes (spec.after_to list.old.now) result list.old.now list.new.now }
{
    match *list {
        [Terminal::Keyword(Keyword::To), rest @ ..] => {
            *list = rest;
            Ok(())
        }
        _ => Err(Failure::Absent),
    }
}

/// STEP
pub fn step_word(list: &mut &[Terminal]) -> Result<(), Failure>
    ensures { Passes (spec.after_step list.old.now) result list.old.now list.new.now }
{
    match *list {
        [Terminal::Keyword(Keyword::Step), rest @ ..] => {
            *list = rest;
            Ok(())
        }
        _ => Err(Failure::Absent),
    }
}

/// ERROR
pub fn error_word(list: &mut &[Terminal]) -> Result<(), Failure>
    ensures { Passes (spec.after_error list.old.now) result list.old.now list.new.now }
{
    match *list {
        [Terminal::Keyword(Keyword::Error), rest @ ..] => {
            *list = rest;
            Ok(())
        }
        _ => Err(Failure::Absent),
    }
}
