//! Single terminals at the front of a list. Where one is absent, the list stays as it was.

ghost use Rattle.expr_parse.specs.Parse.{after_close, after_comma, after_tilde, after_plus, operator_at, comparison_at, indirection_at};
ghost use Rattle.expr_parse.specs.Reads.{Passes, Takes};

use crate::failure::Failure;
use bas_ast::{BinaryOp, Comparison, Terminal, Width};

/// A closing bracket.
pub fn close(list: &mut &[Terminal]) -> Result<(), Failure>
    ensures { Passes (after_close list.old.now) result list.old.now list.new.now }
{
    match *list {
        [Terminal::Close, rest @ ..] => {
            *list = rest;
            Ok(())
        }
        _ => Err(Failure::Absent),
    }
}

/// A comma.
pub fn comma(list: &mut &[Terminal]) -> Result<(), Failure>
    ensures { Passes (after_comma list.old.now) result list.old.now list.new.now }
{
    match *list {
        [Terminal::Comma, rest @ ..] => {
            *list = rest;
            Ok(())
        }
        _ => Err(Failure::Absent),
    }
}

/// `~`
pub fn tilde(list: &mut &[Terminal]) -> Result<(), Failure>
    ensures { Passes (after_tilde list.old.now) result list.old.now list.new.now }
{
    match *list {
        [Terminal::Tilde, rest @ ..] => {
            *list = rest;
            Ok(())
        }
        _ => Err(Failure::Absent),
    }
}

/// `+`
pub fn plus(list: &mut &[Terminal]) -> Result<(), Failure>
    ensures { Passes (after_plus list.old.now) result list.old.now list.new.now }
{
    match *list {
        [Terminal::Operator(BinaryOp::Add), rest @ ..] => {
            *list = rest;
            Ok(())
        }
        _ => Err(Failure::Absent),
    }
}

/// An operator.
pub fn operator(list: &mut &[Terminal]) -> Result<BinaryOp, Failure>
    ensures { Takes (operator_at list.old.now) result list.old.now list.new.now }
{
    match *list {
        [Terminal::Operator(op), rest @ ..] => {
            *list = rest;
            Ok(*op)
        }
        _ => Err(Failure::Absent),
    }
}

/// A comparison.
pub fn comparison(list: &mut &[Terminal]) -> Result<Comparison, Failure>
    ensures { Takes (comparison_at list.old.now) result list.old.now list.new.now }
{
    match *list {
        [Terminal::Operator(BinaryOp::Compare(comparison)), rest @ ..] => {
            *list = rest;
            Ok(*comparison)
        }
        _ => Err(Failure::Absent),
    }
}

/// `?` or `!`
pub fn indirection(list: &mut &[Terminal]) -> Result<Width, Failure>
    ensures { Takes (indirection_at list.old.now) result list.old.now list.new.now }
{
    match *list {
        [Terminal::Indirection(width), rest @ ..] => {
            *list = rest;
            Ok(*width)
        }
        _ => Err(Failure::Absent),
    }
}
