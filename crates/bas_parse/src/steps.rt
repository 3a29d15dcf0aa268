//! The items of a line, one by one.

ghost use Rattle.std.specs.Prelude.{◌≡◌};
ghost use Rattle.expr_parse.specs.Reads.{Reads};
ghost use Rattle.bas_parse.specs.Steps as spec;

use crate::kept::absent;
use crate::marks::{continues, ended};
use crate::place::Place;
use crate::rows::{ALine, list_of};
use crate::statements::stmt;
use bas_ast::{Any, ErrorStmt, Flow, Item, Jump, Keyword, NumExpr, Stmt, Terminal};
use expr_parse::{Failure, longest_any, longest_num, with};
use std::alloc::Global;

/// What a step finds: an item, or none where it is a `:`, and the place after it.
pub type Step = (Option<Item>, Place);

/// IF, by what follows its THEN.
fn then_item(x: NumExpr, list: &[Terminal]) -> Item
    ensures { result ≡ spec.then_item x list.now }
{
    match list {
        [] => Item::BlockIf(x),
        _ => Item::If(x),
    }
}

/// What follows the condition of IF.
#[tactic(auto, unfolding(crate::specs::Steps::condition_step))]
fn condition_step(x: NumExpr, list: &mut &[Terminal]) -> Result<Step, Failure>
    ensures { Reads (spec.condition_step x list.old.now) result list.new.now }
{
    match *list {
        [Terminal::Keyword(Keyword::Then), rest @ ..] => {
            *list = rest;
            Ok((Some(then_item(x, rest)), Place::after_branch()))
        }
        _ => Ok((Some(Item::If(x)), Place::after_condition())),
    }
}

/// What follows IF.
#[tactic(auto, unfolding(expr_parse::specs::Parse::on_front))]
fn if_step(alloc: Global, list: &mut &[Terminal]) -> Result<Step, Failure>
    ensures { Reads (spec.if_step list.old.now) result list.new.now }
{
    let x = longest_num(alloc, list)?;
    condition_step(x, list)
}

/// The lines of ON, after GOTO or GOSUB.
#[tactic(auto, unfolding(expr_parse::specs::Parse::on_front))]
fn lines_step(
    alloc: Global,
    x: NumExpr,
    jump: Jump,
    list: &mut &[Terminal],
) -> Result<Step, Failure>
    ensures { Reads (spec.lines_step x jump list.old.now) result list.new.now }
{
    let (x, lines) = with(x, list_of::<ALine>(alloc, list))?;
    Ok((Some(Item::On(x, jump, lines)), Place::after_ruling()))
}

/// What follows ON's number.
#[tactic(auto, unfolding(crate::specs::Steps::jump_step))]
fn jump_step(alloc: Global, x: NumExpr, list: &mut &[Terminal]) -> Result<Step, Failure>
    ensures { Reads (spec.jump_step x list.old.now) result list.new.now }
{
    match *list {
        [Terminal::Keyword(Keyword::Goto), rest @ ..] => {
            *list = rest;
            lines_step(alloc, x, Jump::Goto, list)
        }
        [Terminal::Keyword(Keyword::Gosub), rest @ ..] => {
            *list = rest;
            lines_step(alloc, x, Jump::Gosub, list)
        }
        _ => absent(x),
    }
}

/// ON with a number.
#[tactic(auto, unfolding(expr_parse::specs::Parse::on_front))]
fn on_number(alloc: Global, list: &mut &[Terminal]) -> Result<Step, Failure>
    ensures { Reads (spec.on_number list.old.now) result list.new.now }
{
    let x = longest_num(alloc, list)?;
    jump_step(alloc, x, list)
}

/// Whether a variable of LOCAL ends before a list.
fn ends_local(list: &[Terminal]) -> bool
    ensures { result ≡ spec.ends_local list.now }
{
    match list {
        [Terminal::Comma, ..] => true,
        _ => ended(list),
    }
}

/// Whether what stands after LOCAL makes an item LOCAL: variables, or ERROR alone.
#[tactic(auto, unfolding(crate::specs::Steps::local_item))]
fn local_item(list: &[Terminal]) -> bool
    ensures { result ≡ spec.local_item list.now }
{
    match list {
        [Terminal::IntName(_) | Terminal::StrName(_), rest @ ..] => ends_local(rest),
        [Terminal::Keyword(Keyword::Error), rest @ ..] => ended(rest),
        _ => false,
    }
}

/// What follows ON ERROR.
#[tactic(auto, unfolding(crate::specs::Steps::error_step))]
fn error_step(place: Place, list: &mut &[Terminal]) -> Result<Step, Failure>
    ensures { Reads (spec.error_step place list.old.now) result list.new.now }
{
    match *list {
        [Terminal::Keyword(Keyword::Off), rest @ ..] => {
            *list = rest;
            let off = Item::Stmt(Stmt::Error(ErrorStmt::OnErrorOff));
            Ok((Some(off), place.after_item()))
        }
        [Terminal::Keyword(Keyword::Local), rest @ ..] => {
            if local_item(rest) {
                Ok((Some(Item::OnError), place.after_word()))
            } else {
                *list = rest;
                Ok((Some(Item::OnErrorLocal), place.after_word()))
            }
        }
        _ => Ok((Some(Item::OnError), place.after_word())),
    }
}

/// What follows ON.
#[tactic(auto, unfolding(crate::specs::Steps::on_step))]
fn on_step(alloc: Global, place: Place, list: &mut &[Terminal]) -> Result<Step, Failure>
    ensures { Reads (spec.on_step place list.old.now) result list.new.now }
{
    match *list {
        [Terminal::Keyword(Keyword::Error), rest @ ..] => {
            *list = rest;
            error_step(place, list)
        }
        _ => on_number(alloc, list),
    }
}

/// Whether a list has nothing but `:`.
#[tactic(auto, unfolding(crate::specs::Steps::all_colons))]
fn all_colons(list: &[Terminal]) -> bool
    ensures { result ≡ spec.all_colons list.now }
{
    list.iter()
        .all(|terminal| matches!(terminal, Terminal::Colon))
}

/// What follows CASE's expression.
#[tactic(auto, unfolding(crate::specs::Steps::case_step))]
fn case_of(place: Place, x: Any, list: &mut &[Terminal]) -> Result<Step, Failure>
    ensures { Reads (spec.case_step place x list.old.now) result list.new.now }
{
    match *list {
        [Terminal::Keyword(Keyword::Of), rest @ ..] => {
            if all_colons(rest) {
                *list = &rest[rest.len()..];
                Ok((Some(Item::Case(x)), place.after_item()))
            } else {
                absent(x)
            }
        }
        _ => absent(x),
    }
}

/// What follows CASE.
#[tactic(auto, unfolding(expr_parse::specs::Parse::on_front))]
fn case_item(alloc: Global, place: Place, list: &mut &[Terminal]) -> Result<Step, Failure>
    ensures { Reads (spec.case_item place list.old.now) result list.new.now }
{
    let x = longest_any(alloc, list)?;
    case_of(place, x, list)
}

/// What follows DATA.
#[tactic(auto, unfolding(crate::specs::Steps::data_step))]
fn data_step(place: Place, list: &mut &[Terminal]) -> Result<Step, Failure>
    ensures { Reads (spec.data_step place list.old.now) result list.new.now }
{
    match *list {
        [Terminal::Tail(number), rest @ ..] => match rest {
            [] => {
                *list = rest;
                Ok((Some(Item::Data(*number)), place.after_item()))
            }
            _ => Err(Failure::Absent),
        },
        _ => Err(Failure::Absent),
    }
}

/// What follows REM.
#[tactic(auto, unfolding(crate::specs::Steps::remark_step))]
fn remark_step(place: Place, list: &mut &[Terminal]) -> Result<Step, Failure>
    ensures { Reads (spec.remark_step place list.old.now) result list.new.now }
{
    match *list {
        [Terminal::Tail(_), rest @ ..] => match rest {
            [] => {
                *list = rest;
                Ok((Some(Item::Remark), place.after_item()))
            }
            _ => Err(Failure::Absent),
        },
        _ => Err(Failure::Absent),
    }
}

/// What follows `[`.
#[tactic(auto, unfolding(crate::specs::Steps::open_step))]
fn open_step(place: Place, list: &mut &[Terminal]) -> Result<Step, Failure>
    ensures { Reads (spec.open_step place list.old.now) result list.new.now }
{
    match *list {
        [] => Ok((Some(Item::BeginAssembly), place.after_item())),
        _ => Err(Failure::Absent),
    }
}

/// A line's number, which is a GOTO after THEN and ELSE.
fn line_step(place: Place, number: u16, list: &mut &[Terminal]) -> Result<Step, Failure>
    ensures { Reads (spec.line_step place number list.old.now) result list.new.now }
{
    if !place.branch {
        return Err(Failure::Absent);
    }
    let goto = Item::Stmt(Stmt::Flow(Flow::Goto(number)));
    Ok((Some(goto), Place::after_ruling()))
}

/// A plain statement.
#[tactic(auto, unfolding(crate::specs::Steps::plain_step, expr_parse::specs::Parse::on_front))]
fn plain_step(alloc: Global, place: Place, list: &mut &[Terminal]) -> Result<Step, Failure>
    ensures { Reads (spec.plain_step place list.old.now) result list.new.now }
{
    if place.bare && continues(list) {
        return Err(Failure::Absent);
    }
    let x = stmt(alloc, list)?;
    Ok((Some(Item::Stmt(x)), place.after_item()))
}

/// An item, where one may begin.
#[tactic(auto, unfolding(crate::specs::Steps::item_step, crate::specs::Steps::word_step))]
fn item_step(alloc: Global, place: Place, list: &mut &[Terminal]) -> Result<Step, Failure>
    ensures { Reads (spec.item_step place list.old.now) result list.new.now }
{
    match *list {
        [Terminal::Keyword(Keyword::If), rest @ ..] => {
            *list = rest;
            if_step(alloc, list)
        }
        [Terminal::Keyword(Keyword::On), rest @ ..] => {
            *list = rest;
            on_step(alloc, place, list)
        }
        [Terminal::Keyword(Keyword::Case), rest @ ..] => {
            *list = rest;
            case_item(alloc, place, list)
        }
        [Terminal::Keyword(Keyword::Repeat), rest @ ..] => {
            *list = rest;
            Ok((Some(Item::Repeat), place.after_word()))
        }
        [Terminal::Keyword(Keyword::Data), rest @ ..] => {
            *list = rest;
            data_step(place, list)
        }
        [Terminal::Keyword(Keyword::Rem), rest @ ..] => {
            *list = rest;
            remark_step(place, list)
        }
        [Terminal::LineRef(number), rest @ ..] => {
            *list = rest;
            line_step(place, *number, list)
        }
        [Terminal::OpenSquare, rest @ ..] => {
            *list = rest;
            open_step(place, list)
        }
        _ => plain_step(alloc, place, list),
    }
}

/// An item, or a `:`.
#[tactic(auto, unfolding(crate::specs::Steps::step))]
pub fn step(alloc: Global, place: Place, list: &mut &[Terminal]) -> Result<Step, Failure>
    ensures { Reads (spec.step place list.old.now) result list.new.now }
{
    match *list {
        [] => Err(Failure::Absent),
        [Terminal::Colon, rest @ ..] => {
            *list = rest;
            Ok((None, place.after_colon()))
        }
        [Terminal::Keyword(Keyword::Else), rest @ ..] => {
            if !place.ruled {
                return Err(Failure::Absent);
            }
            *list = rest;
            Ok((Some(Item::Else), Place::after_branch()))
        }
        _ => {
            if !place.free {
                return Err(Failure::Absent);
            }
            item_step(alloc, place, list)
        }
    }
}
