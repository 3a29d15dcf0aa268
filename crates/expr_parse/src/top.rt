ghost use Rattle.std.specs.Prelude.{◌<◌, ◌^◌, length};
ghost use Rattle.expr_parse.specs.Parsed.{Parsed};
ghost use Rattle.expr_parse.specs.Terminals.{AreWithin, terminals_of};
ghost use Rattle.bas_ast.specs.Expressions.{IsNum, IsStr};

use crate::classify::terminals;
use crate::failure::Failure;
use crate::parser::{longest_num, longest_text};
use bas_ast::{Name, NumExpr, StrExpr, Terminal};
use bas_lex::Sym;
use std::alloc::{AllocError, Global};

/// Why nothing was parsed.
#[derive(Debug, Clone, Copy, PartialEq, Eq, Drop)]
pub enum ParseError {
    /// The symbols are outside the grammar.
    Outside,
    /// There was no memory for the tree.
    NoMemory,
}

impl From<AllocError> for ParseError {
    ghost use Rattle.std.specs.Prelude.{◌≡◌};
    ghost use Rattle.expr_parse.specs.declared.top.ParseError.TheVariants.{NoMemory};

    ghost from_gives = { λ _ error. error ≡ NoMemory };

    fn from(_error: AllocError) -> ParseError {
        ParseError::NoMemory
    }
}

impl From<Failure> for ParseError {
    ghost use Rattle.std.specs.Prelude.{◌≡◌};
    ghost use Rattle.expr_parse.specs.Parsed.{parse_error};

    ghost from_gives = { λ failure error. error ≡ parse_error failure };

    fn from(failure: Failure) -> ParseError {
        match failure {
            Failure::Absent => ParseError::Outside,
            Failure::NoMemory => ParseError::NoMemory,
        }
    }
}

/// The longest number at the front of a line's symbols, and its number of symbols. A name in the tree is the place of
/// its symbol, from 0.
pub fn parse_num(
    alloc: Global,
    labels: &[Name],
    text: &[u8],
    syms: &[Sym],
) -> Result<(NumExpr, usize), ParseError>
    requires few { length syms.now < 2 ^ 16 }
    requires within { AreWithin text.now syms.now }
    ensures { Parsed (IsNum 1) (terminals_of labels.now text.now syms.now) result }
{
    let list = terminals(alloc, labels, text, syms)?;
    front_num(alloc, list.as_slice())
}

/// The longest string at the front of a line's symbols, and its number of symbols. A name in the tree is the place of
/// its symbol, from 0.
pub fn parse_str(
    alloc: Global,
    labels: &[Name],
    text: &[u8],
    syms: &[Sym],
) -> Result<(StrExpr, usize), ParseError>
    requires few { length syms.now < 2 ^ 16 }
    requires within { AreWithin text.now syms.now }
    ensures { Parsed (IsStr 4) (terminals_of labels.now text.now syms.now) result }
{
    let list = terminals(alloc, labels, text, syms)?;
    front_text(alloc, list.as_slice())
}

/// The longest number at the front of a line's terminals, and its number of terminals.
pub fn front_num(alloc: Global, list: &[Terminal]) -> Result<(NumExpr, usize), ParseError>
    ensures { Parsed (IsNum 1) list.now result }
{
    let mut rest = list;
    let x = longest_num(alloc, &mut rest)?;
    Ok((x, list.len() - rest.len()))
}

/// The longest string at the front of a line's terminals, and its number of terminals.
pub fn front_text(alloc: Global, list: &[Terminal]) -> Result<(StrExpr, usize), ParseError>
    ensures { Parsed (IsStr 4) list.now result }
{
    let mut rest = list;
    let y = longest_text(alloc, &mut rest)?;
    Ok((y, list.len() - rest.len()))
}
