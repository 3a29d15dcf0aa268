//! What the parser of expressions finds.

ghost use Rattle.expr_parse.specs.Parse.{only_number, only_text};
ghost use Rattle.expr_parse.specs.Reads.{IsOnly};

use crate::failure::Failure;
use bas_ast::{NumExpr, StrExpr};

/// An expression of the kind that was found.
#[derive(Drop)]
pub enum Found {
    /// A number, and the least level of the operators outside its brackets.
    Number(u8, NumExpr),
    Text(StrExpr),
}

impl Found {
    /// The number, where it is one.
    pub fn number(self) -> Result<NumExpr, Failure>
        ensures { IsOnly (only_number self) result }
    {
        match self {
            Found::Number(_, x) => Ok(x),
            Found::Text(_) => Err(Failure::Absent),
        }
    }

    /// The string, where it is one.
    pub fn text(self) -> Result<StrExpr, Failure>
        ensures { IsOnly (only_text self) result }
    {
        match self {
            Found::Number(..) => Err(Failure::Absent),
            Found::Text(y) => Ok(y),
        }
    }
}
