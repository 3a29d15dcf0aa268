//! Rows of subscripts and arguments.

ghost use Rattle.std.specs.Prelude.{◌≡◌, [], ◌∷◌, ◌++◌, IfOk};
ghost use Rattle.expr_parse.specs.Nests.{Nests};
ghost use Rattle.expr_parse.specs.Parse as spec;
ghost use Rattle.expr_parse.specs.Reads.{Reads};

use crate::failure::{Failure, past, with};
use crate::found::Found;
use crate::grammar::{Front, Grammar};
use crate::marks::{close, comma};
use bas_ast::{Any, NumExpr, Terminal};
use sqlite_items::Items;
use std::alloc::{AllocError, Global};

/// A row with one item more at its end.
pub fn pushed<T: Drop>(mut row: Items<T>, x: T) -> Result<Items<T>, AllocError>
    ensures { IfOk result (λ longer. longer ≡ row ++ x ∷ []) }
{
    row.push(x)?;
    Ok(row)
}

impl<F: for<'b> Fn(Global, usize, u8, &'b [Terminal]) -> Front<'b>> Grammar<F> {
    /// Subscripts, with the bracket that closes them.
    #[tactic(auto, unfolding(crate::specs::Parse::subscripts, crate::specs::Parse::on_some))]
    pub fn subscripts(&self, list: &mut &[Terminal]) -> Result<Items<NumExpr>, Failure>
        requires { Nests self.now.depth (F.pre self.now.inner) (F.post self.now.inner) }
        ensures { Reads (spec.subscripts (spec.expression self.now.depth) list.old.now) result list.new.now }
    {
        let mut found = Items::new(self.alloc);
        for _turn in 0..list.len() {
            let (before, x) = with(found, self.number(1, list))?;
            found = pushed(before, x)?;
            if close(list).is_ok() {
                return Ok(found);
            }
            found = past(found, comma(list))?;
        }
        Err(Failure::Absent)
    }

    /// Arguments, with the bracket that closes them.
    #[tactic(auto, unfolding(crate::specs::Parse::arguments, crate::specs::Parse::on_some))]
    pub fn arguments(&self, list: &mut &[Terminal]) -> Result<Items<Any>, Failure>
        requires { Nests self.now.depth (F.pre self.now.inner) (F.post self.now.inner) }
        ensures { Reads (spec.arguments (spec.expression self.now.depth) list.old.now) result list.new.now }
    {
        let mut found = Items::new(self.alloc);
        for _turn in 0..list.len() {
            let (before, x) = with(found, self.either(list))?;
            found = pushed(before, x)?;
            if close(list).is_ok() {
                return Ok(found);
            }
            found = past(found, comma(list))?;
        }
        Err(Failure::Absent)
    }
}
