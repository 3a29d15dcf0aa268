//! The rules take the parser of the expressions that lie deeper as a parameter, so that each is proved by itself. Here is
//! that parameter, and what is made of it for one kind of expression.
//!
//! Each rule reads at the front of a list and moves the list past what it has read. Where it answers a failure, nothing is said of where
//! the list is: who has an alternative reads a copy.

ghost use Rattle.expr_parse.specs.Nests.{Nests};
ghost use Rattle.expr_parse.specs.Parse as spec;
ghost use Rattle.expr_parse.specs.Reads.{Reads};

use crate::failure::{Failure, past};
use crate::found::Found;
use crate::marks::{close, comma};
use bas_ast::{Any, NumExpr, StrExpr, Terminal};
use std::alloc::Global;

/// An expression at the front of a list, with the rest of it.
pub type Front<'a> = Result<(Found, &'a [Terminal]), Failure>;

/// The rules, to a depth.
#[derive(Clone, Copy)]
pub struct Grammar<F> {
    pub alloc: Global,
    /// How deep expressions may still nest.
    pub depth: usize,
    pub inner: F,
}

impl<F: for<'b> Fn(Global, usize, u8, &'b [Terminal]) -> Front<'b>> Grammar<F> {
    /// An expression whose operators outside brackets have this level at least.
    pub fn deeper(&self, least: u8, list: &mut &[Terminal]) -> Result<Found, Failure>
        requires { Nests self.now.depth (F.pre self.now.inner) (F.post self.now.inner) }
        ensures { Reads (spec.expression self.now.depth least list.old.now) result list.new.now }
    {
        let (found, rest) = (self.inner)(self.alloc, self.depth, least, *list)?;
        *list = rest;
        Ok(found)
    }

    #[tactic(auto, unfolding(crate::specs::Parse::number, crate::specs::Parse::on_front))]
    pub fn number(&self, least: u8, list: &mut &[Terminal]) -> Result<NumExpr, Failure>
        requires { Nests self.now.depth (F.pre self.now.inner) (F.post self.now.inner) }
        ensures { Reads (spec.number (spec.expression self.now.depth) least list.old.now) result list.new.now }
    {
        self.deeper(least, list)?.number()
    }

    #[tactic(auto, unfolding(crate::specs::Parse::text, crate::specs::Parse::on_front))]
    pub fn text(&self, least: u8, list: &mut &[Terminal]) -> Result<StrExpr, Failure>
        requires { Nests self.now.depth (F.pre self.now.inner) (F.post self.now.inner) }
        ensures { Reads (spec.text (spec.expression self.now.depth) least list.old.now) result list.new.now }
    {
        self.deeper(least, list)?.text()
    }

    #[tactic(auto, unfolding(crate::specs::Parse::either, crate::specs::Parse::on_front))]
    pub fn either(&self, list: &mut &[Terminal]) -> Result<Any, Failure>
        requires { Nests self.now.depth (F.pre self.now.inner) (F.post self.now.inner) }
        ensures { Reads (spec.either (spec.expression self.now.depth) list.old.now) result list.new.now }
    {
        match self.deeper(1, list)? {
            Found::Number(_, x) => Ok(Any::Number(x)),
            Found::Text(y) => Ok(Any::Text(y)),
        }
    }

    /// A last number that may be absent, and the bracket.
    #[tactic(auto, unfolding(crate::specs::Parse::end, crate::specs::Parse::on_front, crate::specs::Parse::on_some))]
    pub fn end(&self, list: &mut &[Terminal]) -> Result<Option<NumExpr>, Failure>
        requires { Nests self.now.depth (F.pre self.now.inner) (F.post self.now.inner) }
        ensures { Reads (spec.end (spec.expression self.now.depth) list.old.now) result list.new.now }
    {
        if close(list).is_ok() {
            return Ok(None);
        }
        comma(list)?;
        let x = self.number(1, list)?;
        let x = past(x, close(list))?;
        Ok(Some(x))
    }
}
