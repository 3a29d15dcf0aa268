//! Operators, and what goes on with an operand.

ghost use Rattle.std.specs.Prelude.{length};
ghost use Rattle.expr_parse.specs.Nests.{Nests};
ghost use Rattle.expr_parse.specs.Parse as spec;
ghost use Rattle.expr_parse.specs.Reads.{Reads};

use crate::failure::{Failure, optional, with};
use crate::found::Found;
use crate::grammar::{Front, Grammar};
use crate::marks::{comparison, operator, plus};
use crate::trees::{binary, compare_text, join};
use crate::words::{left_level, level};
use bas_ast::{BinaryOp, Comparison, NumExpr, StrExpr, Terminal};
use std::alloc::Global;

/// The level of comparisons and shifts.
const RELATION: u8 = 3;

/// The level of sums, and of strings that are joined.
const SUM: u8 = 4;

impl<F: for<'b> Fn(Global, usize, u8, &'b [Terminal]) -> Front<'b>> Grammar<F> {
    /// An operator that may follow what stands to its left, and its right operand.
    #[tactic(auto, unfolding(crate::specs::Parse::right, crate::specs::Parse::on_front))]
    fn right(
        &self,
        least: u8,
        left: u8,
        list: &mut &[Terminal],
    ) -> Result<(BinaryOp, NumExpr), Failure>
        requires { Nests self.now.depth (F.pre self.now.inner) (F.post self.now.inner) }
        ensures { Reads (spec.right (spec.expression self.now.depth) least left list.old.now) result list.new.now }
    {
        let op = operator(list)?;
        let level = level(op);
        if least > level || left_level(op) > left {
            return Err(Failure::Absent);
        }
        let y = self.number(level + 1, list)?;
        Ok((op, y))
    }

    /// A number, and the operators that go on with it.
    fn num_on(
        &self,
        least: u8,
        mut left: u8,
        mut whole: NumExpr,
        list: &mut &[Terminal],
    ) -> Result<Found, Failure>
        requires { Nests self.now.depth (F.pre self.now.inner) (F.post self.now.inner) }
        ensures { Reads (spec.num_on (spec.expression self.now.depth) least (length list.old.now) left whole list.old.now) result list.new.now }
    {
        for _turn in 0..list.len() {
            let mut after = *list;
            let (before, next) = with(whole, optional(self.right(least, left, &mut after)))?;
            match next {
                Some((op, y)) => {
                    *list = after;
                    left = level(op);
                    whole = binary(self.alloc, op, before, y)?;
                }
                None => return Ok(Found::Number(left, before)),
            }
        }
        Ok(Found::Number(left, whole))
    }

    /// A string that is joined to one before.
    #[tactic(auto, unfolding(crate::specs::Parse::joined, crate::specs::Parse::on_some))]
    fn joined(&self, least: u8, list: &mut &[Terminal]) -> Result<StrExpr, Failure>
        requires { Nests self.now.depth (F.pre self.now.inner) (F.post self.now.inner) }
        ensures { Reads (spec.joined (spec.expression self.now.depth) least list.old.now) result list.new.now }
    {
        plus(list)?;
        if least > SUM {
            return Err(Failure::Absent);
        }
        self.text(6, list)
    }

    /// A string that is compared with one before.
    #[tactic(auto, unfolding(crate::specs::Parse::compared_with, crate::specs::Parse::on_front))]
    fn compared_with(
        &self,
        least: u8,
        list: &mut &[Terminal],
    ) -> Result<(Comparison, StrExpr), Failure>
        requires { Nests self.now.depth (F.pre self.now.inner) (F.post self.now.inner) }
        ensures { Reads (spec.compared_with (spec.expression self.now.depth) least list.old.now) result list.new.now }
    {
        let comparison = comparison(list)?;
        if least > RELATION {
            return Err(Failure::Absent);
        }
        let z = self.text(4, list)?;
        Ok((comparison, z))
    }

    /// A string to which nothing more is joined.
    #[tactic(auto, unfolding(crate::specs::Parse::compared, crate::specs::Parse::or_front))]
    fn compared(&self, least: u8, y: StrExpr, list: &mut &[Terminal]) -> Result<Found, Failure>
        requires { Nests self.now.depth (F.pre self.now.inner) (F.post self.now.inner) }
        ensures { Reads (spec.compared (spec.expression self.now.depth) least y list.old.now) result list.new.now }
    {
        let mut after = *list;
        let (y, next) = with(y, optional(self.compared_with(least, &mut after)))?;
        match next {
            Some((comparison, z)) => {
                *list = after;
                let whole = compare_text(self.alloc, comparison, y, z)?;
                self.num_on(least, RELATION, whole, list)
            }
            None => Ok(Found::Text(y)),
        }
    }

    /// A string, and what goes on with it.
    fn text_on(
        &self,
        least: u8,
        mut whole: StrExpr,
        list: &mut &[Terminal],
    ) -> Result<Found, Failure>
        requires { Nests self.now.depth (F.pre self.now.inner) (F.post self.now.inner) }
        ensures { Reads (spec.text_on (spec.expression self.now.depth) least (length list.old.now) whole list.old.now) result list.new.now }
    {
        for _turn in 0..list.len() {
            let mut after = *list;
            let (before, next) = with(whole, optional(self.joined(least, &mut after)))?;
            match next {
                Some(z) => {
                    *list = after;
                    whole = join(self.alloc, before, z)?;
                }
                None => return self.compared(least, before, list),
            }
        }
        self.compared(least, whole, list)
    }

    /// An operand, and what goes on with it.
    #[tactic(auto, unfolding(crate::specs::Parse::grown))]
    fn grown(&self, least: u8, found: Found, list: &mut &[Terminal]) -> Result<Found, Failure>
        requires { Nests self.now.depth (F.pre self.now.inner) (F.post self.now.inner) }
        ensures { Reads (spec.grown (spec.expression self.now.depth) least found list.old.now) result list.new.now }
    {
        match found {
            Found::Number(left, x) => self.num_on(least, left, x, list),
            Found::Text(y) => self.text_on(least, y, list),
        }
    }

    /// An expression whose operators outside brackets have this level at least.
    #[tactic(auto, unfolding(crate::specs::Parse::whole, crate::specs::Parse::on_front))]
    pub fn whole(&self, least: u8, list: &mut &[Terminal]) -> Result<Found, Failure>
        requires { Nests self.now.depth (F.pre self.now.inner) (F.post self.now.inner) }
        ensures { Reads (spec.whole (spec.expression self.now.depth) least list.old.now) result list.new.now }
    {
        let found = self.operand(least, list)?;
        self.grown(least, found, list)
    }
}
