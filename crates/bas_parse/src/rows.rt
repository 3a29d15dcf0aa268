//! Rows of operands with commas between.

ghost use Rattle.std.specs.Prelude.{[]};
ghost use Rattle.bas_ast.specs.declared.expressions.Any.{Any};
ghost use Rattle.expr_parse.specs.Reads.{Reads};
ghost use Rattle.expr_parse.specs.Operands as expression;
ghost use Rattle.bas_ast.specs.declared.expressions.NumExpr.{NumExpr};
ghost use Rattle.bas_ast.specs.declared.expressions.StrExpr.{StrExpr};
ghost use Rattle.expr_parse.specs.Parse as parse;
ghost use Rattle.expr_parse.specs.Parse.{Parser};
ghost use Rattle.bas_parse.specs.Operands as spec;

use crate::targets::{dim_part, int_name, line, simple, target};
use bas_ast::{Any, DimPart, NumExpr, SimpleVariable, StrExpr, Target, Terminal};
use expr_parse::{Failure, comma, longest_any, longest_num, longest_text, pushed, with};
use sqlite_items::Items;
use std::alloc::Global;

/// An operand of a kind that stands in rows.
pub trait Operand {
    /// What it is in a tree.
    type Tree: Drop;

    /// What stands at the front of a list.
    ghost at_front: { Parser Self.Tree };

    fn operand(alloc: Global, list: &mut &[Terminal]) -> Result<Self::Tree, Failure>
        ensures { Reads (at_front list.old.now) result list.new.now };
}

/// One operand or more of a kind.
#[tactic(auto, unfolding(crate::specs::Operands::list_of, expr_parse::specs::Parse::on_some))]
pub fn list_of<O: Operand>(alloc: Global, list: &mut &[Terminal]) -> Result<Items<O::Tree>, Failure>
    ensures { Reads (spec.list_of O.at_front list.old.now) result list.new.now }
{
    let mut found = Items::new(alloc);
    for _turn in 0..list.len() + 1 {
        let (before, operand) = with(found, O::operand(alloc, list))?;
        found = pushed(before, operand)?;
        if comma(list).is_err() {
            return Ok(found);
        }
    }
    Err(Failure::Absent)
}

/// An expression of either kind.
pub struct AnExpression;

impl Operand for AnExpression {
    type Tree = Any;

    ghost at_front = { expression.longest_any };

    fn operand(alloc: Global, list: &mut &[Terminal]) -> Result<Any, Failure> {
        longest_any(alloc, list)
    }
}

/// A target.
pub struct ATarget;

impl Operand for ATarget {
    type Tree = Target;

    ghost at_front = { spec.target_at };

    fn operand(alloc: Global, list: &mut &[Terminal]) -> Result<Target, Failure> {
        target(alloc, list)
    }
}

/// A variable that is no array's element.
pub struct AVariable;

impl Operand for AVariable {
    type Tree = SimpleVariable;

    ghost at_front = { spec.simple_at };

    fn operand(_alloc: Global, list: &mut &[Terminal]) -> Result<SimpleVariable, Failure> {
        simple(list)
    }
}

/// A variable of FOR and NEXT.
pub struct AnIntName;

impl Operand for AnIntName {
    type Tree = u16;

    ghost at_front = { spec.int_name_at };

    fn operand(_alloc: Global, list: &mut &[Terminal]) -> Result<u16, Failure> {
        int_name(list)
    }
}

/// A part of DIM.
pub struct ADimPart;

impl Operand for ADimPart {
    type Tree = DimPart;

    ghost at_front = { spec.dim_part_at };

    fn operand(alloc: Global, list: &mut &[Terminal]) -> Result<DimPart, Failure> {
        dim_part(alloc, list)
    }
}

/// A reference to a line.
pub struct ALine;

impl Operand for ALine {
    type Tree = u16;

    ghost at_front = { spec.line_at };

    fn operand(_alloc: Global, list: &mut &[Terminal]) -> Result<u16, Failure> {
        line(list)
    }
}
