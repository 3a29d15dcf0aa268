//! The parser of expressions, which nest as deep as the list has terminals.

ghost use Rattle.expr_parse.specs.Operands as operand;
ghost use Rattle.expr_parse.specs.Parse as spec;
ghost use Rattle.expr_parse.specs.Reads.{Reads, ReadsOn};

use crate::failure::Failure;
use crate::found::Found;
use crate::grammar::{Front, Grammar};
use bas_ast::{Any, NumExpr, StrExpr, Terminal, Width};
use sqlite_items::Items;
use std::alloc::Global;

/// An expression to a depth, whose operators outside brackets have this level at least.
fn expression(alloc: Global, depth: usize, least: u8, list: &[Terminal]) -> Front<'_>
    ensures { ReadsOn (spec.expression depth least list.now) result }
{
    if depth == 0 {
        return Err(Failure::Absent);
    }
    let grammar = Grammar {
        alloc,
        depth: depth - 1,
        inner: expression,
    };
    let mut rest = list;
    let found = grammar.whole(least, &mut rest)?;
    Ok((found, rest))
}

/// The longest number at the front.
#[tactic(auto, unfolding(crate::specs::Parse::longest_num))]
pub fn longest_num(alloc: Global, list: &mut &[Terminal]) -> Result<NumExpr, Failure>
    ensures { Reads (spec.longest_num list.old.now) result list.new.now }
{
    Grammar {
        alloc,
        depth: list.len() + 1,
        inner: expression,
    }
    .number(1, list)
}

/// The longest string at the front.
#[tactic(auto, unfolding(crate::specs::Parse::longest_text))]
pub fn longest_text(alloc: Global, list: &mut &[Terminal]) -> Result<StrExpr, Failure>
    ensures { Reads (spec.longest_text list.old.now) result list.new.now }
{
    Grammar {
        alloc,
        depth: list.len() + 1,
        inner: expression,
    }
    .text(4, list)
}

/// The longest expression at the front, of either kind.
#[tactic(auto, unfolding(crate::specs::Operands::longest_any))]
pub fn longest_any(alloc: Global, list: &mut &[Terminal]) -> Result<Any, Failure>
    ensures { Reads (operand.longest_any list.old.now) result list.new.now }
{
    Grammar {
        alloc,
        depth: list.len() + 1,
        inner: expression,
    }
    .either(list)
}

/// The longest number at the front that has no operator outside brackets.
#[tactic(auto, unfolding(crate::specs::Operands::longest_operand))]
pub fn longest_operand(alloc: Global, list: &mut &[Terminal]) -> Result<NumExpr, Failure>
    ensures { Reads (operand.longest_operand list.old.now) result list.new.now }
{
    Grammar {
        alloc,
        depth: list.len() + 1,
        inner: expression,
    }
    .number(6, list)
}

/// `?` or `!` after a variable, with its operand.
#[tactic(auto, unfolding(crate::specs::Operands::longest_offset))]
pub fn longest_offset(alloc: Global, list: &mut &[Terminal]) -> Result<(Width, NumExpr), Failure>
    ensures { Reads (operand.longest_offset list.old.now) result list.new.now }
{
    Grammar {
        alloc,
        depth: list.len() + 1,
        inner: expression,
    }
    .offset(6, list)
}

/// Subscripts, with the bracket that closes them.
#[tactic(auto, unfolding(crate::specs::Operands::whole_subscripts))]
pub fn whole_subscripts(alloc: Global, list: &mut &[Terminal]) -> Result<Items<NumExpr>, Failure>
    ensures { Reads (operand.whole_subscripts list.old.now) result list.new.now }
{
    Grammar {
        alloc,
        depth: list.len() + 1,
        inner: expression,
    }
    .subscripts(list)
}

/// Arguments, with the bracket that closes them.
#[tactic(auto, unfolding(crate::specs::Operands::whole_arguments))]
pub fn whole_arguments(alloc: Global, list: &mut &[Terminal]) -> Result<Items<Any>, Failure>
    ensures { Reads (operand.whole_arguments list.old.now) result list.new.now }
{
    Grammar {
        alloc,
        depth: list.len() + 1,
        inner: expression,
    }
    .arguments(list)
}
