//! The code of expressions, and of reads and stores of integers. A new form of expressions gets an arm in `push_expr`, or in
//! `push_text`.
ghost use Rattle.std.specs.Prelude.{◌≡◌, [], ◌∷◌, ◌++◌, OnOk, slice_get, pos};
ghost use Rattle.bas_ast.specs.declared.expressions.NumExpr.TheVariants as expressions;
ghost use Rattle.bas_ir.specs.declared.op.Op.TheVariants as operations;
ghost use Rattle.bas_store.specs.Cells as cells;
ghost use Rattle.ir_build.specs.Code as spec;

use crate::ops::put;
use bas_ast::{NumExpr, Prog, StrExpr, UnaryOp, Variable};
use bas_ir::Op;
use bas_store::IntegerCell;
use bv_base::NoMemory;
use sqlite_items::Items;

/// The place among the residents of the integer of this name, if it is one of them.
fn resident_of(text: &[u8]) -> Option<u8>
    ensures { result ≡ cells.resident_of text.now }
{
    match text {
        [letter, b'%'] if b'A' <= *letter && *letter <= b'Z' => Some(*letter - b'A'),
        [b'@', b'%'] => Some(26),
        _ => None,
    }
}

/// The place among the residents of the integer with the name at a place, if it is one of them.
fn resident(prog: &Prog, name: u16) -> Option<u8>
    ensures { result ≡ cells.resident_of (cells.text_of_name (slice_get prog.now.names name)) }
{
    match prog.names.get(usize::from(name)) {
        Some(name) => resident_of(name.text.as_slice()),
        None => None,
    }
}

/// The operation that reads an integer.
pub fn read_op(prog: &Prog, line: u16, name: u16) -> Op
    ensures { result ≡ spec.read_op line (cells.integer_cell prog.now.names name) }
{
    match resident(prog, name) {
        Some(index) => Op::PushResident(index),
        None => Op::PushInteger { name, line },
    }
}

/// The variable of a FOR.
pub fn counter(prog: &Prog, name: u16) -> IntegerCell
    ensures { result ≡ spec.counter_of (cells.integer_cell prog.now.names name) }
{
    match resident(prog, name) {
        Some(index) => IntegerCell::Resident(index),
        None => IntegerCell::Named(name),
    }
}

/// The operation that stores an integer.
pub fn store_op(prog: &Prog, name: u16) -> Op
    ensures { result ≡ spec.store_op (cells.integer_cell prog.now.names name) }
{
    match resident(prog, name) {
        Some(index) => Op::StoreResident(index),
        None => Op::StoreInteger(name),
    }
}

/// Adds the code of a word or sign before a number.
fn push_unary(line: u16, op: UnaryOp, ops: &mut Items<Op>) -> Result<(), NoMemory>
    ensures { OnOk result (ops.new ≡ ops.old ++ spec.unary_code line op) }
{
    match op {
        UnaryOp::Plus | UnaryOp::Int => Ok(()),
        _ => put(ops, Op::Unary { op, line }),
    }
}

/// Adds the code of a form of expressions that has no meaning yet.
fn push_stop(ops: &mut Items<Op>) -> Result<(), NoMemory>
    ensures { OnOk result (ops.new ≡ ops.old ++ operations.End ∷ operations.Push (pos 0) ∷ []) }
{
    put(ops, Op::End)?;
    put(ops, Op::Push(0))
}

/// Adds the code of a variable in an expression.
#[tactic(auto, unfolding(crate::specs::Code::expr_code))]
fn push_variable(
    prog: &Prog,
    line: u16,
    variable: &Variable,
    ops: &mut Items<Op>,
) -> Result<(), NoMemory>
    ensures { OnOk result (ops.new ≡ ops.old ++ spec.expr_code prog.now line (expressions.Variable variable.now)) }
{
    match variable {
        Variable::Simple(name) => put(ops, read_op(prog, line, *name)),
        Variable::Element(..) => push_stop(ops),
    }
}

/// Adds the code of an expression.
#[tactic(auto, using(crate::proofs::Equations::codes), unfolding(crate::specs::Code::expr_code))]
pub fn push_expr(prog: &Prog, line: u16, x: &NumExpr, ops: &mut Items<Op>) -> Result<(), NoMemory>
    ensures { OnOk result (ops.new ≡ ops.old ++ spec.expr_code prog.now line x.now) }
{
    match x {
        NumExpr::Number(value) => put(ops, Op::Push(*value)),
        NumExpr::True => put(ops, Op::Push(-1)),
        NumExpr::False => put(ops, Op::Push(0)),
        NumExpr::Count => put(ops, Op::PushColumn),
        NumExpr::Variable(variable) => push_variable(prog, line, variable, ops),
        NumExpr::Bracket(x) => push_expr(prog, line, x.get(), ops),
        NumExpr::Unary(op, x) => {
            push_expr(prog, line, x.get(), ops)?;
            push_unary(line, *op, ops)
        }
        NumExpr::Binary(op, x, y) => {
            push_expr(prog, line, x.get(), ops)?;
            push_expr(prog, line, y.get(), ops)?;
            put(ops, Op::Binary { op: *op, line })
        }
        _ => push_stop(ops),
    }
}

/// Adds the code that writes an expression of a string.
pub fn push_text(x: &StrExpr, ops: &mut Items<Op>) -> Result<(), NoMemory>
    ensures { OnOk result (ops.new ≡ ops.old ++ spec.text_code x.now) }
{
    match x {
        StrExpr::Literal(number) => {
            put(ops, Op::PushText(*number))?;
            put(ops, Op::WriteText)
        }
        _ => put(ops, Op::End),
    }
}
