//! Operations that do what several do. What is fused with a further kind of operation stands in the program here.

ghost use Rattle.std.specs.Prelude.{◌≡◌, [], IfOk};

use crate::parts::{COUNT, LETTER, letter, line, names};
use bas_ast::{Assignment, BinaryOp, Comparison, Item, NumExpr, NumTarget, Prog, Stmt, Variable};
use bas_ir::{Height, Op};
use bv_base::NoMemory;
use ir_build::build;
use sqlite_items::{Boxed, Items};
use std::alloc::Global;
use std::test::Fail;

/// `count%`
fn count() -> NumExpr {
    NumExpr::Variable(Variable::Simple(COUNT))
}

fn binary(alloc: Global, op: BinaryOp, x: NumExpr, y: NumExpr) -> Result<NumExpr, NoMemory> {
    let left = Boxed::new(alloc, x)?;
    let right = Boxed::new(alloc, y)?;
    Ok(NumExpr::Binary(op, left, right))
}

fn assign(name: u16, x: NumExpr) -> Item {
    let target = NumTarget::Variable(Variable::Simple(name));
    Item::Stmt(Stmt::Assign(Assignment::Number(target, x)))
}

/// A condition of two numbers.
fn condition(
    alloc: Global,
    comparison: Comparison,
    x: NumExpr,
    y: NumExpr,
) -> Result<Item, NoMemory> {
    Ok(Item::If(binary(alloc, BinaryOp::Compare(comparison), x, y)?))
}

/// An assignment of what an operator makes.
fn assign_binary(
    alloc: Global,
    name: u16,
    op: BinaryOp,
    x: NumExpr,
    y: NumExpr,
) -> Result<Item, NoMemory> {
    Ok(assign(name, binary(alloc, op, x, y)?))
}

/// Items with one more. They are let go here alone where there is none.
fn with_item(items: Items<Item>, item: Result<Item, NoMemory>) -> Result<Items<Item>, NoMemory> {
    let mut longer = items;
    match item {
        Ok(item) => {
            longer.push(item)?;
            Ok(longer)
        }
        Err(error) => Err(error),
    }
}

/// `A%+=-32768`
fn change() -> Item {
    let target = NumTarget::Variable(Variable::Simple(LETTER));
    Item::Stmt(Stmt::Assign(Assignment::Add(target, NumExpr::Number(-32768))))
}

/// `IF A%<100000`
fn if_less(alloc: Global) -> Result<Item, NoMemory> {
    condition(alloc, Comparison::Less, letter(), NumExpr::Number(100000))
}

/// `A%=A%-32768`
fn less_by_long(alloc: Global) -> Result<Item, NoMemory> {
    assign_binary(
        alloc,
        LETTER,
        BinaryOp::Subtract,
        letter(),
        NumExpr::Number(32768),
    )
}

/// `IF A%<100000 THEN A%+=-32768 ELSE A%=A%-32768`
fn first_line(alloc: Global) -> Result<Items<Item>, NoMemory> {
    let items = with_item(Items::new(alloc), if_less(alloc))?;
    let items = with_item(items, Ok(change()))?;
    let items = with_item(items, Ok(Item::Else))?;
    with_item(items, less_by_long(alloc))
}

/// `count%=count% AND A%` and `IF count%=A% THEN A%=count%-TRUE`
fn second_line(alloc: Global) -> Result<Items<Item>, NoMemory> {
    let and = assign_binary(alloc, COUNT, BinaryOp::And, count(), letter());
    let items = with_item(Items::new(alloc), and)?;
    let equal = condition(alloc, Comparison::Equal, count(), letter());
    let items = with_item(items, equal)?;
    let less_true = assign_binary(alloc, LETTER, BinaryOp::Subtract, count(), NumExpr::True);
    with_item(items, less_true)
}

/// The two lines as lines 10 and 20.
fn program(alloc: Global) -> Result<Prog, NoMemory>
    ensures texts { IfOk result (λ prog. prog.texts ≡ []) }
    ensures data_items { IfOk result (λ prog. prog.data_items ≡ []) }
{
    let mut lines = Items::new(alloc);
    lines.push(line(10, first_line(alloc)?))?;
    lines.push(line(20, second_line(alloc)?))?;
    Ok(Prog {
        lines,
        names: names(alloc)?,
        texts: Items::new(alloc),
        data_items: Items::new(alloc),
        size: 30,
    })
}

#[test]
fn operands_are_taken_along(rt: HostRuntime) -> Result<(), Fail> {
    let ir = build(rt.alloc(), &program(rt.alloc())?)?;
    let count = Op::PushInteger {
        name: COUNT,
        line: 20,
    };
    let ops = [
        Op::PushResident(0),
        Op::GoUnlessWith {
            relation: Comparison::Less,
            item: 3,
            number: 100000,
        },
        Op::ChangeResident {
            op: BinaryOp::Add,
            resident: 0,
            line: 10,
            number: -32768,
        },
        Op::Go(4),
        Op::PushResident(0),
        Op::Push(32768),
        Op::Binary {
            op: BinaryOp::Subtract,
            line: 10,
        },
        Op::StoreResident(0),
        count,
        Op::BinaryWithResident {
            op: BinaryOp::And,
            resident: 0,
            line: 20,
        },
        Op::StoreInteger(COUNT),
        count,
        Op::PushResident(0),
        Op::GoUnless {
            relation: Comparison::Equal,
            item: 7,
        },
        count,
        Op::BinaryWith {
            op: BinaryOp::Subtract,
            line: 20,
            number: -1,
        },
        Op::StoreResident(0),
    ];
    assert!(rt; ir.ops.as_slice() == ops.as_slice());
    let numbers = [0, 1, 0, 0, 0, 1, 2, 1, 0, 1, 1, 0, 1, 2, 0, 1, 1];
    for place in 0..numbers.len() {
        let height = Height {
            numbers: numbers[place],
            texts: 0,
        };
        assert!(rt; ir.heights.get(place) == Some(&height), "at {place}");
    }
    Ok(())
}
