//! The flat code of a program, operation by operation. A new kind of statement stands in the program here.

ghost use Rattle.std.specs.Prelude.{◌≡◌, [], IfOk};

use bas_ast::{
    BinaryOp, Flow, Item, Name, NameKind, NumExpr, NumberFormat, Output, PrintPart, Prog, ProgLine,
    Stmt, Variable,
};
use bas_ir::{Height, LineStart, Mark, Op};
use bv_base::NoMemory;
use ir_build::build;
use sqlite_items::{Boxed, Items};
use std::alloc::Global;
use std::test::Fail;

/// `1+2`
fn sum(alloc: Global) -> Result<NumExpr, NoMemory> {
    let left = Boxed::new(alloc, NumExpr::Number(1))?;
    let right = Boxed::new(alloc, NumExpr::Number(2))?;
    Ok(NumExpr::Binary(BinaryOp::Add, left, right))
}

/// `IF A% THEN PRINT 1+2 ELSE GOTO 10`
fn first_line(alloc: Global) -> Result<Items<Item>, NoMemory> {
    let mut parts = Items::new(alloc);
    parts.push(PrintPart::Number(NumberFormat::Decimal, sum(alloc)?))?;
    let mut items = Items::new(alloc);
    items.push(Item::If(NumExpr::Variable(Variable::Simple(0))))?;
    items.push(Item::Stmt(Stmt::Output(Output::Print(parts))))?;
    items.push(Item::Else)?;
    items.push(Item::Stmt(Stmt::Flow(Flow::Goto(10))))?;
    Ok(items)
}

/// `REM` and `GOTO 15`
fn second_line(alloc: Global) -> Result<Items<Item>, NoMemory> {
    let mut items = Items::new(alloc);
    items.push(Item::Stmt(Stmt::Flow(Flow::Goto(15))))?;
    items.push(Item::Remark)?;
    Ok(items)
}

/// The two lines as lines 10 and 20. There is no line 15.
fn program(alloc: Global) -> Result<Prog, NoMemory>
    ensures texts { IfOk result (λ prog. prog.texts ≡ []) }
    ensures data_items { IfOk result (λ prog. prog.data_items ≡ []) }
{
    let mut lines = Items::new(alloc);
    lines.push(ProgLine {
        number: 10,
        items: first_line(alloc)?,
    })?;
    lines.push(ProgLine {
        number: 20,
        items: second_line(alloc)?,
    })?;
    let mut names = Items::new(alloc);
    names.push(Name {
        kind: NameKind::Integer,
        text: Items::from_slice(alloc, b"A%")?,
    })?;
    Ok(Prog {
        lines,
        names,
        texts: Items::new(alloc),
        data_items: Items::new(alloc),
        size: 30,
    })
}

#[test]
fn two_lines(rt: HostRuntime) -> Result<(), Fail> {
    let ir = build(rt.alloc(), &program(rt.alloc())?)?;
    let ops = [
        Op::PushResident(0),
        Op::GoIfZero(3),
        Op::Push(1),
        Op::BinaryWith {
            op: BinaryOp::Add,
            line: 10,
            number: 2,
        },
        Op::WriteNumber {
            padded: true,
            format: NumberFormat::Decimal,
        },
        Op::WriteMark(Mark::NewLine),
        Op::Go(4),
        Op::Go(0),
        Op::Raise {
            error: 41,
            line: 20,
        },
        Op::Go(6),
    ];
    assert!(rt; ir.ops.as_slice() == ops.as_slice());
    let starts = [0, 2, 6, 7, 8, 9];
    assert!(rt; ir.starts.as_slice() == starts.as_slice());
    let line_starts = [
        LineStart { number: 10, op: 0 },
        LineStart { number: 20, op: 8 },
    ];
    assert!(rt; ir.line_starts.as_slice() == line_starts.as_slice());
    for place in 0..ops.len() {
        let is_start = starts.contains(&(place as u32));
        assert!(rt; ir.marks.get(place) == Some(&is_start), "at {place}");
    }
    let numbers = [0, 1, 0, 1, 1, 0, 0, 0, 0, 0];
    for place in 0..numbers.len() {
        let height = Height {
            numbers: numbers[place],
            texts: 0,
        };
        assert!(rt; ir.heights.get(place) == Some(&height), "at {place}");
    }
    Ok(())
}

/// The bytes of an operation.
const OP_BYTES: usize = std::mem::size_of::<Op>();

/// An operation has eight bytes.
#[test]
fn operations_are_small(rt: HostRuntime) {
    assert_eq!(rt; OP_BYTES, 8);
}
