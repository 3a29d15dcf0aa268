//! The flat code of loops, GOSUB and ON, operation by operation.

ghost use Rattle.std.specs.Prelude.{◌≡◌, [], IfOk};

use crate::parts::{COUNT, flow, letter, line, names};
use bas_ast::{Flow, Item, Jump, NumExpr, Prog};
use bas_ir::{Height, LineStart, Op};
use bas_store::IntegerCell;
use bv_base::NoMemory;
use ir_build::build;
use sqlite_items::Items;
use std::alloc::Global;
use std::test::Fail;

/// `FOR count%=1 TO 3 STEP 2` and `NEXT count%,A%`
fn counted(alloc: Global) -> Result<Items<Item>, NoMemory> {
    let limit = NumExpr::Number(3);
    let step = NumExpr::Number(2);
    let mut items = Items::new(alloc);
    items.push(flow(Flow::For(COUNT, NumExpr::Number(1), limit, Some(step))))?;
    let names = Items::from_slice(alloc, [COUNT, 0].as_slice())?;
    items.push(flow(Flow::Next(names)))?;
    Ok(items)
}

/// `WHILE A%`, `GOSUB 10` and `ENDWHILE`
fn while_loop(alloc: Global) -> Result<Items<Item>, NoMemory> {
    let mut items = Items::new(alloc);
    items.push(flow(Flow::While(letter())))?;
    items.push(flow(Flow::Gosub(10)))?;
    items.push(flow(Flow::EndWhile))?;
    Ok(items)
}

/// `ON A% GOTO 10,99 ELSE RETURN`
fn on_goto(alloc: Global) -> Result<Items<Item>, NoMemory> {
    let numbers = Items::from_slice(alloc, [10, 99].as_slice())?;
    let mut items = Items::new(alloc);
    items.push(Item::On(letter(), Jump::Goto, numbers))?;
    items.push(Item::Else)?;
    items.push(flow(Flow::Return))?;
    Ok(items)
}

/// `REPEAT`, `UNTIL A%`, `ON A% GOSUB 20` and `NEXT`
fn repeat_loop(alloc: Global) -> Result<Items<Item>, NoMemory> {
    let numbers = Items::from_slice(alloc, [20].as_slice())?;
    let mut items = Items::new(alloc);
    items.push(Item::Repeat)?;
    items.push(flow(Flow::Until(letter())))?;
    items.push(Item::On(letter(), Jump::Gosub, numbers))?;
    items.push(flow(Flow::Next(Items::new(alloc))))?;
    Ok(items)
}

/// The four lines as lines 10 to 40. There is no line 99.
fn program(alloc: Global) -> Result<Prog, NoMemory>
    ensures texts { IfOk result (λ prog. prog.texts ≡ []) }
    ensures data_items { IfOk result (λ prog. prog.data_items ≡ []) }
{
    let mut lines = Items::new(alloc);
    lines.push(line(10, counted(alloc)?))?;
    lines.push(line(20, while_loop(alloc)?))?;
    lines.push(line(30, on_goto(alloc)?))?;
    lines.push(line(40, repeat_loop(alloc)?))?;
    Ok(Prog {
        lines,
        names: names(alloc)?,
        texts: Items::new(alloc),
        data_items: Items::new(alloc),
        size: 60,
    })
}

#[test]
fn four_lines(rt: HostRuntime) -> Result<(), Fail> {
    let ir = build(rt.alloc(), &program(rt.alloc())?)?;
    let count = IntegerCell::Named(COUNT);
    let ops = [
        Op::Push(1),
        Op::StoreInteger(COUNT),
        Op::Push(3),
        Op::Push(2),
        Op::OpenFor {
            counter: count,
            line: 10,
        },
        Op::Next {
            counter: count,
            line: 10,
        },
        Op::Next {
            counter: IntegerCell::Resident(0),
            line: 10,
        },
        Op::PushResident(0),
        Op::GoIfZero(5),
        Op::OpenWhile { line: 20 },
        Op::Gosub { line: 20, item: 0 },
        Op::EndWhile { line: 20 },
        Op::PushResident(0),
        Op::GoIfOne(0),
        Op::RaiseIfOne {
            error: 41,
            line: 30,
        },
        Op::Discard,
        Op::Go(7),
        Op::Go(8),
        Op::Return { line: 30 },
        Op::OpenRepeat { line: 40 },
        Op::PushResident(0),
        Op::Until { line: 40 },
        Op::PushResident(0),
        Op::GosubIfOne { line: 40, item: 2 },
        Op::Discard,
        Op::Raise {
            error: 40,
            line: 40,
        },
        Op::NextAny { line: 40 },
    ];
    assert!(rt; ir.ops.as_slice() == ops.as_slice());
    let starts = [0, 5, 7, 10, 11, 12, 17, 18, 19, 20, 22, 26];
    assert!(rt; ir.starts.as_slice() == starts.as_slice());
    let line_starts = [
        LineStart { number: 10, op: 0 },
        LineStart { number: 20, op: 7 },
        LineStart { number: 30, op: 12 },
        LineStart { number: 40, op: 19 },
    ];
    assert!(rt; ir.line_starts.as_slice() == line_starts.as_slice());
    for place in 0..ops.len() {
        let is_start = starts.contains(&(place as u32));
        assert!(rt; ir.marks.get(place) == Some(&is_start), "at {place}");
    }
    let numbers = [
        0, 1, 0, 1, 2, 0, 0, 0, 1, 0, 0, 0, 0, 1, 1, 1, 0, 0, 0, 0, 0, 1, 0, 1, 1, 0, 0,
    ];
    for place in 0..numbers.len() {
        let height = Height {
            numbers: numbers[place],
            texts: 0,
        };
        assert!(rt; ir.heights.get(place) == Some(&height), "at {place}");
    }
    Ok(())
}
