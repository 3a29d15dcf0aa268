//! The flat code of DATA, READ and RESTORE, operation by operation.

ghost use Rattle.std.specs.Prelude.{◌≡◌, ◌≤◌, [], length, IfOk};
ghost use Rattle.std.specs.List.{AllByRecursion};

use crate::parts::{COUNT, LETTER, line, names, short_line};
use bas_ast::{DataItem, Item, NumTarget, Prog, ProgLine, Stmt, Target, Variable};
use bas_ir::{Height, Op};
use bv_base::NoMemory;
use ir_build::build;
use sqlite_items::Items;
use std::alloc::Global;
use std::test::Fail;

/// `READ A%,count%`, `RESTORE`, `RESTORE 20` and `RESTORE 99`
fn second_line(alloc: Global) -> Result<Items<Item>, NoMemory> {
    let mut targets = Items::new(alloc);
    for name in [LETTER, COUNT] {
        targets.push(Target::Number(NumTarget::Variable(Variable::Simple(name))))?;
    }
    let mut items = Items::new(alloc);
    items.push(Item::Stmt(Stmt::Read(targets)))?;
    items.push(Item::Stmt(Stmt::Restore(None)))?;
    items.push(Item::Stmt(Stmt::Restore(Some(20))))?;
    items.push(Item::Stmt(Stmt::Restore(Some(99))))?;
    Ok(items)
}

/// `DATA 1,2`, the second line, and `DATA 3`
fn lines(alloc: Global) -> Result<Items<ProgLine>, NoMemory> {
    let mut lines = Items::new(alloc);
    lines.push(short_line(alloc, 10, Item::Data(0))?)?;
    lines.push(line(20, second_line(alloc)?))?;
    lines.push(short_line(alloc, 30, Item::Data(2))?)?;
    Ok(lines)
}

/// An item of a line, of one byte.
fn data_item(alloc: Global, line: u32, byte: u8) -> Result<DataItem, NoMemory>
    ensures { IfOk result (λ item. length item.text ≤ 1) }
{
    let mut text = Items::new(alloc);
    text.push(byte)?;
    Ok(DataItem { line, text })
}

/// The three items of DATA.
fn data_items(alloc: Global) -> Result<Items<DataItem>, NoMemory>
    ensures { IfOk result (λ items. AllByRecursion (λ item. length item.text ≤ 255) items) }
{
    let mut items = Items::new(alloc);
    items.push(data_item(alloc, 0, b'1')?)?;
    items.push(data_item(alloc, 0, b'2')?)?;
    items.push(data_item(alloc, 2, b'3')?)?;
    Ok(items)
}

/// The three lines as lines 10 to 30. There is no line 99.
fn program(alloc: Global) -> Result<Prog, NoMemory>
    ensures texts { IfOk result (λ prog. prog.texts ≡ []) }
    ensures data_items { IfOk result (λ prog. AllByRecursion (λ item. length item.text ≤ 255) prog.data_items) }
{
    Ok(Prog {
        lines: lines(alloc)?,
        names: names(alloc)?,
        texts: Items::new(alloc),
        data_items: data_items(alloc)?,
        size: 60,
    })
}

#[test]
fn three_items(rt: HostRuntime) -> Result<(), Fail> {
    let ir = build(rt.alloc(), &program(rt.alloc())?)?;
    let ops = [
        Op::Go(1),
        Op::ReadNumber { line: 20 },
        Op::StoreResident(0),
        Op::ReadNumber { line: 20 },
        Op::StoreInteger(1),
        Op::Restore(0),
        Op::Restore(2),
        Op::Raise {
            error: 41,
            line: 20,
        },
        Op::Go(6),
    ];
    assert!(rt; ir.ops.as_slice() == ops.as_slice());
    let starts = [0, 1, 5, 6, 7, 8];
    assert!(rt; ir.starts.as_slice() == starts.as_slice());
    let numbers = [0, 0, 1, 0, 1, 0, 0, 0, 0];
    for place in 0..numbers.len() {
        let height = Height {
            numbers: numbers[place],
            texts: 0,
        };
        assert!(rt; ir.heights.get(place) == Some(&height), "at {place}");
    }
    let texts = ir.data_items.as_slice();
    assert!(rt; texts.len() == 3);
    assert!(rt; texts[0].as_slice() == b"1".as_slice());
    assert!(rt; texts[2].as_slice() == b"3".as_slice());
    Ok(())
}
