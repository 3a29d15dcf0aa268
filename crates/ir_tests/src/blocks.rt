//! The flat code of block IF and CASE, operation by operation: blocks within others, empty ones, a CASE within a CASE, and a WHEN
//! after OTHERWISE.

ghost use Rattle.std.specs.Prelude.{◌≡◌, [], IfOk};

use crate::parts::{letter, names, short_line};
use bas_ast::{Any, Head, Item, NumExpr, Prog, ProgLine};
use bas_ir::{Height, Op};
use bv_base::NoMemory;
use ir_build::build;
use sqlite_items::Items;
use std::alloc::Global;
use std::test::Fail;

/// WHEN of a number below 16 and of 16 more.
fn when(alloc: Global, number: i32) -> Result<Item, NoMemory> {
    let mut values = Items::new(alloc);
    values.push(Any::Number(NumExpr::Number(number)))?;
    values.push(Any::Number(NumExpr::Number(number | 16)))?;
    Ok(Item::Head(Head::When(values)))
}

/// The item that a letter stands for: I for a block IF, E for its ELSE, F for its ENDIF, C for CASE, O for OTHERWISE, a full stop
/// for ENDCASE, and a digit for WHEN.
fn item(alloc: Global, letter_of_item: u8) -> Result<Item, NoMemory> {
    match letter_of_item {
        b'I' => Ok(Item::BlockIf(letter())),
        b'E' => Ok(Item::Head(Head::BlockElse)),
        b'F' => Ok(Item::Head(Head::EndIf)),
        b'C' => Ok(Item::Case(Any::Number(letter()))),
        b'O' => Ok(Item::Head(Head::Otherwise)),
        b'.' => Ok(Item::Head(Head::EndCase)),
        _ => when(alloc, i32::from(letter_of_item & 15)),
    }
}

/// Lines of one item each.
fn lines(alloc: Global, items: &[u8]) -> Result<Items<ProgLine>, NoMemory> {
    let mut lines = Items::new(alloc);
    for of_item in items {
        lines.push(short_line(alloc, 10, item(alloc, *of_item)?)?)?;
    }
    Ok(lines)
}

/// A program of these lines.
fn program(alloc: Global, items: &[u8]) -> Result<Prog, NoMemory>
    ensures texts { IfOk result (λ prog. prog.texts ≡ []) }
    ensures data_items { IfOk result (λ prog. prog.data_items ≡ []) }
{
    Ok(Prog {
        lines: lines(alloc, items)?,
        names: names(alloc)?,
        texts: Items::new(alloc),
        data_items: Items::new(alloc),
        size: 60,
    })
}

/// A block IF with two others in it, of which the second is empty.
#[test]
fn ifs(rt: HostRuntime) -> Result<(), Fail> {
    let ir = build(rt.alloc(), &program(rt.alloc(), b"IIEFEIFF".as_slice())?)?;
    let ops = [
        Op::PushResident(0),
        Op::GoIfZero(5),
        Op::PushResident(0),
        Op::GoIfZero(3),
        Op::Go(4),
        Op::Go(4),
        Op::Go(8),
        Op::PushResident(0),
        Op::GoIfZero(7),
        Op::Go(7),
        Op::Go(8),
    ];
    assert!(rt; ir.ops.as_slice() == ops.as_slice());
    let starts = [0, 2, 4, 5, 6, 7, 9, 10];
    assert!(rt; ir.starts.as_slice() == starts.as_slice());
    Ok(())
}

/// A CASE whose first WHEN has another CASE, with an OTHERWISE before its last WHEN, and then an empty CASE.
#[test]
fn cases(rt: HostRuntime) -> Result<(), Fail> {
    let ir = build(rt.alloc(), &program(rt.alloc(), b"C1C3.4O5.C.".as_slice())?)?;
    let ops = [
        Op::PushResident(0),
        Op::Push(1),
        Op::GoIfEqual(2),
        Op::Push(17),
        Op::GoIfEqual(2),
        Op::Push(4),
        Op::GoIfEqual(6),
        Op::Push(20),
        Op::GoIfEqual(6),
        Op::Discard,
        Op::Go(7),
        Op::Go(9),
        Op::PushResident(0),
        Op::Push(3),
        Op::GoIfEqual(4),
        Op::Push(19),
        Op::GoIfEqual(4),
        Op::Discard,
        Op::Go(5),
        Op::Go(5),
        Op::Go(5),
        Op::Go(9),
        Op::Go(9),
        Op::Go(9),
        Op::Go(9),
        Op::PushResident(0),
        Op::Discard,
        Op::Go(11),
        Op::Go(11),
    ];
    assert!(rt; ir.ops.as_slice() == ops.as_slice());
    let starts = [0, 11, 12, 19, 20, 21, 22, 23, 24, 25, 28];
    assert!(rt; ir.starts.as_slice() == starts.as_slice());
    let numbers = [
        0, 1, 2, 1, 2, 1, 2, 1, 2, 1, 0, 0, 0, 1, 2, 1, 2, 1, 0, 0, 0, 0, 0, 0, 0, 0, 1, 0, 0,
    ];
    for place in 0..numbers.len() {
        let height = Height {
            numbers: numbers[place],
            texts: 0,
        };
        assert!(rt; ir.heights.get(place) == Some(&height), "at {place}");
    }
    Ok(())
}
