//! Code that is put together from two fragments, its words, and what they do on the board.
ghost use Rattle.std.specs.Prelude.{◌≡◌, length, IfOk};
ghost use Rattle.code_frag.specs.Words.{AllPlaced};

use arm_isa::Instr;
use arm_isa::numbers::{AL, MOV, NE, SUB};
use arm2_machine::{Board, SWI_END, SWI_WRITE};
use bv_base::NoMemory;
use bv_io::MemSink;
use bv_run::{Report, RunEnd};
use code_frag::{Entry, Frag, Item, Label, Lib};
use std::alloc::Global;
use std::test::Fail;

/// The entry that writes R1 spaces, one or more.
const SPACES: u16 = 6;

/// The words of a program that writes three spaces, worked out by hand: a branch over the entry, the entry, and the caller.
const WORDS: [u32; 10] = [
    0xea00_0004,
    0xe3a0_0020,
    0xef00_0000,
    0xe251_1001,
    0x1aff_fffc,
    0xe1a0_f00e,
    0xe3a0_1003,
    0xebff_fff8,
    0xe3a0_0000,
    0xef00_0011,
];

/// Data processing with an immediate, or with a register as it is.
macro_rules! data {
    ($op:expr, $s:expr, $rd:expr, $rn:expr, $imm:expr, $op2:expr) => {
        Item::Ins(Instr::Data {
            cond: AL,
            imm: $imm,
            op: $op,
            s: $s,
            rn: $rn,
            rd: $rd,
            op2: $op2,
        })
    };
}

/// A call of the board.
macro_rules! call {
    ($number:expr) => {
        Item::Ins(Instr::Swi {
            cond: AL,
            number: $number,
        })
    };
}

/// A branch to a label.
macro_rules! branch {
    ($cond:expr, $number:expr) => {
        Item::Jump {
            cond: $cond,
            link: false,
            to: Label { number: $number },
        }
    };
}

/// The entry before its loop, and the loop, whose label is 1, with the return.
static FIRST: [Item; 1] = [data!(MOV, false, 0, 0, true, 32)];

static LOOP: [Item; 4] = [
    call!(SWI_WRITE),
    data!(SUB, true, 1, 1, true, 1),
    branch!(NE, 1),
    data!(MOV, false, 15, 0, false, 14),
];

/// The caller's words before its call, and those after it.
static BEFORE: [Item; 1] = [data!(MOV, false, 1, 0, true, 3)];

static AFTER: [Item; 2] = [data!(MOV, false, 0, 0, true, 0), call!(SWI_END)];

/// A library of one entry.
fn library(alloc: Global) -> Result<Lib, NoMemory>
    ensures labels { IfOk result (λ lib. length lib.frag.places ≡ 2) }
    ensures placed { IfOk result (λ lib. AllPlaced lib.frag) }
    ensures few { IfOk result (λ lib. length lib.frag.items ≡ 5) }
{
    let mut frag = Frag::new(alloc);
    let entry = frag.label()?;
    let again = frag.label()?;
    frag.place(entry);
    frag.emit_all(&FIRST)?;
    frag.place(again);
    frag.emit_all(&LOOP)?;
    let mut entries = Vec::new(alloc);
    entries.push(Entry {
        id: SPACES,
        at: entry,
    })?;
    Ok(Lib { frag, entries })
}

/// The program of `WORDS`: a branch over the library, the library, and the caller.
fn program(alloc: Global, lib: &Lib) -> Result<(Frag, u32), NoMemory>
    requires labels { length lib.now.frag.places ≡ 2 }
    requires placed { AllPlaced lib.now.frag }
    requires few { length lib.now.frag.items ≡ 5 }
    ensures placed { IfOk result (λ r. AllPlaced r.0) }
    ensures few { IfOk result (λ r. length r.0.items ≡ 10) }
{
    let mut frag = Frag::new(alloc);
    let main = frag.label()?;
    frag.branch(AL, false, main)?;
    let number = frag.join(&lib.frag)?;
    frag.place(main);
    frag.emit_all(&BEFORE)?;
    frag.branch(AL, true, Label { number })?;
    frag.emit_all(&AFTER)?;
    Ok((frag, number))
}

#[test]
fn joined_code_runs(rt: HostRuntime) -> Result<(), Fail> {
    let alloc = rt.alloc();
    let lib = library(alloc)?;
    let (frag, number) = program(alloc, &lib)?;
    let words = frag.resolve(alloc, 0x10_0000)?;
    assert_eq!(rt; number, 1);
    assert_eq!(rt; lib.entries.len(), 1);
    assert!(rt; words.as_slice() == WORDS.as_slice());
    let mut board = Board::load(alloc, &WORDS, Vec::new(alloc))?;
    let mut out = MemSink::new(alloc, 100)?;
    assert!(rt; board.run(1000, &mut out) == Ok(RunEnd::Over(Report::Done)));
    assert!(rt; out.bytes() == b"   ".as_slice());
    Ok(())
}
