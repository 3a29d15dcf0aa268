//! Loops and GOSUBs: what opens them, and what their closing words do.
ghost use Rattle.std.specs.Prelude.{◌≡◌, ◌<◌, ◌+◌, ◌∷◌, length, nat_lt, pos};
ghost use Rattle.std.specs.Ordering.{int_eq};
ghost use Rattle.bas_ir.specs.declared.ir.Ir.{Ir as Code};
ghost use Rattle.bas_ir.specs.declared.op.Op.TheVariants.{OpenFor, Until, EndWhile, Return};
ghost use Rattle.bas_sem.specs.Loops.{goes_round};
ghost use Rattle.bas_sem.specs.State.{State};
ghost use Rattle.bas_store.specs.Entries.{cell_of, closer_of, entry_of, lowest};
ghost use Rattle.bas_store.specs.Opened.{NextOf};
ghost use Rattle.bas_store.specs.Stored.{most_opened, number_in, or_zero, with_number};
ghost use Rattle.bas_interp.specs.Machine.{with_memory, IsReady, IsRight, IsAlwaysRight, KeepsRoom};
ghost use Rattle.bas_interp.specs.Loops.{answer_opened, memory_opened, answer_settled, memory_settled, IsNext, SameStacks};

use crate::act::Next;
use crate::memory::{Memory, at_or, store_at};
use bas_store::{
    ClosingWord, FoundEntry, IntegerCell, NO_REPEAT, NO_ROOM, NO_SUBROUTINE, NO_WHILE, OpenEntry,
    OpeningWord,
};

/// The depth of the outermost level, where all code runs.
const OUTERMOST: u16 = 0;

/// The number in a cell, 0 where it was never made.
fn value_in(memory: &Memory, cell: IntegerCell) -> i32
    ensures { (s : State) → result ≡ or_zero (number_in (cell_of cell) (with_memory memory.now s).stored) }
{
    match cell {
        IntegerCell::Resident(index) => at_or(&memory.residents, usize::from(index), 0),
        IntegerCell::Named(name) => {
            at_or(&memory.integers, usize::from(name), None).unwrap_or(0)
        }
    }
}

/// Stores a number in a cell.
fn store(memory: &mut Memory, cell: IntegerCell, value: i32)
    ensures stored { (s : State) → with_memory memory.new s
        ≡ record (with_memory memory.old s) { stored = with_number (cell_of cell) value (with_memory memory.old s).stored } }
    ensures opened { memory.new.opened ≡ memory.old.opened }
    ensures stacks { SameStacks memory.old memory.new }
{
    match cell {
        IntegerCell::Resident(index) => {
            store_at(&mut memory.residents, usize::from(index), value);
        }
        IntegerCell::Named(name) => {
            store_at(&mut memory.integers, usize::from(name), Some(value));
        }
    }
}

/// Opens an entry with the place after its item, and then gives an answer, or the error that there is no room.
pub(crate) fn open(
    memory: &mut Memory,
    opening: OpeningWord,
    after: u32,
    line: u16,
    next: Next,
) -> Next
    ensures answer { result ≡ answer_opened (nat_lt (length memory.old.opened) most_opened) line next }
    ensures memory { memory.new ≡ memory_opened (nat_lt (length memory.old.opened) most_opened) opening after memory.old }
{
    if !memory.opened.can_open() {
        return Next::Raises {
            error: NO_ROOM,
            line,
        };
    }
    memory.opened.open(OpenEntry {
        opening,
        at: after,
        call: OUTERMOST,
    });
    next
}

/// FOR, once its start is stored.
pub(crate) fn open_for(memory: &mut Memory, counter: IntegerCell, after: u32, line: u16) -> Next
    requires { IsReady memory.old }
    ensures right { (ir : Code) → IsRight ir (OpenFor counter line) after result memory.old memory.new }
    ensures room { KeepsRoom memory.old memory.new }
{
    let Some(step) = memory.numbers.pop() else {
        return Next::Ends;
    };
    let Some(limit) = memory.numbers.pop() else {
        return Next::Ends;
    };
    let opening = OpeningWord::For {
        cell: counter,
        limit,
        step,
    };
    open(memory, opening, after, line, Next::Falls)
}

/// Goes round a loop again, or closes it.
fn settle(memory: &mut Memory, again: bool, found: FoundEntry) -> Next
    requires within { found.below < length memory.old.opened }
    requires few { found.below < most_opened }
    requires whole { lowest (found.below + 1) memory.old.opened ≡ entry_of found.entry ∷ lowest found.below memory.old.opened }
    ensures answer { result ≡ answer_settled again found }
    ensures memory { memory.new ≡ memory_settled again found memory.old }
{
    if again {
        memory.opened.cut(found.below + 1);
        Next::Goes(found.entry.at)
    } else {
        memory.opened.cut(found.below);
        Next::Falls
    }
}

/// Whether a FOR goes round again with a value.
fn goes_round(limit: i32, step: i32, value: i32) -> bool
    ensures { result ≡ goes_round limit step value }
{
    if step < 0 {
        limit <= value
    } else {
        value <= limit
    }
}

/// NEXT, with a variable or without one.
pub(crate) fn next(memory: &mut Memory, word: ClosingWord, line: u16) -> Next
    requires { IsReady memory.old }
    ensures right { IsNext (closer_of word) line result memory.old memory.new }
    ensures room { KeepsRoom memory.old memory.new }
{
    let Some(found) = memory.opened.nearest(OUTERMOST, word) else {
        return Next::Raises {
            error: memory.opened.closing_error(OUTERMOST, word),
            line,
        };
    };
    let OpeningWord::For { cell, limit, step } = found.entry.opening else {
        return Next::Ends;
    };
    match bv_num::add(value_in(memory, cell), step) {
        Ok(value) => {
            store(memory, cell, value);
            settle(memory, goes_round(limit, step, value), found)
        }
        Err(error) => Next::Raises { error, line },
    }
}

/// NEXT of a variable.
pub(crate) fn next_of(memory: &mut Memory, counter: IntegerCell, line: u16) -> Next
    requires { IsReady memory.old }
    ensures right { IsNext (NextOf (cell_of counter)) line result memory.old memory.new }
    ensures room { KeepsRoom memory.old memory.new }
{
    next(memory, ClosingWord::NextOf(counter), line)
}

/// Whether a number is 0.
fn is_zero(value: i32) -> bool
    ensures { result ≡ int_eq value (pos 0) }
{
    value == 0
}

/// UNTIL.
pub(crate) fn until(memory: &mut Memory, line: u16) -> Next
    requires { IsReady memory.old }
    ensures right { IsAlwaysRight (Until line) result memory.old memory.new }
    ensures room { KeepsRoom memory.old memory.new }
{
    let Some(value) = memory.numbers.pop() else {
        return Next::Ends;
    };
    let Some(found) = memory.opened.nearest(OUTERMOST, ClosingWord::Until) else {
        return Next::Raises {
            error: NO_REPEAT,
            line,
        };
    };
    settle(memory, is_zero(value), found)
}

/// ENDWHILE.
pub(crate) fn end_while(memory: &mut Memory, line: u16) -> Next
    requires { IsReady memory.old }
    ensures right { IsAlwaysRight (EndWhile line) result memory.old memory.new }
    ensures room { KeepsRoom memory.old memory.new }
{
    let Some(found) = memory.opened.nearest(OUTERMOST, ClosingWord::EndWhile) else {
        return Next::Raises {
            error: NO_WHILE,
            line,
        };
    };
    memory.opened.cut(found.below);
    Next::Goes(found.entry.at.saturating_sub(1))
}

/// RETURN.
pub(crate) fn return_from(memory: &mut Memory, line: u16) -> Next
    requires { IsReady memory.old }
    ensures right { IsAlwaysRight (Return line) result memory.old memory.new }
    ensures room { KeepsRoom memory.old memory.new }
{
    let Some(found) = memory.opened.nearest(OUTERMOST, ClosingWord::Return) else {
        return Next::Raises {
            error: NO_SUBROUTINE,
            line,
        };
    };
    memory.opened.cut(found.below);
    Next::Goes(found.entry.at)
}
