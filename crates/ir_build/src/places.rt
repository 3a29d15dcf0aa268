//! The places of items that jumps lead to.
ghost use Rattle.std.specs.Prelude.{◌≡◌, ◌+◌, IfOk};
ghost use Rattle.bas_sem.specs.Places as spec;

use crate::numbers::plus;
use bas_ast::{Item, Prog};
use bv_base::NoMemory;

/// The error of a line that the program does not have.
pub const NO_SUCH_LINE: u8 = 41;

/// The place of the first line of a number, if the program has one.
pub fn line_place(prog: &Prog, number: u16) -> Result<Option<u32>, NoMemory>
    ensures { IfOk result (λ found. found ≡ spec.line_place prog.now number) }
{
    let lines = prog.lines.as_slice();
    let mut place = 0;
    for i in 0..lines.len() {
        let line = &lines[i];
        if line.number == number {
            return Ok(Some(place));
        }
        place = plus(place, line.items.len())?;
    }
    Ok(None)
}

/// The place among the lines of the first line of a number, if the program has one.
pub fn line_of_number(prog: &Prog, number: u16) -> Result<Option<u32>, NoMemory>
    ensures { IfOk result (λ found. found ≡ spec.line_of_number prog.now number) }
{
    let lines = prog.lines.as_slice();
    for i in 0..lines.len() {
        if lines[i].number == number {
            return Ok(Some(plus(0, i)?));
        }
    }
    Ok(None)
}

/// The place after the first ELSE among these items, which begin at a place; or after them all, where there is none.
pub fn after_else(items: &[Item], place: u32) -> Result<u32, NoMemory>
    ensures { IfOk result (λ after. after ≡ spec.after_else items.now place) }
{
    for i in 0..items.len() {
        if matches!(&items[i], Item::Else) {
            return plus(place, i + 1);
        }
    }
    plus(place, items.len())
}

/// The place after the first ELSE among these items, which begin at a place, if there is one.
pub fn found_else(items: &[Item], place: u32) -> Result<Option<u32>, NoMemory>
    ensures { IfOk result (λ found. found ≡ spec.found_else items.now place) }
{
    for i in 0..items.len() {
        if matches!(&items[i], Item::Else) {
            return Ok(Some(plus(place, i + 1)?));
        }
    }
    Ok(None)
}
