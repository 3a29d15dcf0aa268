//! READ: the items of DATA, which are taken one after another.
ghost use Rattle.std.specs.Prelude.{◌≡◌, ℕ, ◌+◌, None, Some, slice_get, MatchOption};
ghost use Rattle.bas_ir.specs.declared.op.Op.TheVariants.{ReadNumber};
ghost use Rattle.bas_interp.specs.Machine.{IsReady, IsRightAt, KeepsRoom};

use crate::act::Next;
use crate::memory::Memory;
use bas_ir::Ir;

/// The error that no item of DATA is left.
const OUT_OF_DATA: u8 = 42;

/// Takes the item of DATA at a place, if there is one, and goes to the next place.
fn take_item<'a>(code: &'a Ir, place: &mut usize) -> Option<&'a [u8]>
    ensures { MatchOption result ((slice_get code.now.data_items place.old ≡ None) × (place.new ≡ place.old))
        (λ text. (slice_get code.now.data_items place.old ≡ Some text.now) × (place.new ≡ place.old + 1)) }
{
    let items = code.data_items.as_slice();
    let at = *place;
    if at >= items.len() {
        return None;
    }
    *place += 1;
    Some(items[at].as_slice())
}

/// Takes the next item of DATA, and puts its number on top.
pub(crate) fn read_number(code: &Ir, memory: &mut Memory, line: u16) -> Next
    requires { IsReady memory.old }
    ensures right { (pc : ℕ) → IsRightAt code.now pc (ReadNumber line) result memory.old memory.new }
    ensures room { KeepsRoom memory.old memory.new }
{
    let Some(text) = take_item(code, &mut memory.data_place) else {
        return Next::Raises {
            error: OUT_OF_DATA,
            line,
        };
    };
    match bv_num::data_value(text) {
        Ok(value) => {
            memory.numbers.push(value);
            Next::Falls
        }
        Err(error) => Next::Raises { error, line },
    }
}
