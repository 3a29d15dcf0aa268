//! The steps of a run, and where its jumps lead.
ghost use Rattle.std.specs.Prelude.{◌≡◌, ◌<◌, ◌^◌, true, false, Some, None, length, min, slice_index_or};
ghost use Rattle.bas_interp.specs.Steps.{paid};

/// Takes the step of an operation, if it takes one. False where no step is left.
#[inline(always)]
pub(crate) fn pay(begins: bool, left: &mut u64) -> bool
    ensures paid { result ≡ true → paid begins left.old ≡ Some left.new }
    ensures spent { result ≡ false → paid begins left.old ≡ None }
{
    if begins {
        if *left == 0 {
            return false;
        }
        *left -= 1;
    }
    true
}

/// Where a jump to an item leads: the place of its operations, and the item that begins there. An item after the last one
/// begins where all end.
#[derive(Clone, Copy, Drop)]
pub(crate) struct Goal {
    pub(crate) pc: usize,
    pub(crate) item: u32,
}

/// Where a jump to an item leads, by the table of the items' places and the place after all operations.
#[inline(always)]
pub(crate) fn goal_of(starts: &[u32], item: u32, end: usize) -> Goal
    requires { length starts.now < 2 ^ 32 }
    ensures place { result.pc ≡ slice_index_or starts.now item end }
    ensures item { result.item ≡ min item (length starts.now) }
{
    if (item as usize) < starts.len() {
        Goal {
            pc: starts[item as usize] as usize,
            item,
        }
    } else {
        Goal {
            pc: end,
            item: starts.len() as u32,
        }
    }
}
