//! Sums of the numbers of places, operations and pending values.
ghost use Rattle.std.specs.Prelude.{◌≡◌, ◌+◌, IfOk};

use bv_base::NoMemory;

/// A number and a count more. A sum past the end of `u32` is answered as want of memory, since no program that is in memory
/// has 2^32 items or operations.
pub fn plus(number: u32, count: usize) -> Result<u32, NoMemory>
    ensures { IfOk result (λ sum. sum ≡ number + count) }
{
    if count > u32::MAX as usize {
        return Err(NoMemory);
    }
    number.checked_add(count as u32).ok_or(NoMemory)
}
