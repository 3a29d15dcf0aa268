//! Taking the content of a name from the shelf, which each command does first.
ghost use Rattle.std.specs.Prelude.{◌≡◌, ◌≤◌, length, IfOk, IfErr};
ghost use Rattle.basv_top.specs.Ending.{told};
ghost use Rattle.basv_top.specs.Seen.{Same, seen_shelf};
ghost use Rattle.basv_top.specs.Taking.{Calm, TakeFails, Takes};

use crate::ending::Ending;
use bv_io::Shelf;
use profile_check::Refusal;
use std::alloc::Global;

/// The content of a name, of at most `max` bytes. One that has more is refused as `too_long`.
pub fn take_within<'a, S: Shelf>(
    alloc: Global,
    name: &'a str,
    max: u32,
    too_long: Refusal,
    shelf: &mut S,
) -> Result<Vec<u8>, Ending<'a>>
    ensures taken { IfOk result (λ bytes. Takes (seen_shelf S.Shelf shelf.old) (seen_shelf S.Shelf shelf.new) name.now bytes.items) }
    ensures fits { IfOk result (λ bytes. length bytes.items ≤ max) }
    ensures not_taken { IfErr result (λ ending. TakeFails (seen_shelf S.Shelf shelf.old) (seen_shelf S.Shelf shelf.new) name.now max too_long (told ending)) }
    ensures calm { Calm (seen_shelf S.Shelf shelf.old) (seen_shelf S.Shelf shelf.new) }
    ensures same { Same (seen_shelf S.Shelf shelf.old) (seen_shelf S.Shelf shelf.new) }
    ensures put_faults { S.put_faults shelf.new ≡ S.put_faults shelf.old }
{
    match shelf.take(alloc, name, max) {
        Ok(bytes) => Ok(bytes),
        Err(error) => Err(Ending::not_taken(error, name, too_long)),
    }
}
