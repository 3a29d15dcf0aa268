//! What every command that runs something does about it: it takes the input before the run, and puts the arena after it.
ghost use Rattle.std.specs.Prelude.{◌≡◌, ◌≢◌, ◌⊎◌, ℕ, List, Some, IfOk, IfErr, OnOk};
ghost use Rattle.std.specs.Option.{option_map};
ghost use Rattle.profile_check.specs.declared.refusal.Refusal.TheVariants as refusals;
ghost use Rattle.basv_top.specs.Ending.{Refused, WriteFault, told};
ghost use Rattle.basv_top.specs.Running.{TakesInput, InputFails, PutsArena, ArenaUnput, ArenaFaults};
ghost use Rattle.basv_top.specs.Seen.{seen_shelf};
ghost use Rattle.basv_top.specs.Taking.{Calm};

use crate::ending::Ending;
use crate::limits::LONG_INPUT;
use crate::taking::take_within;
use bv_base::INPUT_BYTES;
use bv_io::Shelf;
use std::alloc::Global;

/// The content of an input's name, or the empty input where there is no name.
pub fn take_input<'a, S: Shelf>(
    alloc: Global,
    input: Option<&'a str>,
    shelf: &mut S,
) -> Result<Vec<u8>, Ending<'a>>
    ensures taken { IfOk result (λ bytes. TakesInput (seen_shelf S.Shelf shelf.old) (seen_shelf S.Shelf shelf.new) (option_map (λ name. name.now) input.entry) bytes.items) }
    ensures not_taken { IfErr result (λ ending. InputFails (seen_shelf S.Shelf shelf.old) (seen_shelf S.Shelf shelf.new) (option_map (λ name. name.now) input.entry) (told ending)) }
    ensures calm { Calm (seen_shelf S.Shelf shelf.old) (seen_shelf S.Shelf shelf.new) }
{
    match input {
        Some(name) => take_within(alloc, name, INPUT_BYTES, LONG_INPUT, shelf),
        None => Ok(Vec::new(alloc)),
    }
}

/// Puts an arena's bytes under a name, if there is one.
pub fn put_arena<'a, S: Shelf>(
    arena: Option<&str>,
    bytes: &[u8],
    shelf: &mut S,
) -> Result<(), Ending<'a>>
    ensures put { OnOk result (PutsArena (seen_shelf S.Shelf shelf.old) (seen_shelf S.Shelf shelf.new) (option_map (λ name. name.now) arena.entry) bytes.now) }
    ensures not_put { IfErr result (λ ending.
        ((told ending ≡ Refused refusals.NoMemory) × ArenaUnput (seen_shelf S.Shelf shelf.old) (seen_shelf S.Shelf shelf.new) (option_map (λ name. name.now) arena.entry) bytes.now)
        ⊎ ((told ending ≡ WriteFault) × ArenaFaults (seen_shelf S.Shelf shelf.old) (seen_shelf S.Shelf shelf.new) (option_map (λ name. name.now) arena.entry) bytes.now)) }
{
    let Some(name) = arena else {
        return Ok(());
    };
    match shelf.put(name, bytes) {
        Ok(()) => Ok(()),
        Err(error) => Err(Ending::from(error)),
    }
}
