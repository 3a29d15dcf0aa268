//! What every shelf promises: the trait, and its errors.
ghost use Rattle.std.specs.Prelude.{◌≡◌, ◌≢◌, ℕ, ◌≤◌, List, ◌∷◌, Option, Some, None, IfOk, OnOk, IsErrOf, vec_len};
ghost use Rattle.bv_io.specs.Log.{Event, take_event, put_event};
ghost use Rattle.bv_io.specs.Shelf.{Rose, Tells, TellsMore};

use std::alloc::Global;

/// Why a shelf did not give a content.
#[derive(Clone, Copy, Debug, PartialEq, Eq)]
pub enum TakeError {
    /// No content is held under the name.
    Missing,
    /// The shelf failed.
    Failed,
    /// The content has more bytes than the caller takes.
    TooLong,
    /// Memory ran out for the content.
    NoMemory,
}

/// Why a shelf did not store a content.
#[derive(Clone, Copy, Debug, PartialEq, Eq)]
pub enum PutError {
    /// The shelf failed. What it holds under the name is not known.
    Failed,
    /// Memory ran out, and nothing changed.
    NoMemory,
}

/// Contents under names, as files are. A shelf may tell what it holds, and it counts its own faults: one count for
/// `take` and one for `put`.
pub trait Shelf {
    /// What it tells of a name: nothing, or that no content is held under it, or the content.
    ghost content: { Self → List ℕ → Option (Option (List ℕ)) };

    /// How often `take` failed, up to the greatest `u64`.
    ghost take_faults: { Self → ℕ };

    /// How often `put` failed, up to the greatest `u64`.
    ghost put_faults: { Self → ℕ };

    /// All calls of `take` and `put` with what they were handed and answered, the newest first.
    ghost log: { Self → List Event };

    /// The content of a name, of at most `max` bytes.
    fn take(&mut self, alloc: Global, name: &str, max: u32) -> Result<Vec<u8>, TakeError>
        ensures logged { log self.new ≡ take_event name.now result ∷ log self.old }
        ensures found { IfOk result (λ bytes. Tells (content self.old name.now) (Some bytes.items)) }
        ensures fits { IfOk result (λ bytes. vec_len bytes ≤ max) }
        ensures missing { IsErrOf result TakeError.Missing → content self.old name.now ≡ Some None }
        ensures calm { IsErrOf result TakeError.Missing → take_faults self.new ≡ take_faults self.old }
        ensures too_long { IsErrOf result TakeError.TooLong → TellsMore (content self.old name.now) max }
        ensures failed { IsErrOf result TakeError.Failed → Rose (take_faults self.old) (take_faults self.new) }
        ensures no_memory { IsErrOf result TakeError.NoMemory → take_faults self.new ≡ take_faults self.old }

        // A take changes no content, and neither count falls.
        ensures same { (n : List ℕ) → content self.new n ≡ content self.old n }
        ensures faults { take_faults self.old ≤ take_faults self.new }
        ensures other_faults { put_faults self.new ≡ put_faults self.old };

    /// Makes the bytes the content of a name.
    fn put(&mut self, name: &str, bytes: &[u8]) -> Result<(), PutError>
        ensures logged { log self.new ≡ put_event name.now bytes.now result ∷ log self.old }
        ensures stored { OnOk result (Tells (content self.new name.now) (Some bytes.now)) }
        ensures failed { IsErrOf result PutError.Failed → Rose (put_faults self.old) (put_faults self.new) }
        ensures no_memory { IsErrOf result PutError.NoMemory → (n : List ℕ) → content self.new n ≡ content self.old n }
        ensures no_memory_calm { IsErrOf result PutError.NoMemory → put_faults self.new ≡ put_faults self.old }

        // A put changes no other name, and neither count falls.
        ensures others { (n : List ℕ) → n ≢ name.now → content self.new n ≡ content self.old n }
        ensures faults { put_faults self.old ≤ put_faults self.new }
        ensures other_faults { take_faults self.new ≡ take_faults self.old };
}
