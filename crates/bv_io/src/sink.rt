//! What every sink promises: the trait, and its error.
ghost use Rattle.std.specs.Prelude.{◌≡◌, ℕ, ◌≤◌, List, ◌∷◌, Option, OnOk, OnErr};
ghost use Rattle.bv_io.specs.Log.{Event, write_event};
ghost use Rattle.bv_io.specs.Shelf.{Rose};
ghost use Rattle.bv_io.specs.Sink.{with_bytes, WritesPart};

/// A sink failed.
#[derive(Clone, Copy, Debug, PartialEq, Eq)]
pub struct SinkFault;

/// Takes bytes in order, as a terminal does. A sink may tell what it was given, and it counts its own faults.
pub trait Sink {
    /// What was written, where it tells that.
    ghost written: { Self → Option (List ℕ) };

    /// How often it failed, up to the greatest `u64`.
    ghost faults: { Self → ℕ };

    /// All writes with what they were handed and whether it was accepted, the newest first.
    ghost log: { Self → List Event };

    /// Writes bytes after what was written. After a fault some first part of them was written.
    fn write(&mut self, bytes: &[u8]) -> Result<(), SinkFault>
        ensures logged { log self.new ≡ write_event bytes.now result ∷ log self.old }
        ensures ok { OnOk result (written self.new ≡ with_bytes (written self.old) bytes.now) }
        ensures part { OnErr result (WritesPart (written self.old) bytes.now (written self.new)) }
        ensures failed { OnErr result (Rose (faults self.old) (faults self.new)) }
        ensures faults { faults self.old ≤ faults self.new };
}
