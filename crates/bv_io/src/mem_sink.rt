//! A sink in memory that can be made to fail, for tests and for callers without a terminal.
ghost use Rattle.std.specs.Prelude.{◌≡◌, ℕ, ◌≤◌, ◌↔◌, [], ◌∷◌, ◌++◌, length, Some, Contains, IsTrue, IfOk, OnOk, OnErr};
ghost use Rattle.bv_io.specs.Log.{write_event};
ghost use Rattle.bv_io.specs.Shelf.{Rose};
ghost use Rattle.bv_io.specs.Sink.{with_bytes, WritesPart};
ghost use Rattle.bv_io.specs.MemSink.{empty_sink, MayWrite, state_written, state_failed};

use crate::log::{Call, Log};
use crate::sink::{Sink, SinkFault};
use bv_base::NoMemory;
use std::alloc::Global;
use std::marker::Model;

/// A sink in memory of a fixed room, which tells all that was written. Its writes are numbered from 1, and those that
/// `fail_at` names fail, as does a write that passes the room. After a fault nothing of the write is kept.
#[derive(Drop)]
pub struct MemSink {
    bytes: Vec<u8>,
    room: u32,
    writes: u64,
    failing: Vec<u64>,
    faults: u64,
    log: Log,
}

impl Model for MemSink {
    ghost use Rattle.std.specs.Prelude.{◌≤◌, vec_len, vec_capacity};
    ghost use Rattle.bv_io.specs.Log.{write_event};
    ghost use Rattle.bv_io.specs.Shelf.{Rose};
    ghost use Rattle.bv_io.specs.Sink.{with_bytes, WritesPart};
    ghost use Rattle.bv_io.specs.MemSink.{MemSinkState, state_code};

    ghost Value = { MemSinkState };

    ghost coded = { state_code };

    ghost view = { λ s. record { bytes = s.bytes.items; room = s.room; writes = s.writes; failing = s.failing.items; faults = s.faults; log = s.log.events } };

    ghost invariant = { λ s. (vec_len s.bytes ≤ s.room) × (s.room ≤ vec_capacity s.bytes) };
}

impl MemSink {
    /// A sink with room for `cap` bytes, taken at once.
    pub fn new(alloc: Global, cap: u32) -> Result<MemSink, NoMemory>
        ensures { IfOk result (λ sink. sink ≡ empty_sink cap) }
    {
        let bytes = Vec::with_capacity(alloc, cap as usize)?;
        Ok(MemSink {
            bytes,
            room: cap,
            writes: 0,
            failing: Vec::new(alloc),
            faults: 0,
            log: Log::new(),
        })
    }

    /// Makes the `n`-th write fail, counted from 1 and from the sink's making.
    pub fn fail_at(&mut self, n: u64) -> Result<(), NoMemory>
        ensures ok { OnOk result (self.new ≡ record self.old { failing = self.old.failing ++ n ∷ [] }) }
        ensures err { OnErr result (self.new ≡ self.old) }
    {
        self.failing.push(n)?;
        Ok(())
    }

    /// What was written.
    pub fn bytes(&self) -> &[u8]
        ensures { result.now ≡ self.now.bytes }
    {
        self.bytes.as_slice()
    }

    /// Whether the next write may be of `count` bytes: it is not to fail, and they have room.
    fn may_write(&self, count: usize) -> bool
        ensures { IsTrue result ↔ MayWrite self.now count }
    {
        let left = self.room as usize - self.bytes.len();
        count <= left && !self.failing.contains(&self.writes.saturating_add(1))
    }
}

impl Sink for MemSink {
    ghost written = { λ s. Some s.bytes };

    ghost faults = { λ s. s.faults };

    ghost log = { λ s. s.log };

    fn write(&mut self, bytes: &[u8]) -> Result<(), SinkFault>
        // The answer, and the whole new state.
        ensures accepts { OnOk result (MayWrite self.old (length bytes.now) × (self.new ≡ state_written self.old bytes.now)) }
        ensures refuses { OnErr result (¬ MayWrite self.old (length bytes.now) × (self.new ≡ state_failed self.old bytes.now)) }

        // What every sink ensures.
        ensures logged { self.new.log ≡ write_event bytes.now result ∷ self.old.log }
        ensures ok { OnOk result (Some self.new.bytes ≡ with_bytes (Some self.old.bytes) bytes.now) }
        ensures part { OnErr result (WritesPart (Some self.old.bytes) bytes.now (Some self.new.bytes)) }
        ensures failed { OnErr result (Rose self.old.faults self.new.faults) }
        ensures faults { self.old.faults ≤ self.new.faults }
    {
        let mut answer = Err(SinkFault);
        if self.may_write(bytes.len()) {
            self.bytes.extend_from_slice(bytes).unwrap();
            answer = Ok(());
        } else {
            self.faults = self.faults.saturating_add(1);
        }
        self.writes = self.writes.saturating_add(1);
        self.log = self.log.then(&Call::Write {
            bytes,
            answer: &answer,
        });
        answer
    }
}
