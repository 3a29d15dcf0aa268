//! A shelf in memory that can be made to fail, for tests and for callers without a disk.
ghost use Rattle.std.specs.Prelude.{◌≡◌, ◌≢◌, ℕ, ◌+◌, ◌≤◌, ◌↔◌, [], ◌∷◌, ◌++◌, List, Option, Some, None, Contains, IsTrue, IfOk, OnOk, OnErr, IsErrOf, vec_len};
ghost use Rattle.std.specs.FinMap as map;
ghost use Rattle.bv_io.specs.Log.{take_event, put_event};
ghost use Rattle.bv_io.specs.Shelf.{Rose, Tells, TellsMore};
ghost use Rattle.bv_io.specs.MemShelf.{empty_shelf, with_call, with_event, FailsNext, AnswersTake, state_taken, AnswersPut, state_put};

use crate::files::{Files, content_within};
use crate::log::{Call, Log};
use crate::shelf::{PutError, Shelf, TakeError};
use bv_base::NoMemory;
use std::alloc::Global;
use std::marker::Model;

/// A shelf in memory, which tells all that it holds. Its calls of `take` and `put` together are numbered from 1, and
/// those that `fail_at` names fail.
#[derive(Drop)]
pub struct MemShelf {
    files: Files,
    calls: u64,
    failing: Vec<u64>,
    take_faults: u64,
    put_faults: u64,
    log: Log,
}

impl Model for MemShelf {
    ghost use Rattle.bv_io.specs.MemShelf.{MemShelfState, state_code};

    ghost Value = { MemShelfState };

    ghost coded = { state_code };

    ghost view = { λ s. record { held = s.files; calls = s.calls; failing = s.failing.items; take_faults = s.take_faults; put_faults = s.put_faults; log = s.log.events } };
}

impl MemShelf {
    /// A shelf that holds nothing.
    pub fn new(alloc: Global) -> MemShelf
        ensures { result ≡ empty_shelf }
    {
        MemShelf {
            files: Files::new(alloc),
            calls: 0,
            failing: Vec::new(alloc),
            take_faults: 0,
            put_faults: 0,
            log: Log::new(),
        }
    }

    /// Sets a content. It is no call of the shelf, and never fails but for memory.
    pub fn add(&mut self, name: &str, bytes: &[u8]) -> Result<(), NoMemory>
        ensures ok { OnOk result (self.new ≡ record self.old { held = map.insert self.old.held name.now bytes.now }) }
        ensures err { OnErr result (self.new ≡ self.old) }
    {
        self.files.insert(name, bytes)
    }

    /// Makes the `n`-th call fail, counted from 1 and from the shelf's making.
    pub fn fail_at(&mut self, n: u64) -> Result<(), NoMemory>
        ensures ok { OnOk result (self.new ≡ record self.old { failing = self.old.failing ++ n ∷ [] }) }
        ensures err { OnErr result (self.new ≡ self.old) }
    {
        self.failing.push(n)?;
        Ok(())
    }

    /// Whether the next call is to fail.
    fn fails_next(&self) -> bool
        ensures { IsTrue result ↔ FailsNext self.now }
    {
        self.failing.contains(&self.calls.saturating_add(1))
    }

    fn count_call(&mut self)
        ensures { self.new ≡ with_call self.old }
    {
        self.calls = self.calls.saturating_add(1);
    }

    /// Sets the content of a name, but for the log.
    fn store(&mut self, name: &str, bytes: &[u8]) -> Result<(), PutError>
        ensures answer { AnswersPut self.old result }
        ensures state { self.new ≡ state_put self.old name.now bytes.now result }
        ensures faults { self.old.put_faults ≤ self.new.put_faults }
    {
        if self.fails_next() {
            self.count_call();
            self.put_faults = self.put_faults.saturating_add(1);
            return Err(PutError::Failed);
        }
        if self.files.insert(name, bytes).is_err() {
            return Err(PutError::NoMemory);
        }
        self.count_call();
        Ok(())
    }
}

impl Shelf for MemShelf {
    ghost content = { λ s n. Some (map.get s.held n) };

    ghost take_faults = { λ s. s.take_faults };

    ghost put_faults = { λ s. s.put_faults };

    ghost log = { λ s. s.log };

    fn take(&mut self, alloc: Global, name: &str, max: u32) -> Result<Vec<u8>, TakeError>
        // The answer, and the whole new state.
        ensures answer { AnswersTake self.old name.now max result }
        ensures state { self.new ≡ with_event (state_taken self.old result) (take_event name.now result) }

        // What every shelf ensures.
        ensures logged { self.new.log ≡ take_event name.now result ∷ self.old.log }
        ensures found { IfOk result (λ bytes. Tells (Some (map.get self.old.held name.now)) (Some bytes.items)) }
        ensures fits { IfOk result (λ bytes. vec_len bytes ≤ max) }
        ensures missing { IsErrOf result TakeError.Missing → Some (map.get self.old.held name.now) ≡ Some None }
        ensures calm { IsErrOf result TakeError.Missing → self.new.take_faults ≡ self.old.take_faults }
        ensures too_long { IsErrOf result TakeError.TooLong → TellsMore (Some (map.get self.old.held name.now)) max }
        ensures failed { IsErrOf result TakeError.Failed → Rose self.old.take_faults self.new.take_faults }
        ensures no_memory { IsErrOf result TakeError.NoMemory → self.new.take_faults ≡ self.old.take_faults }
        ensures same { (n : List ℕ) → Some (map.get self.new.held n) ≡ Some (map.get self.old.held n) }
        ensures faults { self.old.take_faults ≤ self.new.take_faults }
        ensures other_faults { self.new.put_faults ≡ self.old.put_faults }
    {
        let answer = if self.fails_next() {
            Err(TakeError::Failed)
        } else {
            content_within(alloc, self.files.get(name), max)
        };
        if answer != Err(TakeError::NoMemory) {
            self.count_call();
        }
        if answer == Err(TakeError::Failed) {
            self.take_faults = self.take_faults.saturating_add(1);
        }
        self.log = self.log.then(&Call::Take {
            name,
            answer: &answer,
        });
        answer
    }

    fn put(&mut self, name: &str, bytes: &[u8]) -> Result<(), PutError>
        // The answer, and the whole new state.
        ensures answer { AnswersPut self.old result }
        ensures state { self.new ≡ with_event (state_put self.old name.now bytes.now result) (put_event name.now bytes.now result) }

        // What every shelf ensures.
        ensures logged { self.new.log ≡ put_event name.now bytes.now result ∷ self.old.log }
        ensures stored { OnOk result (Tells (Some (map.get self.new.held name.now)) (Some bytes.now)) }
        ensures failed { IsErrOf result PutError.Failed → Rose self.old.put_faults self.new.put_faults }
        ensures no_memory { IsErrOf result PutError.NoMemory → (n : List ℕ) → Some (map.get self.new.held n) ≡ Some (map.get self.old.held n) }
        ensures no_memory_calm { IsErrOf result PutError.NoMemory → self.new.put_faults ≡ self.old.put_faults }
        ensures others { (n : List ℕ) → n ≢ name.now → Some (map.get self.new.held n) ≡ Some (map.get self.old.held n) }
        ensures faults { self.old.put_faults ≤ self.new.put_faults }
        ensures other_faults { self.new.take_faults ≡ self.old.take_faults }
    {
        let answer = self.store(name, bytes);
        self.log = self.log.then(&Call::Put {
            name,
            bytes,
            answer: &answer,
        });
        answer
    }
}
