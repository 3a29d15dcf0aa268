//! A shelf in memory that never fails.
ghost use Rattle.std.specs.Prelude.{◌≡◌, ◌≢◌, ℕ, List, [], Some, Err, OnOk, OnErr, unwrap_or};
ghost use Rattle.std.specs.FinMap as map;

use crate::files::{Files, content_within};
use crate::log::{Call, Log};
use crate::shelf::{PutError, Shelf, TakeError};
use bv_base::NoMemory;
use std::alloc::Global;
use std::marker::Model;

/// A shelf in memory that never fails: both its counts of faults are 0 for good. Under each name that was neither
/// added nor put it holds the empty file, so nothing is ever missing.
#[derive(Drop)]
pub struct SureShelf {
    files: Files,
    log: Log,
}

impl Model for SureShelf {
    ghost use Rattle.std.specs.Prelude.{List};
    ghost use Rattle.std.specs.Coded.{coded×};
    ghost use Rattle.bv_io.specs.Files.{Held, held_code};
    ghost use Rattle.bv_io.specs.Log.{Event, log_code};

    ghost Value = { Held × List Event };

    ghost coded = { coded× held_code log_code };

    ghost view = { λ s. (s.files, s.log.events) };
}

impl SureShelf {
    /// A shelf to which nothing was added.
    pub fn new(alloc: Global) -> SureShelf
        ensures { result ≡ (map.empty, []) }
    {
        SureShelf {
            files: Files::new(alloc),
            log: Log::new(),
        }
    }

    /// Sets a content.
    pub fn add(&mut self, name: &str, bytes: &[u8]) -> Result<(), NoMemory>
        ensures ok { OnOk result (self.new ≡ (map.insert self.old.0 name.now bytes.now, self.old.1)) }
        ensures err { OnErr result (self.new ≡ self.old) }
    {
        self.files.insert(name, bytes)
    }

    /// Sets a content, but for the log.
    fn store(&mut self, name: &str, bytes: &[u8]) -> Result<(), PutError>
        ensures stored { OnOk result (unwrap_or (map.get self.new.0 name.now) [] ≡ bytes.now) }
        ensures others { (n : List ℕ) → n ≢ name.now → unwrap_or (map.get self.new.0 n) [] ≡ unwrap_or (map.get self.old.0 n) [] }
        ensures err { OnErr result (self.new ≡ self.old) }
        ensures never_failed { result ≢ Err PutError.Failed }
        ensures log { self.new.1 ≡ self.old.1 }
    {
        match self.add(name, bytes) {
            Ok(()) => Ok(()),
            Err(NoMemory) => Err(PutError::NoMemory),
        }
    }
}

impl Shelf for SureShelf {
    ghost content = { λ s n. Some (Some (unwrap_or (map.get s.0 n) [])) };

    ghost take_faults = { λ _. 0 };

    ghost put_faults = { λ _. 0 };

    ghost log = { λ s. s.1 };

    fn take(&mut self, alloc: Global, name: &str, max: u32) -> Result<Vec<u8>, TakeError> {
        let bytes = self.files.get(name).unwrap_or(&[]);
        let answer = content_within(alloc, Some(bytes), max);
        self.log = self.log.then(&Call::Take {
            name,
            answer: &answer,
        });
        answer
    }

    fn put(&mut self, name: &str, bytes: &[u8]) -> Result<(), PutError> {
        let answer = self.store(name, bytes);
        self.log = self.log.then(&Call::Put {
            name,
            bytes,
            answer: &answer,
        });
        answer
    }
}
