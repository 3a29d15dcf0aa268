//! The shelf of the real disk. It belongs to the trusted edge: that it reaches the right file is for a reader to see.
ghost use Rattle.std.specs.Prelude.{◌≡◌, ◌≢◌, ℕ, ◌≤◌, [], None, Err, IfOk, vec_len};

use crate::log::{Call, Log};
use crate::shelf::{PutError, Shelf, TakeError};
use std::alloc::Global;
use std::fs;
use std::io::{ErrorKind, Read};
use std::marker::Model;
use std::rt::Files;

/// The files of the disk, under their paths. It tells nothing of what it holds, and counts a file that is not there as
/// a fault. What it was asked and answered is in its log.
#[derive(Drop)]
pub struct DiskShelf<R: Files> {
    files: R,
    take_faults: u64,
    put_faults: u64,
    log: Log,
}

// Its two counts of faults, of `take` and of `put`, and its log.
impl<R: Files> Model for DiskShelf<R> {
    ghost use Rattle.std.specs.Prelude.{ℕ, List};
    ghost use Rattle.std.specs.Coded.{coded×, coded_ℕ};
    ghost use Rattle.bv_io.specs.Log.{Event, log_code};

    ghost Value = { ℕ × (ℕ × List Event) };

    ghost coded = { coded× coded_ℕ (coded× coded_ℕ log_code) };

    ghost view = { λ s. (s.take_faults, (s.put_faults, s.log.events)) };
}

impl<R: Files> DiskShelf<R> {
    /// The shelf of the disk that the runtime reaches, with no fault so far.
    pub fn new(rt: R) -> DiskShelf<R>
        ensures { result ≡ (0, (0, [])) }
    {
        DiskShelf {
            files: rt,
            take_faults: 0,
            put_faults: 0,
            log: Log::new(),
        }
    }
}

/// The bytes of a file, of which there are at most `max`.
fn read_within(
    files: &impl Files,
    alloc: Global,
    name: &str,
    max: u32,
) -> Result<Vec<u8>, TakeError>
    ensures fits { IfOk result (λ bytes. vec_len bytes ≤ max) }
    ensures never_missing { result ≢ Err TakeError.Missing }
{
    let mut bytes = Vec::new(alloc);
    let read = fs::open(files, name).and_then(|file| file
        .take(u64::from(max) + 1)
        .read_to_end(&mut bytes));
    match read {
        Err(error) if error.kind() == ErrorKind::OutOfMemory => Err(TakeError::NoMemory),
        Err(_) => Err(TakeError::Failed),
        Ok(_) if bytes.len() > max as usize => Err(TakeError::TooLong),
        Ok(_) => Ok(bytes),
    }
}

impl<R: Files> Shelf for DiskShelf<R> {
    ghost content = { λ _ _. None };

    ghost take_faults = { λ s. s.0 };

    ghost put_faults = { λ s. s.1.0 };

    ghost log = { λ s. s.1.1 };

    fn take(&mut self, alloc: Global, name: &str, max: u32) -> Result<Vec<u8>, TakeError> {
        let answer = read_within(&self.files, alloc, name, max);
        if answer == Err(TakeError::Failed) {
            self.take_faults = self.take_faults.saturating_add(1);
        }
        self.log = self.log.then(&Call::Take {
            name,
            answer: &answer,
        });
        answer
    }

    fn put(&mut self, name: &str, bytes: &[u8]) -> Result<(), PutError> {
        let mut answer = Ok(());
        if fs::write(&self.files, name, bytes).is_err() {
            self.put_faults = self.put_faults.saturating_add(1);
            answer = Err(PutError::Failed);
        }
        self.log = self.log.then(&Call::Put {
            name,
            bytes,
            answer: &answer,
        });
        answer
    }
}
