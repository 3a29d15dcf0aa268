//! Reading the lines of a file.
ghost use Rattle.std.specs.Prelude.{◌≡◌, ◌≢◌, ℕ, ◌^◌, ◌<◌, ◌∷◌, length, IfOk, IfErr};
ghost use Rattle.token_file.specs.Lines.{Lines};
ghost use Rattle.token_file.specs.Read.{IsFront, ExplainsFile};

use crate::line::{END_MARK, HEAD_BYTES, Line, RECORD_START};
use sqlite_items::Items;
use std::alloc::{AllocError, AllocFailed, Global};
use thiserror::Error;

/// Why a file has no lines.
#[derive(Debug, Drop, Error)]
pub enum FileError {
    /// Whole records fill the bytes before `at`, an offset in bytes, and neither a record nor the end is there.
    #[error("Malformed")]
    Malformed { at: u32 },
    /// Memory ran out for the lines.
    #[error("NoMemory")]
    NoMemory,
}

impl From<AllocError> for FileError {
    ghost use Rattle.std.specs.Prelude.{◌≡◌};
    ghost use Rattle.token_file.specs.declared.read.FileError.TheVariants.{NoMemory};

    ghost from_gives = { λ _ error. error ≡ NoMemory };

    fn from(_error: AllocError) -> FileError {
        FileError::NoMemory
    }
}

impl<T: Drop> From<AllocFailed<T>> for FileError {
    ghost use Rattle.std.specs.Prelude.{◌≡◌};
    ghost use Rattle.token_file.specs.declared.read.FileError.TheVariants.{NoMemory};

    ghost from_gives = { λ _ error. error ≡ NoMemory };

    fn from(_error: AllocFailed<T>) -> FileError {
        FileError::NoMemory
    }
}

/// What is at the front of a part of a file.
enum Front<'a> {
    /// A whole record, and the bytes after it.
    Record {
        number: u16,
        text: &'a [u8],
        after: &'a [u8],
    },
    /// The program's end.
    End,
    Neither,
}

/// The front of a part of a file that begins with `RECORD_START` and these three bytes.
fn read_record(high: u8, low: u8, size: u8, after: &[u8]) -> Front<'_>
    requires { high ≢ END_MARK }
    ensures { IsFront (RECORD_START ∷ high ∷ low ∷ size ∷ after.now) result }
{
    let Some(count) = size.checked_sub(HEAD_BYTES) else {
        return Front::Neither;
    };
    let count = usize::from(count);
    if after.len() < count {
        return Front::Neither;
    }
    let (text, after) = after.split_at(count);
    if text.contains(&RECORD_START) {
        return Front::Neither;
    }
    let number = u16::from_be_bytes([high, low]);
    Front::Record {
        number,
        text,
        after,
    }
}

fn read_front(bytes: &[u8]) -> Front<'_>
    ensures { IsFront bytes.now result }
{
    match bytes {
        [RECORD_START, END_MARK, ..] => Front::End,
        [RECORD_START, high, low, size, after @ ..] => read_record(*high, *low, *size, after),
        _ => Front::Neither,
    }
}

/// The lines of a file, whose bytes are fewer than 2^32.
pub fn read_file(alloc: Global, bytes: &[u8]) -> Result<Vec<Line>, FileError>
    requires { length bytes.now < 2 ^ 32 }
    ensures ok { IfOk result (λ lines. Lines bytes.now lines.items) }
    ensures err { IfErr result (ExplainsFile bytes.now) }
{
    let mut lines = Vec::new(alloc);
    let mut rest = bytes;
    'records: loop {
        match read_front(rest) {
            Front::Record {
                number,
                text,
                after,
            } => {
                let text = Items::from_slice(alloc, text)?;
                lines.push(Line { number, text })?;
                rest = after;
            }
            Front::End => return Ok(lines),
            Front::Neither => {
                let at = (bytes.len() - rest.len()) as u32;
                return Err(FileError::Malformed { at });
            }
        }
    }
}
