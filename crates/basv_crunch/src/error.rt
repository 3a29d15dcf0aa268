//! Why a text has no file.

use bv_base::NoMemory;
use std::alloc::{AllocError, AllocFailed};

/// Why a text has no file.
#[derive(Debug, Drop)]
pub enum CrunchError {
    /// The piece of this number, counted from 1 with the blank ones, is no line.
    BadText { line: u32 },
    /// The file would have more than `CRUNCHED_FILE_BYTES` bytes.
    TooLong,
    /// Memory ran out for the file.
    NoMemory,
}

impl From<AllocError> for CrunchError {
    ghost use Rattle.std.specs.Prelude.{◌≡◌};
    ghost use Rattle.basv_crunch.specs.declared.error.CrunchError.TheVariants.{NoMemory};

    ghost from_gives = { λ _ error. error ≡ NoMemory };

    fn from(_error: AllocError) -> CrunchError {
        CrunchError::NoMemory
    }
}

impl<T: Drop> From<AllocFailed<T>> for CrunchError {
    ghost use Rattle.std.specs.Prelude.{◌≡◌};
    ghost use Rattle.basv_crunch.specs.declared.error.CrunchError.TheVariants as errors;

    ghost from_gives = { λ _ error. error ≡ errors.NoMemory };

    fn from(_error: AllocFailed<T>) -> CrunchError {
        CrunchError::NoMemory
    }
}

impl From<NoMemory> for CrunchError {
    ghost use Rattle.std.specs.Prelude.{◌≡◌};
    ghost use Rattle.basv_crunch.specs.declared.error.CrunchError.TheVariants as errors;

    ghost from_gives = { λ _ error. error ≡ errors.NoMemory };

    fn from(_error: NoMemory) -> CrunchError {
        CrunchError::NoMemory
    }
}
