ghost use Rattle.std.specs.Prelude.{◌≡◌};

use bv_base::{FILE_BYTES, NAMES, NoMemory};
use std::alloc::{AllocError, AllocFailed};

/// How a program's file of too many bytes is refused.
pub const LONG_FILE: Refusal = Refusal::Limit {
    which: Which::File,
    count: FILE_BYTES + 1,
};

/// How a program of too many names is refused.
pub const TOO_MANY_NAMES: Refusal = Refusal::Limit {
    which: Which::Names,
    count: NAMES + 1,
};

/// What there is a limit on.
#[derive(Clone, Copy, Debug, PartialEq, Eq)]
pub enum Which {
    /// Bytes of a program's file.
    File,
    /// Distinct names of a program.
    Names,
    /// Pending strings of one statement.
    Strings,
    /// Formals or arguments in one list.
    Parameters,
    /// Subscripts in one list.
    Dimensions,
    /// Bytes of an input.
    Input,
    /// Words of an image.
    Image,
    /// Bytes of a text that is to be tokenised.
    Text,
}

/// Why a program or an image is refused.
#[derive(Clone, Copy, Debug, PartialEq, Eq)]
pub enum Refusal {
    /// The file has no lines: whole records fill the bytes before `at`, and neither a record nor the end is there.
    Malformed { at: u32 },
    /// The first line that is outside the language has this number.
    Outside { line: u16 },
    /// A limit is passed. `count` is one more than its number, since counting stops there.
    Limit { which: Which, count: u32 },
    /// Memory ran out.
    NoMemory,
}

impl From<AllocError> for Refusal {
    ghost use Rattle.std.specs.Prelude.{◌≡◌};
    ghost use Rattle.profile_check.specs.declared.refusal.Refusal.TheVariants as refusals;

    ghost from_gives = { λ _ refusal. refusal ≡ refusals.NoMemory };

    fn from(_error: AllocError) -> Refusal {
        Refusal::NoMemory
    }
}

impl<T: Drop> From<AllocFailed<T>> for Refusal {
    ghost use Rattle.std.specs.Prelude.{◌≡◌};
    ghost use Rattle.profile_check.specs.declared.refusal.Refusal.TheVariants as refusals;

    ghost from_gives = { λ _ refusal. refusal ≡ refusals.NoMemory };

    fn from(_error: AllocFailed<T>) -> Refusal {
        Refusal::NoMemory
    }
}

impl From<NoMemory> for Refusal {
    ghost use Rattle.std.specs.Prelude.{◌≡◌};
    ghost use Rattle.profile_check.specs.declared.refusal.Refusal.TheVariants as refusals;

    ghost from_gives = { λ _ refusal. refusal ≡ refusals.NoMemory };

    fn from(_error: NoMemory) -> Refusal {
        Refusal::NoMemory
    }
}
