//! Why nothing was read, and what was read before, kept while the parser reads on.
//!
//! A return while a tree is held is dear to prove, since the tree is let go there. So what was read is kept by these functions alone: in
//! them it is one value of any type.

ghost use Rattle.std.specs.Prelude.{◌≡◌};
ghost use Rattle.expr_parse.specs.Reads.{keeps, keeps_alone, IsOptional};

use std::alloc::{AllocError, AllocFailed};

/// Why nothing was read.
#[derive(Debug, Clone, Copy, PartialEq, Eq, Drop)]
pub enum Failure {
    /// What is read doesn't stand here.
    Absent,
    /// Memory ran out.
    NoMemory,
}

impl From<AllocError> for Failure {
    ghost use Rattle.std.specs.Prelude.{◌≡◌};
    ghost use Rattle.expr_parse.specs.declared.failure.Failure.TheVariants.{NoMemory};

    ghost from_gives = { λ _ error. error ≡ NoMemory };

    fn from(_error: AllocError) -> Failure {
        Failure::NoMemory
    }
}

impl<T: Drop> From<AllocFailed<T>> for Failure {
    ghost use Rattle.std.specs.Prelude.{◌≡◌};
    ghost use Rattle.expr_parse.specs.declared.failure.Failure.TheVariants.{NoMemory};

    ghost from_gives = { λ _ error. error ≡ NoMemory };

    fn from(_error: AllocFailed<T>) -> Failure {
        Failure::NoMemory
    }
}

/// What was read before, with what is read next.
pub fn with<K: Drop, T, E>(kept: K, next: Result<T, E>) -> Result<(K, T), E>
    ensures { result ≡ keeps kept next }
{
    match next {
        Ok(found) => Ok((kept, found)),
        Err(failure) => Err(failure),
    }
}

/// What was read before, where what comes next is passed over.
pub fn past<K: Drop, E>(kept: K, next: Result<(), E>) -> Result<K, E>
    ensures { result ≡ keeps_alone kept next }
{
    match next {
        Ok(()) => Ok(kept),
        Err(failure) => Err(failure),
    }
}

/// What is read next, or nothing where it doesn't stand here.
pub fn optional<T>(next: Result<T, Failure>) -> Result<Option<T>, AllocError>
    ensures { IsOptional next result }
{
    match next {
        Ok(found) => Ok(Some(found)),
        Err(Failure::Absent) => Ok(None),
        Err(Failure::NoMemory) => Err(AllocError),
    }
}
