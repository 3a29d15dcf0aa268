//! What was read before, where nothing can follow it. It is let go here, alone: each place where a tree is let go is dear to prove,
//! and here it is one of any type.

ghost use Rattle.std.specs.Prelude.{◌≡◌, None, Err};
ghost use Rattle.expr_parse.specs.declared.failure.Failure.TheVariants.{Absent};

use expr_parse::Failure;

/// That what was read before isn't followed by what must follow it.
pub fn absent<K: Drop, T>(_kept: K) -> Result<T, Failure>
    ensures { result ≡ Err Absent }
{
    Err(Failure::Absent)
}

/// Nothing, where what was read before leads nowhere.
pub fn nothing<K: Drop, T>(_kept: K) -> Option<T>
    ensures { result ≡ None }
{
    None
}
