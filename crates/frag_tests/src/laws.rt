//! The law of the language at a demand of a caller's own.
ghost use Rattle.frag_tests.specs.Moves.{Moves};

use code_frag::language_is_sound;
use std::marker::Brand;

/// What MOV R0,R1 does wherever it stands, by the law's clause alone: the proof of the call picks the demand.
pub fn register_moves()
    ensures { Moves }
{
    language_is_sound::<Brand>()
}
