//! That the words of routines do on the board what the routine language says. Each law is for every demand: a demand is the
//! members of a trait that has no other use, so that the law holds at any of them.
ghost use Rattle.std.specs.Prelude.{ℕ};
ghost use Rattle.arm_core.specs.Core.{Core};
ghost use Rattle.code_frag.specs.Demands.{Out};
ghost use Rattle.code_frag.specs.Laws.{LanguageIsSound, LoopsEnd, FragmentsStand};
ghost use Rattle.code_frag.specs.Regions.{RegionsInOrder};

use std::marker::Brand;

/// The contracts of the entries that may be called, what each asks and what it leaves, and what is asked at the end of a piece.
pub trait Demand {
    ghost asks: { ℕ → Core → Type 0 };

    ghost does: { ℕ → Core → Out → Core → Type 0 };

    ghost post: { Out → Core → Type 0 };
}

/// A caller of a law picks its own demand in the proof of the call.
impl Demand for Brand {
    ghost asks = { λ e s. Unit {0} };

    ghost does = { λ e s o t. Unit {0} };

    ghost post = { λ o t. Unit {0} };
}

/// An invariant of a loop, with a number that falls at each turn.
pub trait LoopInvariant {
    ghost holds: { ℕ → Core → Type 0 };
}

/// A caller of the law picks its own invariant in the proof of the call.
impl LoopInvariant for Brand {
    ghost holds = { λ n s. Unit {0} };
}

/// The law of the language: wherever the items of a well-formed piece stand in a memory, the board comes from each core for
/// which the piece owes a demand in finitely many steps to the piece's end, where the demand holds, and each of these steps is
/// made at a word of its own or of an entry that it calls.
pub fn language_is_sound<D: Demand>()
    ensures { LanguageIsSound D.asks D.does D.post }
{}

/// The law of loops: where the number of an invariant falls at each turn, the loop comes to its end.
pub fn loops_end<D: Demand, I: LoopInvariant>()
    ensures { LoopsEnd D.asks D.does D.post I.holds }
{}

/// The law of words: where the words of a fragment stand in a memory, its items stand there, and those of fragments that were
/// joined one after the other.
pub fn fragments_stand()
    ensures { FragmentsStand }
{}

/// The law of the memory map: the regions of memory lie one after the other, and each has room for what is in it.
pub fn regions_are_in_order()
    ensures { RegionsInOrder }
{}
