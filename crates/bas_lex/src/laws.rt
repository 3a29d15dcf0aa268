//! The laws of symbols, which take no step.
ghost use Rattle.std.specs.Prelude.{◌≡◌, ◌⊎◌, ℕ, Bool, List};
ghost use Rattle.std.specs.List.{enumerate_from};
ghost use Rattle.bas_lex.specs.declared.symbol.Sym.{Sym as Symbol};
ghost use Rattle.bas_lex.specs.Cut.{Symbols, Bad};
ghost use Rattle.bas_lex.specs.Kinds.{numbered_signs, signs};

/// The law of symbols: every text, of any length, is cut into symbols in exactly one way, or is bad at exactly one
/// place.
pub fn one_cut(text: &[u8], asm: bool)
    ensures cut_or_bad { ((list : List Symbol) × (after : Bool) × Symbols asm text.now list after) ⊎ ((at : ℕ) × Bad asm text.now at) }
    ensures cut_once { (a b : List Symbol) (c d : Bool) → Symbols asm text.now a c → Symbols asm text.now b d → (a ≡ b) × (c ≡ d) }
    ensures bad_once { (a b : ℕ) → Bad asm text.now a → Bad asm text.now b → a ≡ b }
    ensures never_both { (list : List Symbol) (after : Bool) (at : ℕ) → Symbols asm text.now list after → Bad asm text.now at → ⊥ }
{}

/// The law of the signs' numbers: the constants of `sign_numbers` are the places of all the signs in their table.
pub fn signs_numbered()
    ensures { numbered_signs ≡ enumerate_from 0 signs }
{}
