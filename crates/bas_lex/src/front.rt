//! The front of a text: its first byte, and a symbol there.
ghost use Rattle.std.specs.Prelude.{◌≡◌, [], ◌∷◌, MatchOption};

use crate::symbol::SymKind;

/// A symbol at the front of a text.
#[derive(Clone, Copy, Drop)]
pub struct Front {
    pub kind: SymKind,
    /// The number of its bytes.
    pub size: usize,
}

/// The first byte of a text, and what follows it.
pub fn split_byte(text: &[u8]) -> Option<(u8, &[u8])>
    ensures { MatchOption result (text.now ≡ []) (λ front. text.now ≡ front.0 ∷ front.1.now) }
{
    match text {
        [first, after @ ..] => Some((*first, after)),
        [] => None,
    }
}
