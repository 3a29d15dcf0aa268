//! Fragments of ARM code: words with labels, the language in which routines are written and proved, and the law that a
//! routine's words do on the board what the language says. `Frag` puts code together; the language and its laws are in
//! specs/ and proofs/.
#![tactic(auto)]

mod entries;
mod frag;
mod item;
mod laws;

pub use entries::{Entry, Lib};
pub use frag::Frag;
pub use item::{Item, Label};
pub use laws::{
    Demand, LoopInvariant, fragments_stand, language_is_sound, loops_end, regions_are_in_order,
};
