//! The rules of a program beyond its grammar, which need no parser: its names and the texts of its literals and DATA, which
//! forms have a meaning yet, and which structures have no end.
#![tactic(auto)]

mod names;
mod profile;
mod structures;
mod texts;

pub use names::{Key, add_name, listed, name_of, renumbered};
pub use profile::in_profile;
pub use structures::find_unclosed;
pub use texts::{push_items, quoted_text};
