//! The symbols of a line of tokenised BASIC V: a line's text cut into the longest symbol at each place.
#![tactic(auto)]

mod front;
mod laws;
mod name;
mod number;
mod scan;
mod sign;
pub mod sign_numbers;
mod symbol;
mod text;
mod token;

pub use laws::{one_cut, signs_numbered};
pub use number::Radix;
pub use scan::symbols;
pub use symbol::{LexError, Mode, NO_SUFFIX, Sym, SymKind, SymbolRun};
