//! What a run stores: cells, arrays, saved values, and open loops and GOSUBs. The definitions are in `specs/`; the code has
//! the cells and what is open so far.
#![tactic(auto)]

mod cell;
mod opened;
mod store;

pub use cell::{BasValue, IntegerCell, UNKNOWN_VARIABLE, Variable};
pub use opened::{
    ClosingWord, FoundEntry, MOST_OPENED, NO_FOR, NO_REPEAT, NO_ROOM, NO_SUBROUTINE, NO_WHILE,
    OTHER_FOR, OpenEntries, OpenEntry, OpeningWord,
};
pub use store::{RESIDENTS, Store};
