//! A library of routines: a fragment, and where each of its entries is.
use crate::frag::Frag;
use crate::item::Label;

/// An entry of a library.
#[derive(Clone, Copy, Debug, PartialEq, Eq)]
pub struct Entry {
    /// Its number, which no other entry of any library has.
    pub id: u16,
    /// Its label in the library's fragment.
    pub at: Label,
}

/// Routines, and their entries.
#[derive(Drop)]
pub struct Lib {
    /// The code of all routines.
    pub frag: Frag,
    /// The entries, in no order.
    pub entries: Vec<Entry>,
}
