//! Programs: lines with their trees, and the tables that the trees speak of.

use crate::lines::Item;
use sqlite_items::Items;

/// What a name names.
#[derive(Debug, Clone, Copy, PartialEq, Eq, Hash, Drop)]
pub enum NameKind {
    Integer,
    Text,
    IntegerArray,
    TextArray,
    Label,
    Procedure,
    Function,
}

/// A name of a program.
#[derive(Drop)]
pub struct Name {
    pub kind: NameKind,
    /// Its bytes with the suffix, and without FN, PROC and the bracket.
    pub text: Items<u8>,
}

/// An item of DATA.
#[derive(Drop)]
pub struct DataItem {
    /// The place of its line among the program's lines.
    pub line: u32,
    pub text: Items<u8>,
}

/// A line of a program.
#[derive(Drop)]
pub struct ProgLine {
    pub number: u16,
    pub items: Items<Item>,
}

/// A program.
#[derive(Drop)]
pub struct Prog {
    pub lines: Items<ProgLine>,
    pub names: Items<Name>,
    /// The texts of its string literals, in order.
    pub texts: Items<Items<u8>>,
    /// The items of its DATA, in order.
    pub data_items: Items<DataItem>,
    /// A bound of the program's weight: two for its end, four for each line, one for each symbol other than DATA and tails,
    /// one for each byte of a string literal, and one for each item of DATA and for each of its bytes.
    pub size: u32,
}
