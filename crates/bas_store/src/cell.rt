//! Variables and their values.
ghost use Rattle.std.specs.Prelude.{◌≡◌};
ghost use Rattle.bas_store.specs.Cells.{same_cell};
ghost use Rattle.bas_store.specs.Entries.{cell_of};

use bas_value::Str;

/// The error of reading a variable that was never made.
pub const UNKNOWN_VARIABLE: u8 = 26;

/// A simple variable.
#[derive(Clone, Copy, Debug, PartialEq, Eq)]
pub enum Variable {
    /// A resident integer: A% to Z% are 0 to 25, and @% is 26.
    Resident(u8),
    /// The integer of the name at a place among the program's names.
    Integer(u16),
    /// The string of the name at a place.
    Text(u16),
}

/// A value of a variable.
#[derive(Clone, Copy, Debug, PartialEq, Eq)]
pub enum BasValue {
    Num(i32),
    Text(Str),
}

/// The cell of an integer.
#[derive(Debug, Clone, Copy, PartialEq, Eq, Drop)]
pub enum IntegerCell {
    /// A resident integer: A% to Z% are 0 to 25, and @% is 26.
    Resident(u8),
    /// The integer of the name at a place among the program's names.
    Named(u16),
}

impl IntegerCell {
    /// Whether two cells are the same one.
    pub fn is(self, other: IntegerCell) -> bool
        ensures { result ≡ same_cell (cell_of self) (cell_of other) }
    {
        match (self, other) {
            (IntegerCell::Resident(a), IntegerCell::Resident(b)) => a == b,
            (IntegerCell::Named(a), IntegerCell::Named(b)) => a == b,
            _ => false,
        }
    }
}
