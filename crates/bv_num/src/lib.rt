//! The integers of BBC BASIC V: arithmetic on 32 bits with a sign, bits, comparisons, shifts, digits, and the numbers
//! that texts spell.
#![tactic(auto)]

mod arithmetic;
mod bits;
mod comparisons;
mod digits;
mod growing;
mod shifts;
mod value;

pub use arithmetic::{DIVISION_BY_ZERO, TOO_BIG, abs, add, div, mul, neg, rem, sub};
pub use bits::{and, eor, not, or};
pub use comparisons::{equal, greater, greater_or_equal, less, less_or_equal, not_equal};
pub use digits::{Digits, LONGEST_NUMBER, decimal, digit_byte, hex};
pub use shifts::{ShiftKind, shift};
pub use value::{DigitRun, data_value, digit_run, skip_spaces, value_of};
