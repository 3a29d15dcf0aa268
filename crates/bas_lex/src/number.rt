//! The numbers of a text: decimal, hexadecimal and binary ones.
ghost use Rattle.std.specs.Prelude.{◌≡◌, ◌++◌};
ghost use Rattle.bas_lex.specs.Kinds.{radix_mark};
ghost use Rattle.bas_lex.specs.Scan.{Best, Numbers};

use crate::front::Front;
use crate::symbol::SymKind;
use bv_num::digit_run;

/// How a number is written: as decimal digits, as `&` and hexadecimal digits, or as `%` and binary digits.
#[derive(Debug, Clone, Copy, PartialEq, Eq, Drop)]
pub enum Radix {
    Decimal,
    Hexadecimal,
    Binary,
}

/// The values of decimal digits are below this, so that they are positive numbers.
const DECIMAL_BOUND: u64 = 0x8000_0000;

/// The values of other digits are below this, so that they are 32 bits.
const OTHER_BOUND: u64 = 0x1_0000_0000;

impl Radix {
    ghost use Rattle.std.specs.Prelude.{◌≡◌, ◌≤◌, length};
    ghost use Rattle.bas_lex.specs.Kinds.{base, value_bound, radix_mark};

    /// The number of digits.
    fn base(self) -> u32
        ensures value { result ≡ base self }
        ensures least { 2 ≤ result }
        ensures greatest { result ≤ 36 }
    {
        match self {
            Radix::Decimal => 10,
            Radix::Hexadecimal => 16,
            Radix::Binary => 2,
        }
    }

    /// Numbers are below this.
    fn value_bound(self) -> u64
        ensures { result ≡ value_bound self }
    {
        match self {
            Radix::Decimal => DECIMAL_BOUND,
            Radix::Hexadecimal | Radix::Binary => OTHER_BOUND,
        }
    }

    /// The number of bytes before the digits.
    fn mark_size(self) -> usize
        ensures { result ≡ length (radix_mark self) }
    {
        match self {
            Radix::Decimal => 0,
            Radix::Hexadecimal | Radix::Binary => 1,
        }
    }
}

/// The number whose digits begin `text`, which follows `&` or `%` where the radix has them.
pub fn read_number(radix: Radix, text: &[u8]) -> Option<Front>
    ensures { Best (Numbers radix) (radix_mark radix ++ text.now) result }
{
    let digits = digit_run(radix.base(), text);
    if digits.count == 0 {
        return None;
    }
    if digits.value >= radix.value_bound() {
        return None;
    }
    let value = digits.value as u32;
    Some(Front {
        kind: SymKind::Number(value.cast_signed()),
        size: radix.mark_size() + digits.count,
    })
}
