//! The labels of a program's code. The definitions have them in `Operations.antt`: that of the beginning, those of the library's
//! routines, that of the raising of errors, and then those of the items.
ghost use Rattle.std.specs.Prelude.{◌≡◌, ◌<◌, ◌^◌};
ghost use Rattle.codegen.specs.Operations.{item_label};

use code_frag::Label;

/// Where a run begins.
pub const MAIN: Label = Label { number: 0 };

/// The product of two numbers.
pub const PRODUCT: Label = Label { number: 1 };

/// DIV.
pub const QUOTIENT: Label = Label { number: 2 };

/// MOD.
pub const MODULUS: Label = Label { number: 3 };

/// A number in decimal.
pub const DECIMAL_NUMBER: Label = Label { number: 4 };

/// A number in hexadecimal.
pub const HEXADECIMAL_NUMBER: Label = Label { number: 5 };

/// SPC.
pub const SOME_SPACES: Label = Label { number: 6 };

/// A string.
pub const STRING_OUT: Label = Label { number: 8 };

/// The closing text, and the end of the run.
pub const CLOSING_TEXT: Label = Label { number: 9 };

/// A comma.
pub const TO_FIELD: Label = Label { number: 10 };

/// TAB.
pub const TO_TAB: Label = Label { number: 11 };

/// An open loop or GOSUB more.
pub const OPENING: Label = Label { number: 14 };

/// UNTIL, ENDWHILE and RETURN.
pub const CLOSING_WORD: Label = Label { number: 15 };

/// NEXT.
pub const TURNING: Label = Label { number: 16 };

/// The next item of DATA.
pub const NEXT_ITEM: Label = Label { number: 17 };

/// The number of an item of DATA.
pub const ITEM_NUMBER: Label = Label { number: 18 };

/// Where an error is raised, with its number in R0 and its line in R1.
pub const RAISE: Label = Label { number: 19 };

/// The first item.
const FIRST_ITEM: u32 = 20;

/// The label of an item.
pub fn item_label(item: u32) -> Label
    requires { item_label item < 2 ^ 32 }
    ensures { result.number ≡ item_label item }
{
    Label {
        number: item + FIRST_ITEM,
    }
}
