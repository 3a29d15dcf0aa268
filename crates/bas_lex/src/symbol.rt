//! What a symbol is.
use sqlite_items::Items;
use std::alloc::{AllocError, AllocFailed};

/// The suffix of a name that has none.
pub const NO_SUFFIX: u8 = 0;

/// What a symbol is.
#[derive(Debug, Clone, Copy, PartialEq, Eq, Drop)]
pub enum SymKind {
    /// A keyword's byte, or 256 times the first byte of a pair plus the second.
    Token(u16),
    /// A variable's name. The suffix is the byte `%` or `$`, or `NO_SUFFIX`. With the bracket it is an array's name.
    Name { suffix: u8, bracket: bool },
    /// FN or PROC with a name.
    Call { function: bool, bracket: bool },
    /// A point and a name, in the assembler.
    Label,
    Number(i32),
    /// A string between quotation marks.
    Text,
    /// A reference to the line of this number.
    LineRef(u16),
    /// A sign, by its number, which `sign_numbers` has.
    Mark(u8),
    /// The bytes after REM or DATA, which may be none.
    Tail,
}

/// A symbol of a line's text.
#[derive(Debug, Clone, Copy, PartialEq, Eq, Drop)]
pub struct Sym {
    pub kind: SymKind,
    /// The place of its first byte in the text.
    pub from: u8,
    /// The place after its last byte.
    pub to: u8,
    /// Whether it is in the assembler, between the two square brackets.
    pub asm: bool,
}

/// The symbols of a line's text.
#[derive(Debug, Drop)]
pub struct SymbolRun {
    pub list: Items<Sym>,
    /// Whether the assembler is on after the line.
    pub asm_after: bool,
}

/// Why a text has no symbols.
#[derive(Debug, Drop)]
pub enum LexError {
    /// No symbol begins at this place of the text.
    Bad { at: u8 },
    /// Memory ran out for the symbols.
    NoMemory,
}

/// How a text is read at a place.
#[derive(Debug, Clone, Copy, PartialEq, Eq, Drop)]
pub struct Mode {
    /// Whether the assembler is on.
    pub asm: bool,
    /// Whether a statement begins here: at the start of a line, after `:`, or after the `[` that turned the assembler
    /// on.
    pub start: bool,
}

impl From<AllocError> for LexError {
    ghost use Rattle.std.specs.Prelude.{◌≡◌};
    ghost use Rattle.bas_lex.specs.declared.symbol.LexError.TheVariants.{NoMemory};

    ghost from_gives = { λ _ error. error ≡ NoMemory };

    fn from(_error: AllocError) -> LexError {
        LexError::NoMemory
    }
}

impl<T: Drop> From<AllocFailed<T>> for LexError {
    ghost use Rattle.std.specs.Prelude.{◌≡◌};
    ghost use Rattle.bas_lex.specs.declared.symbol.LexError.TheVariants.{NoMemory};

    ghost from_gives = { λ _ error. error ≡ NoMemory };

    fn from(_error: AllocFailed<T>) -> LexError {
        LexError::NoMemory
    }
}
