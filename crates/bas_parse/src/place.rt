//! Places of a line, by what stands before them.

ghost use Rattle.std.specs.Prelude.{◌≡◌};
ghost use Rattle.bas_parse.specs.Steps as spec;

/// What stands before a place of a line.
#[derive(Debug, Clone, Copy, PartialEq, Eq, Drop)]
pub struct Place {
    /// Whether an item may begin here.
    pub free: bool,
    /// Whether an IF without THEN stands before the next item.
    pub bare: bool,
    /// Whether an IF, or an ON with a number, stands before on the line.
    pub ruled: bool,
    /// Whether THEN or ELSE stands directly before, so that a line's number is a GOTO.
    pub branch: bool,
}

impl Place {
    /// The start of a line.
    pub fn line_start() -> Place
        ensures { result ≡ spec.line_start }
    {
        Place {
            free: true,
            bare: false,
            ruled: false,
            branch: false,
        }
    }

    /// After a condition without THEN.
    pub fn after_condition() -> Place
        ensures { result ≡ spec.condition_place }
    {
        Place {
            free: true,
            bare: true,
            ruled: true,
            branch: false,
        }
    }

    /// After THEN and ELSE.
    pub fn after_branch() -> Place
        ensures { result ≡ spec.branch_place }
    {
        Place {
            free: true,
            bare: false,
            ruled: true,
            branch: true,
        }
    }

    /// After an item that needs a `:` and rules an ELSE.
    pub fn after_ruling() -> Place
        ensures { result ≡ spec.ruling_place }
    {
        Place {
            free: false,
            bare: false,
            ruled: true,
            branch: false,
        }
    }

    /// After a `:`.
    pub fn after_colon(self) -> Place
        ensures { result ≡ spec.colon_place self }
    {
        Place {
            free: true,
            bare: self.bare,
            ruled: self.ruled,
            branch: false,
        }
    }

    /// After an item that needs a `:`.
    pub fn after_item(self) -> Place
        ensures { result ≡ spec.item_place self }
    {
        Place {
            free: false,
            bare: false,
            ruled: self.ruled,
            branch: false,
        }
    }

    /// After an item that needs none.
    pub fn after_word(self) -> Place
        ensures { result ≡ spec.word_place self }
    {
        Place {
            free: true,
            bare: false,
            ruled: self.ruled,
            branch: false,
        }
    }
}
