//! What the words after a command's name may be.
ghost use Rattle.std.specs.Prelude.{◌≡◌};
ghost use Rattle.std.specs.Option.{option_map};
ghost use Rattle.basv_words.specs.Taken.{kind_named, has_target, has_options};

/// Which command it is.
#[derive(Clone, Copy)]
pub enum Kind {
    /// List a program's file.
    List,
    /// Compile a program's file to an image.
    Compile,
    /// Tokenise a text to a program's file.
    Crunch,
    /// Run an image on the board.
    Run,
    /// Interpret a program's file.
    Interpret,
}

impl Kind {
    /// The command of a name, if there is one.
    pub fn named(name: &str) -> Option<Kind>
        ensures { result ≡ kind_named name.now }
    {
        match name {
            "list" => Some(Kind::List),
            "compile" => Some(Kind::Compile),
            "crunch" => Some(Kind::Crunch),
            "run" => Some(Kind::Run),
            "interp" => Some(Kind::Interpret),
            _ => None,
        }
    }

    /// Whether the command takes a second name, of what it makes.
    pub fn has_target(self) -> bool
        ensures { result ≡ has_target self }
    {
        match self {
            Kind::Compile => true,
            Kind::Crunch => true,
            _ => false,
        }
    }

    /// Whether the command takes options.
    pub fn has_options(self) -> bool
        ensures { result ≡ has_options self }
    {
        match self {
            Kind::Run => true,
            Kind::Interpret => true,
            _ => false,
        }
    }
}
