//! The options that a command may have.
ghost use Rattle.std.specs.Prelude.{◌≡◌, ◌++◌, [], ◌∷◌};
ghost use Rattle.basv_words.specs.Given.{word_of};
ghost use Rattle.basv_words.specs.Reader.{name_of};

/// An option.
#[derive(Clone, Copy)]
pub enum Setting {
    /// The name of a program's input.
    Input,
    /// The bound of its steps.
    Steps,
    /// The name that its arena is put under.
    Arena,
}

impl Setting {
    /// The option's name, which follows the two dashes.
    pub fn name(self) -> &'static str
        ensures { result.now ≡ name_of self }
    {
        match self {
            Setting::Input => "input",
            Setting::Steps => "steps",
            Setting::Arena => "arena",
        }
    }

    /// The word that gives the option an empty value.
    pub fn empty_word(self) -> &'static str
        ensures { result.now ≡ word_of self ++ 61 ∷ [] }
    {
        match self {
            Setting::Input => "--input=",
            Setting::Steps => "--steps=",
            Setting::Arena => "--arena=",
        }
    }
}
