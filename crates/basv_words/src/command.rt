//! What the words of the command line ask for.
ghost use Rattle.std.specs.Prelude.{◌≡◌, IfOk, true, Some, map, string_bytes};
ghost use Rattle.std.specs.Option.{option_map};
ghost use Rattle.basv_words.specs.Command.{number, bound_of, command_of, options_with};
ghost use Rattle.basv_words.specs.Taken.{by_kind, is_taken, has_target, has_options};
ghost use Rattle.basv_words.specs.Meant.{meant, seen, chosen, list_of};

use crate::form::Kind;
use crate::reader::{Given, read_words};
use std::alloc::{AllocError, Global};

/// The bound of a run for which none is asked.
const GREATEST_BOUND: u64 = u64::MAX;

/// The options of a command that runs a program.
#[derive(Clone, Copy)]
pub struct Options<'a> {
    /// The name of its input, which is empty where there is none.
    pub input: Option<&'a str>,
    /// The greatest number of its steps.
    pub steps: u64,
    /// The name that its arena is put under, if it is to be.
    pub arena: Option<&'a str>,
}

/// What the words of the command line ask for.
#[derive(Clone, Copy)]
pub enum Command<'a> {
    /// List a program's file.
    List {
        file: &'a str,
    },
    /// Compile a program's file to an image.
    Compile {
        file: &'a str,
        image: &'a str,
    },
    /// Run an image on the board.
    Run {
        image: &'a str,
        options: Options<'a>,
    },
    /// Interpret a program's file.
    Interpret {
        file: &'a str,
        options: Options<'a>,
    },
    /// Tokenise a text to a program's file.
    Crunch {
        text: &'a str,
        file: &'a str,
    },
}

/// The number of decimal digits alone.
fn number(word: &str) -> Option<u64>
    ensures { result ≡ number word.now }
{
    if word.starts_with('+') {
        return None;
    }
    match word.parse::<u64>() {
        Ok(number) => Some(number),
        Err(_) => None,
    }
}

/// The bound that a value of `--steps` says, if there is one.
fn bound_of(steps: Option<&str>) -> Option<u64>
    ensures { result ≡ bound_of (list_of steps.entry) }
{
    match steps {
        Some(word) => number(word),
        None => Some(GREATEST_BOUND),
    }
}

impl<'a> Given<'a> {
    /// The options of a run.
    fn options(self) -> Option<Options<'a>>
        ensures { option_map chosen result ≡ options_with (seen self.entry) (bound_of (seen self.entry).steps) }
    {
        Some(Options {
            input: self.input,
            steps: bound_of(self.steps)?,
            arena: self.arena,
        })
    }
}

/// The command of a kind, with what the words give it.
fn command_given<'a>(kind: Kind, given: Given<'a>) -> Option<Command<'a>>
    ensures { is_taken (has_target kind) (has_options kind) (seen given.entry) ≡ true → option_map meant result ≡ by_kind kind (seen given.entry) }
{
    let source = given.source;
    match kind {
        Kind::List => Some(Command::List { file: source }),
        Kind::Compile => Some(Command::Compile {
            file: source,
            image: given.target?,
        }),
        Kind::Crunch => Some(Command::Crunch {
            text: source,
            file: given.target?,
        }),
        Kind::Run => Some(Command::Run {
            image: source,
            options: given.options()?,
        }),
        Kind::Interpret => Some(Command::Interpret {
            file: source,
            options: given.options()?,
        }),
    }
}

/// The command that the words are, if they are one. It fails for want of memory alone.
pub fn read_command(alloc: Global, words: &[String]) -> Result<Option<Command<'_>>, AllocError>
    ensures { IfOk result (λ command. option_map meant command ≡ command_of (map string_bytes words.entry.now)) }
{
    let [name, ..] = words else {
        return Ok(None);
    };
    let Some(kind) = Kind::named(name.as_str()) else {
        return Ok(None);
    };
    match read_words(alloc, kind, words)? {
        Some(given) => Ok(command_given(kind, given)),
        None => Ok(None),
    }
}
