//! The words after a command's name, as `clap` reads them.
ghost use Rattle.std.specs.Prelude.{◌≡◌, IfOk, ℕ, List, [], ◌∷◌, Some, false, drop, map, string_bytes, codes};
ghost use Rattle.std.specs.Option.{option_map};
ghost use Rattle.clap.specs.Words.{app_of, rule_of, found_of, rows_of, App};
ghost use Rattle.basv_words.specs.Taken.{taken, has_target, has_options};
ghost use Rattle.basv_words.specs.Reader.{app_for, gathered, has_empty_value, is_empty_value, option_rule, name_rule, with_options};
ghost use Rattle.basv_words.specs.Meant.{seen};

use crate::form::Kind;
use crate::setting::Setting;
use clap::error::ErrorKind;
use clap::{Arg, ArgMatches, Command};
use std::alloc::{AllocError, Global};

/// The names and the values of options that words give.
#[derive(Clone, Copy)]
pub struct Given<'a> {
    /// The first name.
    pub source: &'a str,
    /// The second name.
    pub target: Option<&'a str>,
    /// The value of `--input`.
    pub input: Option<&'a str>,
    /// The value of `--steps`.
    pub steps: Option<&'a str>,
    /// The value of `--arena`.
    pub arena: Option<&'a str>,
}

/// A name that has to be there.
fn name<'a>(alloc: Global, id: &'static str) -> Arg<'a>
    ensures rule { rule_of result ≡ name_rule id.now }
    ensures local { result.global ≡ false }
{
    Arg::new(alloc, id).required(true)
}

/// An option with a value.
fn option<'a>(alloc: Global, name: &'static str) -> Arg<'a>
    ensures rule { rule_of result ≡ option_rule name.now }
    ensures local { result.global ≡ false }
{
    Arg::new(alloc, name).long(name)
}

/// The command with all options.
fn with_options<'a>(alloc: Global, command: Command<'a>) -> Result<Command<'a>, AllocError>
    ensures { IfOk result (λ c. app_of c ≡ with_options (app_of command.entry)) }
{
    command
        .arg(option(alloc, Setting::Input.name()))?
        .arg(option(alloc, Setting::Steps.name()))?
        .arg(option(alloc, Setting::Arena.name()))
}

/// What reads the words of a command.
fn reader<'a>(alloc: Global, kind: Kind) -> Result<Command<'a>, AllocError>
    ensures { IfOk result (λ c. app_of c ≡ app_for (has_target kind) (has_options kind)) }
{
    let mut command = Command::new(alloc, "basv")
        .disable_help_flag(true)
        .arg(name(alloc, "source"))?;
    if kind.has_target() {
        command = command.arg(name(alloc, "target"))?;
    }
    if kind.has_options() {
        command = with_options(alloc, command)?;
    }
    Ok(command)
}

/// What the matches have.
fn given_by<'a>(matches: &ArgMatches<'a>) -> Option<Given<'a>>
    ensures { option_map seen result ≡ gathered (rows_of (found_of matches.now)) }
{
    Some(Given {
        source: matches.get_str("source")?,
        target: matches.get_str("target"),
        input: matches.get_str(Setting::Input.name()),
        steps: matches.get_str(Setting::Steps.name()),
        arena: matches.get_str(Setting::Arena.name()),
    })
}

/// Whether a word gives an option an empty value.
fn is_empty_value(word: &str) -> bool
    ensures { result ≡ is_empty_value word.now }
{
    word == Setting::Input.empty_word()
        || word == Setting::Steps.empty_word()
        || word == Setting::Arena.empty_word()
}

/// Whether a word before `--` gives an option an empty value, which `clap` takes.
fn has_empty_value(words: &[String]) -> bool
    ensures { result ≡ has_empty_value (map string_bytes words.now) }
{
    for word in words {
        if word.as_str() == "--" {
            return false;
        }
        if is_empty_value(word.as_str()) {
            return true;
        }
    }
    false
}

/// What the words of a command give, the first of which is its name, if they are names and options that it takes. It
/// fails for want of memory alone.
pub fn read_words(
    alloc: Global,
    kind: Kind,
    words: &[String],
) -> Result<Option<Given<'_>>, AllocError>
    ensures { IfOk result (λ g. option_map seen g ≡ taken (has_target kind) (has_options kind) (drop 1 (map string_bytes words.entry.now))) }
{
    let rest = match words {
        [_, rest @ ..] => rest,
        [] => return Ok(None),
    };
    if has_empty_value(rest) {
        return Ok(None);
    }
    match reader(alloc, kind)?.try_get_matches_from(words) {
        Ok(matches) => Ok(given_by(&matches)),
        Err(error) if error.kind() == ErrorKind::OutOfMemory => Err(AllocError),
        Err(_) => Ok(None),
    }
}
