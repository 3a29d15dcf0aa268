//! The program: what its words ask for, and how it ends.
ghost use Rattle.std.specs.Prelude.{◌≡◌, ◌≢◌, ◌⊎◌, ℕ, List, None, Some, map, string_bytes};
ghost use Rattle.basv_words.specs.Command.{Options, Listing, Compile, Run, Interpret, Crunch, command_of};
ghost use Rattle.basv_words.specs.Meant.{meant};
ghost use Rattle.basv_top.specs.CompileCommand.{Compiles};
ghost use Rattle.basv_top.specs.CrunchCommand.{Crunches};
ghost use Rattle.basv_top.specs.Ending.{told, status_of};
ghost use Rattle.basv_top.specs.InterpCommand.{Interprets};
ghost use Rattle.basv_top.specs.ListCommand.{Lists};
ghost use Rattle.basv_top.specs.RunCommand.{Runs};
ghost use Rattle.basv_top.specs.Seen.{Silent, seen_shelf, seen_sink};
ghost use Rattle.basv_top.specs.Top.{Ends, EndsCommand, EndsRead, OnlyNamed, SameUnlessWritten};

use crate::compile_command::compile;
use crate::crunch_command::crunch;
use crate::ending::Ending;
use crate::interp_command::interpret;
use crate::list_command::list;
use crate::message::report;
use crate::run_command::run;
use crate::status::Status;
use basv_words::{Command, read_command};
use bv_io::{Shelf, Sink};
use profile_check::Refusal;
use std::alloc::Global;

/// Does what a command asks for.
fn perform<'a, S: Shelf, O: Sink>(
    alloc: Global,
    command: Command<'a>,
    shelf: &mut S,
    out: &mut O,
) -> Ending<'a>
    ensures ends { EndsRead (seen_shelf S.Shelf shelf.old) (seen_shelf S.Shelf shelf.new)
        (seen_sink O.Sink out.old) (seen_sink O.Sink out.new) (Some (meant command.entry)) (told result) }
    ensures changes { OnlyNamed (seen_shelf S.Shelf shelf.old) (seen_shelf S.Shelf shelf.new) (Some (meant command.entry)) }
    ensures same { SameUnlessWritten (seen_shelf S.Shelf shelf.old) (seen_shelf S.Shelf shelf.new) (Some (meant command.entry)) (status_of (told result)) }
{
    match command {
        Command::List { file } => list(alloc, file, shelf, out),
        Command::Compile { file, image } => compile(alloc, file, image, shelf),
        Command::Run { image, options } => run(alloc, image, options, shelf, out),
        Command::Interpret { file, options } => interpret(alloc, file, options, shelf, out),
        Command::Crunch { text, file } => crunch(alloc, text, file, shelf),
    }
}

/// Does what the words ask for.
fn carry_out<'a, S: Shelf, O: Sink>(
    alloc: Global,
    words: &'a [String],
    shelf: &mut S,
    out: &mut O,
) -> Ending<'a>
    ensures ends { EndsCommand (seen_shelf S.Shelf shelf.old) (seen_shelf S.Shelf shelf.new)
        (seen_sink O.Sink out.old) (seen_sink O.Sink out.new) (command_of (map string_bytes words.entry.now)) (told result) }
    ensures changes { OnlyNamed (seen_shelf S.Shelf shelf.old) (seen_shelf S.Shelf shelf.new) (command_of (map string_bytes words.entry.now)) }
    ensures same { SameUnlessWritten (seen_shelf S.Shelf shelf.old) (seen_shelf S.Shelf shelf.new) (command_of (map string_bytes words.entry.now)) (status_of (told result)) }
{
    match read_command(alloc, words) {
        Ok(Some(command)) => perform(alloc, command, shelf, out),
        Ok(None) => Ending::Usage,
        Err(_) => Ending::Refused(Refusal::NoMemory),
    }
}

/// The program `basv`, on the words after its name. `list FILE` writes the listing of the tokenised program that the
/// shelf holds under FILE to `out`. `compile FILE IMAGE` puts that program's image file under IMAGE. `run IMAGE` runs the
/// image that the shelf holds under IMAGE on the board, and writes its output to `out`; with `--input F` its input is what
/// the shelf holds under F, with `--steps N` it ends after N instructions, and with `--arena F` the arena is put under F
/// after the run. `interp FILE` interprets the tokenised program that the shelf holds under FILE, with the same options,
/// where N is a number of steps of the program. `crunch TEXT FILE` puts the tokenised file of a program's text under FILE. Where the command, or the
/// program that ran, isn't done, one line on `err` says why.
pub fn basv<S: Shelf, O: Sink, E: Sink>(
    alloc: Global,
    words: &[String],
    shelf: &mut S,
    out: &mut O,
    err: &mut E,
) -> Status
    // The headline is in `Compiles`: where a compile is done, the file that the shelf gave is accepted as one program,
    // and the image that it was handed agrees with that program on every input.
    ensures compile { (file image : List ℕ) → command_of (map string_bytes words.now) ≡ Some (Compile file image)
        → Compiles (seen_shelf S.Shelf shelf.old) (seen_shelf S.Shelf shelf.new)
        (seen_sink O.Sink out.old) (seen_sink O.Sink out.new) file image result }
    ensures list { (file : List ℕ) → command_of (map string_bytes words.now) ≡ Some (Listing file)
        → Lists (seen_shelf S.Shelf shelf.old) (seen_shelf S.Shelf shelf.new)
        (seen_sink O.Sink out.old) (seen_sink O.Sink out.new) file result }
    ensures run { (image : List ℕ) (options : Options) → command_of (map string_bytes words.now) ≡ Some (Run image options)
        → Runs (seen_shelf S.Shelf shelf.old) (seen_shelf S.Shelf shelf.new)
        (seen_sink O.Sink out.old) (seen_sink O.Sink out.new) image options result }
    ensures interp { (file : List ℕ) (options : Options) → command_of (map string_bytes words.now) ≡ Some (Interpret file options)
        → Interprets (seen_shelf S.Shelf shelf.old) (seen_shelf S.Shelf shelf.new)
        (seen_sink O.Sink out.old) (seen_sink O.Sink out.new) file options result }
    ensures crunch { (text file : List ℕ) → command_of (map string_bytes words.now) ≡ Some (Crunch text file)
        → Crunches (seen_shelf S.Shelf shelf.old) (seen_shelf S.Shelf shelf.new)
        (seen_sink O.Sink out.old) (seen_sink O.Sink out.new) text file result }

    // Words that are no command do nothing.
    ensures usage { command_of (map string_bytes words.now) ≡ None
        → ((result ≡ Status.Usage) ⊎ (result ≡ Status.NoMemory)) × (seen_shelf S.Shelf shelf.new ≡ seen_shelf S.Shelf shelf.old)
        × Silent (seen_sink O.Sink out.old) (seen_sink O.Sink out.new) }

    // Each status has its cause, which is in its line on the error output.
    ensures ends { Ends (seen_shelf S.Shelf shelf.old) (seen_shelf S.Shelf shelf.new)
        (seen_sink O.Sink out.old) (seen_sink O.Sink out.new)
        (seen_sink E.Sink err.old) (seen_sink E.Sink err.new)
        (command_of (map string_bytes words.now)) result }
{
    let ending = carry_out(alloc, words, shelf, out);
    report(err, ending);
    ending.status()
}
