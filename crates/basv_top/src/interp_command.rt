//! The command `interp FILE`, with its options.
ghost use Rattle.std.specs.Prelude.{◌≡◌, ◌≢◌, ◌⊎◌, ◌≤◌, ℕ, List, length, IfOk, IfErr};
ghost use Rattle.std.specs.List.{AllByRecursion};
ghost use Rattle.bv_base.specs.Limits.{file_bytes};
ghost use Rattle.bv_base.specs.declared.limits.TheConstants.{LONGEST_TEXT};
ghost use Rattle.bas_sem.specs.Meaning.{source_run};
ghost use Rattle.profile_check.specs.Files.{Accepted};
ghost use Rattle.profile_check.specs.declared.refusal.Refusal.TheVariants as refusals;
ghost use Rattle.basv_words.specs.Meant.{chosen};
ghost use Rattle.basv_top.specs.Ending.{Refused, told, ended_run, long_file};
ghost use Rattle.basv_top.specs.InterpCommand.{EndsInterp, NoProgram};
ghost use Rattle.basv_top.specs.Running.{RunEnds, RunsWith};
ghost use Rattle.basv_top.specs.Seen.{seen_shelf, seen_sink};
ghost use Rattle.basv_top.specs.Taking.{Calm, Takes, TakeFails};

use crate::ending::Ending;
use crate::running::{put_arena, take_input};
use crate::taking::take_within;
use bas_ast::Prog;
use bas_interp::Interp;
use basv_words::Options;
use bv_base::FILE_BYTES;
use bv_io::{Shelf, Sink};
use bv_run::RunEnd;
use profile_check::{LONG_FILE, read_program};
use std::alloc::Global;

/// The program under a name.
fn take_program<'a, S: Shelf>(
    alloc: Global,
    file: &'a str,
    shelf: &mut S,
) -> Result<Prog, Ending<'a>>
    ensures program { IfOk result (λ prog. (bytes : List ℕ) × Takes (seen_shelf S.Shelf shelf.old) (seen_shelf S.Shelf shelf.new) file.now bytes
        × (length bytes ≤ file_bytes) × Accepted bytes prog) }
    ensures texts { IfOk result (λ prog. AllByRecursion (λ text. length text ≤ LONGEST_TEXT) prog.texts) }
    ensures data { IfOk result (λ prog. AllByRecursion (λ d. length d.text ≤ LONGEST_TEXT) prog.data_items) }
    ensures none { IfErr result (λ ending. TakeFails (seen_shelf S.Shelf shelf.old) (seen_shelf S.Shelf shelf.new) file.now file_bytes long_file (told ending)
        ⊎ ((bytes : List ℕ) × Takes (seen_shelf S.Shelf shelf.old) (seen_shelf S.Shelf shelf.new) file.now bytes
        × (length bytes ≤ file_bytes) × (NoProgram bytes (told ending) ⊎ (told ending ≡ Refused refusals.NoMemory)))) }
    ensures calm { Calm (seen_shelf S.Shelf shelf.old) (seen_shelf S.Shelf shelf.new) }
{
    let bytes = take_within(alloc, file, FILE_BYTES, LONG_FILE, shelf)?;
    let prog = read_program(alloc, bytes.as_slice())?;
    Ok(prog)
}

/// Runs a program, and puts the arena that it leaves. All memory is taken before the first byte is written, but for what
/// the shelf takes for the arena.
fn run_program<'a, S: Shelf, O: Sink>(
    alloc: Global,
    prog: &Prog,
    input: Vec<u8>,
    options: Options<'a>,
    shelf: &mut S,
    out: &mut O,
) -> Result<RunEnd, Ending<'a>>
    requires texts { AllByRecursion (λ text. length text ≤ LONGEST_TEXT) prog.now.texts }
    requires data { AllByRecursion (λ d. length d.text ≤ LONGEST_TEXT) prog.now.data_items }
    ensures { RunEnds (source_run prog.now input.items (chosen options.entry).steps) (chosen options.entry).arena (chosen options.entry).steps
        (seen_shelf S.Shelf shelf.old) (seen_shelf S.Shelf shelf.new) (seen_sink O.Sink out.old) (seen_sink O.Sink out.new)
        (ended_run result (chosen options.entry).steps) }
{
    let mut interp = Interp::new(alloc, prog, input)?;
    let end = interp.run(options.steps, out)?;
    put_arena(options.arena, interp.arena(), shelf)?;
    Ok(end)
}

/// Runs a program with the input and under the bound that the options say.
fn run_with<'a, S: Shelf, O: Sink>(
    alloc: Global,
    prog: &Prog,
    options: Options<'a>,
    shelf: &mut S,
    out: &mut O,
) -> Result<RunEnd, Ending<'a>>
    requires texts { AllByRecursion (λ text. length text ≤ LONGEST_TEXT) prog.now.texts }
    requires data { AllByRecursion (λ d. length d.text ≤ LONGEST_TEXT) prog.now.data_items }
    ensures { RunsWith (source_run prog.now) (chosen options.entry)
        (seen_shelf S.Shelf shelf.old) (seen_shelf S.Shelf shelf.new) (seen_sink O.Sink out.old) (seen_sink O.Sink out.new)
        (ended_run result (chosen options.entry).steps) }
{
    let input = take_input(alloc, options.input, shelf)?;
    run_program(alloc, prog, input, options, shelf, out)
}

/// Interprets the program under a name.
pub fn interpret<'a, S: Shelf, O: Sink>(
    alloc: Global,
    file: &'a str,
    options: Options<'a>,
    shelf: &mut S,
    out: &mut O,
) -> Ending<'a>
    ensures { EndsInterp (seen_shelf S.Shelf shelf.old) (seen_shelf S.Shelf shelf.new)
        (seen_sink O.Sink out.old) (seen_sink O.Sink out.new) file.now (chosen options.entry) (told result) }
{
    match take_program(alloc, file, shelf) {
        Ok(prog) => Ending::of_run(run_with(alloc, &prog, options, shelf, out), options.steps),
        Err(ending) => ending,
    }
}
