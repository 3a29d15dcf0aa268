//! The command `run IMAGE`, with its options.
ghost use Rattle.std.specs.Prelude.{◌≡◌, ◌≢◌, ◌⊎◌, ◌≤◌, ℕ, List, Some, length, IfOk, IfErr};
ghost use Rattle.profile_check.specs.declared.refusal.Refusal.TheVariants as refusals;
ghost use Rattle.bv_base.specs.Limits.{image_bytes, image_words};
ghost use Rattle.bv_base.specs.Words.{AreWords};
ghost use Rattle.arm2_machine.specs.Image.{ImageOf};
ghost use Rattle.arm2_machine.specs.Step.{board_run};
ghost use Rattle.basv_words.specs.Meant.{chosen};
ghost use Rattle.basv_top.specs.Ending.{Refused, told, ended_run, long_image};
ghost use Rattle.basv_top.specs.Running.{RunEnds, RunsWith};
ghost use Rattle.basv_top.specs.RunCommand.{EndsRun, Unrunnable};
ghost use Rattle.basv_top.specs.Seen.{seen_shelf, seen_sink};
ghost use Rattle.basv_top.specs.Taking.{Calm, Takes, TakeFails};

use crate::ending::Ending;
use crate::limits::LONG_IMAGE;
use crate::running::{put_arena, take_input};
use crate::taking::take_within;
use arm2_machine::{Board, read_image};
use basv_words::Options;
use bv_base::IMAGE_BYTES;
use bv_io::{Shelf, Sink};
use bv_run::RunEnd;
use std::alloc::Global;

/// The words of the image under a name.
fn take_words<'a, S: Shelf>(
    alloc: Global,
    image: &'a str,
    shelf: &mut S,
) -> Result<Vec<u32>, Ending<'a>>
    ensures words { IfOk result (λ words. (bytes : List ℕ) × Takes (seen_shelf S.Shelf shelf.old) (seen_shelf S.Shelf shelf.new) image.now bytes
        × (length bytes ≤ image_bytes) × AreWords words.items × ImageOf bytes words.items) }
    ensures none { IfErr result (λ ending. TakeFails (seen_shelf S.Shelf shelf.old) (seen_shelf S.Shelf shelf.new) image.now image_bytes long_image (told ending)
        ⊎ ((bytes : List ℕ) × Takes (seen_shelf S.Shelf shelf.old) (seen_shelf S.Shelf shelf.new) image.now bytes
        × (length bytes ≤ image_bytes) × (Unrunnable bytes (told ending) ⊎ (told ending ≡ Refused refusals.NoMemory)))) }
    ensures calm { Calm (seen_shelf S.Shelf shelf.old) (seen_shelf S.Shelf shelf.new) }
{
    let bytes = take_within(alloc, image, IMAGE_BYTES, LONG_IMAGE, shelf)?;
    let words = read_image(alloc, bytes.as_slice())?;
    Ok(words)
}

/// Runs words on the board, and puts the arena that they leave. All memory is taken before the first byte is written, but
/// for what the shelf takes for the arena.
fn run_words<'a, S: Shelf, O: Sink>(
    alloc: Global,
    words: &[u32],
    input: Vec<u8>,
    options: Options<'a>,
    shelf: &mut S,
    out: &mut O,
) -> Result<RunEnd, Ending<'a>>
    requires { length words.now ≤ image_words }
    ensures { RunEnds (board_run words.now input.items (chosen options.entry).steps) (chosen options.entry).arena (chosen options.entry).steps
        (seen_shelf S.Shelf shelf.old) (seen_shelf S.Shelf shelf.new) (seen_sink O.Sink out.old) (seen_sink O.Sink out.new)
        (ended_run result (chosen options.entry).steps) }
{
    let mut board = Board::load(alloc, words, input)?;
    let end = board.run(options.steps, out)?;
    put_arena(options.arena, board.arena(), shelf)?;
    Ok(end)
}

/// Runs words with the input and under the bound that the options say.
fn run_with<'a, S: Shelf, O: Sink>(
    alloc: Global,
    words: &[u32],
    options: Options<'a>,
    shelf: &mut S,
    out: &mut O,
) -> Result<RunEnd, Ending<'a>>
    requires { length words.now ≤ image_words }
    ensures { RunsWith (board_run words.now) (chosen options.entry)
        (seen_shelf S.Shelf shelf.old) (seen_shelf S.Shelf shelf.new) (seen_sink O.Sink out.old) (seen_sink O.Sink out.new)
        (ended_run result (chosen options.entry).steps) }
{
    let input = take_input(alloc, options.input, shelf)?;
    run_words(alloc, words, input, options, shelf, out)
}

/// Runs the image under a name.
pub fn run<'a, S: Shelf, O: Sink>(
    alloc: Global,
    image: &'a str,
    options: Options<'a>,
    shelf: &mut S,
    out: &mut O,
) -> Ending<'a>
    ensures { EndsRun (seen_shelf S.Shelf shelf.old) (seen_shelf S.Shelf shelf.new)
        (seen_sink O.Sink out.old) (seen_sink O.Sink out.new) image.now (chosen options.entry) (told result) }
{
    match take_words(alloc, image, shelf) {
        Ok(words) => Ending::of_run(
            run_with(alloc, words.as_slice(), options, shelf, out),
            options.steps,
        ),
        Err(ending) => ending,
    }
}
