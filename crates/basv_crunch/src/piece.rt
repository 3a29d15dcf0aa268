//! The pieces of a text, and the line that a piece is.
ghost use Rattle.std.specs.Prelude.{◌≡◌, ◌+◌, ◌<◌, ◌≤◌, ◌∷◌, [], length, drop, take_while, IfOk, MatchOption};
ghost use Rattle.token_file.specs.declared.line.Line.{Line as FileLine};
ghost use Rattle.basv_crunch.specs.Pieces.{pieces, is_blank, in_line, without_return};
ghost use Rattle.basv_crunch.specs.Crunched.{IsLineOf};

use crate::body::crunch_body;
use bv_base::{LINE_NUMBERS, LONGEST_TEXT};
use bv_num::{digit_run, skip_spaces};
use sqlite_items::Items;
use std::alloc::{AllocError, Global};
use token_file::Line;

/// The byte that ends a line of a text.
const LINE_END: u8 = b'\n';

/// The number of bytes before the first line end of a text, or all.
fn line_size(text: &[u8]) -> usize
    ensures { result ≡ length (take_while in_line text.now) }
{
    let mut count = 0;
    for byte in text {
        if *byte == LINE_END {
            return count;
        }
        count += 1;
    }
    count
}

/// A text without the one byte 13 that may end it.
fn without_return(text: &[u8]) -> &[u8]
    ensures { result.now ≡ without_return text.now }
{
    let Some((last, before)) = text.split_last() else {
        return text;
    };
    if *last == b'\r' {
        return before;
    }
    text
}

/// The first piece of a text, and what follows its line end, if it has one.
pub fn split_piece(text: &[u8]) -> (&[u8], Option<&[u8]>)
    ensures pieces { MatchOption result.1 (pieces text.now ≡ result.0.now ∷ []) (λ after. pieces text.now ≡ result.0.now ∷ pieces after.now) }
    ensures shorter { MatchOption result.1 (length result.0.now ≤ length text.now) (λ after. length result.0.now + length after.now < length text.now) }
{
    let size = line_size(text);
    if size == text.len() {
        return (text, None);
    }
    let (line, end) = text.split_at(size);
    (without_return(line), Some(text_after(end, 1)))
}

/// Whether a piece has nothing but spaces.
pub fn is_blank(piece: &[u8]) -> bool
    ensures { result ≡ is_blank piece.now }
{
    piece.iter().all(|byte| *byte == b' ')
}

/// What follows the first `count` bytes of a text.
fn text_after(text: &[u8], count: usize) -> &[u8]
    requires { count ≤ length text.now }
    ensures { result.now ≡ drop count text.now }
{
    &text[count..]
}

/// The line that a piece is, if it is one.
pub fn crunch_piece(alloc: Global, piece: &[u8]) -> Result<Option<Line>, AllocError>
    ensures { IfOk result (λ line. MatchOption line ((other : FileLine) → IsLineOf piece.now other → ⊥) (λ line. IsLineOf piece.now line)) }
{
    let unspaced = skip_spaces(piece);
    let digits = digit_run(10, unspaced);
    if digits.count == 0 || digits.value >= u64::from(LINE_NUMBERS) {
        return Ok(None);
    }
    let Some(text) = crunch_body(alloc, text_after(unspaced, digits.count))? else {
        return Ok(None);
    };
    if text.len() > LONGEST_TEXT {
        return Ok(None);
    }
    let text = Items::from_slice(alloc, text.as_slice())?;
    Ok(Some(Line {
        number: digits.value as u16,
        text,
    }))
}
