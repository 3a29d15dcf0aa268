//! The file of a text.
ghost use Rattle.std.specs.Prelude.{◌≡◌, ℕ, List, ◌+◌, ◌≤◌, ◌<◌, ◌^◌, length, All, IfOk, IfErr, OnOk};
ghost use Rattle.token_file.specs.Lines.{IsLine, file_of, Lines, HasOneReading};
ghost use Rattle.basv_crunch.specs.Crunched.{IsFileOf, ExplainsCrunch};
ghost use Rattle.basv_crunch.specs.NormalForm.{ReadsBack};
ghost use Rattle.basv_crunch.specs.Adding.{AddsPiece, IsBadPiece, IsFinished};

use crate::error::CrunchError;
use crate::piece::{crunch_piece, is_blank, split_piece};
use bv_base::CRUNCHED_FILE_BYTES;
use std::alloc::Global;
use token_file::{Line, write_file};

/// Adds the line of a piece, unless the piece is blank. `number` is the piece's.
fn push_piece(
    alloc: Global,
    lines: &mut Vec<Line>,
    piece: &[u8],
    number: u64,
) -> Result<(), CrunchError>
    requires { number + length piece.now ≤ 2 ^ 32 }
    ensures ok { OnOk result (AddsPiece piece.now lines.old.items lines.new.items) }
    ensures err { IfErr result (IsBadPiece piece.now number) }
{
    if is_blank(piece) {
        return Ok(());
    }
    match crunch_piece(alloc, piece)? {
        Some(line) => {
            lines.push(line)?;
            Ok(())
        }
        None => Err(CrunchError::BadText {
            line: number as u32,
        }),
    }
}

/// The file of these lines, where it isn't too long.
fn finish(alloc: Global, lines: &[Line]) -> Result<Vec<u8>, CrunchError>
    requires { All IsLine lines.now }
    ensures ok { IfOk result (λ file. (file.items ≡ file_of lines.now) × (length file.items ≤ CRUNCHED_FILE_BYTES)) }
    ensures read { IfOk result (λ file. Lines file.items lines.now × HasOneReading file.items lines.now) }
    ensures err { IfErr result (IsFinished lines.now) }
{
    let file = write_file(alloc, lines)?;
    if file.len() > CRUNCHED_FILE_BYTES as usize {
        return Err(CrunchError::TooLong);
    }
    Ok(file)
}

/// The file of a program's text, of fewer than 2^32 bytes. A line of the text is spaces, the line's number and its
/// body, which is tokenised; blank lines are passed over, and lines end with a byte 10 or with 13 and 10.
pub fn crunch(alloc: Global, text: &[u8]) -> Result<Vec<u8>, CrunchError>
    requires { length text.now < 2 ^ 32 }
    ensures ok { IfOk result (λ file. IsFileOf text.now file.items) }
    ensures only { IfOk result (λ file. (other : List ℕ) → IsFileOf text.now other → other ≡ file.items) }
    ensures reading { IfOk result (λ file. ReadsBack text.now file.items) }
    ensures err { IfErr result (ExplainsCrunch text.now) }
{
    let mut lines = Vec::new(alloc);
    let mut rest = text;
    let mut number = 1;
    'pieces: loop {
        let (piece, after) = split_piece(rest);
        push_piece(alloc, &mut lines, piece, number)?;
        match after {
            Some(after) => {
                rest = after;
                number += 1;
            }
            None => return finish(alloc, lines.as_slice()),
        }
    }
}
