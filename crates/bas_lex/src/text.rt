//! Strings.
ghost use Rattle.std.specs.Prelude.{◌≡◌, ◌∷◌};
ghost use Rattle.bas_lex.specs.Bytes.{quotation_mark};
ghost use Rattle.bas_lex.specs.Scan.{Best, Texts, IsPart, ClosesLast};

use crate::front::Front;
use crate::symbol::SymKind;

/// What comes first of a string's bytes after its first quotation mark, and what follows that.
enum Part<'a> {
    /// Two quotation marks, which stand for one.
    Doubled(&'a [u8]),
    /// A quotation mark with no other after it.
    Closing,
    /// Any other byte.
    Other(&'a [u8]),
    End,
}

fn read_part(text: &[u8]) -> Part<'_>
    ensures { IsPart text.now result }
{
    match text {
        [b'"', b'"', after @ ..] => Part::Doubled(after),
        [b'"', ..] => Part::Closing,
        [_, after @ ..] => Part::Other(after),
        [] => Part::End,
    }
}

/// The number of bytes up to the last quotation mark that closes a string, and with it.
fn find_closing(text: &[u8]) -> Option<usize>
    ensures { ClosesLast text.now result }
{
    let mut last = None;
    let mut rest = text;
    'parts: loop {
        let with_mark = text.len() - rest.len() + 1;
        match read_part(rest) {
            Part::Doubled(after) => {
                last = Some(with_mark);
                rest = after;
            }
            Part::Closing => return Some(with_mark),
            Part::Other(after) => rest = after,
            Part::End => return last,
        }
    }
}

/// The string, where `after` is what follows its first quotation mark.
pub fn read_text(after: &[u8]) -> Option<Front>
    ensures { Best Texts (quotation_mark ∷ after.now) result }
{
    match find_closing(after) {
        Some(size) => Some(Front {
            kind: SymKind::Text,
            size: 1 + size,
        }),
        None => None,
    }
}
