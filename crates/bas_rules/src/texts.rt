//! Texts between quotation marks, and the items of DATA.

ghost use Rattle.std.specs.Prelude.{◌≡◌, ◌==◌, ◌&&◌, not, [], ◌∷◌, ◌++◌, false, map, IfOk, OnOk};
ghost use Rattle.bas_rules.specs.Texts as spec;

use bas_ast::DataItem;
use sqlite_items::Items;
use std::alloc::{AllocError, Global};

/// The text after a quotation mark, up to the next one that isn't doubled, or to the end.
pub fn quoted_text(alloc: Global, bytes: &[u8]) -> Result<Items<u8>, AllocError>
    ensures { IfOk result (λ text. text ≡ spec.quoted_from false bytes.now) }
{
    let mut text = Items::new(alloc);
    let mut after_mark = false;
    for byte in bytes {
        let is_mark = *byte == b'"';
        if after_mark && !is_mark {
            return Ok(text);
        }
        if after_mark || !is_mark {
            text.push(*byte)?;
        }
        after_mark = is_mark && !after_mark;
    }
    Ok(text)
}

/// The bytes after the spaces in front.
fn without_spaces(bytes: &[u8]) -> &[u8]
    ensures { result.now ≡ spec.without_spaces bytes.now }
{
    let mut rest = bytes;
    'spaces: while let [b' ', after @ ..] = rest {
        rest = after;
    }
    rest
}

/// The text of an item of DATA, from the bytes between two commas.
fn item_text(alloc: Global, piece: &[u8]) -> Result<Items<u8>, AllocError>
    ensures { IfOk result (λ text. text ≡ spec.item_text piece.now) }
{
    match without_spaces(piece) {
        [b'"', after @ ..] => quoted_text(alloc, after),
        bytes => Items::from_slice(alloc, bytes),
    }
}

/// Adds an item of the line at a place.
fn push_item(
    alloc: Global,
    items: &mut Items<DataItem>,
    line: u32,
    piece: &[u8],
) -> Result<(), AllocError>
    ensures { OnOk result (items.new ≡ items.old ++ spec.data_item line piece.now ∷ []) }
{
    let text = item_text(alloc, piece)?;
    items.push(DataItem { line, text })
}

/// Whether a byte ends an item of DATA.
fn ends_piece(byte: u8, inside: bool) -> bool
    ensures { result ≡ (byte == spec.comma && not inside) }
{
    byte == b',' && !inside
}

/// Adds the items of DATA of the line at a place: its bytes divided by commas outside quotation marks.
pub fn push_items(
    alloc: Global,
    items: &mut Items<DataItem>,
    line: u32,
    tail: &[u8],
) -> Result<(), AllocError>
    ensures { OnOk result (items.new ≡ items.old ++ map (spec.data_item line) (spec.pieces_from false tail.now)) }
{
    let mut start = 0;
    let mut inside = false;
    for i in 0..tail.len() {
        if ends_piece(tail[i], inside) {
            push_item(alloc, items, line, &tail[start..i])?;
            start = i + 1;
        } else if tail[i] == b'"' {
            inside = !inside;
        }
    }
    push_item(alloc, items, line, &tail[start..])
}
