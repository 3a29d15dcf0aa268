//! The listing of a line.
ghost use Rattle.std.specs.Prelude.{◌≡◌, ◌++◌, length, decimal, false, IfOk, OnOk};
ghost use Rattle.lister.specs.Listing.{justified, listed, listing};

use crate::symbol::push_symbol;
use bv_base::NoMemory;
use itoa::Buffer;
use std::alloc::{AllocError, Global};
use token_file::Line;

/// The columns of a line's number, which has at most five digits.
const NUMBER_COLUMNS: &[u8] = b"     ";

const QUOTATION_MARK: u8 = b'"';

#[tactic(auto, using(crate::proofs::Listed::puts_number))]
fn push_number(listing: &mut Vec<u8>, number: u16) -> Result<(), AllocError>
    ensures { OnOk result (listing.new.items ≡ listing.old.items ++ justified 5 (decimal number)) }
{
    let mut buffer = Buffer::new();
    let digits = buffer.format(number).as_bytes();
    listing.extend_from_slice(&NUMBER_COLUMNS[digits.len()..])?;
    listing.extend_from_slice(digits)
}

fn push_text(listing: &mut Vec<u8>, text: &[u8]) -> Result<(), AllocError>
    ensures { OnOk result (listing.new.items ≡ listing.old.items ++ listed 0 false text.now) }
{
    let mut rest = text;
    let mut quoted = false;
    'symbols: while let Some((first, after)) = rest.split_first() {
        if quoted {
            listing.push(*first)?;
            rest = after;
            quoted = *first != QUOTATION_MARK;
        } else {
            rest = push_symbol(listing, *first, after)?;
            quoted = *first == QUOTATION_MARK;
        }
    }
    Ok(())
}

/// The line's listing, ended by a new line: its number in five columns, then its text with the keywords of its tokens.
/// Bytes that are no token and should be one are listed as hexadecimal digits between `<` and `>`.
#[tactic(auto, using(crate::proofs::Listed::five_columns))]
pub fn list_line(alloc: Global, line: &Line) -> Result<Vec<u8>, NoMemory>
    ensures listing { IfOk result (λ bytes. bytes.items ≡ listing line.now) }
    ensures columns { length (justified 5 (decimal line.now.number)) ≡ 5 }
{
    let mut listing = Vec::new(alloc);
    push_number(&mut listing, line.number)?;
    push_text(&mut listing, line.text.as_slice())?;
    listing.push(b'\n')?;
    Ok(listing)
}
