//! The listing of a symbol.
ghost use Rattle.std.specs.Prelude.{◌≡◌, ◌++◌, drop, false, IfOk, OnOk};
ghost use Rattle.bv_token.specs.Tokens.{begins_pair};
ghost use Rattle.lister.specs.Listing.{hex_byte, shown, shown_byte, shown_pair, shown_reference};

use bv_num::digit_byte;
use bv_token::{DATA, LINE_REFERENCE, PAIR_FIRST, PAIR_LAST, REM, keyword, line_ref};
use itoa::Buffer;
use std::alloc::AllocError;

/// The two hexadecimal digits of a byte.
fn hex_byte(byte: u8) -> [u8; 2]
    ensures { result ≡ hex_byte byte }
{
    [
        digit_byte(u32::from(byte / 16)),
        digit_byte(u32::from(byte % 16)),
    ]
}

/// Lists what follows the byte `LINE_REFERENCE`, and answers the bytes after that.
fn push_reference<'a>(listing: &mut Vec<u8>, after: &'a [u8]) -> Result<&'a [u8], AllocError>
    ensures text { OnOk result (listing.new.items ≡ listing.old.items ++ (shown_reference after.now).text) }
    ensures rest { IfOk result (λ rest. rest.now ≡ drop (shown_reference after.now).taken after.now) }
{
    match after {
        [a, b, c, rest @ ..] => {
            let number = line_ref([*a, *b, *c]);
            listing.extend_from_slice(Buffer::new().format(number).as_bytes())?;
            Ok(rest)
        }
        _ => {
            listing.extend_from_slice(b"<8D>")?;
            Ok(after)
        }
    }
}

/// Lists a pair with this first byte, and answers the bytes after it.
fn push_pair<'a>(listing: &mut Vec<u8>, first: u8, after: &'a [u8]) -> Result<&'a [u8], AllocError>
    ensures text { OnOk result (listing.new.items ≡ listing.old.items ++ (shown_pair first after.now).text) }
    ensures rest { IfOk result (λ rest. rest.now ≡ drop (shown_pair first after.now).taken after.now) }
{
    let [high, low] = hex_byte(first);
    let [second, rest @ ..] = after else {
        listing.extend_from_slice(&[b'<', high, low, b'>'])?;
        return Ok(after);
    };
    match keyword(first, *second) {
        Some(word) => listing.extend_from_slice(word)?,
        None => {
            let [second_high, second_low] = hex_byte(*second);
            listing.extend_from_slice(&[b'<', high, low, b' ', second_high, second_low, b'>'])?;
        }
    }
    Ok(rest)
}

/// Lists a byte that begins no pair: its keyword, or the byte itself.
fn push_byte(listing: &mut Vec<u8>, byte: u8) -> Result<(), AllocError>
    requires { begins_pair byte ≡ false }
    ensures { OnOk result (listing.new.items ≡ listing.old.items ++ shown_byte byte) }
{
    match keyword(byte, 0) {
        Some(word) => listing.extend_from_slice(word),
        None => listing.extend_from_slice(&[byte]),
    }
}

/// Lists the symbol that begins with this byte outside quotation marks, and answers the bytes after it.
pub fn push_symbol<'a>(
    listing: &mut Vec<u8>,
    first: u8,
    after: &'a [u8],
) -> Result<&'a [u8], AllocError>
    ensures text { OnOk result (listing.new.items ≡ listing.old.items ++ (shown first after.now).text) }
    ensures rest { IfOk result (λ rest. rest.now ≡ drop (shown first after.now).taken after.now) }
{
    match first {
        LINE_REFERENCE => push_reference(listing, after),
        PAIR_FIRST..=PAIR_LAST => push_pair(listing, first, after),
        DATA | REM => {
            push_byte(listing, first)?;
            listing.extend_from_slice(after)?;
            Ok(&[])
        }
        _ => {
            push_byte(listing, first)?;
            Ok(after)
        }
    }
}
