//! The signs.
ghost use Rattle.std.specs.Prelude.{◌≡◌, ◌<◌, [], length, map, slice_index_or};
ghost use Rattle.bas_lex.specs.Scan.{Best, Signs, longer_of, longer_sign};

use crate::front::Front;
use crate::symbol::SymKind;

/// The signs. A sign's number is its place here.
#[rattlefmt::skip]
static SIGNS: [&str; 30] = [
    "+", "-", "*", "=", "<", ">", "<>", "<=", ">=", "<<", ">>", ">>>", "+=", "-=", "(", ")", ",", ";", ":", "'", "~", "?", "!",
    "$", "#", "[", "]", "{", "}", "^",
];

fn sign_at(signs: &[&'static str], number: usize) -> &'static [u8]
    requires { number < length signs.now }
    ensures { result.now ≡ slice_index_or (map (λ sign. sign.now) signs.now) number [] }
{
    signs[number].as_bytes()
}

fn longer_of(found: Option<Front>, front: Front) -> Option<Front>
    ensures { result ≡ longer_of found front }
{
    match found {
        Some(old) if front.size <= old.size => Some(old),
        _ => Some(front),
    }
}

/// What was found before, or the sign of this number where it is longer and is at the front.
fn longer_sign(found: Option<Front>, number: u8, sign: &[u8], text: &[u8]) -> Option<Front>
    ensures { result ≡ longer_sign found number sign.now text.now }
{
    if !text.starts_with(sign) {
        return found;
    }
    let front = Front {
        kind: SymKind::Mark(number),
        size: sign.len(),
    };
    longer_of(found, front)
}

/// The longest sign at the front of a text.
pub fn read_sign(text: &[u8]) -> Option<Front>
    ensures { Best Signs text.now result }
{
    let mut found = None;
    'signs: for number in 0..SIGNS.len() {
        found = longer_sign(found, number as u8, sign_at(&SIGNS, number), text);
    }
    found
}
