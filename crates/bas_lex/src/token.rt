//! Keywords and references to lines.
ghost use Rattle.std.specs.Prelude.{◌≡◌, ◌≢◌, ◌∷◌, true, is_some};
ghost use Rattle.bv_token.specs.Tokens.{begins_pair, keyword_of};
ghost use Rattle.bas_lex.specs.Kinds.{call_token};
ghost use Rattle.bas_lex.specs.Scan.{Best, Tokens, LineRefs};

use crate::front::{Front, split_byte};
use crate::symbol::SymKind;
use bv_token::{DATA, FN, LINE_REFERENCE, PROC, REM, begins_pair, keyword, line_ref};

/// The token of FN for a function, and of PROC for a procedure.
pub fn call_token(function: bool) -> u16
    ensures { result ≡ call_token function }
{
    if function {
        u16::from(FN)
    } else {
        u16::from(PROC)
    }
}

/// Whether `first` has a keyword, with `second` where it begins a pair.
fn has_keyword(first: u8, second: u8) -> bool
    ensures { result ≡ is_some (keyword_of first second) }
{
    keyword(first, second).is_some()
}

fn read_pair(first: u8, after: &[u8]) -> Option<Front>
    requires { begins_pair first ≡ true }
    ensures { Best Tokens (first ∷ after.now) result }
{
    let Some((second, _)) = split_byte(after) else {
        return None;
    };
    if !has_keyword(first, second) {
        return None;
    }
    Some(Front {
        kind: SymKind::Token(u16::from_be_bytes([first, second])),
        size: 2,
    })
}

/// The keyword of one or two bytes that begins with `first`.
pub fn read_token(first: u8, after: &[u8]) -> Option<Front>
    requires not_rem { first ≢ REM }
    requires not_data { first ≢ DATA }
    ensures { Best Tokens (first ∷ after.now) result }
{
    if begins_pair(first) {
        return read_pair(first, after);
    }
    if !has_keyword(first, 0) {
        return None;
    }
    Some(Front {
        kind: SymKind::Token(u16::from(first)),
        size: 1,
    })
}

/// The reference to a line, where `after` is what follows the byte that begins one.
pub fn read_line_ref(after: &[u8]) -> Option<Front>
    ensures { Best LineRefs (LINE_REFERENCE ∷ after.now) result }
{
    match after {
        [first, second, third, ..] => Some(Front {
            kind: SymKind::LineRef(line_ref([*first, *second, *third])),
            size: 4,
        }),
        _ => None,
    }
}
