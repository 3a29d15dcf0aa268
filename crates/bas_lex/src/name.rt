//! Names, calls and labels.
ghost use Rattle.std.specs.Prelude.{◌≡◌, ℕ, List, ◌∷◌, MatchOption, true};
ghost use Rattle.bv_token.specs.Names.{begins_name, is_in_name};
ghost use Rattle.bas_lex.specs.Bytes.{at_sign, percent_sign, point, NotFirst};
ghost use Rattle.bas_lex.specs.Kinds.{call_token};
ghost use Rattle.bas_lex.specs.Scan.{Best, Names, SystemNames, Calls, Labels, IsRun, SplitsSuffix, SplitsBracket, SplitsPercent, EndsName, NoLabelName, EndsLabel};

use crate::front::Front;
use crate::symbol::{NO_SUFFIX, SymKind};
use crate::token::call_token;
use bv_token::{begins_name, is_in_name};

fn strip_letter(text: &[u8]) -> Option<(u8, &[u8])>
    ensures { MatchOption result (NotFirst is_in_name text.now)
        (λ front. (is_in_name front.0 ≡ true) × (text.now ≡ front.0 ∷ front.1.now)) }
{
    match text {
        [letter, after @ ..] if is_in_name(*letter) => Some((*letter, after)),
        _ => None,
    }
}

/// What follows the letters, digits, `_` and pound signs at the front.
fn skip_letters(text: &[u8]) -> &[u8]
    ensures { IsRun is_in_name text.now result.now }
{
    let mut rest = text;
    'letters: while let Some((_, after)) = strip_letter(rest) {
        rest = after;
    }
    rest
}

/// A suffix at the front, or `NO_SUFFIX`, and what follows it.
fn split_suffix(text: &[u8]) -> (u8, &[u8])
    ensures { SplitsSuffix text.now result.0 result.1.now }
{
    match text {
        [suffix @ (b'%' | b'$'), rest @ ..] => (*suffix, rest),
        _ => (NO_SUFFIX, text),
    }
}

/// Whether a bracket is at the front, and what follows it.
fn split_bracket(text: &[u8]) -> (bool, &[u8])
    ensures { SplitsBracket text.now result.0 result.1.now }
{
    match text {
        [b'(', rest @ ..] => (true, rest),
        _ => (false, text),
    }
}

/// What goes on with a name after its first byte: a suffix or `NO_SUFFIX`, whether there is a bracket, and the number
/// of bytes.
#[derive(Clone, Copy, Drop)]
struct NameEnd {
    suffix: u8,
    bracket: bool,
    size: usize,
}

fn read_name_end(text: &[u8]) -> NameEnd
    ensures { EndsName text.now result }
{
    let (suffix, after_suffix) = split_suffix(skip_letters(text));
    let (bracket, rest) = split_bracket(after_suffix);
    NameEnd {
        suffix,
        bracket,
        size: text.len() - rest.len(),
    }
}

/// The name that begins with `first`, which `after` follows.
pub fn read_name(first: u8, after: &[u8]) -> Front
    requires { begins_name first ≡ true }
    ensures { Best Names (first ∷ after.now) (Some result) }
{
    let end = read_name_end(after);
    Front {
        kind: SymKind::Name {
            suffix: end.suffix,
            bracket: end.bracket,
        },
        size: 1 + end.size,
    }
}

/// The name `@%`, where `after` is what follows an `@`.
pub fn read_system_name(after: &[u8]) -> Option<Front>
    ensures { Best SystemNames (at_sign ∷ after.now) result }
{
    match after {
        [b'%', ..] => Some(Front {
            kind: SymKind::Name {
                suffix: b'%',
                bracket: false,
            },
            size: 2,
        }),
        _ => None,
    }
}

/// The call or the token alone of FN or PROC, where `after` is what follows the token.
pub fn read_call(function: bool, after: &[u8]) -> Front
    ensures { Best (Calls function) (call_token function ∷ after.now) (Some result) }
{
    match strip_letter(after) {
        Some((_, more)) => {
            let end = read_name_end(more);
            Front {
                kind: SymKind::Call {
                    function,
                    bracket: end.bracket,
                },
                size: 2 + end.size,
            }
        }
        None => Front {
            kind: SymKind::Token(call_token(function)),
            size: 1,
        },
    }
}

fn strip_start(text: &[u8]) -> Option<&[u8]>
    ensures { MatchOption result (NotFirst begins_name text.now)
        (λ after. (first : ℕ) × (begins_name first ≡ true) × (text.now ≡ first ∷ after.now)) }
{
    match text {
        [first, after @ ..] if begins_name(*first) => Some(after),
        _ => None,
    }
}

fn strip_system_name(text: &[u8]) -> Option<&[u8]>
    ensures { MatchOption result ((rest : List ℕ) → text.now ≡ at_sign ∷ percent_sign ∷ rest → ⊥)
        (λ rest. text.now ≡ at_sign ∷ percent_sign ∷ rest.now) }
{
    match text {
        [b'@', b'%', rest @ ..] => Some(rest),
        _ => None,
    }
}

fn skip_percent(text: &[u8]) -> &[u8]
    ensures { SplitsPercent text.now result.now }
{
    match text {
        [b'%', rest @ ..] => rest,
        _ => text,
    }
}

/// What follows the name of a label, where there is one.
fn skip_label_name(text: &[u8]) -> Option<&[u8]>
    ensures { MatchOption result (NoLabelName text.now) (λ rest. EndsLabel text.now rest.now) }
{
    match strip_start(text) {
        Some(after) => Some(skip_percent(skip_letters(after))),
        None => strip_system_name(text),
    }
}

/// The label, where `after` is what follows a point.
pub fn read_label(after: &[u8], asm: bool) -> Option<Front>
    ensures { Best (Labels asm) (point ∷ after.now) result }
{
    if !asm {
        return None;
    }
    match skip_label_name(after) {
        Some(rest) => Some(Front {
            kind: SymKind::Label,
            size: 1 + (after.len() - rest.len()),
        }),
        None => None,
    }
}
