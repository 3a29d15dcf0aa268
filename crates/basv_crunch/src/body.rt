//! A line's body, part by part.
ghost use Rattle.std.specs.Prelude.{◌≡◌, ℕ, List, ◌++◌, IfOk, OnOk, MatchOption};
ghost use Rattle.basv_crunch.specs.Crunched.{CrunchesTo};
ghost use Rattle.basv_crunch.specs.Parts.{part_bytes, token_bytes};

use crate::part::{Kind, Place};
use crate::rules::{after_part, first_part};
use bv_token::{LINE_REFERENCE, write_ref};
use std::alloc::{AllocError, Global};

fn push_token(tokens: &mut Vec<u8>, token: u16) -> Result<(), AllocError>
    ensures { OnOk result (tokens.new.items ≡ tokens.old.items ++ token_bytes token) }
{
    let [first, second] = token.to_be_bytes();
    if token < 0x100 {
        tokens.extend_from_slice(&[second])
    } else {
        tokens.extend_from_slice(&[first, second])
    }
}

fn push_part(tokens: &mut Vec<u8>, kind: Kind, source: &[u8]) -> Result<(), AllocError>
    ensures { OnOk result (tokens.new.items ≡ tokens.old.items ++ part_bytes kind source.now) }
{
    match kind {
        Kind::Word(token) => push_token(tokens, token),
        Kind::Reference(number) => {
            let [first, second, third] = write_ref(number);
            tokens.extend_from_slice(&[LINE_REFERENCE, first, second, third])
        }
        _ => tokens.extend_from_slice(source),
    }
}

/// The text of a line with this body, or none where some part of it has no rule.
pub fn crunch_body(alloc: Global, body: &[u8]) -> Result<Option<Vec<u8>>, AllocError>
    ensures { IfOk result (λ text. MatchOption text ((other : List ℕ) → CrunchesTo body.now other → ⊥) (λ text. CrunchesTo body.now text.items)) }
{
    let mut tokens = Vec::new(alloc);
    let mut place = Place::Start;
    let mut rest = body;
    'parts: while !rest.is_empty() {
        let Some(part) = first_part(place, rest) else {
            return Ok(None);
        };
        let (source, after) = rest.split_at(part.size);
        push_part(&mut tokens, part.kind, source)?;
        place = after_part(place, part.kind);
        rest = after;
    }
    Ok(Some(tokens))
}
