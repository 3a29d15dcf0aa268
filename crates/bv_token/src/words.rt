//! The longest keyword at the front of a text.
ghost use Rattle.std.specs.Prelude.{◌≡◌, ℕ, ◌<◌, ◌≤◌, ◌||◌, not, length, drop, MatchOption};
ghost use Rattle.bv_token.specs.Tokens.{unless_empty};
ghost use Rattle.bv_token.specs.Words.{word_of, needs_end, ends_name, BeginsWord, LongestWord};
ghost use Rattle.bv_token.specs.Search.{candidate, longer};

use crate::names::is_in_name;
use crate::tokens::{OTHERWISE, pair_keyword, single_keyword};

/// The pairs, by 256 times their first byte and their second.
static PAIRS: [u16; 6] = [0xc68e, 0xc88e, 0xc894, 0xc895, 0xc898, 0xc899];

/// The number of single tokens from `OTHERWISE` on.
const SINGLES: usize = 129;

/// The number of tokens and pairs that may have a word.
const CANDIDATES: usize = 135;

/// The words that count only where no letter, digit, `_` or pound sign follows.
static CLOSED_WORDS: [&str; 16] = [
    "CLS", "COUNT", "END", "ENDCASE", "ENDIF", "ENDPROC", "ENDWHILE", "ERL", "ERR", "FALSE",
    "MOVE", "QUIT", "REPORT", "RETURN", "STOP", "TRUE",
];

/// The tokens and pairs in rising order.
fn candidate(place: usize) -> u16
    requires { place < CANDIDATES }
    ensures { result ≡ candidate place }
{
    if place < SINGLES {
        u16::from(OTHERWISE) + place as u16
    } else {
        PAIRS[place - SINGLES]
    }
}

/// The keyword of a token or a pair, which is empty where there is none.
fn word_text(token: u16) -> &'static str
    ensures { unless_empty result.now ≡ word_of token }
{
    let [first, second] = token.to_be_bytes();
    if token < 0x100 {
        single_keyword(second)
    } else {
        pair_keyword(first, second)
    }
}

fn needs_end(word: &'static str) -> bool
    ensures { result ≡ needs_end word.now }
{
    CLOSED_WORDS.contains(&word)
}

fn ends_name(text: &[u8]) -> bool
    ensures { result ≡ ends_name text.now }
{
    match text {
        [next, ..] => !is_in_name(*next),
        [] => true,
    }
}

/// Whether a word counts that begins this text.
fn counts(word: &'static str, text: &[u8]) -> bool
    requires { length word.now ≤ length text.now }
    ensures { result ≡ not (needs_end word.now) || ends_name (drop (length word.now) text.now) }
{
    !needs_end(word) || ends_name(&text[word.len()..])
}

/// The size of the token's word, where it begins the text and counts.
fn counted_size(token: u16, text: &[u8]) -> Option<u8>
    ensures { MatchOption result ((size : ℕ) → BeginsWord text.now token size → ⊥) (λ size. BeginsWord text.now token size) }
{
    let word = word_text(token);
    if word.is_empty() {
        return None;
    }
    if !text.starts_with(word.as_bytes()) {
        return None;
    }
    if !counts(word, text) {
        return None;
    }
    Some(word.len() as u8)
}

/// The longer of a word that was found, by its size and its token, and another one.
fn longer(found: Option<(u8, u16)>, size: Option<u8>, token: u16) -> Option<(u8, u16)>
    ensures { result ≡ longer found size token }
{
    match (found, size) {
        (_, None) => found,
        (None, Some(size)) => Some((size, token)),
        (Some((old, _)), Some(size)) => if size > old {
            Some((size, token))
        } else {
            found
        },
    }
}

/// The size and the token of the longest keyword that begins the text and counts. A pair is 256 times its first byte
/// plus its second, and of two tokens with the same word the smaller one is given, so ELSE gives `ELSE`. CLS, COUNT,
/// END, ENDCASE, ENDIF, ENDPROC, ENDWHILE, ERL, ERR, FALSE, MOVE, QUIT, REPORT, RETURN, STOP and TRUE count only where
/// no letter, digit, `_` or pound sign follows. There is none where no such word begins the text.
pub fn longest_word(text: &[u8]) -> Option<(u8, u16)>
    ensures { LongestWord text.now result }
{
    let mut found = None;
    'candidates: for place in 0..CANDIDATES {
        let token = candidate(place);
        found = longer(found, counted_size(token, text), token);
    }
    found
}
