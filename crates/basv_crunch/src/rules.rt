//! The rules of tokenising, each by itself, and the first that fits.
ghost use Rattle.std.specs.Prelude.{◌≡◌, ◌^◌, min, length, take_while};
ghost use Rattle.bv_num.specs.Value.{front_digits, front_value};
ghost use Rattle.bv_token.specs.Names.{is_in_name};
ghost use Rattle.basv_crunch.specs.Parts.{unless_none, kept, called, is_reference, referred, token_at, worded, row, single, Before, FirstOf, FirstPart, after_word, after_space, after_comma, after_single, after_kept, after_part};

use crate::part::{Kind, Part, Place};
use bv_base::LINE_NUMBERS;
use bv_num::{DigitRun, digit_run};
use bv_token::{
    DATA, ELSE, FN, GOSUB, GOTO, LINE_ELSE, PROC, REM, RESTORE, THEN, begins_name, is_in_name,
    longest_word,
};

/// The number of bytes of names that begin a text.
fn name_size(text: &[u8]) -> usize
    ensures { result ≡ length (take_while is_in_name text.now) }
{
    let mut count = 0;
    for byte in text {
        if !is_in_name(*byte) {
            return count;
        }
        count += 1;
    }
    count
}

fn unless_none(kind: Kind, size: usize) -> Option<Part>
    ensures { result ≡ unless_none kind size }
{
    if size == 0 {
        return None;
    }
    Some(Part { kind, size })
}

fn kept(text: &[u8]) -> Option<Part>
    ensures { result ≡ kept text.now }
{
    match text {
        [byte, ..] if *byte >= b' ' && *byte != 127 => Some(Part {
            kind: Kind::Kept(*byte),
            size: 1,
        }),
        _ => None,
    }
}

fn called(text: &[u8]) -> Option<Part>
    ensures { result ≡ called text.now }
{
    unless_none(Kind::Called, name_size(text))
}

fn is_reference(text: &[u8], digits: DigitRun) -> bool
    requires value { digits.value ≡ min (front_value 10 text.now) (2 ^ 32) }
    requires count { digits.count ≡ length (front_digits 10 text.now) }
    ensures { result ≡ is_reference text.now }
{
    (text.first() != Some(&b'0') || digits.count == 1) && digits.value < u64::from(LINE_NUMBERS)
}

fn referred(text: &[u8]) -> Option<Part>
    ensures { result ≡ referred text.now }
{
    let digits = digit_run(10, text);
    if !is_reference(text, digits) {
        return None;
    }
    unless_none(Kind::Reference(digits.value as u16), digits.count)
}

fn token_at(place: Place, token: u16) -> u16
    ensures { result ≡ token_at place token }
{
    if place == Place::Start && token == u16::from(ELSE) {
        return u16::from(LINE_ELSE);
    }
    token
}

fn row(text: &[u8]) -> Option<Part>
    ensures { result ≡ row text.now }
{
    match text {
        [b'&', rest @ ..] => Some(Part {
            kind: Kind::Row,
            size: 1 + digit_run(16, rest).count,
        }),
        [first, rest @ ..] if begins_name(*first) || *first == b'@' => Some(Part {
            kind: Kind::Row,
            size: 1 + name_size(rest),
        }),
        _ => None,
    }
}

fn single(text: &[u8]) -> Option<Part>
    ensures { result ≡ single text.now }
{
    match text {
        [byte, ..] if *byte >= b' ' && *byte < 127 => Some(Part {
            kind: Kind::Single(*byte),
            size: 1,
        }),
        _ => None,
    }
}

/// What was found by the rules that look at the place, or what the others find.
fn or_by_text(early: Option<Part>, place: Place, text: &[u8]) -> Option<Part>
    ensures { FirstOf (Before early) place text.now result }
{
    if let Some(part) = early {
        return Some(part);
    }
    if let Some((size, token)) = longest_word(text) {
        return Some(Part {
            kind: Kind::Word(token_at(place, token)),
            size: usize::from(size),
        });
    }
    match row(text) {
        Some(part) => Some(part),
        None => single(text),
    }
}

/// The part at the front of a text that begins at this place, by the first rule that fits.
pub fn first_part(place: Place, text: &[u8]) -> Option<Part>
    ensures { FirstPart place text.now result }
{
    match place {
        Place::Quotes | Place::Tail => kept(text),
        Place::Call => or_by_text(called(text), place, text),
        Place::Awaiting => or_by_text(referred(text), place, text),
        Place::Start | Place::Code | Place::Referred => or_by_text(None, place, text),
    }
}

fn after_word(token: u16) -> Place
    ensures { result ≡ after_word token }
{
    match u8::try_from(token) {
        Ok(FN | PROC) => Place::Call,
        Ok(REM | DATA) => Place::Tail,
        Ok(GOTO | GOSUB | THEN | RESTORE | ELSE) => Place::Awaiting,
        _ => Place::Code,
    }
}

fn after_single(place: Place, byte: u8) -> Place
    ensures { result ≡ after_single place byte }
{
    match (byte, place) {
        (b'"', _) => Place::Quotes,
        (b' ', Place::Start | Place::Awaiting | Place::Referred) => place,
        (b',', Place::Referred) => Place::Awaiting,
        _ => Place::Code,
    }
}

/// The place after a part of this kind.
pub fn after_part(place: Place, kind: Kind) -> Place
    ensures { result ≡ after_part place kind }
{
    match kind {
        Kind::Kept(b'"') if place == Place::Quotes => Place::Code,
        Kind::Kept(_) => place,
        Kind::Word(token) => after_word(token),
        Kind::Reference(_) => Place::Referred,
        Kind::Single(byte) => after_single(place, byte),
        Kind::Called | Kind::Row => Place::Code,
    }
}
