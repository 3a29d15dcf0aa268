//! The entries on the items of DATA at their limits.
use crate::boards::{ItemCall, KEPT, Word, reads};
use bv_base::NoMemory;
use std::alloc::Global;
use std::test::Fail;

/// The numbers of the entries.
const NEXT_ITEM: u16 = 14;

const ITEM_NUMBER: u16 = 15;

/// The word with the address of the next item, and those before and after it.
const NEXT_AT: u32 = 0x90_0078;

const DEPTH_AT: u32 = 0x90_0074;

const AFTER_AT: u32 = 0x90_007c;

/// Where items are stored, and the last place for one.
const ITEMS: u32 = 0xcf_0000;

const LAST_ITEM: u32 = 0xff_ff00;

/// The limits of numbers.
const LEAST: i32 = -2_147_483_648;

const MOST: i32 = 2_147_483_647;

/// A word of memory.
fn word(at: u32, value: u32) -> Word {
    Word { at, value }
}

/// Bytes as words of memory from an address on.
fn words_of(alloc: Global, at: u32, bytes: &[u8]) -> Result<Vec<Word>, NoMemory> {
    let mut words = Vec::new(alloc);
    let mut place = at;
    let mut value = 0_u32;
    let mut shift = 0_u32;
    for byte in bytes {
        value |= u32::from(*byte).wrapping_shl(shift);
        shift = shift.wrapping_add(8);
        if shift == 32 {
            words.push(word(place, value))?;
            place = place.wrapping_add(4);
            value = 0;
            shift = 0;
        }
    }
    if shift != 0 {
        words.push(word(place, value))?;
    }
    Ok(words)
}

/// A text, its number, and its error or 0.
struct Number(&'static [u8], i32, u8);

#[rattlefmt::skip]
static NUMBERS: [Number; 74] = [
    // no digits
    Number(b"", 0, 0), Number(b" ", 0, 0), Number(b"   ", 0, 0), Number(b"-", 0, 0), Number(b"+", 0, 0), Number(b"  -", 0, 0),
    Number(b"abc", 0, 0), Number(b".5", 0, 0), Number(b"\0005", 0, 0), Number(b" \0", 0, 0), Number(b"/", 0, 0), Number(b":", 0, 0),
    // one sign, after spaces
    Number(b"+5", 5, 0), Number(b"-5", -5, 0), Number(b"   -5", -5, 0), Number(b"  7  ", 7, 0), Number(b" +0012", 12, 0),
    Number(b"--5", 0, 0), Number(b"++5", 0, 0), Number(b"+-5", 0, 0), Number(b"-+5", 0, 0), Number(b"- 5", 0, 0), Number(b"-0", 0, 0),
    // what follows
    Number(b"12abc", 12, 0), Number(b"1 2", 1, 0), Number(b"1.5", 1, 0), Number(b"1e3", 1, 0), Number(b"1-", 1, 0), Number(b"1/2", 1, 0),
    Number(b"1:2", 1, 0), Number(b"1\xb1", 1, 0), Number(b"1\0002", 1, 0), Number(b"1&2", 1, 0), Number(b"-3\xff", -3, 0),
    // the limits
    Number(b"2147483647", MOST, 0), Number(b"2147483648", 0, 20), Number(b"-2147483648", LEAST, 0), Number(b"-2147483649", 0, 20),
    Number(b"2147483649", 0, 20), Number(b"2147483650", 0, 20), Number(b"-2147483650", 0, 20), Number(b"214748364", 214_748_364, 0),
    Number(b"214748365", 214_748_365, 0), Number(b"-214748365", -214_748_365, 0), Number(b"2147483640x", 2_147_483_640, 0),
    Number(b"4294967296", 0, 20), Number(b"4294967297", 0, 20), Number(b"42949672970", 0, 20), Number(b"-42949672960", 0, 20),
    Number(b"99999999999999999999", 0, 20), Number(b"0000000000000000000000002147483647", MOST, 0),
    Number(b"00000000000000000000000021474836470", 0, 20), Number(b" -00000000000000000000002147483648", LEAST, 0),
    // hexadecimal digits, after an ampersand that is the first byte
    Number(b"&", 0, 0), Number(b"&FFFFFFFF", -1, 0), Number(b"&ffffffff", -1, 0), Number(b"&80000000", LEAST, 0),
    Number(b"&7FffFFfF", MOST, 0), Number(b"&100000000", 0, 20), Number(b"&10000000", 268_435_456, 0), Number(b"&fffffffff", 0, 20),
    Number(b"&1000000000000", 0, 20), Number(b"&00000000000000000000000000000aBc", 2748, 0), Number(b"&7g", 7, 0), Number(b"&7G", 7, 0),
    Number(b"&1@", 1, 0), Number(b"&1`2", 1, 0), Number(b"&1/", 1, 0), Number(b"&1:", 1, 0), Number(b"&1\xe1", 1, 0), Number(b"& 5", 0, 0),
    Number(b"&-5", 0, 0), Number(b" &5", 0, 0), Number(b"&&5", 0, 0),
];

/// A text of many bytes that are the same, between others: the first bytes, the one, how often it stands, the last bytes, its number,
/// and its error or 0.
struct Long(&'static [u8], u8, usize, &'static [u8], i32, u8);

#[rattlefmt::skip]
static LONG: [Long; 11] = [
    Long(b"", b'0', 250, b"7", 7, 0), Long(b"-", b'0', 240, b"2147483648", LEAST, 0), Long(b"", b'0', 241, b"2147483648", 0, 20),
    Long(b"", b'9', 251, b"", 0, 20), Long(b"-", b'1', 250, b"", 0, 20), Long(b"", b' ', 250, b"3", 3, 0), Long(b"", b' ', 251, b"", 0, 0),
    Long(b"&", b'0', 242, b"FFFFFFFF", -1, 0), Long(b"&", b'F', 250, b"", 0, 20), Long(b"", b'0', 254, b"9", 9, 0),
    Long(b"", b'4', 255, b"", 0, 20),
];

/// Whether a text, after bytes that are no item's, has a number or an error, and stays as it was.
fn has_number(
    alloc: Global,
    at: u32,
    before: usize,
    text: &[u8],
    number: i32,
    error: u8,
) -> Result<bool, NoMemory> {
    if before > 3 || text.len() > 255 {
        return Ok(false);
    }
    let mut bytes = Vec::new(alloc);
    for _ in 0..before {
        bytes.push(b'1')?;
    }
    bytes.push(text.len() as u8)?;
    bytes.extend_from_slice(text)?;
    // a digit that isn't the text's
    if at < LAST_ITEM {
        bytes.push(b'1')?;
    }
    let stored = words_of(alloc, at, &bytes)?;
    let call = ItemCall {
        entry: ITEM_NUMBER,
        item: at.wrapping_add(before as u32),
        error,
        result: number.cast_unsigned(),
    };
    reads(alloc, call, &stored, &stored)
}

#[test]
fn numbers_of_items(rt: HostRuntime) -> Result<(), Fail> {
    let alloc = rt.alloc();
    for Number(text, number, error) in &NUMBERS {
        let before = text.len() & 3;
        assert!(rt;
            has_number(alloc, ITEMS, before, text, *number, *error)?,
            "{} {}",
            number,
            text.len()
        );
    }
    Ok(())
}

#[test]
fn numbers_of_long_items(rt: HostRuntime) -> Result<(), Fail> {
    let alloc = rt.alloc();
    for Long(first, byte, count, last, number, error) in &LONG {
        let mut text = Vec::new(alloc);
        text.extend_from_slice(first)?;
        for _ in 0..*count {
            text.push(*byte)?;
        }
        text.extend_from_slice(last)?;
        for at in [ITEMS, LAST_ITEM] {
            assert!(rt;
                has_number(alloc, at, 0, &text, *number, *error)?,
                "{} {}",
                number,
                count
            );
        }
    }
    Ok(())
}

/// The address of the next item, the bytes there, the error or 0, and the address after.
struct Next(u32, u8, u8, u32);

#[rattlefmt::skip]
static NEXTS: [Next; 13] = [
    Next(ITEMS, 0, 0, ITEMS + 1), Next(ITEMS, 1, 0, ITEMS + 2), Next(ITEMS, 4, 0, ITEMS + 5), Next(ITEMS + 1, 7, 0, ITEMS + 9),
    Next(ITEMS + 2, 251, 0, ITEMS + 254), Next(ITEMS + 3, 254, 0, ITEMS + 258), Next(ITEMS, 255, 42, ITEMS),
    Next(ITEMS + 1, 255, 42, ITEMS + 1), Next(ITEMS + 3, 255, 42, ITEMS + 3), Next(ITEMS + 1, 42, 0, ITEMS + 44),
    Next(LAST_ITEM, 254, 0, LAST_ITEM + 255), Next(LAST_ITEM, 255, 42, LAST_ITEM), Next(LAST_ITEM, 0, 0, LAST_ITEM + 1),
];

/// Whether the next item is taken so, and the words beside its address stay.
fn takes(alloc: Global, next: &Next) -> Result<bool, NoMemory> {
    let Next(at, length, error, after) = next;
    let below = *at & !3;
    let item = u32::from(*length).wrapping_shl((*at & 3).wrapping_mul(8));
    let stored = [
        word(DEPTH_AT, 5),
        word(NEXT_AT, *at),
        word(AFTER_AT, KEPT),
        word(below, item),
    ];
    let shown = [
        word(DEPTH_AT, 5),
        word(NEXT_AT, *after),
        word(AFTER_AT, KEPT),
        word(below, item),
    ];
    let call = ItemCall {
        entry: NEXT_ITEM,
        item: KEPT,
        error: *error,
        result: *at,
    };
    reads(alloc, call, &stored, &shown)
}

#[test]
fn next_items(rt: HostRuntime) -> Result<(), Fail> {
    let alloc = rt.alloc();
    for next in &NEXTS {
        assert!(rt; takes(alloc, next)?, "{} {}", next.0, next.1);
    }
    Ok(())
}
