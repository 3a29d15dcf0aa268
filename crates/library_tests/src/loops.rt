//! The entries on open loops and GOSUBs at their limits.
use crate::boards::{EntryCall, Word, leaves};
use bv_base::NoMemory;
use std::alloc::Global;
use std::test::Fail;

/// The numbers of the entries.
const OPENING: u16 = 10;

const CLOSING_WORD: u16 = 11;

const TURNING: u16 = 19;

/// The words of the count and of the depth.
const COUNT_AT: u32 = 0x90_0070;

const DEPTH_AT: u32 = 0x90_0074;

/// The first entry, the second, the third and the last.
const FIRST: u32 = 0xbc_b000;

const SECOND: u32 = 0xbc_b020;

const THIRD: u32 = 0xbc_b040;

const LAST: u32 = 0xbe_afe0;

/// The resident A%, and the first and the last cell of a name.
const RESIDENT: u32 = 0x90_0004;

const CELL: u32 = 0x90_0100;

const LAST_CELL: u32 = 0x90_80f8;

/// What an entry is that isn't FOR.
const REPEAT: u32 = 1;

const WHILE: u32 = 2;

const GOSUB: u32 = 3;

/// The limits of numbers.
const LEAST: i32 = -2_147_483_648;

const MOST: i32 = 2_147_483_647;

/// An open entry: its address, the depth of its call, what it is, its limit, its step, and its code.
#[derive(Clone, Copy)]
struct Open(u32, u32, u32, i32, i32, u32);

/// A word of memory.
fn word(at: u32, value: u32) -> Word {
    Word { at, value }
}

/// The words of the state: the count, the depth of the call, and the entries.
fn words(alloc: Global, count: u32, depth: u32, entries: &[Open]) -> Result<Vec<Word>, NoMemory> {
    let mut words = Vec::new(alloc);
    words.push(word(COUNT_AT, count))?;
    words.push(word(DEPTH_AT, depth))?;
    for Open(at, call, kind, limit, step, code) in entries {
        words.push(word(*at, *call))?;
        words.push(word(at.wrapping_add(4), *kind))?;
        words.push(word(at.wrapping_add(8), limit.cast_unsigned()))?;
        words.push(word(at.wrapping_add(12), step.cast_unsigned()))?;
        words.push(word(at.wrapping_add(16), *code))?;
    }
    Ok(words)
}

/// What NEXT does with a variable: its number, the step, the limit, the error or 0, its number after, and whether the loop goes on.
struct Turn(i32, i32, i32, u8, i32, bool);

#[rattlefmt::skip]
static TURNS: [Turn; 24] = [
    Turn(1, 1, 3, 0, 2, true), Turn(2, 1, 3, 0, 3, true), Turn(3, 1, 3, 0, 4, false), Turn(5, -1, 4, 0, 4, true),
    Turn(4, -1, 4, 0, 3, false), Turn(5, 0, 5, 0, 5, true), Turn(6, 0, 5, 0, 6, false), Turn(-6, 0, -5, 0, -6, true),
    Turn(MOST - 1, 1, MOST, 0, MOST, true), Turn(MOST, 1, MOST, 20, MOST, false),
    Turn(LEAST + 1, -1, LEAST, 0, LEAST, true), Turn(LEAST, -1, LEAST, 20, LEAST, false),
    Turn(0, MOST, MOST, 0, MOST, true), Turn(1, MOST, MOST, 20, 1, false), Turn(0, LEAST, LEAST, 0, LEAST, true),
    Turn(-1, LEAST, LEAST, 20, -1, false), Turn(LEAST, MOST, -1, 0, -1, true), Turn(LEAST, MOST, -2, 0, -1, false),
    Turn(MOST, LEAST, -1, 0, -1, true), Turn(MOST, LEAST, 0, 0, -1, false), Turn(LEAST, 1, LEAST, 0, LEAST + 1, false),
    Turn(0, -1, MOST, 0, -1, false), Turn(MOST, -1, LEAST, 0, MOST - 1, true), Turn(-3, 2, 0, 0, -1, true),
];

/// A variable: its address, its second word before and after, the number of entries, the address of the latest, and R1.
struct Variable(u32, u32, u32, u32, u32, u32);

#[rattlefmt::skip]
static VARIABLES: [Variable; 3] = [
    Variable(RESIDENT, 7, 7, 1, FIRST, RESIDENT), Variable(CELL, 0, 1, 4096, LAST, CELL),
    Variable(LAST_CELL, 0, 1, 2, SECOND, 0),
];

/// Whether NEXT turns the latest entry so.
fn turns(alloc: Global, variable: &Variable, turn: &Turn) -> Result<bool, NoMemory> {
    let Variable(at, mark, made, count, entry, named) = variable;
    let Turn(number, step, limit, error, after, goes) = turn;
    let opens = [Open(*entry, 5, *at, *limit, *step, 0x10_1234)];
    let mut stored = words(alloc, *count, 5, &opens)?;
    stored.push(word(*at, number.cast_unsigned()))?;
    stored.push(word(at.wrapping_add(4), *mark))?;
    let call = EntryCall {
        entry: TURNING,
        registers: [*named, 0, 0, 0],
        shows_code: *error == 0,
    };
    let left = if *goes || *error != 0 {
        *count
    } else {
        count.wrapping_sub(1)
    };
    let code = if *goes { 0x10_1234 } else { 0 };
    let second = if *error == 0 { *made } else { *mark };
    let shown = [
        word(COUNT_AT, left),
        word(DEPTH_AT, 5),
        word(*at, after.cast_unsigned()),
        word(at.wrapping_add(4), second),
        word(entry.wrapping_add(4), *at),
    ];
    leaves(alloc, call, &stored, *error, code, &shown)
}

#[test]
fn turns_of_loops(rt: HostRuntime) -> Result<(), Fail> {
    let alloc = rt.alloc();
    for variable in &VARIABLES {
        for turn in &TURNS {
            assert!(rt;
                turns(alloc, variable, turn)?,
                "{} {} {}",
                variable.0,
                turn.0,
                turn.1
            );
        }
    }
    Ok(())
}

/// What a closing word finds among entries of three: FOR of the resident at the depth 0, then REPEAT or another, and then FOR of a
/// cell. The kinds and depths of the second and third entry, the number of entries, the depth of the call, the routine, R1, its error,
/// the code, and the number of entries after.
struct Close(u32, u32, u32, u32, u32, u32, u16, u32, u8, u32, u32);

#[rattlefmt::skip]
static CLOSES: [Close; 33] = [
    // NEXT over other loops, by a name and for any FOR
    Close(REPEAT, 0, WHILE, 0, 3, 0, TURNING, RESIDENT, 0, 1000, 1), Close(REPEAT, 0, WHILE, 0, 3, 0, TURNING, 0, 0, 1000, 1),
    Close(REPEAT, 0, CELL, 0, 3, 0, TURNING, RESIDENT, 0, 1000, 1), Close(REPEAT, 0, CELL, 0, 3, 0, TURNING, 0, 0, 3000, 3),
    Close(REPEAT, 0, CELL, 0, 3, 0, TURNING, CELL, 0, 3000, 3), Close(REPEAT, 0, CELL, 0, 2, 0, TURNING, 0, 0, 1000, 1),
    // none of that name, and none at all
    Close(REPEAT, 0, CELL, 0, 3, 0, TURNING, LAST_CELL, 33, 0, 3), Close(REPEAT, 0, CELL, 0, 1, 0, TURNING, CELL, 33, 0, 1),
    Close(REPEAT, 0, CELL, 0, 0, 0, TURNING, RESIDENT, 32, 0, 0), Close(REPEAT, 0, CELL, 0, 0, 0, TURNING, 0, 32, 0, 0),
    // those of other calls
    Close(REPEAT, 0, WHILE, 0, 3, 1, TURNING, RESIDENT, 32, 0, 3), Close(REPEAT, 0, WHILE, 0, 3, 1, TURNING, 0, 32, 0, 3),
    Close(REPEAT, 1, WHILE, 1, 3, 1, TURNING, RESIDENT, 32, 0, 3), Close(REPEAT, 1, CELL, 1, 3, 1, TURNING, RESIDENT, 33, 0, 3),
    Close(REPEAT, 1, CELL, 1, 3, 1, TURNING, 0, 0, 3000, 3), Close(REPEAT, 0, WHILE, 1, 3, 0, TURNING, 0, 32, 0, 3),
    // UNTIL, ENDWHILE and RETURN
    Close(REPEAT, 0, CELL, 0, 3, 0, CLOSING_WORD, REPEAT, 0, 2000, 1), Close(REPEAT, 0, CELL, 0, 2, 0, CLOSING_WORD, REPEAT, 0, 2000, 1),
    Close(WHILE, 0, CELL, 0, 3, 0, CLOSING_WORD, WHILE, 0, 2000, 1), Close(GOSUB, 0, CELL, 0, 3, 0, CLOSING_WORD, GOSUB, 0, 2000, 1),
    Close(REPEAT, 0, REPEAT, 0, 3, 0, CLOSING_WORD, REPEAT, 0, 3000, 2), Close(GOSUB, 0, WHILE, 0, 3, 0, CLOSING_WORD, WHILE, 0, 3000, 2),
    Close(REPEAT, 0, CELL, 0, 3, 0, CLOSING_WORD, WHILE, 46, 0, 3), Close(WHILE, 0, CELL, 0, 3, 0, CLOSING_WORD, REPEAT, 43, 0, 3),
    Close(WHILE, 0, REPEAT, 0, 3, 0, CLOSING_WORD, GOSUB, 38, 0, 3), Close(REPEAT, 0, CELL, 0, 0, 0, CLOSING_WORD, REPEAT, 43, 0, 0),
    Close(REPEAT, 0, CELL, 0, 0, 0, CLOSING_WORD, WHILE, 46, 0, 0), Close(REPEAT, 0, CELL, 0, 0, 0, CLOSING_WORD, GOSUB, 38, 0, 0),
    Close(REPEAT, 0, CELL, 1, 3, 0, CLOSING_WORD, REPEAT, 43, 0, 3), Close(REPEAT, 0, CELL, 1, 3, 1, CLOSING_WORD, REPEAT, 43, 0, 3),
    Close(GOSUB, 1, CELL, 1, 3, 1, CLOSING_WORD, GOSUB, 0, 2000, 1), Close(GOSUB, 0, CELL, 0, 3, 512, CLOSING_WORD, GOSUB, 38, 0, 3),
    Close(WHILE, 512, CELL, 512, 3, 512, CLOSING_WORD, WHILE, 0, 2000, 1),
];

/// Whether a closing word finds that.
fn closes(alloc: Global, close: &Close) -> Result<bool, NoMemory> {
    let Close(
        second,
        second_call,
        third,
        third_call,
        count,
        depth,
        entry,
        named,
        error,
        code,
        left,
    ) = close;
    let opens = [
        Open(FIRST, 0, RESIDENT, 9, 1, 1000),
        Open(SECOND, *second_call, *second, 9, 1, 2000),
        Open(THIRD, *third_call, *third, 9, 1, 3000),
    ];
    let stored = words(alloc, *count, *depth, &opens)?;
    let call = EntryCall {
        entry: *entry,
        registers: [*named, 0, 0, 0],
        shows_code: *error == 0,
    };
    let shown = [
        word(COUNT_AT, *left),
        word(SECOND + 4, *second),
        word(THIRD + 16, 3000),
    ];
    leaves(alloc, call, &stored, *error, *code, &shown)
}

#[test]
fn closing_words(rt: HostRuntime) -> Result<(), Fail> {
    let alloc = rt.alloc();
    for close in &CLOSES {
        assert!(rt;
            closes(alloc, close)?,
            "{} {} {} {}",
            close.0,
            close.2,
            close.6,
            close.7
        );
    }
    Ok(())
}

/// The number of entries before one is opened, its error or 0, its address, and the number of entries after.
struct Opened(u32, u8, u32, u32);

#[rattlefmt::skip]
static OPENED: [Opened; 4] = [
    Opened(0, 0, FIRST, 1), Opened(1, 0, SECOND, 2), Opened(4095, 0, LAST, 4096), Opened(4096, 37, LAST, 4096),
];

/// Whether an entry is opened so, in the call at the depth 9.
fn opens(alloc: Global, opened: &Opened) -> Result<bool, NoMemory> {
    let Opened(count, error, at, after) = opened;
    let stored = words(alloc, *count, 9, &[Open(LAST, 1, 2, 3, 4, 5)])?;
    let call = EntryCall {
        entry: OPENING,
        registers: [
            RESIDENT,
            0x10_1234,
            MOST.cast_unsigned(),
            LEAST.cast_unsigned(),
        ],
        shows_code: false,
    };
    let expected = if *error == 0 {
        words(
            alloc,
            *after,
            9,
            &[Open(*at, 9, RESIDENT, MOST, LEAST, 0x10_1234)],
        )?
    } else {
        words(alloc, *after, 9, &[Open(LAST, 1, 2, 3, 4, 5)])?
    };
    leaves(alloc, call, &stored, *error, 0, &expected)
}

#[test]
fn opened_entries(rt: HostRuntime) -> Result<(), Fail> {
    let alloc = rt.alloc();
    for opened in &OPENED {
        assert!(rt; opens(alloc, opened)?, "{}", opened.0);
    }
    Ok(())
}

/// The oldest of 4,096 entries is found, by NEXT and by RETURN.
#[test]
fn oldest_of_all(rt: HostRuntime) -> Result<(), Fail> {
    let alloc = rt.alloc();
    let stored = words(alloc, 4096, 0, &[Open(FIRST, 0, RESIDENT, 9, 1, 1000)])?;
    let next = EntryCall {
        entry: TURNING,
        registers: [RESIDENT, 0, 0, 0],
        shows_code: true,
    };
    let shown = [word(COUNT_AT, 1), word(RESIDENT, 1)];
    assert!(rt; leaves(alloc, next, &stored, 0, 1000, &shown)?);
    let stored = words(alloc, 4096, 0, &[Open(FIRST, 0, GOSUB, 9, 1, 1000)])?;
    let ret = EntryCall {
        entry: CLOSING_WORD,
        registers: [GOSUB, 0, 0, 0],
        shows_code: true,
    };
    assert!(rt; leaves(alloc, ret, &stored, 0, 1000, &[word(COUNT_AT, 0)])?);
    Ok(())
}
