//! Runs of the board by words, which are worked out by hand from its definition.

use arm2_machine::Board;
use bv_io::{MemSink, SinkFault};
use bv_run::{Report, RunEnd, Trap};
use std::alloc::Global;
use std::test::Fail;

/// How the run of an image ends within 200,000 instructions, and what it writes into room for `room` bytes.
fn run(
    alloc: Global,
    words: &[u32],
    input: &[u8],
    room: u32,
) -> Result<(Option<RunEnd>, Vec<u8>), Fail> {
    if words.len() > 1000 {
        return Ok((None, Vec::new(alloc)));
    }
    let input = Vec::from_slice(alloc, input)?;
    let mut board = Board::load(alloc, words, input)?;
    let mut out = MemSink::new(alloc, room)?;
    if board.closed() {
        return Ok((None, Vec::new(alloc)));
    }
    let end = board.run(200_000, &mut out).ok();
    let written = Vec::from_slice(alloc, out.bytes())?;
    Ok((end, written))
}

fn ends(alloc: Global, words: &[u32], end: RunEnd, output: &[u8]) -> Result<bool, Fail> {
    let (got, written) = run(alloc, words, b"x", 100)?;
    Ok(got == Some(end) && written.as_slice() == output)
}

const DONE: RunEnd = RunEnd::Over(Report::Done);

#[rattlefmt::skip]
const SUPERVISOR: [(&[u32], RunEnd, &[u8]); 12] = [
    // The byte A, and the end.
    (&[0xe3a0_0041, 0xef00_0000, 0xe3a0_0000, 0xef00_0011], DONE, b"A"),
    // A branch to itself.
    (&[0xeaff_fffe], RunEnd::Going, b""),
    // User mode, through the whole arena of zero words, and out of it.
    (&[0xe3a0_0902, 0xe1b0_f000, 0xe1a0_3001, 0xe1a0_1000, 0xe3a0_0002, 0xe3a0_2000, 0xef00_0011], RunEnd::Over(Report::Stray { kind: Trap::Fetch, address: 0x8_8000, line: 0 }), b""),
    // A new line, two bytes of an input of one, and the end.
    (&[0xef00_0003, 0xef00_0004, 0xef00_0000, 0xef00_0004, 0xef00_0000, 0xe3a0_0000, 0xef00_0011], DONE, b"\n\rx\xff"),
    // The supervisor goes through the pad as through any word: there the end was stored.
    (&[0xea00_0000, 0xef00_0016, 0xe59f_1010, 0xe3a0_2902, 0xe522_1004, 0xe3a0_0000, 0xe1a0_f002, 0, 0xef00_0011], DONE, b""),
    // The reports, and numbers that are none.
    (&[0xe3a0_0001, 0xe3a0_1014, 0xe3a0_200a, 0xef00_0011], RunEnd::Over(Report::Failed { error: 20, line: 10 }), b""),
    (&[0xe3a0_0002, 0xe3a0_1005, 0xe3a0_205a, 0xe3a0_3004, 0xef00_0011], RunEnd::Over(Report::Stray { kind: Trap::Swi, address: 4, line: 90 }), b""),
    (&[0xe3a0_0003, 0xe3a0_200a, 0xef00_0011], RunEnd::Over(Report::InputEnded { line: 10 }), b""),
    (&[0xe3a0_0002, 0xe3a0_1006, 0xef00_0011], RunEnd::Broken { kind: Trap::Swi, address: 0x10_0008 }, b""),
    (&[0xe3a0_0004, 0xef00_0011], RunEnd::Broken { kind: Trap::Swi, address: 0x10_0004 }, b""),
    // A call of user mode, and an access past the RAM.
    (&[0xef00_0141], RunEnd::Broken { kind: Trap::Swi, address: 0x10_0000 }, b""),
    (&[0xe3a0_1401, 0xe591_0000], RunEnd::Broken { kind: Trap::Data, address: 0x100_0000 }, b""),
];

/// What becomes of an instruction that user mode finds at the arena's start, with 0 in R2. After it the arena is zero.
#[rattlefmt::skip]
const USER: [(u32, RunEnd, &[u8]); 10] = [
    // STR R1,[R2]: outside the arena.
    (0xe582_1000, RunEnd::Over(Report::Stray { kind: Trap::Data, address: 0, line: 90 }), b""),
    // STRB R1,[R0,#-1], just below it.
    (0xe540_1001, RunEnd::Over(Report::Stray { kind: Trap::Data, address: 0x7fff, line: 90 }), b""),
    // To the pad, which goes back to the supervisor.
    (0xeaff_fffd, DONE, b""),
    (0xef00_0000, RunEnd::Over(Report::Stray { kind: Trap::Fetch, address: 0x8_8000, line: 90 }), b"\0"),
    (0xef00_0141, RunEnd::Over(Report::Stray { kind: Trap::Fetch, address: 0x8_8000, line: 90 }), b"A"),
    (0xef00_0003, RunEnd::Over(Report::Stray { kind: Trap::Fetch, address: 0x8_8000, line: 90 }), b"\n\r"),
    (0xef00_0016, RunEnd::Over(Report::Stray { kind: Trap::Swi, address: 0x8000, line: 90 }), b""),
    (0xef00_0011, RunEnd::Over(Report::Stray { kind: Trap::Swi, address: 0x8000, line: 90 }), b""),
    (0xe600_0010, RunEnd::Over(Report::Stray { kind: Trap::Undefined, address: 0x8000, line: 90 }), b""),
    (0xe000_0090, RunEnd::Over(Report::Stray { kind: Trap::Unpredictable, address: 0x8000, line: 90 }), b""),
];

/// Stores an instruction at the arena's start and goes there in user mode. A trap ends as stray at line 90, and a return
/// as done.
fn user_ends(alloc: Global, word: u32, end: RunEnd, output: &[u8]) -> Result<bool, Fail> {
    let words = [
        0xea00_0007,
        0xea00_0004,
        0xe1a0_3001,
        0xe1a0_1000,
        0xe3a0_0002,
        0xe3a0_205a,
        0xef00_0011,
        0xe3a0_0000,
        0xef00_0011,
        0xe59f_100c,
        0xe3a0_0902,
        0xe580_1000,
        0xe3a0_2000,
        0xe1b0_f000,
        word,
    ];
    ends(alloc, &words, end, output)
}

#[test]
fn images_run_in_both_modes(rt: HostRuntime) -> Result<(), Fail> {
    for (words, end, output) in SUPERVISOR {
        assert!(rt; ends(rt.alloc(), words, end, output)?, "{words:?}");
    }
    for (word, end, output) in USER {
        assert!(rt; user_ends(rt.alloc(), word, end, output)?, "{word:x}");
    }
    Ok(())
}

/// MOV R0,#65, SWI &00 and a branch back to it: writes A for ever.
const ENDLESS: [u32; 3] = [0xe3a0_0041, 0xef00_0000, 0xeaff_fffd];

/// How a run in up to ten calls of `bound` instructions ends, and how many of its calls went on.
fn run_in_calls(
    board: &mut Board,
    out: &mut MemSink,
    bound: u64,
) -> Result<(RunEnd, u64), SinkFault> {
    for calls in 0..10 {
        if board.closed() {
            return Ok((RunEnd::Going, calls));
        }
        let end = board.run(bound, out)?;
        if end != RunEnd::Going {
            return Ok((end, calls));
        }
    }
    Ok((RunEnd::Going, 10))
}

/// The words of the image of `10VDU 65`.
const VDU_65: [u32; 4] = [0xe3a0_0041, 0xef00_0000, 0xe3a0_0000, 0xef00_0011];

/// The board of these words after a run in calls of `bound` instructions, its end, the number of calls that went on, and
/// what was written.
fn run_split(alloc: Global, bound: u64) -> Result<(Board, RunEnd, u64, Vec<u8>), Fail> {
    let mut board = Board::load(alloc, &VDU_65, Vec::new(alloc))?;
    let mut out = MemSink::new(alloc, 1)?;
    let (end, going) = run_in_calls(&mut board, &mut out, bound)?;
    Ok((board, end, going, Vec::from_slice(alloc, out.bytes())?))
}

/// Whether a run in calls of `bound` instructions, of which `going` go on, is the run in one call.
fn runs_in_calls(alloc: Global, bound: u64, going: u64) -> Result<bool, Fail> {
    let (board, end, calls, written) = run_split(alloc, bound)?;
    let (whole, whole_end, _, whole_written) = run_split(alloc, 1000)?;
    Ok(
        calls == going
            && end == whole_end
            && (board.steps(), whole.steps()) == (4, 4)
            && written.as_slice() == b"A".as_slice()
            && whole_written.as_slice() == b"A".as_slice()
            && board.arena() == whole.arena(),
    )
}

#[test]
fn runs_are_counted(rt: HostRuntime) -> Result<(), Fail> {
    for (bound, going) in [(1, 3), (2, 1), (3, 1), (4, 0), (5, 0)] {
        assert!(rt; runs_in_calls(rt.alloc(), bound, going)?, "{bound}");
    }
    Ok(())
}

/// Words whose run finds no room, the room, what is written, and the number of instructions.
const NO_ROOM: [(&[u32], u32, &[u8], u64); 3] = [
    (&[0xef00_0003], 1, b"\n", 1),
    (&VDU_65, 0, b"", 2),
    (&ENDLESS, 10, b"AAAAAAAAAA", 22),
];

/// Whether a run fails where the sink is full, and the board is closed then.
fn fails_when_full(
    alloc: Global,
    words: &[u32],
    room: u32,
    output: &[u8],
    steps: u64,
) -> Result<bool, Fail> {
    if words.len() > 1000 {
        return Ok(false);
    }
    let mut board = Board::load(alloc, words, Vec::new(alloc))?;
    let mut out = MemSink::new(alloc, room)?;
    if board.closed() {
        return Ok(false);
    }
    let end = board.run(u64::MAX, &mut out);
    Ok(end.is_err() && out.bytes() == output && board.closed() && board.steps() == steps)
}

// What a run writes goes to the sink as it is written, and nothing is kept back.
#[test]
fn runs_fail_where_the_sink_is_full(rt: HostRuntime) -> Result<(), Fail> {
    for (words, room, output, steps) in NO_ROOM {
        assert!(rt;
            fails_when_full(rt.alloc(), words, room, output, steps)?,
            "{words:?}"
        );
    }
    Ok(())
}
