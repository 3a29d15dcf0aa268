//! The programs on the board: their output, by numbers that were worked out by hand.
use crate::{copying_words, division_words, rows_words};
use arm2_machine::Board;
use bv_io::MemSink;
use bv_run::{Report, RunEnd};
use std::alloc::Global;
use std::test::Fail;

/// Whether the words run to their end and write these bytes.
fn writes(alloc: Global, words: &[u32], bytes: &[u8]) -> Result<bool, Fail> {
    if words.len() > 100 {
        return Ok(false);
    }
    let mut board = Board::load(alloc, words, Vec::new(alloc))?;
    let mut out = MemSink::new(alloc, 100)?;
    let end = board.run(1000, &mut out);
    Ok(end == Ok(RunEnd::Over(Report::Done)) && out.bytes() == bytes)
}

#[test]
fn programs_write(rt: HostRuntime) -> Result<(), Fail> {
    let alloc = rt.alloc();
    let words = division_words(alloc, 200, 7)?;
    assert!(rt; writes(alloc, &words, &[28, 4])?);
    let words = division_words(alloc, 3, 255)?;
    assert!(rt; writes(alloc, &words, &[0, 3])?);
    let words = copying_words(alloc, 72, 105)?;
    assert!(rt; writes(alloc, &words, b"Hi")?);
    let words = rows_words(alloc, 2)?;
    assert!(rt; writes(alloc, &words, b"  \n\r  ")?);
    let words = rows_words(alloc, 0)?;
    assert!(rt; writes(alloc, &words, b"\n\r")?);
    Ok(())
}
