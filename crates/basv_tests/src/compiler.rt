//! Files that compile, and files that the compiler refuses.

use arm2_machine::{Board, read_image};
use bas_compile::compile;
use bv_base::IMAGE_WORDS;
use bv_io::MemSink;
use bv_run::{Report, RunEnd};
use profile_check::Refusal;
use std::alloc::Global;
use std::test::Fail;

#[rattlefmt::skip]
/// Files that compile, and what their images write.
const PROGRAMS: [(&[u8], &[u8]); 8] = [
    (b"\x0d\x00\x0a\x08\xef 65\x0d\xff", b"A"),
    (b"\x0d\xff", b""),
    (b"\x0d\xffanything", b""),
    (b"\x0d\x00\x0a\x08\xef 66\x0d\x00\x05\x07\xef65\x0d\xff", b"BA"),
    (b"\x0d\x00\x0a\x05\xe0\x0d\x00\x1e\x08\xef 66\x0d\xff", b""),
    (b"\x0d\x00\x0a\x08\xef256\x0d\xff", b"\x00"),
    (b"\x0d\x00\x0a\x0a\xf1 A%+1\x0d\xff", b"         1\x0a\x0d"),
    (b"\x0d\xfe\xff\x10  \xef  00010  \x0d\x00\x01\x07 \xe0 \x0d\xff", b"\x0a"),
];

/// How the run of a file's image ends within 1,000 instructions, and what it writes into room for 100 bytes.
fn run_of(alloc: Global, file: &[u8]) -> Result<(Option<RunEnd>, Vec<u8>), Fail> {
    let mut out = MemSink::new(alloc, 100)?;
    let mut end = None;
    if let Ok(image) = compile(alloc, file) {
        let words = read_image(alloc, image.as_slice())?;
        if words.len() <= IMAGE_WORDS as usize {
            let mut board = Board::load(alloc, words.as_slice(), Vec::new(alloc))?;
            if !board.closed() {
                end = board.run(1000, &mut out).ok();
            }
        }
    }
    Ok((end, Vec::from_slice(alloc, out.bytes())?))
}

#[test]
fn programs_run_as_they_should(rt: HostRuntime) -> Result<(), Fail> {
    for (file, output) in PROGRAMS {
        let (end, written) = run_of(rt.alloc(), file)?;
        assert!(rt;
            end == Some(RunEnd::Over(Report::Done)) && written.as_slice() == output,
            "{file:?}"
        );
    }
    Ok(())
}

#[rattlefmt::skip]
/// Files, and why they are refused.
const REFUSED: [(&[u8], Refusal); 4] = [
    (b"", Refusal::Malformed { at: 0 }),
    (b"\x0d\x00\x0a\x07\xf1", Refusal::Malformed { at: 0 }),
    (b"\x0d\x00\x0a\x05\xe0\x0d\x01\x02\x05A\x0d\x00\x14\x05B\x0d\xff", Refusal::Outside { line: 258 }),
    (b"\x0d\x00\x0a\x09\xef6 5 \x0d\xff", Refusal::Outside { line: 10 }),
];

#[test]
fn files_are_refused(rt: HostRuntime) -> Result<(), Fail> {
    for (file, refusal) in REFUSED {
        assert!(rt;
            compile(rt.alloc(), file).err() == Some(refusal),
            "{file:?}"
        );
    }
    Ok(())
}
