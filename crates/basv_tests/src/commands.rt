//! The commands, whose output and line come from the formats and the language themselves. Each step is in a small
//! function of its own, since a test is proved too.

use basv_top::{Status, basv, basv_in_memory, compile};
use bv_io::{MemShelf, MemSink, Shelf, SureShelf};
use std::alloc::{AllocError, Global};
use std::test::Fail;

/// `10VDU 65`
const VDU_65: &[u8] = b"\x0d\x00\x0a\x08\xef 65\x0d\xff";

/// `10VDU 120`
const VDU_120: &[u8] = b"\x0d\x00\x0a\x09\xef 120\x0d\xff";

/// The image of `10VDU 65`.
const VDU_65_IMAGE: &[u8] = b"BVA2\x04\0\0\0\x41\0\xa0\xe3\0\0\0\xef\0\0\xa0\xe3\x11\0\0\xef";

/// The image of one word that the processor doesn't know.
const UNKNOWN_IMAGE: &[u8] = b"BVA2\x01\0\0\0\x10\0\0\xe6";

fn to_words(alloc: Global, words: &[&str]) -> Result<Vec<String>, AllocError> {
    let mut all = Vec::new(alloc);
    for word in words {
        all.push(String::from_str(alloc, word)?)?;
    }
    Ok(all)
}

/// A call of `basv`: its status, and what it wrote to the output and to the error output.
#[derive(Drop)]
struct Ended {
    status: Status,
    output: Vec<u8>,
    line: Vec<u8>,
}

/// How `basv` ends on these words, with an output that has this room and fails at this write, and an error output with
/// this room.
fn run_into(
    alloc: Global,
    words: &[&str],
    shelf: &mut MemShelf,
    room: u32,
    failing: u64,
    err_room: u32,
) -> Result<Ended, Fail> {
    let words = to_words(alloc, words)?;
    let mut out = MemSink::new(alloc, room)?;
    let mut err = MemSink::new(alloc, err_room)?;
    out.fail_at(failing)?;
    let status = basv(alloc, words.as_slice(), shelf, &mut out, &mut err);
    let output = Vec::from_slice(alloc, out.bytes())?;
    let line = Vec::from_slice(alloc, err.bytes())?;
    Ok(Ended {
        status,
        output,
        line,
    })
}

/// How `basv` ends on these words with ample room, where the shelf holds a file under the name `f`.
fn ends(alloc: Global, words: &[&str], file: &[u8]) -> Result<Ended, Fail> {
    let mut shelf = MemShelf::new(alloc);
    shelf.add("f", file)?;
    run_into(alloc, words, &mut shelf, 200, 0, 200)
}

impl Ended {
    fn is(&self, status: Status, output: &[u8], line: &[u8]) -> bool {
        self.status == status && self.output.as_slice() == output && self.line.as_slice() == line
    }
}

/// Files, and what they list as.
const LISTINGS: [(&[u8], &[u8]); 14] = [
    (VDU_65, b"   10VDU 65\n"),
    (b"\x0d\xff", b""),
    (
        b"\x0d\x00\x14\x08\xc8\xa3\xe7A\x0d\xff",
        b"   20<C8 A3>IFA\n",
    ),
    (
        b"\x0d\x00\x0a\x0a\xe5 \x8d\x54\x4a\x40\x0d\xff",
        b"   10GOTO 10\n",
    ),
    (b"\x0d\x00\x0a\x05\xc8\x0d\xff", b"   10<C8>\n"),
    (b"\x0d\x00\x0a\x07\x8dAB\x0d\xff", b"   10<8D>AB\n"),
    (b"\x0d\x00\x0a\x07\xf1\"\xf1\x0d\xff", b"   10PRINT\"\xf1\n"),
    (
        b"\x0d\x00\x0a\x07\xc8\"\xf1\x0d\xff",
        b"   10<C8 22>PRINT\n",
    ),
    (
        b"\x0d\x00\x0a\x08\"\xf1\"\xf1\x0d\xff",
        b"   10\"\xf1\"PRINT\n",
    ),
    (
        b"\x0d\x00\x0a\x07\xf4\xf1\x8d\x0d\xff",
        b"   10REM\xf1\x8d\n",
    ),
    (
        b"\x0d\x00\x0a\x08\xf1:\xdc\xf1\x0d\xff",
        b"   10PRINT:DATA\xf1\n",
    ),
    (b"\x0d\x00\x0a\x05\x7f\x0d\xff", b"   10OTHERWISE\n"),
    (
        b"\x0d\x00\x0a\x08\x8b\xcc\x8f\xcf\x0d\xff",
        b"   10ELSEELSEPTRPTR\n",
    ),
    (
        b"\x0d\xfe\xff\x04\x0d\x00\x01\x05A\x0d\xff",
        b"65279\n    1A\n",
    ),
];

#[test]
fn files_are_listed(rt: HostRuntime) -> Result<(), Fail> {
    for (file, listing) in LISTINGS {
        let ended = ends(rt.alloc(), &["list", "f"], file)?;
        assert!(rt; ended.is(Status::Done, listing, b""), "{file:?}");
    }
    Ok(())
}

/// Image files: the status, the output and the line of their runs.
const RUNS: [(&[u8], Status, &[u8], &[u8]); 11] = [
    (VDU_65_IMAGE, Status::Done, b"A", b""),
    (
        b"BVA2\x04\0\0\0\x01\0\xa0\xe3\x14\x10\xa0\xe3\x0a\x20\xa0\xe3\x11\0\0\xef",
        Status::Failed,
        b"",
        b"error 20 at line 10\n",
    ),
    (
        b"BVA2\x04\0\0\0\x01\0\xa0\xe3\xff\x14\xa0\xe3\x0a\x20\xa0\xe3\x11\0\0\xef",
        Status::Failed,
        b"",
        b"error -16777216 at line 10\n",
    ),
    (
        b"BVA2\x05\0\0\0\x02\0\xa0\xe3\x01\x10\xa0\xe3\x5a\x20\xa0\xe3\xab\x34\xa0\xe3\x11\0\0\xef",
        Status::Stray,
        b"",
        b"stray data at &AB000000 from line 90\n",
    ),
    // User mode, through the whole arena of zero words, and out of it.
    (
        b"BVA2\x07\0\0\0\x02\x09\xa0\xe3\0\xf0\xb0\xe1\x01\x30\xa0\xe1\0\x10\xa0\xe1\x02\0\xa0\xe3\0\x20\xa0\xe3\x11\0\0\xef",
        Status::Stray,
        b"",
        b"stray fetch at &00088000 from line 0\n",
    ),
    (
        b"BVA2\x03\0\0\0\x03\0\xa0\xe3\x0a\x20\xa0\xe3\x11\0\0\xef",
        Status::InputEnded,
        b"",
        b"input ended at line 10\n",
    ),
    (
        UNKNOWN_IMAGE,
        Status::Broken,
        b"",
        b"broken undefined at &00100000\n",
    ),
    (
        b"BVA2\x02\0\0\0\x04\0\xa0\xe3\x11\0\0\xef",
        Status::Broken,
        b"",
        b"broken swi at &00100004\n",
    ),
    (
        b"BVA2\x01\0\0\0\x10\0\0\xe6\0",
        Status::NotImage,
        b"",
        b"not an image at byte 12\n",
    ),
    (&[0; 16], Status::NotImage, b"", b"not an image at byte 0\n"),
    (
        b"BVA2\x01\0\x20\0",
        Status::Limit,
        b"",
        b"limit image at 2097153\n",
    ),
];

#[test]
fn images_are_run(rt: HostRuntime) -> Result<(), Fail> {
    for (image, status, output, line) in RUNS {
        let ended = ends(rt.alloc(), &["run", "f"], image)?;
        assert!(rt; ended.is(status, output, line), "{image:?}");
    }
    Ok(())
}

const USAGE: &[u8] =
    b"usage: basv list FILE / compile FILE IMAGE / interp FILE / run IMAGE / selftest SEED LINES / crunch TEXT FILE\n";

/// The image of a branch to itself.
const LOOPING_IMAGE: &[u8] = b"BVA2\x01\0\0\0\xfe\xff\xff\xea";

/// `10GOTO 10`
const LOOPING: &[u8] = b"\x0d\x00\x0a\x0a\xe5 \x8d\x54\x4a\x40\x0d\xff";

const LIST: &[&str] = &["list", "f"];

const COMPILE: &[&str] = &["compile", "f", "i"];

const CRUNCH: &[&str] = &["crunch", "f", "g"];

#[rattlefmt::skip]
/// Words, the content of `f`, and the status and the line of a command that writes nothing to the output.
const LINES: [(&[&str], &[u8], Status, &[u8]); 23] = [
    (COMPILE, VDU_65, Status::Done, b""),
    (COMPILE, b"", Status::Malformed, b"malformed file at byte 0\n"),
    (COMPILE, b"\x0d\x00\x0a\x07\xf1", Status::Malformed, b"malformed file at byte 0\n"),
    (COMPILE, b"\x0d\x00\x0a\x05A\x0d\x00\x14\x07\xf1", Status::Malformed, b"malformed file at byte 5\n"),
    (LIST, b"\x0d\x00\x0a\x05A\x0d\x00\x14\x07\xf1", Status::Malformed, b"malformed file at byte 5\n"),
    (COMPILE, b"\x0d\x00\x0a\x07A=1\x0d\xff", Status::Outside, b"outside the profile at line 10\n"),
    (&["list", "x"], VDU_65, Status::ReadFault, b"cannot read x\n"),
    (&["run", "x"], VDU_65_IMAGE, Status::ReadFault, b"cannot read x\n"),
    (&[], VDU_65, Status::Usage, USAGE),
    (&["--help"], VDU_65, Status::Usage, USAGE),
    (&["list"], VDU_65, Status::Usage, USAGE),
    (&["list", "f", "--steps", "5"], VDU_65, Status::Usage, USAGE),
    (&["list", "--", "-x"], VDU_65, Status::ReadFault, b"cannot read -x\n"),
    (&["interp"], VDU_65, Status::Usage, USAGE),
    (&["interp", "f", "i"], VDU_65, Status::Usage, USAGE),
    (&["interp", "x"], VDU_65, Status::ReadFault, b"cannot read x\n"),
    (&["interp", "f"], b"\x0d\x00\x0a\x05A\x0d\x00\x14\x07\xf1", Status::Malformed, b"malformed file at byte 5\n"),
    (&["interp", "f"], b"\x0d\x00\x0a\x05A\x0d\xff", Status::Outside, b"outside the profile at line 10\n"),
    (&["interp", "f", "--steps", "1000"], LOOPING, Status::Bound, b"bound 1000 reached\n"),
    (&["run", "f", "--steps", "1000"], LOOPING_IMAGE, Status::Bound, b"bound 1000 reached\n"),
    (CRUNCH, b"10 PRINT 5\n", Status::Done, b""),
    (CRUNCH, b"\nPRINT 1", Status::BadText, b"bad text at line 2\n"),
    (&["crunch", "x", "g"], b"", Status::ReadFault, b"cannot read x\n"),
];

/// Words, the number of zeros that `f` has, which is one too many, and the line.
const TOO_LONG: [(&[&str], usize, &[u8]); 4] = [
    (LIST, 65_537, b"limit file at 65537\n"),
    (&["interp", "f"], 65_537, b"limit file at 65537\n"),
    (COMPILE, 65_537, b"limit file at 65537\n"),
    (CRUNCH, 1_048_577, b"limit text at 1048577\n"),
];

#[test]
fn refusals_say_why(rt: HostRuntime) -> Result<(), Fail> {
    let alloc = rt.alloc();
    for (words, file, status, line) in LINES {
        let ended = ends(alloc, words, file)?;
        assert!(rt; ended.is(status, b"", line), "{words:?} {file:?}");
    }
    for (words, length, line) in TOO_LONG {
        let file = vec![in alloc; b' '; length]?;
        let ended = ends(alloc, words, file.as_slice())?;
        assert!(rt; ended.is(Status::Limit, b"", line), "{words:?}");
    }
    Ok(())
}

/// What a command puts under a name.
fn put_by(alloc: Global, words: &[&str], file: &[u8], name: &str) -> Result<Vec<u8>, Fail> {
    let mut shelf = MemShelf::new(alloc);
    shelf.add("f", file)?;
    run_into(alloc, words, &mut shelf, 200, 0, 200)?;
    Ok(shelf.take(alloc, name, 10_000)?)
}

/// The image of `10VDU 65`, as the compiler answers it.
fn compiled_image(alloc: Global) -> Vec<u8> {
    compile(alloc, VDU_65).unwrap_or(Vec::new(alloc))
}

#[test]
fn contents_are_put(rt: HostRuntime) -> Result<(), Fail> {
    let alloc = rt.alloc();
    let image = put_by(alloc, COMPILE, VDU_65, "i")?;
    assert!(rt; image.starts_with(b"BVA2"));
    assert!(rt; image.as_slice() == compiled_image(alloc).as_slice());
    let file = put_by(alloc, CRUNCH, b"10VDU 65\n", "g")?;
    assert!(rt; file.as_slice() == VDU_65);
    Ok(())
}

/// The call of the shelf that fails in a compile, the status, and the line.
const FAILING_CALLS: [(u64, Status, &[u8]); 3] = [
    (1, Status::ReadFault, b"cannot read f\n"),
    (2, Status::WriteFault, b"cannot write\n"),
    (3, Status::Done, b""),
];

/// How a compile ends where a call of the shelf fails.
fn compiled_where(alloc: Global, call: u64) -> Result<Ended, Fail> {
    let mut shelf = MemShelf::new(alloc);
    shelf.add("f", VDU_65)?;
    shelf.fail_at(call)?;
    run_into(alloc, COMPILE, &mut shelf, 200, 0, 200)
}

/// The image of MOV R0,#65, SWI &00 and a branch back to it, which writes A for ever.
const ENDLESS_IMAGE: &[u8] = b"BVA2\x03\0\0\0\x41\0\xa0\xe3\0\0\0\xef\xfd\xff\xff\xea";

/// Words, the content of `f`, the room of the output and of the error output, and what these get where the output has
/// not enough. What a run writes goes to the output as it is written, and nothing is kept back.
const FULL_OUTPUTS: [(&[&str], &[u8], u32, u32, &[u8], &[u8]); 3] = [
    (LIST, VDU_65, 11, 100, b"", b"cannot write\n"),
    (LIST, VDU_65, 11, 12, b"", b"cannot write"),
    (
        &["run", "f"],
        ENDLESS_IMAGE,
        10,
        100,
        b"AAAAAAAAAA",
        b"cannot write\n",
    ),
];

/// How a command ends with outputs of this room.
fn ends_with_room(
    alloc: Global,
    words: &[&str],
    file: &[u8],
    room: u32,
    err_room: u32,
) -> Result<Ended, Fail> {
    let mut shelf = MemShelf::new(alloc);
    shelf.add("f", file)?;
    run_into(alloc, words, &mut shelf, room, 0, err_room)
}

#[test]
fn shelves_and_outputs_fail(rt: HostRuntime) -> Result<(), Fail> {
    let alloc = rt.alloc();
    for (call, status, line) in FAILING_CALLS {
        let ended = compiled_where(alloc, call)?;
        assert!(rt; ended.is(status, b"", line), "{call}");
    }
    for (words, file, room, err_room, output, line) in FULL_OUTPUTS {
        let ended = ends_with_room(alloc, words, file, room, err_room)?;
        assert!(rt;
            ended.is(Status::WriteFault, output, line),
            "{words:?} {err_room}"
        );
    }
    Ok(())
}

/// The lines `10VDU 65` to `40VDU 68`.
const FOUR_LINES: &[u8] =
    b"\x0d\0\x0a\x08\xef 65\x0d\0\x14\x08\xef 66\x0d\0\x1e\x08\xef 67\x0d\0\x28\x08\xef 68\x0d\xff";

/// The number of the write that fails in a run of `FOUR_LINES`, or 0, the status, what was written, and the line.
const FAILING_WRITES: [(u64, Status, &[u8], &[u8]); 6] = [
    (0, Status::Done, b"ABCD", b""),
    (1, Status::WriteFault, b"", b"cannot write\n"),
    (2, Status::WriteFault, b"A", b"cannot write\n"),
    (3, Status::WriteFault, b"AB", b"cannot write\n"),
    (4, Status::WriteFault, b"ABC", b"cannot write\n"),
    (5, Status::Done, b"ABCD", b""),
];

/// How the run of `FOUR_LINES`, once compiled, ends where a write to the output fails.
fn runs_compiled(alloc: Global, failing: u64) -> Result<Ended, Fail> {
    let mut shelf = MemShelf::new(alloc);
    shelf.add("f", FOUR_LINES)?;
    run_into(alloc, COMPILE, &mut shelf, 200, 0, 200)?;
    run_into(alloc, &["run", "i"], &mut shelf, 100, failing, 100)
}

/// How `FOUR_LINES`, interpreted, ends where a write to the output fails.
fn interprets(alloc: Global, failing: u64) -> Result<Ended, Fail> {
    let mut shelf = MemShelf::new(alloc);
    shelf.add("f", FOUR_LINES)?;
    run_into(alloc, &["interp", "f"], &mut shelf, 100, failing, 100)
}

#[test]
fn compiled_and_interpreted_programs_write_alike(rt: HostRuntime) -> Result<(), Fail> {
    for (failing, status, output, line) in FAILING_WRITES {
        let ended = runs_compiled(rt.alloc(), failing)?;
        assert!(rt; ended.is(status, output, line), "compiled, {failing}");
        let ended = interprets(rt.alloc(), failing)?;
        assert!(rt; ended.is(status, output, line), "interpreted, {failing}");
    }
    Ok(())
}

/// The image of SWI &04, SWI &00 and the end, which writes the first byte of its input, or &FF.
const READING_IMAGE: &[u8] = b"BVA2\x04\0\0\0\x04\0\0\xef\0\0\0\xef\0\0\xa0\xe3\x11\0\0\xef";

#[rattlefmt::skip]
/// Words after `run`, and the status, output and line, where `f` is `READING_IMAGE`, `i` is an input of one x, `long` is one
/// of 1,048,577 bytes, and nothing else is held.
const OPTIONS: [(&[&str], Status, &[u8], &[u8]); 31] = [
    (&["f", "--input", "i"], Status::Done, b"x", b""),
    (&["--input", "i", "f"], Status::Done, b"x", b""),
    (&["--input=i", "--steps=4", "--", "f"], Status::Done, b"x", b""),
    (&["--steps", "18446744073709551615", "f", "--input", "i"], Status::Done, b"x", b""),
    (&["f", "--steps", "0000000000000000000000004"], Status::Done, b"\xff", b""),
    (&["f", "--steps", "0"], Status::Bound, b"", b"bound 0 reached\n"),
    (&["f", "--steps", "2"], Status::Bound, b"\xff", b"bound 2 reached\n"),
    (&["f", "--input", "long"], Status::Limit, b"", b"limit input at 1048577\n"),
    (&["f", "--input", "x"], Status::ReadFault, b"", b"cannot read x\n"),
    (&["f", "--input", "-"], Status::ReadFault, b"", b"cannot read -\n"),
    (&["f", "--input=-y"], Status::ReadFault, b"", b"cannot read -y\n"),
    (&["f", "--input", ""], Status::ReadFault, b"", b"cannot read \n"),
    (&["y", "--input", "x"], Status::ReadFault, b"", b"cannot read y\n"),
    (&["--", "-x"], Status::ReadFault, b"", b"cannot read -x\n"),
    (&["--", "--input=i"], Status::ReadFault, b"", b"cannot read --input=i\n"),
    (&["i", "--input", "x"], Status::NotImage, b"", b"not an image at byte 0\n"),
    (&["f", "--steps", "18446744073709551616"], Status::Usage, b"", USAGE),
    (&["f", "--steps", "5", "--steps", "6"], Status::Usage, b"", USAGE),
    (&["f", "--steps", "+5"], Status::Usage, b"", USAGE),
    (&["f", "--steps", "5x"], Status::Usage, b"", USAGE),
    (&["f", "--steps", ""], Status::Usage, b"", USAGE),
    (&["f", "--steps"], Status::Usage, b"", USAGE),
    (&["f", "--steps="], Status::Usage, b"", USAGE),
    (&["f", "--input", "i", "--input=i"], Status::Usage, b"", USAGE),
    (&["f", "--input", "-y"], Status::Usage, b"", USAGE),
    (&["f", "--input", "--"], Status::Usage, b"", USAGE),
    (&["f", "--inputs", "i"], Status::Usage, b"", USAGE),
    (&["f", "--help"], Status::Usage, b"", USAGE),
    (&["f", "-i"], Status::Usage, b"", USAGE),
    (&["f", "i"], Status::Usage, b"", USAGE),
    (&["--", "f", "--input", "i"], Status::Usage, b"", USAGE),
];

/// A shelf with `f`, an input and one that is too long.
fn reading_shelf(alloc: Global, f: &[u8]) -> Result<MemShelf, Fail> {
    let mut shelf = MemShelf::new(alloc);
    shelf.add("f", f)?;
    shelf.add("i", b"x")?;
    let long = vec![in alloc; 0; 1_048_577]?;
    shelf.add("long", long.as_slice())?;
    Ok(shelf)
}

/// How `run` ends with these words after it.
fn runs_with(alloc: Global, more: &[&str]) -> Result<Ended, Fail> {
    let mut words = vec![in alloc; "run"]?;
    words.extend_from_slice(more)?;
    let mut shelf = reading_shelf(alloc, READING_IMAGE)?;
    run_into(alloc, words.as_slice(), &mut shelf, 200, 0, 200)
}

#[test]
fn options_say_how_an_image_is_run(rt: HostRuntime) -> Result<(), Fail> {
    for (words, status, output, line) in OPTIONS {
        let ended = runs_with(rt.alloc(), words)?;
        assert!(rt; ended.is(status, output, line), "{words:?}");
    }
    Ok(())
}

#[rattlefmt::skip]
/// The call of the shelf and the write that fail in a run with an input and an arena, or in an interpretation, the status, the output, the line, and
/// the number of the arena's bytes that are put.
const FAILING_RUNS: [(u64, u64, Status, &[u8], &[u8], Option<usize>); 5] = [
    (0, 0, Status::Done, b"x", b"", Some(524_288)),
    (1, 0, Status::ReadFault, b"", b"cannot read f\n", None),
    (2, 0, Status::ReadFault, b"", b"cannot read i\n", None),
    (3, 0, Status::WriteFault, b"x", b"cannot write\n", None),
    (0, 1, Status::WriteFault, b"", b"cannot write\n", None),
];

/// How a run with an input and an arena ends, and the number of the arena's bytes that are put. `f` is what is run, by
/// the command of this name.
fn runs_failing(
    alloc: Global,
    command: &str,
    f: &[u8],
    call: u64,
    write: u64,
) -> Result<(Ended, Option<usize>), Fail> {
    let mut shelf = reading_shelf(alloc, f)?;
    shelf.fail_at(call)?;
    let words = [command, "f", "--input", "i", "--arena", "a"];
    let ended = run_into(alloc, &words, &mut shelf, 200, write, 200)?;
    let put = match shelf.take(alloc, "a", 1_000_000) {
        Ok(bytes) => Some(bytes.len()),
        Err(_) => None,
    };
    Ok((ended, put))
}

#[test]
fn runs_fail_in_turn(rt: HostRuntime) -> Result<(), Fail> {
    for (call, write, status, output, line, arena) in FAILING_RUNS {
        let (ended, put) = runs_failing(rt.alloc(), "run", READING_IMAGE, call, write)?;
        assert!(rt;
            ended.is(status, output, line) && put == arena,
            "run {call} {write}"
        );
        let (ended, put) = runs_failing(rt.alloc(), "interp", VDU_120, call, write)?;
        assert!(rt;
            ended.is(status, output, line) && put == arena,
            "interp {call} {write}"
        );
    }
    Ok(())
}

/// The image of MOV R0,#65, MOV R1,#&8000, STRB R0,[R1] and an SWI that user mode knows and the board doesn't: a run
/// that breaks.
const STORING_IMAGE: &[u8] =
    b"BVA2\x04\0\0\0\x41\0\xa0\xe3\x02\x19\xa0\xe3\0\0\xc1\xe5\x41\x01\0\xef";

#[test]
fn the_arena_is_put_whatever_the_end(rt: HostRuntime) -> Result<(), Fail> {
    let alloc = rt.alloc();
    let mut shelf = MemShelf::new(alloc);
    shelf.add("f", STORING_IMAGE)?;
    let words = ["run", "--arena=a", "f"];
    let ended = run_into(alloc, &words, &mut shelf, 200, 0, 200)?;
    assert!(rt; ended.is(Status::Broken, b"", b"broken swi at &0010000C\n"));
    let arena = shelf.take(alloc, "a", 524_288)?;
    assert!(rt; arena.starts_with(b"A\0\0\0"));
    Ok(())
}

#[test]
fn a_sure_shelf_never_fails(rt: HostRuntime) -> Result<(), Fail> {
    let alloc = rt.alloc();
    let mut shelf = SureShelf::new(alloc);
    shelf.add("-", VDU_65)?;
    let words = to_words(alloc, &["compile", "-", "i"])?;
    assert_eq!(rt;
        basv_in_memory(alloc, words.as_slice(), &mut shelf),
        Status::Done
    );
    let image = shelf.take(alloc, "i", 10_000)?;
    assert!(rt; image.as_slice() == compiled_image(alloc).as_slice());
    Ok(())
}
