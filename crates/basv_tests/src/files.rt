//! Files of tokenised BASIC V as they are read and written.

ghost use Rattle.std.specs.Prelude.{◌<◌, ◌^◌, length};

use sqlite_items::Items;
use std::alloc::Global;
use std::test::Fail;
use token_file::{FileError, Line, read_file, write_file};

/// `10VDU 65`
const VDU_65: &[u8] = b"\x0d\x00\x0a\x08\xef 65\x0d\xff";

fn is_malformed_at(alloc: Global, file: &[u8], at: u32) -> bool
    requires { length file.now < 2 ^ 32 }
{
    matches!(read_file(alloc, file), Err(FileError::Malformed { at: place }) if place == at)
}

/// A record with a size below 4, and one whose size doesn't lead to the next record.
const MALFORMED: [&[u8]; 2] = [
    b"\x0d\x00\x0a\x03\xef 65\x0d\xff",
    b"\x0d\x00\x0a\x08\xef 6\x0d\x0d\xff",
];

#[test]
fn files_are_read_back(rt: HostRuntime) -> Result<(), Fail> {
    let alloc = rt.alloc();
    for length in 0..VDU_65.len() {
        let at = if length < 8 { 0 } else { 8 };
        assert!(rt;
            is_malformed_at(alloc, &VDU_65[..length], at),
            "the first {length} bytes"
        );
    }
    for file in MALFORMED {
        assert!(rt; is_malformed_at(alloc, file, 0), "{file:?}");
    }
    Ok(())
}

#[test]
fn lines_are_written(rt: HostRuntime) -> Result<(), Fail> {
    let alloc = rt.alloc();
    let text = Items::from_slice(alloc, b"\xef 65")?;
    let line = Line { number: 10, text };
    assert!(rt; line.fits_record());
    let lines = vec![in alloc; line]?;
    assert_eq!(rt; write_file(alloc, lines.as_slice())?.as_slice(), VDU_65);
    Ok(())
}

#[test]
fn file_errors_show_their_names(rt: HostRuntime) -> Result<(), Fail> {
    let alloc = rt.alloc();
    for (error, name) in [
        (FileError::Malformed { at: 7 }, "Malformed"),
        (FileError::NoMemory, "NoMemory"),
    ] {
        assert_eq!(rt; format!(in alloc; "{error}")?.as_str(), name);
    }
    Ok(())
}
