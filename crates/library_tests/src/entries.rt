//! Each entry at its limits.
use crate::boards::{Call, shows};
use bv_base::NoMemory;
use bv_run::Report;
use std::alloc::Global;
use std::test::Fail;

/// An entry that is an operation, its left operand, its right one, its result, and its error, or 0.
struct Operation(u16, i32, i32, i32, u8);

/// The product, DIV and MOD.
#[rattlefmt::skip]
static OPERATIONS: [Operation; 48] = [
    Operation(1, 3, 4, 12, 0), Operation(1, -1, 7, -7, 0), Operation(1, 7, -1, -7, 0),
    Operation(1, 0, -2_147_483_648, 0, 0), Operation(1, 1, -2_147_483_648, -2_147_483_648, 0),
    Operation(1, -2_147_483_648, 1, -2_147_483_648, 0), Operation(1, -2_147_483_648, -1, 0, 20),
    Operation(1, -1, -2_147_483_648, 0, 20), Operation(1, -1, 2_147_483_647, -2_147_483_647, 0),
    Operation(1, 2_147_483_647, 2_147_483_647, 0, 20), Operation(1, 2_147_483_647, 2, 0, 20),
    Operation(1, 46_341, 46_341, 0, 20), Operation(1, 46_340, 46_340, 2_147_395_600, 0),
    Operation(1, 65_536, 32_767, 2_147_418_112, 0), Operation(1, 65_536, 32_768, 0, 20),
    Operation(1, -65_536, 32_768, -2_147_483_648, 0), Operation(1, -65_536, 32_769, 0, 20),
    Operation(1, -2_147_483_648, -2_147_483_648, 0, 20), Operation(1, -2_147_483_648, 0, 0, 0),
    Operation(2, -2_147_483_648, -1, 0, 20), Operation(2, -2_147_483_648, 1, -2_147_483_648, 0),
    Operation(2, -2_147_483_648, -2_147_483_648, 1, 0), Operation(2, 2_147_483_647, -2_147_483_648, 0, 0),
    Operation(2, 2_147_483_647, -1, -2_147_483_647, 0), Operation(2, 2_147_483_647, 2_147_483_647, 1, 0),
    Operation(2, 7, 2, 3, 0), Operation(2, -7, 2, -3, 0), Operation(2, 7, -2, -3, 0), Operation(2, -7, -2, 3, 0),
    Operation(2, 0, -2_147_483_648, 0, 0), Operation(2, 0, 5, 0, 0), Operation(2, 1, 0, 0, 18),
    Operation(2, -2_147_483_648, 0, 0, 18), Operation(2, -1, 2_147_483_647, 0, 0),
    Operation(2, 2_147_483_647, 10, 214_748_364, 0), Operation(3, 7, 2, 1, 0), Operation(3, -7, 2, -1, 0),
    Operation(3, 7, -2, 1, 0), Operation(3, -7, -2, -1, 0), Operation(3, -2_147_483_648, -1, 0, 0),
    Operation(3, -2_147_483_648, 2_147_483_647, -1, 0), Operation(3, 2_147_483_647, -2_147_483_648, 2_147_483_647, 0),
    Operation(3, 0, 1, 0, 0), Operation(3, 1, 0, 0, 18), Operation(3, 0, 0, 0, 18),
    Operation(3, -2_147_483_648, 10, -8, 0), Operation(3, -1, -2_147_483_648, -1, 0),
    Operation(3, 2_147_483_647, 10, 7, 0),
];

/// An entry that writes, R0, R1, the column before, what is written, and the column after.
struct Written(u16, i32, u32, u16, &'static [u8], u16);

/// Numbers in decimal and hexadecimal, as they are and in ten columns; a new line; a string.
#[rattlefmt::skip]
static WRITTEN: [Written; 30] = [
    Written(4, -2_147_483_648, 0, 3, b"-2147483648", 14), Written(4, -2_147_483_648, 1, 3, b"-2147483648", 14),
    Written(4, -1, 0, 3, b"-1", 5), Written(4, -1, 1, 3, b"        -1", 13), Written(4, 0, 0, 3, b"0", 4),
    Written(4, 0, 1, 3, b"         0", 13), Written(4, 1, 0, 3, b"1", 4), Written(4, 1, 1, 3, b"         1", 13),
    Written(4, 2_147_483_647, 0, 3, b"2147483647", 13), Written(4, 2_147_483_647, 1, 3, b"2147483647", 13),
    Written(4, 42, 1, 65_535, b"        42", 9), Written(5, -2_147_483_648, 0, 0, b"80000000", 8),
    Written(5, -2_147_483_648, 1, 0, b"  80000000", 10), Written(5, -1, 0, 0, b"FFFFFFFF", 8),
    Written(5, -1, 1, 0, b"  FFFFFFFF", 10), Written(5, 0, 0, 0, b"0", 1), Written(5, 0, 1, 0, b"         0", 10),
    Written(5, 1, 0, 0, b"1", 1), Written(5, 1, 1, 0, b"         1", 10),
    Written(5, 2_147_483_647, 0, 0, b"7FFFFFFF", 8), Written(5, 2_147_483_647, 1, 0, b"  7FFFFFFF", 10),
    Written(5, 10, 0, 0, b"A", 1), Written(5, 10, 1, 0, b"         A", 10), Written(7, 0, 0, 0, b"\n\r", 0),
    Written(7, 0, 0, 9, b"\n\r", 0), Written(7, 0, 0, 10, b"\n\r", 0), Written(7, 0, 0, 65_535, b"\n\r", 0),
    Written(8, 0x10_000d, 0, 9, b"STOP", 13), Written(8, 0x10_000d, 0, 65_535, b"STOP", 3),
    Written(8, 0x10_000c, 0, 5, b"", 5),
];

/// An entry that writes spaces, R0, the column before, what is written before the spaces, their number, and the column after.
struct Spaced(u16, i32, u16, &'static [u8], usize, u16);

/// SPC, a comma and TAB.
#[rattlefmt::skip]
static SPACED: [Spaced; 28] = [
    Spaced(6, 0, 0, b"", 0, 0), Spaced(6, 1, 9, b"", 1, 10), Spaced(6, 255, 0, b"", 255, 255),
    Spaced(6, 255, 65_535, b"", 255, 254), Spaced(6, 256, 10, b"", 0, 10), Spaced(6, -1, 10, b"", 255, 265),
    Spaced(17, 0, 0, b"", 0, 0), Spaced(17, 0, 1, b"", 9, 10), Spaced(17, 0, 9, b"", 1, 10),
    Spaced(17, 0, 10, b"", 0, 10), Spaced(17, 0, 11, b"", 9, 20), Spaced(17, 0, 19, b"", 1, 20),
    Spaced(17, 0, 20, b"", 0, 20), Spaced(17, 0, 65_529, b"", 1, 65_530), Spaced(17, 0, 65_530, b"", 0, 65_530),
    Spaced(17, 0, 65_535, b"", 5, 4), Spaced(18, 0, 0, b"", 0, 0), Spaced(18, 9, 0, b"", 9, 9),
    Spaced(18, 10, 9, b"", 1, 10), Spaced(18, 10, 10, b"", 0, 10), Spaced(18, 10, 11, b"\n\r", 10, 10),
    Spaced(18, 0, 1, b"\n\r", 0, 0), Spaced(18, 255, 0, b"", 255, 255), Spaced(18, 255, 255, b"", 0, 255),
    Spaced(18, 255, 256, b"\n\r", 255, 255), Spaced(18, 5, 65_535, b"\n\r", 5, 5), Spaced(18, 256, 3, b"\n\r", 0, 0),
    Spaced(18, -1, 254, b"", 1, 255),
];

/// What an operation shows: its error, or 0 and its result.
fn shown_result(alloc: Global, value: i32, error: u8) -> Result<Vec<u8>, NoMemory> {
    let mut shown = Vec::new(alloc);
    shown.push(error)?;
    if error == 0 {
        shown.extend_from_slice(&value.to_le_bytes())?;
    }
    Ok(shown)
}

#[test]
fn operations(rt: HostRuntime) -> Result<(), Fail> {
    let alloc = rt.alloc();
    for Operation(entry, left, right, value, error) in &OPERATIONS {
        let call = Call {
            entry: *entry,
            r0: right.cast_unsigned(),
            r1: left.cast_unsigned(),
            column: 0,
        };
        let shown = shown_result(alloc, *value, *error)?;
        assert!(rt;
            shows(alloc, call, &shown, Report::Done)?,
            "{entry} {left} {right}"
        );
    }
    Ok(())
}

/// What an entry that writes shows: its bytes, and the column.
fn shown(alloc: Global, first: &[u8], spaces: usize, column: u16) -> Result<Vec<u8>, NoMemory> {
    let mut shown = Vec::new(alloc);
    shown.extend_from_slice(first)?;
    for _ in 0..spaces {
        shown.push(b' ')?;
    }
    shown.extend_from_slice(&column.to_le_bytes())?;
    Ok(shown)
}

#[test]
fn texts(rt: HostRuntime) -> Result<(), Fail> {
    let alloc = rt.alloc();
    for Written(entry, r0, r1, column, bytes, after) in &WRITTEN {
        let call = Call {
            entry: *entry,
            r0: r0.cast_unsigned(),
            r1: *r1,
            column: u32::from(*column),
        };
        let shown = shown(alloc, bytes, 0, *after)?;
        assert!(rt;
            shows(alloc, call, &shown, Report::Done)?,
            "{entry} {r0} {column}"
        );
    }
    Ok(())
}

#[test]
fn rows_of_spaces(rt: HostRuntime) -> Result<(), Fail> {
    let alloc = rt.alloc();
    for Spaced(entry, r0, column, first, spaces, after) in &SPACED {
        let call = Call {
            entry: *entry,
            r0: r0.cast_unsigned(),
            r1: 0,
            column: u32::from(*column),
        };
        let shown = shown(alloc, first, *spaces, *after)?;
        assert!(rt;
            shows(alloc, call, &shown, Report::Done)?,
            "{entry} {r0} {column}"
        );
    }
    Ok(())
}
