//! Tables of values that the language itself gives.

use bv_num::{
    ShiftKind, abs, add, and, data_value, decimal, digit_run, div, eor, equal, greater,
    greater_or_equal, hex, less, less_or_equal, mul, neg, not, not_equal, or, rem, shift, sub,
    value_of,
};

/// The calls of arithmetic; the last two take one number.
#[derive(Clone, Copy, Debug)]
enum Call {
    Add,
    Sub,
    Mul,
    Div,
    Rem,
    Neg,
    Abs,
}

fn answer(call: Call, a: i32, b: i32) -> Result<i32, u8> {
    match call {
        Call::Add => add(a, b),
        Call::Sub => sub(a, b),
        Call::Mul => mul(a, b),
        Call::Div => div(a, b),
        Call::Rem => rem(a, b),
        Call::Neg => neg(a),
        Call::Abs => abs(a),
    }
}

const ARITHMETIC: [(Call, i32, i32, Result<i32, u8>); 22] = [
    (Call::Add, 2147483647, 1, Err(20)),
    (Call::Add, -2147483648, 2147483647, Ok(-1)),
    (Call::Sub, -2147483648, 1, Err(20)),
    (Call::Sub, 0, -2147483648, Err(20)),
    (Call::Mul, 65536, -32768, Ok(-2147483648)),
    (Call::Mul, 65536, 32768, Err(20)),
    (Call::Mul, 65536, 65536, Err(20)),
    (Call::Div, 7, 2, Ok(3)),
    (Call::Div, -7, 2, Ok(-3)),
    (Call::Div, 7, -2, Ok(-3)),
    (Call::Div, -7, -2, Ok(3)),
    (Call::Div, -2147483648, -1, Err(20)),
    (Call::Div, 5, 0, Err(18)),
    (Call::Rem, -7, 2, Ok(-1)),
    (Call::Rem, 7, -2, Ok(1)),
    (Call::Rem, -2147483648, -1, Ok(0)),
    (Call::Rem, -2147483648, 0, Err(18)),
    (Call::Neg, 5, 0, Ok(-5)),
    (Call::Neg, -2147483648, 0, Err(20)),
    (Call::Abs, -5, 0, Ok(5)),
    (Call::Abs, -2147483648, 0, Err(20)),
    (Call::Abs, 2147483647, 0, Ok(2147483647)),
];

#[test]
fn computes(rt: HostRuntime) {
    for (call, a, b, wanted) in ARITHMETIC {
        assert_eq!(rt; answer(call, a, b), wanted, "{call:?} {a} {b}");
    }
}

/// Pairs of numbers with their AND, OR and EOR, and with `=`, `<>`, `<`, `>`, `<=` and `>=` of them.
const BITS_AND_COMPARISONS: [(i32, i32, [i32; 3], [i32; 6]); 5] = [
    (12, 10, [8, 14, 6], [0, -1, 0, -1, 0, -1]),
    (-1, 5, [5, -1, -6], [0, -1, -1, 0, -1, 0]),
    (-8, -8, [-8, -8, 0], [-1, 0, 0, 0, -1, -1]),
    (-2147483648, 2147483647, [0, -1, -1], [0, -1, -1, 0, -1, 0]),
    (
        0,
        -2147483648,
        [0, -2147483648, -2147483648],
        [0, -1, 0, -1, 0, -1],
    ),
];

/// Numbers and their NOT.
const COMPLEMENTS: [(i32, i32); 3] = [(0, -1), (-2147483648, 2147483647), (5, -6)];

/// `=`, `<>`, `<`, `>`, `<=` and `>=` of two numbers.
fn compared(a: i32, b: i32) -> [i32; 6] {
    [
        equal(a, b),
        not_equal(a, b),
        less(a, b),
        greater(a, b),
        less_or_equal(a, b),
        greater_or_equal(a, b),
    ]
}

#[test]
fn bits_and_comparisons(rt: HostRuntime) {
    for (a, b, bits, comparisons) in BITS_AND_COMPARISONS {
        assert_eq!(rt; [and(a, b), or(a, b), eor(a, b)], bits, "{a} {b}");
        assert_eq!(rt; compared(a, b), comparisons, "{a} {b}");
    }
    for (a, complement) in COMPLEMENTS {
        assert_eq!(rt; not(a), complement, "{a}");
    }
}

const SHIFTS: [(ShiftKind, i32, i32, i32); 16] = [
    (ShiftKind::Left, 3, 0, 3),
    (ShiftKind::Left, 3, 1, 6),
    (ShiftKind::Left, 3, 31, -2147483648),
    (ShiftKind::Left, 3, 32, 0),
    (ShiftKind::Left, 3, 256, 3),
    (ShiftKind::Left, 3, -255, 6),
    (ShiftKind::Right, -8, 1, -4),
    (ShiftKind::Right, -7, 1, -4),
    (ShiftKind::Right, -8, 31, -1),
    (ShiftKind::Right, -8, 255, -1),
    (ShiftKind::Right, 8, 32, 0),
    (ShiftKind::Right, 8, -1, 0),
    (ShiftKind::RightLogical, -8, 28, 15),
    (ShiftKind::RightLogical, -8, 0, -8),
    (ShiftKind::RightLogical, -1, 31, 1),
    (ShiftKind::RightLogical, -1, 32, 0),
];

#[test]
fn shifts(rt: HostRuntime) {
    for (kind, a, b, wanted) in SHIFTS {
        assert_eq!(rt; shift(kind, a, b), wanted, "{kind:?} {a} {b}");
    }
}

/// The text is at the front of a number's digits, and zeros follow it.
fn has_its_text_in_front() -> bool {
    let digits = decimal(-70);
    digits.bytes == [b'-', b'7', b'0', 0, 0, 0, 0, 0, 0, 0, 0] && digits.len == 3
}

const DECIMAL: [(i32, &[u8]); 5] = [
    (0, b"0"),
    (-7, b"-7"),
    (100, b"100"),
    (2147483647, b"2147483647"),
    (-2147483648, b"-2147483648"),
];

const HEXADECIMAL: [(u32, &[u8]); 3] = [(0, b"0"), (0xa, b"A"), (0xffff_ffff, b"FFFFFFFF")];

#[test]
fn writes(rt: HostRuntime) {
    for (number, text) in DECIMAL {
        assert_eq!(rt; decimal(number).as_slice(), text, "{number}");
    }
    for (number, text) in HEXADECIMAL {
        assert_eq!(rt; hex(number).as_slice(), text, "{number:x}");
    }
    assert!(rt; has_its_text_in_front());
}

const TEXTS: [(&[u8], Result<i32, u8>, Result<i32, u8>); 16] = [
    (b"", Ok(0), Ok(0)),
    (b"  +12x", Ok(12), Ok(12)),
    (b"-2147483648", Ok(-2147483648), Ok(-2147483648)),
    (b"2147483647", Ok(2147483647), Ok(2147483647)),
    (b"2147483648", Err(20), Err(20)),
    (b"-2147483649", Err(20), Err(20)),
    (b"4294967297", Err(20), Err(20)),
    (b"- 5", Ok(0), Ok(0)),
    (b"--5", Ok(0), Ok(0)),
    (b"&ff", Ok(0), Ok(255)),
    (b"&FFFFFFFF", Ok(0), Ok(-1)),
    (b"&7fFFfFfF!", Ok(0), Ok(2147483647)),
    (b"&100000000", Ok(0), Err(20)),
    (b"& 1", Ok(0), Ok(0)),
    (b"&G", Ok(0), Ok(0)),
    (b" &1", Ok(0), Ok(0)),
];

/// 300 zeros and a 7, and 1,000 nines.
fn reads_long_texts() -> bool {
    let mut text = [b'0'; 301];
    text[300] = b'7';
    value_of(&text) == Ok(7) && value_of(&[b'9'; 1000]) == Err(20)
}

#[rattlefmt::skip]
/// A base and a text, the number of its first digits and their value. All of them are counted, and a value past 32 bits is
/// 2^32.
const RUNS: [(u32, &[u8], usize, u64); 3] = [
    (10, b"0065279:9", 7, 65279),
    (16, b"100000000fG", 10, 4294967296),
    (2, b"2", 0, 0),
];

/// The number of the first digits of a text and their value.
fn run_of(base: u32, text: &[u8]) -> Option<(usize, u64)> {
    if !(2..=36).contains(&base) {
        return None;
    }
    let run = digit_run(base, text);
    Some((run.count, run.value))
}

#[test]
fn reads(rt: HostRuntime) {
    for (text, value, item) in TEXTS {
        assert_eq!(rt; value_of(text), value, "{text:?}");
        assert_eq!(rt; data_value(text), item, "{text:?}");
    }
    for (base, text, count, value) in RUNS {
        assert_eq!(rt; run_of(base, text), Some((count, value)), "{text:?}");
    }
    assert!(rt; reads_long_texts());
}
