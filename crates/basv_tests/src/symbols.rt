//! Texts and their symbols, by hand from the rules of the language.

use bas_lex::SymKind::{Call, Label, LineRef, Mark, Name, Number, Tail, Text, Token};
use bas_lex::sign_numbers::{
    CLOSE_SQUARE, COLON, COMMA, DOLLAR, EQUALS, GREATER, GREATER_OR_EQUAL, LESS, LESS_OR_EQUAL,
    MINUS_EQUALS, NOT_EQUAL, OPEN_ROUND, OPEN_SQUARE, PLUS, PLUS_EQUALS, SEMICOLON, SHIFT_LEFT,
    SHIFT_RIGHT, SHIFT_RIGHT_LOGICAL,
};
use bas_lex::{LexError, NO_SUFFIX, Sym, SymKind, symbols};
use bv_token::REM;
use std::alloc::Global;
use std::test::Fail;

/// A symbol's kind, the places of its first byte and of the byte after its last, and whether it is in the assembler.
type Row = (SymKind, u8, u8, bool);

fn are_rows(list: &[Sym], rows: &[Row]) -> bool {
    if list.len() != rows.len() {
        return false;
    }
    for (symbol, row) in list.iter().zip(rows.iter()) {
        let (kind, from, to, asm) = *row;
        if *symbol
            != (Sym {
                kind,
                from,
                to,
                asm,
            })
        {
            return false;
        }
    }
    true
}

/// Whether the text, which begins with the assembler off or on, has these symbols and no others, and the assembler is
/// off or on after it.
fn cuts(alloc: Global, text: &[u8], asm: bool, rows: &[Row], asm_after: bool) -> bool {
    if text.len() > 251 {
        return false;
    }
    match symbols(alloc, text, asm) {
        Ok(run) => run.asm_after == asm_after && are_rows(run.list.as_slice(), rows),
        Err(_) => false,
    }
}

/// Whether the text is bad at this place.
fn is_bad(alloc: Global, text: &[u8], asm: bool, place: u8) -> bool {
    if text.len() > 251 {
        return false;
    }
    match symbols(alloc, text, asm) {
        Err(LexError::Bad { at }) => at == place,
        _ => false,
    }
}

#[rattlefmt::skip]
/// Texts, whether the assembler is on before them, their symbols, and whether it is on after them.
const TEXTS: [(&[u8], bool, &[Row], bool); 20] = [
    (b"  ", false, &[], false),
    (b"%12 2147483647 007", false, &[(Number(1), 0, 2, false), (Number(2), 2, 3, false), (Number(2147483647), 4, 14, false), (Number(7), 15, 18, false)], false),
    (b"&FfG&FFFFFFFF&0080000000", false, &[(Number(255), 0, 3, false), (Name { suffix: NO_SUFFIX, bracket: false }, 3, 4, false), (Number(-1), 4, 13, false), (Number(-2147483648), 13, 24, false)], false),
    (b"%11111111111111111111111111111110", false, &[(Number(-2), 0, 33, false)], false),
    (b"\"\"1\"a\"\"b\"", false, &[(Text, 0, 2, false), (Number(1), 2, 3, false), (Text, 3, 9, false)], false),
    (b"x_1`%(A$(b@%(", false, &[(Name { suffix: b'%', bracket: true }, 0, 6, false), (Name { suffix: b'$', bracket: true }, 6, 9, false), (Name { suffix: NO_SUFFIX, bracket: false }, 9, 10, false), (Name { suffix: b'%', bracket: false }, 10, 12, false), (Mark(OPEN_ROUND), 12, 13, false)], false),
    (b"\xa41x$(\xf2_\xa4 a%$", false, &[(Call { function: true, bracket: true }, 0, 5, false), (Call { function: false, bracket: false }, 5, 7, false), (Token(0xa4), 7, 8, false), (Name { suffix: b'%', bracket: false }, 9, 11, false), (Mark(DOLLAR), 11, 12, false)], false),
    (b"\x7f\xcc\xc8\x98\xe5\x8dTJ@,", false, &[(Token(0x7f), 0, 1, false), (Token(0xcc), 1, 2, false), (Token(0xc898), 2, 4, false), (Token(0xe5), 4, 5, false), (LineRef(10), 5, 9, false), (Mark(COMMA), 9, 10, false)], false),
    (b":\xdc", false, &[(Mark(COLON), 0, 1, false), (Token(0xdc), 1, 2, false), (Tail, 2, 2, false)], false),
    (b">>>>= <> <<+=-=+ =>>", false, &[(Mark(SHIFT_RIGHT_LOGICAL), 0, 3, false), (Mark(GREATER_OR_EQUAL), 3, 5, false), (Mark(NOT_EQUAL), 6, 8, false), (Mark(SHIFT_LEFT), 9, 11, false), (Mark(PLUS_EQUALS), 11, 13, false), (Mark(MINUS_EQUALS), 13, 15, false), (Mark(PLUS), 15, 16, false), (Mark(EQUALS), 17, 18, false), (Mark(SHIFT_RIGHT), 18, 20, false)], false),
    (b"><=<\xf4 \"a", false, &[(Mark(GREATER), 0, 1, false), (Mark(LESS_OR_EQUAL), 1, 3, false), (Mark(LESS), 3, 4, false), (Token(0xf4), 4, 5, false), (Tail, 5, 8, false)], false),
    (b".loop$.a%(.@%", true, &[(Label, 0, 5, true), (Mark(DOLLAR), 5, 6, true), (Label, 6, 9, true), (Mark(OPEN_ROUND), 9, 10, true), (Label, 10, 13, true)], true),
    (b"a;b:]", true, &[(Name { suffix: NO_SUFFIX, bracket: false }, 0, 1, true)], true),
    (b"\\:]", true, &[], true),
    (b"\xf4:]", true, &[], true),
    (b"\xdc;", true, &[(Token(0xdc), 0, 1, true), (Tail, 1, 2, true)], true),
    (b"a: ];", true, &[(Name { suffix: NO_SUFFIX, bracket: false }, 0, 1, true), (Mark(COLON), 1, 2, true), (Mark(CLOSE_SQUARE), 3, 4, false), (Mark(SEMICOLON), 4, 5, false)], false),
    (b"[ ]a", true, &[(Mark(OPEN_SQUARE), 0, 1, true), (Mark(CLOSE_SQUARE), 2, 3, true), (Name { suffix: NO_SUFFIX, bracket: false }, 3, 4, true)], true),
    (b"[ ]a", false, &[(Mark(OPEN_SQUARE), 0, 1, false), (Mark(CLOSE_SQUARE), 2, 3, false), (Name { suffix: NO_SUFFIX, bracket: false }, 3, 4, false)], false),
    (b"[a[]:]", false, &[(Mark(OPEN_SQUARE), 0, 1, false), (Name { suffix: NO_SUFFIX, bracket: false }, 1, 2, true), (Mark(OPEN_SQUARE), 2, 3, true), (Mark(CLOSE_SQUARE), 3, 4, true), (Mark(COLON), 4, 5, true), (Mark(CLOSE_SQUARE), 5, 6, false)], false),
];

#[test]
fn texts_are_cut(rt: HostRuntime) -> Result<(), Fail> {
    for (text, asm, rows, asm_after) in TEXTS {
        assert!(rt; cuts(rt.alloc(), text, asm, rows, asm_after), "{text:?}");
    }
    Ok(())
}

#[rattlefmt::skip]
/// Texts, whether the assembler is on before them, and the place at which they are bad.
const BAD_TEXTS: [(&[u8], bool, u8); 18] = [
    (b"2147483648", false, 0),
    (b"1+&100000000", false, 2),
    (b"%100000000000000000000000000000000", false, 0),
    (b"&G", false, 0),
    (b"A%%2", false, 2),
    (b"@(", false, 0),
    (b"1.5", false, 1),
    (b"\xf1 \"x", false, 2),
    (b"\"\"\"", false, 2),
    (b"\"a\"\"b", false, 3),
    (b" \x8dTJ", false, 1),
    (b"1\xc8\xa3", false, 1),
    (b"\xc6", false, 0),
    (b"\\", false, 0),
    (b".loop", false, 0),
    (b"\x01", true, 0),
    (b".(", true, 0),
    (b"].", true, 1),
];

#[test]
fn texts_are_bad(rt: HostRuntime) -> Result<(), Fail> {
    for (text, asm, place) in BAD_TEXTS {
        assert!(rt; is_bad(rt.alloc(), text, asm, place), "{text:?}");
    }
    Ok(())
}

/// A line of as many symbols as a line can have: one more than its bytes.
#[test]
fn the_longest_list(rt: HostRuntime) -> Result<(), Fail> {
    let mut text = [b':'; 251];
    text[250] = REM;
    match symbols(rt.alloc(), &text, false) {
        Ok(run) => {
            assert_eq!(rt; run.list.len(), 252);
            let last = run.list.as_slice().last();
            assert!(rt;
                last == Some(&Sym {
                    kind: SymKind::Tail,
                    from: 251,
                    to: 251,
                    asm: false
                })
            );
        }
        Err(_) => assert!(rt; false),
    }
    Ok(())
}
