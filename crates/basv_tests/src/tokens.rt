//! Values from the tables of tokens and of references themselves, and the keywords at the front of a text, by hand from the
//! rules of tokenising.

use bv_token::{begins_pair, keyword, line_ref, longest_word, write_ref};
use std::test::Fail;

#[rattlefmt::skip]
/// The first byte of a token, its second, and its keyword, or none.
const KEYWORDS: [(u8, u8, &str); 13] = [
    (0x7f, 0, "OTHERWISE"), (0x8b, 0, "ELSE"), (0xcc, 0, "ELSE"), (0x8f, 0, "PTR"), (0xcf, 0, "PTR"), (0xff, 0xff, "OSCLI"),
    (0xc6, 0x8e, "SUM"), (0xc8, 0x8e, "CASE"), (0xc7, 0x8e, ""), (0xc8, 0xa3, ""), (0x7e, 0, ""), (0x8d, 0, ""), (0, 0, ""),
];

fn is_keyword(first: u8, second: u8, word: &str) -> bool {
    match keyword(first, second) {
        Some(found) => found == word.as_bytes(),
        None => word.is_empty(),
    }
}

#[test]
fn keywords_are_in_the_table(rt: HostRuntime) -> Result<(), Fail> {
    for (first, second, word) in KEYWORDS {
        assert!(rt; is_keyword(first, second, word), "{first:x} {second:x}");
    }
    for (byte, begins) in [(0xc6, true), (0xc8, true), (0xc9, false)] {
        assert_eq!(rt; begins_pair(byte), begins, "{byte:x}");
    }
    Ok(())
}

/// Line numbers and their three bytes.
const REFERENCES: [(u16, [u8; 3]); 3] = [
    (10, [0x54, 0x4a, 0x40]),
    (1000, [0x64, 0x68, 0x43]),
    (65279, [0x68, 0x7f, 0x7e]),
];

#[test]
fn references_are_read_back(rt: HostRuntime) -> Result<(), Fail> {
    for (line, bytes) in REFERENCES {
        assert_eq!(rt; write_ref(line), bytes, "{line}");
        assert_eq!(rt; line_ref(bytes), line, "{line}");
    }
    Ok(())
}

/// The words that count only where no name goes on after them, with their tokens.
const CLOSED: [(&[u8], u8, u16); 16] = [
    (b"CLSx", 3, 0xdb),
    (b"COUNTx", 5, 0x9c),
    (b"ENDx", 3, 0xe0),
    (b"ENDCASEx", 7, 0xcb),
    (b"ENDIFx", 5, 0xcd),
    (b"ENDPROCx", 7, 0xe1),
    (b"ENDWHILEx", 8, 0xce),
    (b"ERLx", 3, 0x9e),
    (b"ERRx", 3, 0x9f),
    (b"FALSEx", 5, 0xa3),
    (b"MOVEx", 4, 0xec),
    (b"QUITx", 4, 0xc898),
    (b"REPORTx", 6, 0xf6),
    (b"RETURNx", 6, 0xf8),
    (b"STOPx", 4, 0xfa),
    (b"TRUEx", 4, 0xb9),
];

fn closed_words_need_an_end() -> bool {
    for (text, size, token) in CLOSED {
        let end = usize::from(size);
        if text.len() != end + 1 || longest_word(text).is_some() {
            return false;
        }
        if longest_word(&text[..end]) != Some((size, token)) {
            return false;
        }
    }
    true
}

#[rattlefmt::skip]
/// Texts, and the longest word at their front with its token.
const LONGEST: [(&[u8], Option<(u8, u16)>); 15] = [
    (b"ERRORx", Some((5, 0x85))),
    (b"END_", None),
    (b"END`", None),
    (b"END7", None),
    (b"END%", Some((3, 0xe0))),
    (b"PRINTx", Some((5, 0xf1))),
    (b"STRING$(", Some((8, 0xc4))),
    (b"STRING$", None),
    (b"ELSE", Some((4, 0x8b))),
    (b"PTR", Some((3, 0x8f))),
    (b"TIME", Some((4, 0x91))),
    (b"SUMLEN", Some((3, 0xc68e))),
    (b"OTHERWISE", Some((9, 0x7f))),
    (b"print", None),
    (b"", None),
];

#[test]
fn the_longest_word_is_found(rt: HostRuntime) -> Result<(), Fail> {
    assert!(rt; closed_words_need_an_end());
    for (text, word) in LONGEST {
        assert_eq!(rt; longest_word(text), word, "{text:?}");
    }
    Ok(())
}
