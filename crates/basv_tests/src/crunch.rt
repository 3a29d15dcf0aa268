//! Texts and their files, by hand from the rules of tokenising.

ghost use Rattle.std.specs.Prelude.{◌<◌, ◌^◌};

use basv_crunch::{CrunchError, crunch};
use lister::list_lines;
use std::alloc::{AllocError, Global};
use std::test::Fail;
use token_file::read_file;

/// The file of a text, or the empty one, which is no file, where there is none.
fn file_of(alloc: Global, text: &[u8]) -> Vec<u8> {
    if text.len() >= 0x1_0000_0000 {
        return Vec::new(alloc);
    }
    match crunch(alloc, text) {
        Ok(file) => file,
        Err(_) => Vec::new(alloc),
    }
}

/// The piece for which a text is refused, or 0.
fn bad_piece(alloc: Global, text: &[u8]) -> u32 {
    if text.len() >= 0x1_0000_0000 {
        return 0;
    }
    match crunch(alloc, text) {
        Err(CrunchError::BadText { line }) => line,
        _ => 0,
    }
}

/// Whether a text of one line numbered 10 with this body has these tokens in its record.
fn makes(alloc: Global, body: &[u8], tokens: &[u8]) -> Result<bool, AllocError> {
    let mut text = b"10".to_vec(alloc)?;
    text.extend_from_slice(body)?;
    let mut want = b"\x0d\x00\x0a".to_vec(alloc)?;
    want.push((tokens.len() % 252) as u8 + 4)?;
    want.extend_from_slice(tokens)?;
    want.extend_from_slice(b"\x0d\xff")?;
    Ok(file_of(alloc, text.as_slice()).as_slice() == want.as_slice())
}

#[rattlefmt::skip]
/// Bodies of lines, and their tokens.
const BODIES: [(&[u8], &[u8]); 21] = [
    (b" PRINT 5", b" \xf1 5"),
    (b"GOTO 10", b"\xe5 \x8dTJ@"),
    (b"GOTO10", b"\xe5\x8dTJ@"),
    (b"MOVEQ R0,R1", b"MOVEQ R0,R1"),
    (b"GOTO 010", b"\xe5 010"),
    (b"GOTO 0", b"\xe5 \x8dT@@"),
    (b"GOTO 65279:GOTO 65280", b"\xe5 \x8d\x68\x7f\x7e:\xe5 65280"),
    (b"ON A% GOTO 10 ,20, 10", b"\xee A% \xe5 \x8dTJ@ ,\x8dTT@, \x8dTJ@"),
    (b"IF A% THEN 10 ELSE20", b"\xe7 A% \x8c \x8dTJ@ \x8b\x8dTT@"),
    (b"RESTORE10:GOSUB 10:10", b"\xf7\x8dTJ@:\xe4 \x8dTJ@:10"),
    (b"GOTO 10 20", b"\xe5 \x8dTJ@ 20"),
    (b"  ELSE 10", b"  \xcc 10"),
    (b":ELSE 10", b":\x8b \x8dTJ@"),
    (b"PROCPRINT(FNEND):FN X%", b"\xf2PRINT(\xa4END):\xa4 X%"),
    (b"PRINT\"END\xe5\"END", b"\xf1\"END\xe5\"\xe0"),
    (b"PRINT\"END", b"\xf1\"END"),
    (b"REM END \"\xff", b"\xf4 END \"\xff"),
    (b"DATAEND,10", b"\xdcEND,10"),
    (b"A=&ENDPI:a_END=SUM", b"A=&ENDPI:a_END=\xc6\x8e"),
    (b"ENDs:END%:ENDPROCs", b"ENDs:\xe0%:ENDPROCs"),
    (b"PRINTs", b"\xf1s"),
];

#[test]
fn bodies_are_tokenised(rt: HostRuntime) -> Result<(), Fail> {
    for (body, tokens) in BODIES {
        assert!(rt; makes(rt.alloc(), body, tokens)?, "{body:?}");
    }
    Ok(())
}

/// Texts of the same two lines.
const ALIKE: [&[u8]; 3] = [
    b"10END\n20\n",
    b"10END\r\n20\r\n",
    b"\n  \n  10END\n\r\n00020",
];

/// Texts, and the piece for which each is refused, or 0.
const BAD_TEXTS: [(&[u8], u32); 12] = [
    (b"", 0),
    (b"PRINT 1", 1),
    (b"10\n\n  \nPRINT 1", 4),
    (b"10END\r", 1),
    (b"10\r\r\n", 1),
    (b"10\x7f", 1),
    (b"10\"\x7f", 1),
    (b"10\xe5", 1),
    (b"10A\tB", 1),
    (b"65280A", 1),
    (b"100000A", 1),
    (b"065279A", 0),
];

#[test]
fn texts_are_cut(rt: HostRuntime) -> Result<(), Fail> {
    let alloc = rt.alloc();
    let want = b"\x0d\x00\x0a\x05\xe0\x0d\x00\x14\x04\x0d\xff".as_slice();
    for text in ALIKE {
        assert_eq!(rt; file_of(alloc, text).as_slice(), want, "{text:?}");
    }
    for (text, piece) in BAD_TEXTS {
        assert_eq!(rt; bad_piece(alloc, text), piece, "{text:?}");
    }
    assert_eq!(rt; file_of(alloc, b"").as_slice(), b"\x0d\xff".as_slice());
    Ok(())
}

/// A line whose body is a number of colons.
fn colons(alloc: Global, count: usize) -> Result<Vec<u8>, AllocError>
    requires { count < 2 ^ 32 }
{
    let mut text = b"1".to_vec(alloc)?;
    for _ in 0..count {
        text.push(b':')?;
    }
    text.push(b'\n')?;
    Ok(text)
}

/// 65,534 lines without a body, whose records have four bytes each, and a line.
fn long_text(alloc: Global, last: &[u8]) -> Result<Vec<u8>, AllocError> {
    let mut text = Vec::new(alloc);
    for _ in 0..65_534 {
        text.extend_from_slice(b"1\n")?;
    }
    text.extend_from_slice(last)?;
    Ok(text)
}

/// 65,534 records of four bytes are 262,136, so a record of six and the end's two make the longest file.
#[test]
fn lengths_are_limited(rt: HostRuntime) -> Result<(), Fail> {
    let alloc = rt.alloc();
    assert_eq!(rt; bad_piece(alloc, colons(alloc, 251)?.as_slice()), 0);
    assert_eq!(rt; bad_piece(alloc, colons(alloc, 252)?.as_slice()), 1);
    let longest = long_text(alloc, b"1==")?;
    assert_eq!(rt; file_of(alloc, longest.as_slice()).len(), 262_144);
    let longer = long_text(alloc, b"1===")?;
    if longer.len() < 0x1_0000_0000 {
        assert!(rt; matches!(crunch(alloc, longer.as_slice()), Err(CrunchError::TooLong)));
    }
    Ok(())
}

/// Whether the file of a text lists as this, and the listing has the same file.
fn comes_back(alloc: Global, text: &[u8], listing: &[u8]) -> Result<bool, Fail> {
    let file = file_of(alloc, text);
    if file.len() >= 0x1_0000_0000 {
        return Ok(false);
    }
    match read_file(alloc, file.as_slice()) {
        Ok(lines) => match list_lines(alloc, lines.as_slice()) {
            Ok(listed) => Ok(
                listed.as_slice() == listing
                    && file_of(alloc, listing).as_slice() == file.as_slice(),
            ),
            Err(_) => Ok(false),
        },
        Err(_) => Ok(false),
    }
}

#[test]
fn listings_have_the_same_file(rt: HostRuntime) -> Result<(), Fail> {
    let alloc = rt.alloc();
    assert!(rt;
        comes_back(
            alloc,
            b"0010 IF A% THEN 20 ELSE PRINT\"END\";SUM\r\n\r\n 20REM END\n  65279ELSE GOTO 0,10 , 20",
            b"   10 IF A% THEN 20 ELSE PRINT\"END\";SUM\n   20REM END\n65279ELSE GOTO 0,10 , 20\n",
        )?
    );
    Ok(())
}
