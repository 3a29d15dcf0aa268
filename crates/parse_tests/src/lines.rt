//! Which lines are accepted.

use crate::rows::{
    ACCEPTED, OF_PROGRAMS, REFUSED_CALLS, REFUSED_LINES, REFUSED_PARTS, REFUSED_VALUES,
};
use bas_ast::Item;
use bas_lex::symbols;
use bas_parse::parse_line;
use basv_crunch::crunch;
use bv_base::LONGEST_TEXT;
use expr_parse::ParseError;
use sqlite_items::Items;
use std::alloc::{AllocError, Global};
use std::test::Fail;
use token_file::read_file;

/// The tokenised text of a line with this body.
fn tokenised(alloc: Global, body: &str) -> Result<Items<u8>, AllocError> {
    let mut text = b"10 ".to_vec(alloc)?;
    text.extend_from_slice(body.as_bytes())?;
    if text.len() >= 0x1_0000_0000 {
        return Ok(Items::new(alloc));
    }
    let Ok(file) = crunch(alloc, text.as_slice()) else {
        return Ok(Items::new(alloc));
    };
    if file.len() >= 0x1_0000_0000 {
        return Ok(Items::new(alloc));
    }
    match read_file(alloc, file.as_slice()) {
        Ok(lines) => match lines.first() {
            Some(line) => Items::from_slice(alloc, line.text.as_slice()),
            None => Ok(Items::new(alloc)),
        },
        Err(_) => Ok(Items::new(alloc)),
    }
}

/// The items of a line's tokenised text. A line that begins with `]` begins in the assembler.
#[tactic(auto, using(crate::proofs::Within::within_order))]
fn items_of(alloc: Global, text: &[u8]) -> Result<Items<Item>, ParseError> {
    if text.len() > LONGEST_TEXT {
        return Err(ParseError::NoMemory);
    }
    let asm = matches!(text, [b' ', b']', ..]);
    match symbols(alloc, text, asm) {
        Ok(run) => parse_line(alloc, &[], text, run.list.as_slice()),
        Err(_) => Err(ParseError::NoMemory),
    }
}

/// The items of a line with this body.
pub fn parsed(alloc: Global, body: &str) -> Result<Items<Item>, ParseError> {
    let text = tokenised(alloc, body)?;
    items_of(alloc, text.as_slice())
}

#[test]
fn accepted(rt: HostRuntime) -> Result<(), Fail> {
    for row in &ACCEPTED {
        assert!(rt; parsed(rt.alloc(), row).is_ok(), "{row}");
    }
    Ok(())
}

#[test]
fn of_programs(rt: HostRuntime) -> Result<(), Fail> {
    for row in &OF_PROGRAMS {
        assert!(rt; parsed(rt.alloc(), row).is_ok(), "{row}");
    }
    Ok(())
}

#[test]
fn refused_values(rt: HostRuntime) -> Result<(), Fail> {
    for row in &REFUSED_VALUES {
        assert!(rt;
            matches!(parsed(rt.alloc(), row), Err(ParseError::Outside)),
            "{row}"
        );
    }
    Ok(())
}

#[test]
fn refused_calls(rt: HostRuntime) -> Result<(), Fail> {
    for row in &REFUSED_CALLS {
        assert!(rt;
            matches!(parsed(rt.alloc(), row), Err(ParseError::Outside)),
            "{row}"
        );
    }
    Ok(())
}

#[test]
fn refused_parts(rt: HostRuntime) -> Result<(), Fail> {
    for row in &REFUSED_PARTS {
        assert!(rt;
            matches!(parsed(rt.alloc(), row), Err(ParseError::Outside)),
            "{row}"
        );
    }
    Ok(())
}

#[test]
fn refused_lines(rt: HostRuntime) -> Result<(), Fail> {
    for row in &REFUSED_LINES {
        assert!(rt;
            matches!(parsed(rt.alloc(), row), Err(ParseError::Outside)),
            "{row}"
        );
    }
    Ok(())
}
