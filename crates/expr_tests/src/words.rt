//! The terminals of all tokens, by their keywords.

use bas_ast::{BinaryOp, Keyword, Terminal};
use bas_lex::{Sym, SymKind};
use bv_token::keyword;
use expr_parse::terminals;
use std::alloc::Global;
use std::test::Fail;

/// The terminal of a keyword.
struct Word(&'static str, Terminal);

/// All keywords that the grammar has, but for ELSE.
#[rattlefmt::skip]
static WORDS: [Word; 73] = [
    Word("AND", Terminal::Operator(BinaryOp::And)),
    Word("DIV", Terminal::Operator(BinaryOp::Divide)),
    Word("EOR", Terminal::Operator(BinaryOp::Eor)),
    Word("MOD", Terminal::Operator(BinaryOp::Remainder)),
    Word("OR", Terminal::Operator(BinaryOp::Or)),
    Word("ABS", Terminal::Keyword(Keyword::Abs)),
    Word("ASC", Terminal::Keyword(Keyword::Asc)),
    Word("CALL", Terminal::Keyword(Keyword::Call)),
    Word("CASE", Terminal::Keyword(Keyword::Case)),
    Word("CHR$", Terminal::Keyword(Keyword::Chr)),
    Word("CLS", Terminal::Keyword(Keyword::Cls)),
    Word("COLOUR", Terminal::Keyword(Keyword::Colour)),
    Word("COUNT", Terminal::Keyword(Keyword::Count)),
    Word("DATA", Terminal::Keyword(Keyword::Data)),
    Word("DEF", Terminal::Keyword(Keyword::Def)),
    Word("DIM", Terminal::Keyword(Keyword::Dim)),
    Word("END", Terminal::Keyword(Keyword::End)),
    Word("ENDCASE", Terminal::Keyword(Keyword::EndCase)),
    Word("ENDIF", Terminal::Keyword(Keyword::EndIf)),
    Word("ENDPROC", Terminal::Keyword(Keyword::EndProc)),
    Word("ENDWHILE", Terminal::Keyword(Keyword::EndWhile)),
    Word("ERL", Terminal::Keyword(Keyword::Erl)),
    Word("ERR", Terminal::Keyword(Keyword::Err)),
    Word("ERROR", Terminal::Keyword(Keyword::Error)),
    Word("FALSE", Terminal::Keyword(Keyword::False)),
    Word("FOR", Terminal::Keyword(Keyword::For)),
    Word("GET", Terminal::Keyword(Keyword::Get)),
    Word("GET$", Terminal::Keyword(Keyword::GetText)),
    Word("GOSUB", Terminal::Keyword(Keyword::Gosub)),
    Word("GOTO", Terminal::Keyword(Keyword::Goto)),
    Word("IF", Terminal::Keyword(Keyword::If)),
    Word("INPUT", Terminal::Keyword(Keyword::Input)),
    Word("INSTR(", Terminal::Keyword(Keyword::Instr)),
    Word("INT", Terminal::Keyword(Keyword::Int)),
    Word("LEFT$(", Terminal::Keyword(Keyword::Left)),
    Word("LEN", Terminal::Keyword(Keyword::Len)),
    Word("LET", Terminal::Keyword(Keyword::Let)),
    Word("LINE", Terminal::Keyword(Keyword::Line)),
    Word("LOCAL", Terminal::Keyword(Keyword::Local)),
    Word("MID$(", Terminal::Keyword(Keyword::Mid)),
    Word("MODE", Terminal::Keyword(Keyword::Mode)),
    Word("NEXT", Terminal::Keyword(Keyword::Next)),
    Word("NOT", Terminal::Keyword(Keyword::Not)),
    Word("OF", Terminal::Keyword(Keyword::Of)),
    Word("OFF", Terminal::Keyword(Keyword::Off)),
    Word("ON", Terminal::Keyword(Keyword::On)),
    Word("OTHERWISE", Terminal::Keyword(Keyword::Otherwise)),
    Word("PRINT", Terminal::Keyword(Keyword::Print)),
    Word("QUIT", Terminal::Keyword(Keyword::Quit)),
    Word("READ", Terminal::Keyword(Keyword::Read)),
    Word("REM", Terminal::Keyword(Keyword::Rem)),
    Word("REPEAT", Terminal::Keyword(Keyword::Repeat)),
    Word("REPORT", Terminal::Keyword(Keyword::Report)),
    Word("RESTORE", Terminal::Keyword(Keyword::Restore)),
    Word("RETURN", Terminal::Keyword(Keyword::Return)),
    Word("RIGHT$(", Terminal::Keyword(Keyword::Right)),
    Word("SGN", Terminal::Keyword(Keyword::Sgn)),
    Word("SPC", Terminal::Keyword(Keyword::Spc)),
    Word("STEP", Terminal::Keyword(Keyword::Step)),
    Word("STOP", Terminal::Keyword(Keyword::Stop)),
    Word("STR$", Terminal::Keyword(Keyword::Str)),
    Word("STRING$(", Terminal::Keyword(Keyword::Copies)),
    Word("SWAP", Terminal::Keyword(Keyword::Swap)),
    Word("TAB(", Terminal::Keyword(Keyword::Tab)),
    Word("THEN", Terminal::Keyword(Keyword::Then)),
    Word("TO", Terminal::Keyword(Keyword::To)),
    Word("TRUE", Terminal::Keyword(Keyword::True)),
    Word("UNTIL", Terminal::Keyword(Keyword::Until)),
    Word("USR", Terminal::Keyword(Keyword::Usr)),
    Word("VAL", Terminal::Keyword(Keyword::Val)),
    Word("VDU", Terminal::Keyword(Keyword::Vdu)),
    Word("WHEN", Terminal::Keyword(Keyword::When)),
    Word("WHILE", Terminal::Keyword(Keyword::While)),
];

/// The terminal of a token, by its keyword. ELSE at the start of a line is a token of its own.
fn wanted(first: u8, second: u8) -> Terminal {
    match (first, keyword(first, second)) {
        (0x8b, _) => Terminal::Keyword(Keyword::Else),
        (0xcc, _) => Terminal::Keyword(Keyword::BlockElse),
        (_, Some(written)) => {
            for Word(word, terminal) in &WORDS {
                if word.as_bytes() == written {
                    return *terminal;
                }
            }
            Terminal::Other
        }
        (_, None) => Terminal::Other,
    }
}

/// Whether the token has this terminal.
fn is_terminal(alloc: Global, token: u16, want: Terminal) -> bool {
    let sym = Sym {
        kind: SymKind::Token(token),
        from: 0,
        to: 0,
        asm: false,
    };
    match terminals(alloc, &[], &[], &[sym]) {
        Ok(list) => list.as_slice() == [want].as_slice(),
        Err(_) => false,
    }
}

#[test]
fn tokens(rt: HostRuntime) -> Result<(), Fail> {
    for token in 0..=255u8 {
        assert!(rt;
            is_terminal(rt.alloc(), u16::from(token), wanted(token, 0))
                || (0xc6..=0xc8).contains(&token)
        );
    }
    for first in 0xc6..=0xc8u8 {
        for second in 0..=255u8 {
            let token = u16::from(first) * 256 + u16::from(second);
            assert!(rt; is_terminal(rt.alloc(), token, wanted(first, second)));
        }
    }
    Ok(())
}
