//! Expressions, one character to a terminal: how many terminals the longest number and the longest string at the front
//! have. Each production stands here, and with each of its terminals left out, doubled, and swapped with the next. The
//! numbers were found by trying every split of the text by the grammar.

use bas_ast::{BinaryOp, Comparison, Keyword, NumExpr, StrExpr, Terminal, Width};
use expr_parse::{ParseError, front_num, front_text};
use sqlite_items::Items;
use std::alloc::{AllocError, Global};
use std::test::Fail;

/// A text, the number of terminals of the longest number at its front, and that of the longest string.
struct Row(&'static str, usize, usize);

/// `a s` are variables, `A S` those of arrays, `f g` functions and `F G` those with a bracket, of numbers and of strings;
/// `1 q L T W` a number, a string, a label, TRUE and GET$; `N B U E` NOT, ABS, USR and LEN; `I C R l M P` INSTR(, CHR$,
/// STR$, LEFT$(, MID$( and STRING$(; `| ^ &` OR, EOR and AND; `/ %` DIV and MOD; `{ }` the shifts.
#[rattlefmt::skip]
static ROWS: [Row; 353] = [
    Row("1", 1, 0), Row("", 0, 0), Row("11", 1, 0),
    Row("a|a", 3, 0), Row("|a", 0, 0), Row("aa|a", 1, 0), Row("|aa", 0, 0), Row("aa", 1, 0), Row("a||a", 1, 0), Row("aa|", 1, 0),
    Row("a|", 1, 0), Row("a|aa", 3, 0),
    Row("a&a", 3, 0), Row("&a", 0, 0), Row("aa&a", 1, 0), Row("&aa", 0, 0), Row("a&&a", 1, 0), Row("aa&", 1, 0), Row("a&", 1, 0),
    Row("a&aa", 3, 0),
    Row("a=1", 3, 0), Row("=1", 0, 0), Row("aa=1", 1, 0), Row("=a1", 0, 0), Row("a1", 1, 0), Row("a==1", 1, 0), Row("a1=", 1, 0),
    Row("a=", 1, 0), Row("a=11", 3, 0),
    Row("a{1", 3, 0), Row("{1", 0, 0), Row("aa{1", 1, 0), Row("{a1", 0, 0), Row("a{{1", 1, 0), Row("a1{", 1, 0), Row("a{", 1, 0),
    Row("a{11", 3, 0),
    Row("s=q", 3, 1), Row("=q", 0, 0), Row("ss=q", 0, 1), Row("=sq", 0, 0), Row("sq", 0, 1), Row("s==q", 0, 1), Row("sq=", 0, 1),
    Row("s=", 0, 1), Row("s=qq", 3, 1),
    Row("a+1", 3, 0), Row("+1", 2, 0), Row("aa+1", 1, 0), Row("+a1", 2, 0), Row("a++1", 4, 0), Row("a1+", 1, 0), Row("a+", 1, 0),
    Row("a+11", 3, 0),
    Row("a*1", 3, 0), Row("*1", 0, 0), Row("aa*1", 1, 0), Row("*a1", 0, 0), Row("a**1", 1, 0), Row("a1*", 1, 0), Row("a*", 1, 0),
    Row("a*11", 3, 0),
    Row("a?1", 3, 0), Row("?1", 2, 0), Row("aa?1", 1, 0), Row("?a1", 2, 0), Row("a??1", 4, 0), Row("a1?", 1, 0), Row("a?", 1, 0),
    Row("a?11", 3, 0),
    Row("a!A1)", 5, 0), Row("!A1)", 4, 0), Row("aa!A1)", 1, 0), Row("!aA1)", 2, 0), Row("aA1)", 1, 0), Row("a!!A1)", 6, 0),
    Row("aA!1)", 1, 0), Row("a!1)", 3, 0), Row("a!AA1)", 1, 0), Row("a!1A)", 3, 0), Row("a!A)", 1, 0), Row("a!A11)", 1, 0),
    Row("a!A)1", 1, 0), Row("a!A1", 1, 0), Row("a!A1))", 5, 0),
    Row("A1,a)", 5, 0), Row("1,a)", 1, 0), Row("AA1,a)", 0, 0), Row("1A,a)", 1, 0), Row("A,a)", 0, 0), Row("A11,a)", 0, 0),
    Row("A,1a)", 0, 0), Row("A1a)", 0, 0), Row("A1,,a)", 0, 0), Row("A1a,)", 0, 0), Row("A1,)", 0, 0), Row("A1,aa)", 0, 0),
    Row("A1,)a", 0, 0), Row("A1,a", 0, 0), Row("A1,a))", 5, 0),
    Row("(a)", 3, 0), Row("a)", 1, 0), Row("((a)", 0, 0), Row("a()", 1, 0), Row("()", 0, 0), Row("(aa)", 0, 0), Row("()a", 0, 0),
    Row("(a", 0, 0), Row("(a))", 3, 0),
    Row("-a", 2, 0), Row("a", 1, 0), Row("--a", 3, 0), Row("a-", 1, 0), Row("-", 0, 0), Row("-aa", 2, 0),
    Row("Na", 2, 0), Row("NNa", 3, 0), Row("aN", 1, 0), Row("N", 0, 0), Row("Naa", 2, 0),
    Row("?a", 2, 0), Row("??a", 3, 0), Row("?", 0, 0), Row("?aa", 2, 0),
    Row("Es", 2, 0), Row("s", 0, 1), Row("EEs", 0, 0), Row("sE", 0, 1), Row("E", 0, 0), Row("Ess", 2, 0),
    Row("Is,q)", 5, 0), Row("s,q)", 0, 1), Row("IIs,q)", 0, 0), Row("sI,q)", 0, 1), Row("I,q)", 0, 0), Row("Iss,q)", 0, 0),
    Row("I,sq)", 0, 0), Row("Isq)", 0, 0), Row("Is,,q)", 0, 0), Row("Isq,)", 0, 0), Row("Is,)", 0, 0), Row("Is,qq)", 0, 0),
    Row("Is,)q", 0, 0), Row("Is,q", 0, 0), Row("Is,q))", 5, 0),
    Row("Is,q,1)", 7, 0), Row("s,q,1)", 0, 1), Row("IIs,q,1)", 0, 0), Row("sI,q,1)", 0, 1), Row("I,q,1)", 0, 0), Row("Iss,q,1)", 0, 0),
    Row("I,sq,1)", 0, 0), Row("Isq,1)", 0, 0), Row("Is,,q,1)", 0, 0), Row("Isq,,1)", 0, 0), Row("Is,,1)", 0, 0), Row("Is,qq,1)", 0, 0),
    Row("Is,,q1)", 0, 0), Row("Is,q1)", 0, 0), Row("Is,q,,1)", 0, 0), Row("Is,q1,)", 0, 0), Row("Is,q,)", 0, 0), Row("Is,q,11)", 0, 0),
    Row("Is,q,)1", 0, 0), Row("Is,q,1", 0, 0), Row("Is,q,1))", 7, 0),
    Row("f", 1, 0), Row("ff", 1, 0),
    Row("F1)", 3, 0), Row("1)", 1, 0), Row("FF1)", 0, 0), Row("1F)", 1, 0), Row("F)", 0, 0), Row("F11)", 0, 0), Row("F)1", 0, 0),
    Row("F1", 0, 0), Row("F1))", 3, 0),
    Row("Fa,s)", 5, 0), Row("a,s)", 1, 0), Row("FFa,s)", 0, 0), Row("aF,s)", 1, 0), Row("F,s)", 0, 0), Row("Faa,s)", 0, 0),
    Row("F,as)", 0, 0), Row("Fas)", 0, 0), Row("Fa,,s)", 0, 0), Row("Fas,)", 0, 0), Row("Fa,)", 0, 0), Row("Fa,ss)", 0, 0),
    Row("Fa,)s", 0, 0), Row("Fa,s", 0, 0), Row("Fa,s))", 5, 0),
    Row("L", 1, 0), Row("LL", 1, 0),
    Row("T", 1, 0), Row("TT", 1, 0),
    Row("s+q", 0, 3), Row("+q", 0, 0), Row("ss+q", 0, 1), Row("+sq", 0, 0), Row("s++q", 0, 1), Row("sq+", 0, 1), Row("s+", 0, 1),
    Row("s+qq", 0, 3),
    Row("S1)", 0, 3), Row("SS1)", 0, 0), Row("1S)", 1, 0), Row("S)", 0, 0), Row("S11)", 0, 0), Row("S)1", 0, 0), Row("S1", 0, 0),
    Row("S1))", 0, 3),
    Row("(s)", 0, 3), Row("s)", 0, 1), Row("((s)", 0, 0), Row("s()", 0, 1), Row("(ss)", 0, 0), Row("()s", 0, 0), Row("(s", 0, 0),
    Row("(s))", 0, 3),
    Row("$a", 0, 2), Row("$$a", 0, 0), Row("a$", 1, 0), Row("$", 0, 0), Row("$aa", 0, 2),
    Row("C1", 0, 2), Row("CC1", 0, 0), Row("1C", 1, 0), Row("C", 0, 0), Row("C11", 0, 2),
    Row("R1", 0, 2), Row("RR1", 0, 0), Row("1R", 1, 0), Row("R", 0, 0), Row("R11", 0, 2),
    Row("R~a", 0, 3), Row("~a", 0, 0), Row("RR~a", 0, 0), Row("~Ra", 0, 0), Row("Ra", 0, 2), Row("R~~a", 0, 0), Row("Ra~", 0, 2),
    Row("R~", 0, 0), Row("R~aa", 0, 3),
    Row("W", 0, 1), Row("WW", 0, 1),
    Row("ls)", 0, 3), Row("lls)", 0, 0), Row("sl)", 0, 1), Row("l)", 0, 0), Row("lss)", 0, 0), Row("l)s", 0, 0), Row("ls", 0, 0),
    Row("ls))", 0, 3),
    Row("ls,1)", 0, 5), Row("s,1)", 0, 1), Row("lls,1)", 0, 0), Row("sl,1)", 0, 1), Row("l,1)", 0, 0), Row("lss,1)", 0, 0),
    Row("l,s1)", 0, 0), Row("ls1)", 0, 0), Row("ls,,1)", 0, 0), Row("ls1,)", 0, 0), Row("ls,)", 0, 0), Row("ls,11)", 0, 0),
    Row("ls,)1", 0, 0), Row("ls,1", 0, 0), Row("ls,1))", 0, 5),
    Row("Ms,1)", 0, 5), Row("MMs,1)", 0, 0), Row("sM,1)", 0, 1), Row("M,1)", 0, 0), Row("Mss,1)", 0, 0), Row("M,s1)", 0, 0),
    Row("Ms1)", 0, 0), Row("Ms,,1)", 0, 0), Row("Ms1,)", 0, 0), Row("Ms,)", 0, 0), Row("Ms,11)", 0, 0), Row("Ms,)1", 0, 0),
    Row("Ms,1", 0, 0), Row("Ms,1))", 0, 5),
    Row("Ms,1,a)", 0, 7), Row("s,1,a)", 0, 1), Row("MMs,1,a)", 0, 0), Row("sM,1,a)", 0, 1), Row("M,1,a)", 0, 0), Row("Mss,1,a)", 0, 0),
    Row("M,s1,a)", 0, 0), Row("Ms1,a)", 0, 0), Row("Ms,,1,a)", 0, 0), Row("Ms1,,a)", 0, 0), Row("Ms,,a)", 0, 0), Row("Ms,11,a)", 0, 0),
    Row("Ms,,1a)", 0, 0), Row("Ms,1a)", 0, 0), Row("Ms,1,,a)", 0, 0), Row("Ms,1a,)", 0, 0), Row("Ms,1,)", 0, 0), Row("Ms,1,aa)", 0, 0),
    Row("Ms,1,)a", 0, 0), Row("Ms,1,a", 0, 0), Row("Ms,1,a))", 0, 7),
    Row("P1,s)", 0, 5), Row("1,s)", 1, 0), Row("PP1,s)", 0, 0), Row("1P,s)", 1, 0), Row("P,s)", 0, 0), Row("P11,s)", 0, 0),
    Row("P,1s)", 0, 0), Row("P1s)", 0, 0), Row("P1,,s)", 0, 0), Row("P1s,)", 0, 0), Row("P1,)", 0, 0), Row("P1,ss)", 0, 0),
    Row("P1,)s", 0, 0), Row("P1,s", 0, 0), Row("P1,s))", 0, 5),
    Row("g", 0, 1), Row("gg", 0, 1),
    Row("Gs)", 0, 3), Row("GGs)", 0, 0), Row("sG)", 0, 1), Row("G)", 0, 0), Row("Gss)", 0, 0), Row("G)s", 0, 0), Row("Gs", 0, 0),
    Row("Gs))", 0, 3),
    Row("a?a?a", 3, 0), Row("?a?a", 4, 0), Row("a?-a?a", 6, 0), Row("a!,", 1, 0), Row("a=a=a", 3, 0), Row("s=s=s", 3, 1),
    Row("s+a", 0, 1), Row("a+s", 1, 0), Row("1+s=s", 1, 0), Row("a&s=s", 5, 0), Row("a|a&a=a+a*a", 11, 0), Row("a*a+a=a&a|a", 11, 0),
    Row("a=a+1=a", 5, 0), Row("-s", 0, 0), Row("(s=s)", 5, 0), Row("(a,", 0, 0), Row("Fa", 0, 0), Row("a?(a?a)", 7, 0),
    Row("a?A1)?a", 5, 0), Row("(a?a)?a", 5, 0), Row("Es+s", 2, 0), Row("C1+s", 0, 4), Row("$a?1+q", 0, 6), Row("a{1{1", 3, 0),
];

/// An operator, by its character.
fn operator(byte: u8) -> Option<BinaryOp> {
    match byte {
        b'|' => Some(BinaryOp::Or),
        b'^' => Some(BinaryOp::Eor),
        b'&' => Some(BinaryOp::And),
        b'=' => Some(BinaryOp::Compare(Comparison::Equal)),
        b'<' => Some(BinaryOp::Compare(Comparison::Less)),
        b'{' => Some(BinaryOp::ShiftLeft),
        b'}' => Some(BinaryOp::ShiftRight),
        b'+' => Some(BinaryOp::Add),
        b'-' => Some(BinaryOp::Subtract),
        b'*' => Some(BinaryOp::Multiply),
        b'/' => Some(BinaryOp::Divide),
        b'%' => Some(BinaryOp::Remainder),
        _ => None,
    }
}

/// A keyword, by its character.
fn keyword(byte: u8) -> Option<Keyword> {
    match byte {
        b'T' => Some(Keyword::True),
        b'W' => Some(Keyword::GetText),
        b'N' => Some(Keyword::Not),
        b'B' => Some(Keyword::Abs),
        b'U' => Some(Keyword::Usr),
        b'E' => Some(Keyword::Len),
        b'I' => Some(Keyword::Instr),
        b'C' => Some(Keyword::Chr),
        b'R' => Some(Keyword::Str),
        b'l' => Some(Keyword::Left),
        b'M' => Some(Keyword::Mid),
        b'P' => Some(Keyword::Copies),
        _ => None,
    }
}

/// A terminal, by its character.
fn terminal(byte: u8) -> Terminal {
    if let Some(op) = operator(byte) {
        return Terminal::Operator(op);
    }
    if let Some(word) = keyword(byte) {
        return Terminal::Keyword(word);
    }
    match byte {
        b'1' => Terminal::Number(1),
        b'q' => Terminal::Literal(0),
        b'a' => Terminal::IntName(0),
        b's' => Terminal::StrName(1),
        b'A' => Terminal::IntArray(2),
        b'S' => Terminal::StrArray(3),
        b'L' => Terminal::Label(4),
        b'f' => Terminal::NumFunction(5),
        b'F' => Terminal::NumFunctionOpen(5),
        b'g' => Terminal::StrFunction(6),
        b'G' => Terminal::StrFunctionOpen(6),
        b'?' => Terminal::Indirection(Width::Byte),
        b'!' => Terminal::Indirection(Width::Word),
        b'$' => Terminal::Dollar,
        b'(' => Terminal::Open,
        b')' => Terminal::Close,
        b',' => Terminal::Comma,
        b'~' => Terminal::Tilde,
        _ => Terminal::Other,
    }
}

fn terminals(alloc: Global, text: &[u8]) -> Result<Items<Terminal>, AllocError> {
    let mut list = Items::new(alloc);
    for byte in text {
        list.push(terminal(*byte))?;
    }
    Ok(list)
}

/// Some terminals, each as often as is said.
fn repeated(alloc: Global, parts: &[(u8, usize)]) -> Result<Items<Terminal>, AllocError> {
    let mut list = Items::new(alloc);
    for (byte, times) in parts {
        for _ in 0..*times {
            list.push(terminal(*byte))?;
        }
    }
    Ok(list)
}

/// The number of terminals that were read, 0 for none, and a number that no row has where memory was out.
fn num_read(answer: Result<(NumExpr, usize), ParseError>) -> usize {
    match answer {
        Ok((_, count)) => count,
        Err(ParseError::Outside) => 0,
        Err(ParseError::NoMemory) => usize::MAX,
    }
}

fn text_read(answer: Result<(StrExpr, usize), ParseError>) -> usize {
    match answer {
        Ok((_, count)) => count,
        Err(ParseError::Outside) => 0,
        Err(ParseError::NoMemory) => usize::MAX,
    }
}

#[test]
fn fronts(rt: HostRuntime) -> Result<(), Fail> {
    for Row(text, number, string) in &ROWS {
        let list = terminals(rt.alloc(), text.as_bytes())?;
        assert_eq!(rt; num_read(front_num(rt.alloc(), list.as_slice())), *number);
        assert_eq!(rt; text_read(front_text(rt.alloc(), list.as_slice())), *string);
    }
    Ok(())
}

/// As deep as a line of 251 bytes can nest, and as long as it can go on.
#[test]
fn the_deepest(rt: HostRuntime) -> Result<(), Fail> {
    let alloc = rt.alloc();
    let brackets = repeated(alloc, &[(b'(', 125), (b'a', 1), (b')', 125)])?;
    assert_eq!(rt; num_read(front_num(alloc, brackets.as_slice())), 251);
    let open = repeated(alloc, &[(b'(', 251)])?;
    assert_eq!(rt; num_read(front_num(alloc, open.as_slice())), 0);
    let functions = repeated(alloc, &[(b'F', 125), (b'1', 1), (b')', 125)])?;
    assert_eq!(rt; num_read(front_num(alloc, functions.as_slice())), 251);
    let prefixes = repeated(alloc, &[(b'-', 250), (b'1', 1)])?;
    assert_eq!(rt; num_read(front_num(alloc, prefixes.as_slice())), 251);
    let mut sum = Items::new(alloc);
    for _ in 0..125 {
        sum.push(terminal(b'1'))?;
        sum.push(terminal(b'+'))?;
    }
    assert_eq!(rt; num_read(front_num(alloc, sum.as_slice())), 249);
    Ok(())
}
