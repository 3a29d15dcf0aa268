//! The terminals of a line's symbols.

ghost use Rattle.std.specs.Prelude.{◌≡◌, ◌≤◌, ◌<◌, ◌^◌, length, slice_range, IfOk};
ghost use Rattle.expr_parse.specs.Terminals as spec;

use bas_ast::{BinaryOp, Comparison, Keyword, Name, Terminal, Width};
use bas_lex::{Sym, SymKind};
use sqlite_items::Items;
use std::alloc::{AllocError, Global};

/// The first of the single tokens.
const FIRST: u16 = 0x7f;

#[rattlefmt::skip]
static SINGLE_TOKENS: [Terminal; 129] = [
    // 7F: OTHERWISE
    Terminal::Keyword(Keyword::Otherwise),
    // 80: AND DIV EOR MOD OR ERROR LINE OFF STEP SPC TAB( ELSE THEN - OPENIN PTR
    Terminal::Operator(BinaryOp::And), Terminal::Operator(BinaryOp::Divide), Terminal::Operator(BinaryOp::Eor), Terminal::Operator(BinaryOp::Remainder),
    Terminal::Operator(BinaryOp::Or), Terminal::Keyword(Keyword::Error), Terminal::Keyword(Keyword::Line), Terminal::Keyword(Keyword::Off),
    Terminal::Keyword(Keyword::Step), Terminal::Keyword(Keyword::Spc), Terminal::Keyword(Keyword::Tab), Terminal::Keyword(Keyword::Else),
    Terminal::Keyword(Keyword::Then), Terminal::Other, Terminal::Other, Terminal::Other,
    // 90: PAGE TIME LOMEM HIMEM ABS ACS ADVAL ASC ASN ATN BGET COS COUNT DEG ERL ERR
    Terminal::Other, Terminal::Other, Terminal::Other, Terminal::Other,
    Terminal::Keyword(Keyword::Abs), Terminal::Other, Terminal::Other, Terminal::Keyword(Keyword::Asc),
    Terminal::Other, Terminal::Other, Terminal::Other, Terminal::Other,
    Terminal::Keyword(Keyword::Count), Terminal::Other, Terminal::Keyword(Keyword::Erl), Terminal::Keyword(Keyword::Err),
    // A0: EVAL EXP EXT FALSE FN GET INKEY INSTR( INT LEN LN LOG NOT OPENUP OPENOUT PI
    Terminal::Other, Terminal::Other, Terminal::Other, Terminal::Keyword(Keyword::False),
    Terminal::Other, Terminal::Keyword(Keyword::Get), Terminal::Other, Terminal::Keyword(Keyword::Instr),
    Terminal::Keyword(Keyword::Int), Terminal::Keyword(Keyword::Len), Terminal::Other, Terminal::Other,
    Terminal::Keyword(Keyword::Not), Terminal::Other, Terminal::Other, Terminal::Other,
    // B0: POINT( POS RAD RND SGN SIN SQR TAN TO TRUE USR VAL VPOS CHR$ GET$ INKEY$
    Terminal::Other, Terminal::Other, Terminal::Other, Terminal::Other,
    Terminal::Keyword(Keyword::Sgn), Terminal::Other, Terminal::Other, Terminal::Other,
    Terminal::Keyword(Keyword::To), Terminal::Keyword(Keyword::True), Terminal::Keyword(Keyword::Usr), Terminal::Keyword(Keyword::Val),
    Terminal::Other, Terminal::Keyword(Keyword::Chr), Terminal::Keyword(Keyword::GetText), Terminal::Other,
    // C0: LEFT$( MID$( RIGHT$( STR$ STRING$( EOF - - - WHEN OF ENDCASE ELSE ENDIF ENDWHILE PTR
    Terminal::Keyword(Keyword::Left), Terminal::Keyword(Keyword::Mid), Terminal::Keyword(Keyword::Right), Terminal::Keyword(Keyword::Str),
    Terminal::Keyword(Keyword::Copies), Terminal::Other, Terminal::Other, Terminal::Other,
    Terminal::Other, Terminal::Keyword(Keyword::When), Terminal::Keyword(Keyword::Of), Terminal::Keyword(Keyword::EndCase),
    Terminal::Keyword(Keyword::BlockElse), Terminal::Keyword(Keyword::EndIf), Terminal::Keyword(Keyword::EndWhile), Terminal::Other,
    // D0: PAGE TIME LOMEM HIMEM SOUND BPUT CALL CHAIN CLEAR CLOSE CLG CLS DATA DEF DIM DRAW
    Terminal::Other, Terminal::Other, Terminal::Other, Terminal::Other,
    Terminal::Other, Terminal::Other, Terminal::Keyword(Keyword::Call), Terminal::Other,
    Terminal::Other, Terminal::Other, Terminal::Other, Terminal::Keyword(Keyword::Cls),
    Terminal::Keyword(Keyword::Data), Terminal::Keyword(Keyword::Def), Terminal::Keyword(Keyword::Dim), Terminal::Other,
    // E0: END ENDPROC ENVELOPE FOR GOSUB GOTO GCOL IF INPUT LET LOCAL MODE MOVE NEXT ON VDU
    Terminal::Keyword(Keyword::End), Terminal::Keyword(Keyword::EndProc), Terminal::Other, Terminal::Keyword(Keyword::For),
    Terminal::Keyword(Keyword::Gosub), Terminal::Keyword(Keyword::Goto), Terminal::Other, Terminal::Keyword(Keyword::If),
    Terminal::Keyword(Keyword::Input), Terminal::Keyword(Keyword::Let), Terminal::Keyword(Keyword::Local), Terminal::Keyword(Keyword::Mode),
    Terminal::Other, Terminal::Keyword(Keyword::Next), Terminal::Keyword(Keyword::On), Terminal::Keyword(Keyword::Vdu),
    // F0: PLOT PRINT PROC READ REM REPEAT REPORT RESTORE RETURN RUN STOP COLOUR TRACE UNTIL WIDTH OSCLI
    Terminal::Other, Terminal::Keyword(Keyword::Print), Terminal::Other, Terminal::Keyword(Keyword::Read),
    Terminal::Keyword(Keyword::Rem), Terminal::Keyword(Keyword::Repeat), Terminal::Keyword(Keyword::Report), Terminal::Keyword(Keyword::Restore),
    Terminal::Keyword(Keyword::Return), Terminal::Other, Terminal::Keyword(Keyword::Stop), Terminal::Keyword(Keyword::Colour),
    Terminal::Other, Terminal::Keyword(Keyword::Until), Terminal::Other, Terminal::Other,
];

#[rattlefmt::skip]
static SIGNS: [Terminal; 30] = [
    Terminal::Operator(BinaryOp::Add), Terminal::Operator(BinaryOp::Subtract), Terminal::Operator(BinaryOp::Multiply),
    Terminal::Operator(BinaryOp::Compare(Comparison::Equal)), Terminal::Operator(BinaryOp::Compare(Comparison::Less)), Terminal::Operator(BinaryOp::Compare(Comparison::Greater)),
    Terminal::Operator(BinaryOp::Compare(Comparison::NotEqual)), Terminal::Operator(BinaryOp::Compare(Comparison::LessOrEqual)), Terminal::Operator(BinaryOp::Compare(Comparison::GreaterOrEqual)),
    Terminal::Operator(BinaryOp::ShiftLeft), Terminal::Operator(BinaryOp::ShiftRightSigned), Terminal::Operator(BinaryOp::ShiftRight),
    Terminal::PlusEquals, Terminal::MinusEquals, Terminal::Open,
    Terminal::Close, Terminal::Comma, Terminal::Semicolon,
    Terminal::Colon, Terminal::Apostrophe, Terminal::Tilde,
    Terminal::Indirection(Width::Byte), Terminal::Indirection(Width::Word), Terminal::Dollar,
    Terminal::Other, Terminal::OpenSquare, Terminal::CloseSquare,
    Terminal::Other, Terminal::Other, Terminal::Other,
];

/// The terminal at a place of a table.
fn terminal_at(table: &[Terminal], place: usize) -> Terminal
    ensures { result ≡ spec.terminal_at table.now place }
{
    match table.get(place) {
        Some(terminal) => *terminal,
        None => Terminal::Other,
    }
}

/// The terminal of a token.
#[tactic(auto, unfolding(crate::specs::Terminals::terminal_of_token, crate::specs::Terminals::single_tokens))]
fn of_token(token: u16) -> Terminal
    ensures { result ≡ spec.terminal_of_token token }
{
    match token {
        0xc88e => Terminal::Keyword(Keyword::Case),
        0xc894 => Terminal::Keyword(Keyword::Swap),
        0xc895 => Terminal::Keyword(Keyword::While),
        0xc898 => Terminal::Keyword(Keyword::Quit),
        _ => match token.checked_sub(FIRST) {
            Some(place) => terminal_at(&SINGLE_TOKENS, usize::from(place)),
            None => Terminal::Other,
        },
    }
}

/// The terminal of a sign.
#[tactic(auto, unfolding(crate::specs::Terminals::sign_terminals))]
fn of_sign(number: u8) -> Terminal
    ensures { result ≡ spec.terminal_at spec.sign_terminals number }
{
    terminal_at(&SIGNS, usize::from(number))
}

/// Whether a name without suffix is a label of the file.
#[tactic(auto, unfolding(crate::specs::Terminals::is_label))]
fn is_label(labels: &[Name], bytes: &[u8]) -> bool
    ensures { result ≡ spec.is_label labels.now bytes.now }
{
    labels.iter().any(|label| label.text.as_slice() == bytes)
}

/// The terminal of a name.
#[tactic(auto, unfolding(crate::specs::Terminals::terminal_of_name))]
fn of_name(labels: &[Name], bytes: &[u8], n: u16, suffix: u8, bracket: bool) -> Terminal
    ensures { result ≡ spec.terminal_of_name labels.now bytes.now n suffix bracket }
{
    match (suffix, bracket) {
        (b'%', false) => Terminal::IntName(n),
        (b'%', true) => Terminal::IntArray(n),
        (b'$', false) => Terminal::StrName(n),
        (b'$', true) => Terminal::StrArray(n),
        (_, true) => Terminal::Other,
        (_, false) => {
            if is_label(labels, bytes) {
                Terminal::Label(n)
            } else {
                Terminal::Other
            }
        }
    }
}

/// The terminal of FN or PROC with a name.
#[tactic(auto, unfolding(crate::specs::Terminals::terminal_of_call))]
fn of_call(bytes: &[u8], n: u16, function: bool, bracket: bool) -> Terminal
    ensures { result ≡ spec.terminal_of_call bytes.now n function bracket }
{
    if !function {
        return if bracket {
            Terminal::ProcedureOpen(n)
        } else {
            Terminal::Procedure(n)
        };
    }
    if bracket {
        if bytes.ends_with(b"$(") {
            Terminal::StrFunctionOpen(n)
        } else {
            Terminal::NumFunctionOpen(n)
        }
    } else if bytes.ends_with(b"$") {
        Terminal::StrFunction(n)
    } else {
        Terminal::NumFunction(n)
    }
}

/// The terminal of a symbol, which has this place in its line.
#[tactic(auto, unfolding(crate::specs::Terminals::terminal_of))]
fn of_symbol(labels: &[Name], text: &[u8], n: u16, sym: Sym) -> Terminal
    requires from { sym.from ≤ sym.to }
    requires to { sym.to ≤ length text.now }
    ensures { result ≡ spec.terminal_of labels.now text.now n sym }
{
    let bytes = &text[usize::from(sym.from)..usize::from(sym.to)];
    match sym.kind {
        SymKind::Token(token) => of_token(token),
        SymKind::Name { suffix, bracket } => of_name(labels, bytes, n, suffix, bracket),
        SymKind::Call { function, bracket } => of_call(bytes, n, function, bracket),
        SymKind::Label => Terminal::Other,
        SymKind::Number(value) => Terminal::Number(value),
        SymKind::Text => Terminal::Literal(u32::from(n)),
        SymKind::LineRef(number) => Terminal::LineRef(number),
        SymKind::Mark(number) => of_sign(number),
        SymKind::Tail => Terminal::Tail(u32::from(n)),
    }
}

/// The terminals of a line's symbols, which lie in its text.
pub fn terminals(
    alloc: Global,
    labels: &[Name],
    text: &[u8],
    syms: &[Sym],
) -> Result<Items<Terminal>, AllocError>
    requires few { length syms.now < 2 ^ 16 }
    requires within { spec.AreWithin text.now syms.now }
    ensures { IfOk result (λ list. list ≡ spec.terminals_of labels.now text.now syms.now) }
{
    let mut found = Items::new(alloc);
    for i in 0..syms.len() {
        found.push(of_symbol(labels, text, i as u16, syms[i]))?;
    }
    Ok(found)
}
