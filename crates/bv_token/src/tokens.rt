//! The table of tokens and their keywords.
ghost use Rattle.std.specs.Prelude.{◌≡◌, [], map, slice_index_or};
ghost use Rattle.std.specs.Option.{option_map};
ghost use Rattle.bv_token.specs.Tokens.{begins_pair, keyword_of, keyword_of_pair, keyword_of_token, pairs, unless_empty};

/// The token of OTHERWISE, which is alone before the others.
pub const OTHERWISE: u8 = 0x7f;

/// The first of the tokens that are in rows.
pub const FIRST_TOKEN: u8 = 0x80;

/// The token of ELSE after an item.
pub const ELSE: u8 = 0x8b;

/// The token of THEN.
pub const THEN: u8 = 0x8c;

/// The token of FN, which begins a call of a function.
pub const FN: u8 = 0xa4;

/// The first of the bytes that begin a token of two bytes.
pub const PAIR_FIRST: u8 = 0xc6;

/// The last of the bytes that begin a token of two bytes.
pub const PAIR_LAST: u8 = 0xc8;

/// The token of ELSE at the start of a line.
pub const LINE_ELSE: u8 = 0xcc;

/// The token of DATA, whose items are the bytes to the line's end.
pub const DATA: u8 = 0xdc;

/// The token of END.
pub const END: u8 = 0xe0;

/// The token of GOSUB.
pub const GOSUB: u8 = 0xe4;

/// The token of GOTO.
pub const GOTO: u8 = 0xe5;

/// The token of VDU.
pub const VDU: u8 = 0xef;

/// The token of PROC, which begins a call of a procedure.
pub const PROC: u8 = 0xf2;

/// The token of REM, whose comment is the bytes to the line's end.
pub const REM: u8 = 0xf4;

/// The token of RESTORE.
pub const RESTORE: u8 = 0xf7;

/// The keywords of the tokens from `FIRST_TOKEN` on, sixteen to a row. A token that has none has an empty one.
#[rattlefmt::skip]
static KEYWORDS: [&str; 128] = [
    "AND", "DIV", "EOR", "MOD", "OR", "ERROR", "LINE", "OFF", "STEP", "SPC", "TAB(", "ELSE", "THEN", "", "OPENIN", "PTR",
    "PAGE", "TIME", "LOMEM", "HIMEM", "ABS", "ACS", "ADVAL", "ASC", "ASN", "ATN", "BGET", "COS", "COUNT", "DEG", "ERL", "ERR",
    "EVAL", "EXP", "EXT", "FALSE", "FN", "GET", "INKEY", "INSTR(", "INT", "LEN", "LN", "LOG", "NOT", "OPENUP", "OPENOUT", "PI",
    "POINT(", "POS", "RAD", "RND", "SGN", "SIN", "SQR", "TAN", "TO", "TRUE", "USR", "VAL", "VPOS", "CHR$", "GET$", "INKEY$",
    "LEFT$(", "MID$(", "RIGHT$(", "STR$", "STRING$(", "EOF", "", "", "", "WHEN", "OF", "ENDCASE", "ELSE", "ENDIF", "ENDWHILE", "PTR",
    "PAGE", "TIME", "LOMEM", "HIMEM", "SOUND", "BPUT", "CALL", "CHAIN", "CLEAR", "CLOSE", "CLG", "CLS", "DATA", "DEF", "DIM", "DRAW",
    "END", "ENDPROC", "ENVELOPE", "FOR", "GOSUB", "GOTO", "GCOL", "IF", "INPUT", "LET", "LOCAL", "MODE", "MOVE", "NEXT", "ON", "VDU",
    "PLOT", "PRINT", "PROC", "READ", "REM", "REPEAT", "REPORT", "RESTORE", "RETURN", "RUN", "STOP", "COLOUR", "TRACE", "UNTIL", "WIDTH", "OSCLI",
];

/// The keyword of a pair, which is empty where there is none.
pub fn pair_keyword(first: u8, second: u8) -> &'static str
    ensures { unless_empty result.now ≡ keyword_of_pair pairs first second }
{
    match (first, second) {
        (0xc6, 0x8e) => "SUM",
        (0xc8, 0x8e) => "CASE",
        (0xc8, 0x94) => "SWAP",
        (0xc8, 0x95) => "WHILE",
        (0xc8, 0x98) => "QUIT",
        (0xc8, 0x99) => "SYS",
        _ => "",
    }
}

/// The keyword at a place, or the empty one after the last.
fn keyword_at(keywords: &[&'static str], place: u8) -> &'static str
    ensures { result.now ≡ slice_index_or (map (λ keyword. keyword.now) keywords.now) place [] }
{
    match keywords.get(usize::from(place)) {
        Some(keyword) => keyword,
        None => "",
    }
}

/// The keyword of a single token, which is empty where there is none.
pub fn single_keyword(token: u8) -> &'static str
    ensures { unless_empty result.now ≡ keyword_of_token token }
{
    if token == OTHERWISE {
        return "OTHERWISE";
    }
    match token.checked_sub(FIRST_TOKEN) {
        Some(place) => keyword_at(&KEYWORDS, place),
        None => "",
    }
}

/// Whether the byte begins a token of two bytes: whether it is one of `PAIR_FIRST` to `PAIR_LAST`.
pub fn begins_pair(byte: u8) -> bool
    ensures { result ≡ begins_pair byte }
{
    (PAIR_FIRST..=PAIR_LAST).contains(&byte)
}

/// The keyword of the token `first`, or of both bytes where `first` begins a token of two bytes.
/// There is none where the table has none (BBC BASIC Reference Manual, keyword tokens).
pub fn keyword(first: u8, second: u8) -> Option<&'static [u8]>
    ensures { option_map (λ word. word.now) result ≡ keyword_of first second }
{
    let word = if begins_pair(first) {
        pair_keyword(first, second)
    } else {
        single_keyword(first)
    };
    if word.is_empty() {
        return None;
    }
    Some(word.as_bytes())
}
