//! The cut of a text into symbols, piece by piece.
ghost use Rattle.std.specs.Prelude.{◌≡◌, ◌≢◌, ◌≤◌, ◌+◌, ◌∷◌, length, IfOk, IfErr};
ghost use Rattle.std.specs.List.{AllByRecursion};
ghost use Rattle.bas_lex.specs.Kinds.{IsSymbol};
ghost use Rattle.bas_lex.specs.Cut.{begins_comment, mode_after_sign, mode_after_symbol, symbol_at, Symbols, AreInOrder, IsFilled, IsTailLast, IsSpelled, Explains};
ghost use Rattle.bas_lex.specs.Scan.{Best};
ghost use Rattle.bas_lex.specs.Next.{IsNext, TakesPiece, ExplainsPiece};

use crate::front::{Front, split_byte};
use crate::name::{read_call, read_label, read_name, read_system_name};
use crate::number::{Radix, read_number};
use crate::sign::read_sign;
use crate::sign_numbers::{CLOSE_SQUARE, COLON, OPEN_SQUARE};
use crate::symbol::{LexError, Mode, Sym, SymKind, SymbolRun};
use crate::text::read_text;
use crate::token::{read_line_ref, read_token};
use bv_base::LONGEST_TEXT;
use bv_token::{DATA, FN, LINE_REFERENCE, OTHERWISE, PROC, REM, begins_name};
use sqlite_items::Items;
use std::alloc::Global;

/// A space.
const SPACE: u8 = b' ';

/// The longest symbol at the front of `text`, which is `first` and `after`.
fn read_symbol(text: &[u8], first: u8, after: &[u8], asm: bool) -> Option<Front>
    requires whole { text.now ≡ first ∷ after.now }
    requires not_rem { first ≢ REM }
    requires not_data { first ≢ DATA }
    ensures { Best (IsSymbol asm) text.now result }
{
    match first {
        b'0'..=b'9' => read_number(Radix::Decimal, text),
        b'&' => read_number(Radix::Hexadecimal, after),
        b'%' => read_number(Radix::Binary, after),
        b'"' => read_text(after),
        b'.' => read_label(after, asm),
        b'@' => read_system_name(after),
        LINE_REFERENCE => read_line_ref(after),
        FN => Some(read_call(true, after)),
        PROC => Some(read_call(false, after)),
        OTHERWISE.. => read_token(first, after),
        _ if begins_name(first) => Some(read_name(first, after)),
        _ => read_sign(text),
    }
}

fn begins_comment(byte: u8, asm: bool) -> bool
    ensures { result ≡ begins_comment asm byte }
{
    asm && matches!(byte, b';' | b'\\' | REM)
}

/// What comes first in a text.
enum Next<'a> {
    /// A space, and what follows it.
    Space(&'a [u8]),
    /// A comment, to the line's end.
    Comment,
    /// REM or DATA, and the Tail to the line's end.
    Tailed(u8, &'a [u8]),
    Symbol(Front),
    Nothing,
}

fn read_next(text: &[u8], asm: bool) -> Next<'_>
    ensures { IsNext asm text.now result }
{
    let Some((first, after)) = split_byte(text) else {
        return Next::Nothing;
    };
    if begins_comment(first, asm) {
        return Next::Comment;
    }
    if first == SPACE {
        return Next::Space(after);
    }
    if first == REM || first == DATA {
        return Next::Tailed(first, after);
    }
    match read_symbol(text, first, after, asm) {
        Some(front) => Next::Symbol(front),
        None => Next::Nothing,
    }
}

fn mode_after_sign(mode: Mode, number: u8) -> Mode
    ensures { result ≡ mode_after_sign mode number }
{
    match number {
        OPEN_SQUARE => Mode {
            asm: true,
            start: !mode.asm,
        },
        CLOSE_SQUARE if mode.start => Mode {
            asm: false,
            start: false,
        },
        _ => Mode {
            asm: mode.asm,
            start: number == COLON,
        },
    }
}

fn mode_after_symbol(mode: Mode, kind: SymKind) -> Mode
    ensures { result ≡ mode_after_symbol mode kind }
{
    match kind {
        SymKind::Mark(number) => mode_after_sign(mode, number),
        _ => Mode {
            asm: mode.asm,
            start: false,
        },
    }
}

fn symbol_at(from: u8, mode: Mode, kind: SymKind, size: usize) -> Sym
    requires { from + size ≤ LONGEST_TEXT }
    ensures { result ≡ symbol_at from mode kind size }
{
    Sym {
        kind,
        from,
        to: from + size as u8,
        asm: mode.asm && mode_after_symbol(mode, kind).asm,
    }
}

/// Takes what comes first in `text`, adds its symbols to the list, and gives what follows it. `at` is the place
/// of `text` in the line.
fn take_piece<'a>(
    list: &mut Vec<Sym>,
    mode: &mut Mode,
    at: u8,
    text: &'a [u8],
) -> Result<&'a [u8], LexError>
    requires { at + length text.now ≤ LONGEST_TEXT }
    ensures ok { IfOk result (λ rest. TakesPiece at text.now mode.old list.old.items rest.now mode.new list.new.items) }
    ensures err { IfErr result (ExplainsPiece at mode.old text.now) }
{
    match read_next(text, mode.asm) {
        Next::Space(after) => Ok(after),
        Next::Comment => Ok(&[]),
        Next::Tailed(token, tail) => {
            let token = symbol_at(at, *mode, SymKind::Token(u16::from(token)), 1);
            let tail = symbol_at(at + 1, *mode, SymKind::Tail, tail.len());
            list.extend_from_slice(&[token, tail])?;
            Ok(&[])
        }
        Next::Symbol(front) => {
            list.push(symbol_at(at, *mode, front.kind, front.size))?;
            *mode = mode_after_symbol(*mode, front.kind);
            Ok(&text[front.size..])
        }
        Next::Nothing => Err(LexError::Bad { at }),
    }
}

/// The symbols of a line's text, of at most `LONGEST_TEXT` bytes, that begins with the assembler off or on. Their spans
/// are in order, only a Tail may be empty, and a symbol's text is its part of the line's (BBC BASIC Reference Manual,
/// variables, constants, keywords, operators and the assembler).
pub fn symbols(alloc: Global, text: &[u8], asm: bool) -> Result<SymbolRun, LexError>
    requires { length text.now ≤ LONGEST_TEXT }
    ensures ok { IfOk result (λ run. Symbols asm text.now run.list run.asm_after) }
    ensures spans { IfOk result (λ run. AreInOrder 0 run.list (length text.now)) }
    ensures filled { IfOk result (λ run. AllByRecursion IsFilled run.list) }
    ensures tail { IfOk result (λ run. IsTailLast run.list) }
    ensures count { IfOk result (λ run. length run.list ≤ length text.now + 1) }
    ensures texts { IfOk result (λ run. AllByRecursion (IsSpelled text.now) run.list) }
    ensures err { IfErr result (Explains asm text.now) }
{
    let mut list = Vec::new(alloc);
    let mut mode = Mode { asm, start: true };
    let mut rest = text;
    'pieces: while !rest.is_empty() {
        let at = (text.len() - rest.len()) as u8;
        rest = take_piece(&mut list, &mut mode, at, rest)?;
    }
    Ok(SymbolRun {
        list: Items::from_vec(list),
        asm_after: mode.asm,
    })
}
