//! What a terminal is at the front of an expression, and how tightly operators bind.

ghost use Rattle.std.specs.Prelude.{◌≡◌, ◌≤◌, IfOk};
ghost use Rattle.std.specs.Option.{option_map};
ghost use Rattle.bas_ast.specs.Words.{role, word_role, level, left_level};
ghost use Rattle.expr_parse.specs.Parse as spec;
ghost use Rattle.expr_parse.specs.Prefixes.{prefixed_number, function_of_text, prefixed_text};

use bas_ast::{BinaryOp, Keyword, NumExpr, Side, StrExpr, Terminal, TextFunction, UnaryOp, Width};
use sqlite_items::{Boxed, Items};
use std::alloc::{AllocError, Global};

/// A word or a sign before one number that makes a number of it.
#[derive(Debug, Clone, Copy, PartialEq, Eq, Drop)]
pub enum Prefix {
    Unary(UnaryOp),
    Indirect(Width),
    Usr,
}

/// A word or a sign before one number that makes a string of it.
#[derive(Debug, Clone, Copy, PartialEq, Eq, Drop)]
pub enum TextPrefix {
    Indirect,
    Character,
}

/// The number that one keyword is by itself.
fn constant(word: Keyword) -> Option<NumExpr>
    ensures { result ≡ spec.alone (word_role word) }
{
    match word {
        Keyword::True => Some(NumExpr::True),
        Keyword::False => Some(NumExpr::False),
        Keyword::Err => Some(NumExpr::Err),
        Keyword::Erl => Some(NumExpr::Erl),
        Keyword::Count => Some(NumExpr::Count),
        Keyword::Get => Some(NumExpr::Get),
        _ => None,
    }
}

/// The number that one terminal is by itself.
pub fn alone(alloc: Global, terminal: Terminal) -> Option<NumExpr>
    ensures { result ≡ spec.alone (role terminal) }
{
    match terminal {
        Terminal::Number(value) => Some(NumExpr::Number(value)),
        Terminal::Label(name) => Some(NumExpr::Label(name)),
        Terminal::NumFunction(name) => Some(NumExpr::Function(name, Items::new(alloc))),
        Terminal::Keyword(word) => constant(word),
        _ => None,
    }
}

/// The string that one terminal is by itself.
pub fn alone_text(alloc: Global, terminal: Terminal) -> Option<StrExpr>
    ensures { result ≡ spec.alone_text (role terminal) }
{
    match terminal {
        Terminal::Literal(number) => Some(StrExpr::Literal(number)),
        Terminal::StrFunction(name) => Some(StrExpr::Function(name, Items::new(alloc))),
        Terminal::Keyword(Keyword::GetText) => Some(StrExpr::Get),
        _ => None,
    }
}

/// The prefix that a terminal is.
pub fn prefix_of(terminal: Terminal) -> Option<Prefix>
    ensures { option_map prefixed_number result ≡ spec.before_number (role terminal) }
{
    match terminal {
        Terminal::Operator(BinaryOp::Add) => Some(Prefix::Unary(UnaryOp::Plus)),
        Terminal::Operator(BinaryOp::Subtract) => Some(Prefix::Unary(UnaryOp::Minus)),
        Terminal::Indirection(width) => Some(Prefix::Indirect(width)),
        Terminal::Keyword(Keyword::Not) => Some(Prefix::Unary(UnaryOp::Not)),
        Terminal::Keyword(Keyword::Abs) => Some(Prefix::Unary(UnaryOp::Abs)),
        Terminal::Keyword(Keyword::Sgn) => Some(Prefix::Unary(UnaryOp::Sgn)),
        Terminal::Keyword(Keyword::Int) => Some(Prefix::Unary(UnaryOp::Int)),
        Terminal::Keyword(Keyword::Usr) => Some(Prefix::Usr),
        _ => None,
    }
}

/// The function of a string that a terminal is.
pub fn text_function_of(terminal: Terminal) -> Option<TextFunction>
    ensures { option_map function_of_text result ≡ spec.before_text (role terminal) }
{
    match terminal {
        Terminal::Keyword(Keyword::Asc) => Some(TextFunction::Asc),
        Terminal::Keyword(Keyword::Len) => Some(TextFunction::Len),
        Terminal::Keyword(Keyword::Val) => Some(TextFunction::Val),
        _ => None,
    }
}

/// The prefix that a terminal is which makes a string.
pub fn text_prefix_of(terminal: Terminal) -> Option<TextPrefix>
    ensures { option_map prefixed_text result ≡ spec.text_before_number (role terminal) }
{
    match terminal {
        Terminal::Dollar => Some(TextPrefix::Indirect),
        Terminal::Keyword(Keyword::Chr) => Some(TextPrefix::Character),
        _ => None,
    }
}

/// The end of a string that a terminal takes.
pub fn side_of(terminal: Terminal) -> Option<Side>
    ensures { result ≡ spec.takes_part (role terminal) }
{
    match terminal {
        Terminal::Keyword(Keyword::Left) => Some(Side::Left),
        Terminal::Keyword(Keyword::Right) => Some(Side::Right),
        _ => None,
    }
}

/// The number that a prefix makes of one.
pub fn apply(alloc: Global, prefix: Prefix, x: NumExpr) -> Result<NumExpr, AllocError>
    ensures { IfOk result (λ tree. tree ≡ prefixed_number prefix x) }
{
    let operand = Boxed::new(alloc, x)?;
    Ok(match prefix {
        Prefix::Unary(op) => NumExpr::Unary(op, operand),
        Prefix::Indirect(width) => NumExpr::Indirect(width, operand),
        Prefix::Usr => NumExpr::Usr(operand),
    })
}

/// The string that a prefix makes of a number.
pub fn apply_text(alloc: Global, prefix: TextPrefix, x: NumExpr) -> Result<StrExpr, AllocError>
    ensures { IfOk result (λ tree. tree ≡ prefixed_text prefix x) }
{
    let operand = Boxed::new(alloc, x)?;
    Ok(match prefix {
        TextPrefix::Indirect => StrExpr::Indirect(operand),
        TextPrefix::Character => StrExpr::Character(operand),
    })
}

/// How tightly an operator binds.
pub fn level(op: BinaryOp) -> u8
    ensures value { result ≡ level op }
    ensures small { result ≤ 5 }
{
    match op {
        BinaryOp::Or | BinaryOp::Eor => 1,
        BinaryOp::And => 2,
        BinaryOp::Compare(_)
        | BinaryOp::ShiftLeft
        | BinaryOp::ShiftRightSigned
        | BinaryOp::ShiftRight => 3,
        BinaryOp::Add | BinaryOp::Subtract => 4,
        BinaryOp::Multiply | BinaryOp::Divide | BinaryOp::Remainder => 5,
    }
}

/// The least level of an operator's left operand.
pub fn left_level(op: BinaryOp) -> u8
    ensures { result ≡ left_level op }
{
    match op {
        BinaryOp::Or | BinaryOp::Eor => 1,
        BinaryOp::And => 2,
        BinaryOp::Compare(_)
        | BinaryOp::ShiftLeft
        | BinaryOp::ShiftRightSigned
        | BinaryOp::ShiftRight
        | BinaryOp::Add
        | BinaryOp::Subtract => 4,
        BinaryOp::Multiply | BinaryOp::Divide | BinaryOp::Remainder => 5,
    }
}
