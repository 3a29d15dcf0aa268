//! A line of a program cut into symbols.

ghost use Rattle.std.specs.Prelude.{◌<◌, ◌^◌, length};
ghost use Rattle.expr_parse.specs.Terminals.{AreWithin};

use bas_lex::Sym;
use sqlite_items::Items;

/// A line with its symbols.
#[derive(Drop)]
pub struct CutLine<'a> {
    pub number: u16,
    pub text: &'a [u8],
    /// Whether the line begins inside the assembler.
    pub asm: bool,
    pub symbols: Items<Sym>,
    ghost within: { AreWithin text.now symbols },
    ghost few: { length symbols < 2 ^ 16 },
}
