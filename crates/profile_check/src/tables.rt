//! The lists of a program that its symbols make: names, texts of string literals, and items of DATA. A symbol's number is
//! its place in its list.

ghost use Rattle.std.specs.Prelude.{◌≡◌, ◌≤◌, length, slice_range, IfOk, OnOk, false};
ghost use Rattle.profile_check.specs.Tables as spec;
ghost use Rattle.expr_parse.specs.Terminals.{AreWithin};

use bas_ast::{DataItem, Keyword, Terminal};
use bas_lex::Sym;
use bas_rules::{Key, add_name, name_of, push_items, quoted_text, renumbered};
use bv_base::NoMemory;
use indexmap::IndexSet;
use sqlite_items::Items;
use std::alloc::Global;

/// What the symbols so far have made.
#[derive(Drop)]
pub struct Tables<'a> {
    pub names: IndexSet<Key<'a>>,
    pub texts: Items<Items<u8>>,
    pub data_items: Items<DataItem>,
}

impl<'a> Tables<'a> {
    /// Nothing yet.
    pub fn new(alloc: Global) -> Tables<'a>
        ensures { spec.lists_of result ≡ spec.no_lists }
    {
        Tables {
            names: IndexSet::new(alloc),
            texts: Items::new(alloc),
            data_items: Items::new(alloc),
        }
    }
}

/// The number of a list's next element. No program's list has 2^32, since each takes a byte of the file.
fn next_number(len: usize) -> Result<u32, NoMemory>
    ensures { IfOk result (λ n. n ≡ len) }
{
    if len > u32::MAX as usize {
        return Err(NoMemory);
    }
    Ok(len as u32)
}

/// The text of a string between quotation marks.
fn literal_text(alloc: Global, bytes: &[u8]) -> Result<Items<u8>, NoMemory>
    ensures { IfOk result (λ text. text ≡ spec.literal_text bytes.now) }
{
    match bytes {
        [_, after @ ..] => Ok(quoted_text(alloc, after)?),
        [] => Ok(Items::new(alloc)),
    }
}

/// Gives a terminal its number, and adds what is new to the lists. The bytes are its symbol's, and the place is its
/// line's.
fn number_terminal<'a>(
    alloc: Global,
    tables: &mut Tables<'a>,
    line: u32,
    in_data: bool,
    bytes: &'a [u8],
    terminal: Terminal,
) -> Result<Terminal, NoMemory>
    ensures terminal { IfOk result (λ t. t ≡ (spec.number_terminal line in_data bytes.now terminal (spec.lists_of tables.old)).terminal) }
    ensures lists { OnOk result (spec.lists_of tables.new ≡ (spec.number_terminal line in_data bytes.now terminal (spec.lists_of tables.old)).lists) }
{
    match terminal {
        Terminal::Literal(_) => {
            let number = next_number(tables.texts.len())?;
            tables.texts.push(literal_text(alloc, bytes)?)?;
            Ok(Terminal::Literal(number))
        }
        Terminal::Tail(_) => {
            let number = next_number(tables.data_items.len())?;
            if in_data {
                push_items(alloc, &mut tables.data_items, line, bytes)?;
            }
            Ok(Terminal::Tail(number))
        }
        _ => match name_of(bytes, terminal) {
            Some(name) => {
                let number = add_name(&mut tables.names, name)?;
                Ok(renumbered(terminal, number))
            }
            None => Ok(terminal),
        },
    }
}

/// A symbol's part of its line's text.
pub fn bytes_of(text: &[u8], symbol: Sym) -> &[u8]
    requires from { symbol.from ≤ symbol.to }
    requires to { symbol.to ≤ length text.now }
    ensures { result.now ≡ slice_range text.now symbol.from symbol.to }
{
    &text[usize::from(symbol.from)..usize::from(symbol.to)]
}

/// Gives the terminals of a line their numbers.
pub fn number_line<'a>(
    alloc: Global,
    tables: &mut Tables<'a>,
    line: u32,
    text: &'a [u8],
    symbols: &[Sym],
    terminals: &[Terminal],
) -> Result<Items<Terminal>, NoMemory>
    requires within { AreWithin text.now symbols.now }
    requires each { length terminals.now ≡ length symbols.now }
    ensures terminals { IfOk result (λ list. list ≡ (spec.number_line line text.now false symbols.now terminals.now (spec.lists_of tables.old)).terminals) }
    ensures lists { OnOk result (spec.lists_of tables.new ≡ (spec.number_line line text.now false symbols.now terminals.now (spec.lists_of tables.old)).lists) }
{
    let mut list = Items::new(alloc);
    let mut in_data = false;
    for i in 0..terminals.len() {
        let bytes = bytes_of(text, symbols[i]);
        list.push(number_terminal(alloc, tables, line, in_data, bytes, terminals[i])?)?;
        in_data = is_data(terminals[i]);
    }
    Ok(list)
}

/// Whether a terminal is the word DATA.
fn is_data(terminal: Terminal) -> bool
    ensures { result ≡ spec.is_data terminal }
{
    matches!(terminal, Terminal::Keyword(Keyword::Data))
}
