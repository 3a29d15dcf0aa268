//! The names of a program, each with its number, which is its place among them.

ghost use Rattle.std.specs.Prelude.{◌≡◌, ◌<◌, map, length, IfOk, OnOk, option_map, drop};
ghost use Rattle.bas_rules.specs.Names as spec;

use bas_ast::{Name, NameKind, Terminal};
use bv_base::NAMES;
use indexmap::IndexSet;
use sqlite_items::Items;
use std::alloc::{AllocError, Global};

/// A name, whose text is a part of a line's.
#[derive(Debug, Clone, Copy, PartialEq, Eq, Hash, Drop)]
pub struct Key<'a> {
    pub kind: NameKind,
    pub text: &'a [u8],
}

/// The bytes without the last one.
fn without_last(bytes: &[u8]) -> &[u8]
    ensures { result.now ≡ spec.without_last bytes.now }
{
    match bytes {
        [front @ .., _] => front,
        [] => bytes,
    }
}

/// The bytes without the first one.
fn without_first(bytes: &[u8]) -> &[u8]
    ensures { result.now ≡ drop 1 bytes.now }
{
    match bytes {
        [_, back @ ..] => back,
        [] => bytes,
    }
}

/// The name that a terminal is, from the bytes of its symbol.
pub fn name_of(bytes: &[u8], terminal: Terminal) -> Option<Key<'_>>
    ensures { option_map spec.name_of_key result ≡ spec.name_of bytes.now terminal }
{
    let (kind, text) = match terminal {
        Terminal::IntName(_) => (NameKind::Integer, bytes),
        Terminal::StrName(_) => (NameKind::Text, bytes),
        Terminal::IntArray(_) => (NameKind::IntegerArray, without_last(bytes)),
        Terminal::StrArray(_) => (NameKind::TextArray, without_last(bytes)),
        Terminal::Label(_) => (NameKind::Label, bytes),
        Terminal::Procedure(_) => (NameKind::Procedure, without_first(bytes)),
        Terminal::ProcedureOpen(_) => (NameKind::Procedure, without_last(without_first(bytes))),
        Terminal::NumFunction(_) | Terminal::StrFunction(_) => {
            (NameKind::Function, without_first(bytes))
        }
        Terminal::NumFunctionOpen(_) | Terminal::StrFunctionOpen(_) => {
            (NameKind::Function, without_last(without_first(bytes)))
        }
        _ => return None,
    };
    Some(Key { kind, text })
}

/// The terminal of a name with another number.
pub fn renumbered(terminal: Terminal, number: u16) -> Terminal
    ensures { result ≡ spec.renumbered terminal number }
{
    match terminal {
        Terminal::IntName(_) => Terminal::IntName(number),
        Terminal::StrName(_) => Terminal::StrName(number),
        Terminal::IntArray(_) => Terminal::IntArray(number),
        Terminal::StrArray(_) => Terminal::StrArray(number),
        Terminal::Label(_) => Terminal::Label(number),
        Terminal::Procedure(_) => Terminal::Procedure(number),
        Terminal::ProcedureOpen(_) => Terminal::ProcedureOpen(number),
        Terminal::NumFunction(_) => Terminal::NumFunction(number),
        Terminal::NumFunctionOpen(_) => Terminal::NumFunctionOpen(number),
        Terminal::StrFunction(_) => Terminal::StrFunction(number),
        Terminal::StrFunctionOpen(_) => Terminal::StrFunctionOpen(number),
        other => other,
    }
}

/// Adds a name where it is new, and gives its number.
pub fn add_name<'a>(names: &mut IndexSet<Key<'a>>, name: Key<'a>) -> Result<u16, AllocError>
    ensures names { OnOk result (spec.names_of names.new.keys ≡ spec.add_name (spec.names_of names.old.keys) (spec.name_of_key name.entry)) }
    ensures number { IfOk result (λ n. n ≡ spec.number_of (spec.names_of names.old.keys) (spec.name_of_key name.entry)) }
{
    let (place, _) = names.insert_full(name)?;
    Ok(place.min(NAMES as usize) as u16)
}

/// The names as a program has them.
pub fn listed(alloc: Global, names: &IndexSet<Key<'_>>) -> Result<Items<Name>, AllocError>
    ensures { IfOk result (λ list. list ≡ spec.names_of names.now.keys) }
{
    let mut list = Items::new(alloc);
    for place in 0..names.len() {
        let key = names[place];
        list.push(Name {
            kind: key.kind,
            text: Items::from_slice(alloc, key.text)?,
        })?;
    }
    Ok(list)
}
