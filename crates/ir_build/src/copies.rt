//! Copies of the tables of a program.
ghost use Rattle.std.specs.Prelude.{◌≡◌, ◌≤◌, length, map, IfOk};
ghost use Rattle.std.specs.List.{AllByRecursion};

use bas_ast::{DataItem, Name};
use bas_value::{LONGEST_STRING, Str};
use bv_base::NoMemory;
use sqlite_items::Items;
use std::alloc::Global;

/// A copy of a name.
fn copied_name(alloc: Global, name: &Name) -> Result<Name, NoMemory>
    ensures { IfOk result (λ copy. copy ≡ name.now) }
{
    Ok(Name {
        kind: name.kind,
        text: Items::from_slice(alloc, name.text.as_slice())?,
    })
}

/// A copy of the names.
pub fn copied_names(alloc: Global, names: &[Name]) -> Result<Items<Name>, NoMemory>
    ensures { IfOk result (λ copies. copies ≡ names.now) }
{
    let mut copies = Items::new(alloc);
    for i in 0..names.len() {
        copies.push(copied_name(alloc, &names[i])?)?;
    }
    Ok(copies)
}

/// The texts of the items of DATA.
pub fn data_texts(alloc: Global, items: &[DataItem]) -> Result<Items<Str>, NoMemory>
    requires { AllByRecursion (λ d. length d.text ≤ LONGEST_STRING) items.now }
    ensures { IfOk result (λ texts. texts ≡ map (λ d. d.text) items.now) }
{
    let mut texts = Items::new(alloc);
    for i in 0..items.len() {
        texts.push(Str::of_bytes(items[i].text.as_slice()))?;
    }
    Ok(texts)
}

/// The texts as strings.
pub fn strings(alloc: Global, texts: &[Items<u8>]) -> Result<Items<Str>, NoMemory>
    requires { AllByRecursion (λ text. length text ≤ LONGEST_STRING) texts.now }
    ensures { IfOk result (λ strings. strings ≡ texts.now) }
{
    let mut strings = Items::new(alloc);
    for i in 0..texts.len() {
        strings.push(Str::of_bytes(texts[i].as_slice()))?;
    }
    Ok(strings)
}
