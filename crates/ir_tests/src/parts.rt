//! Parts of the programs of the tests.

use bas_ast::{Flow, Item, Name, NameKind, NumExpr, ProgLine, Stmt, Variable};
use bv_base::NoMemory;
use sqlite_items::Items;
use std::alloc::Global;

/// The name `A%`.
pub const LETTER: u16 = 0;

/// The name `count%`.
pub const COUNT: u16 = 1;

/// `A%`
pub fn letter() -> NumExpr {
    NumExpr::Variable(Variable::Simple(LETTER))
}

pub fn flow(flow: Flow) -> Item {
    Item::Stmt(Stmt::Flow(flow))
}

pub fn line(number: u16, items: Items<Item>) -> ProgLine {
    ProgLine { number, items }
}

/// A line of one item.
pub fn short_line(alloc: Global, number: u16, item: Item) -> Result<ProgLine, NoMemory> {
    let mut items = Items::new(alloc);
    items.push(item)?;
    Ok(line(number, items))
}

fn integer(alloc: Global, text: &[u8]) -> Result<Name, NoMemory> {
    Ok(Name {
        kind: NameKind::Integer,
        text: Items::from_slice(alloc, text)?,
    })
}

/// The names `A%` and `count%`.
pub fn names(alloc: Global) -> Result<Items<Name>, NoMemory> {
    let mut names = Items::new(alloc);
    names.push(integer(alloc, b"A%")?)?;
    names.push(integer(alloc, b"count%")?)?;
    Ok(names)
}
