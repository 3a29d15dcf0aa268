//! Where structures end: a table of the whole program, made in one pass from the last item to the first. A new kind of ends
//! gets a list and a role here.
ghost use Rattle.std.specs.Prelude.{◌≡◌, ◌+◌, ◌<◌, ◌++◌, [], ◌∷◌, List, ℕ, length, drop, reverse, slice_index_or, IfOk, OnOk};
ghost use Rattle.bas_ast.specs.declared.program.Prog.{Prog as Program};
ghost use Rattle.bas_sem.specs.Places.{Row, rows, end_of, after_end};
ghost use Rattle.ir_build.specs.Ends.{AreEnds, AreEndsOf, role_of, unmatched_before};
ghost use Rattle.ir_build.specs.Ends as kinds;
ghost use Rattle.bas_ast.specs.Structures.{bound};
ghost use Rattle.ir_build.specs.Tables.{rows_of, rows_among};

use crate::numbers::plus;
use bas_ast::{Flow, Head, Item, Prog, ProgLine, Stmt};
use bv_base::NoMemory;
use sqlite_items::Items;
use std::alloc::Global;

/// What an item is to the ends of a kind.
#[derive(Clone, Copy)]
pub enum Role {
    /// It opens a structure, whose end comes later.
    Opens,
    /// It is the end of a structure.
    Closes,
    /// It is an end within a structure that goes on.
    Divides,
    Neither,
}

/// Where structures end. Each list has the places after the ends of a kind whose structures are not there yet, the innermost
/// structure's last.
#[derive(Drop)]
pub struct Ends {
    /// ENDWHILEs, for WHILEs.
    pub from_while: Items<u32>,
    /// ELSEs and ENDIFs, for block IFs.
    pub from_if: Items<u32>,
    /// ENDIFs, for the ELSEs of block IFs.
    pub from_else: Items<u32>,
    /// OTHERWISEs and ENDCASEs, for CASEs.
    pub from_case: Items<u32>,
    /// ENDCASEs, for WHENs and OTHERWISEs.
    pub from_when: Items<u32>,
    /// For each item, from the last one to the first, the place after what its structure leads to.
    pub ends: Items<u32>,
    /// The number of items of the program.
    pub total: u32,
}

impl Ends {
    /// Those of no item yet, in a program of this number of items.
    fn new(alloc: Global, total: u32) -> Ends
        ensures ends { AreEnds result [] total }
        ensures total { result.total ≡ total }
    {
        Ends {
            from_while: Items::new(alloc),
            from_if: Items::new(alloc),
            from_else: Items::new(alloc),
            from_case: Items::new(alloc),
            from_when: Items::new(alloc),
            ends: Items::new(alloc),
            total,
        }
    }

    /// The place after what the structure of an item leads to, where the next item has this place and is the first of those
    /// that were added.
    fn end_of(&self, item: &Item, next: u32) -> u32
        ensures { (rest : List Row) → AreEnds self.now rest next → result ≡ end_of (bound item.now) rest next }
    {
        match item {
            Item::Stmt(Stmt::Flow(Flow::While(_))) => nearest(&self.from_while, self.total),
            Item::BlockIf(_) => nearest(&self.from_if, self.total),
            Item::Head(Head::BlockElse) => nearest(&self.from_else, self.total),
            Item::Case(_) => nearest(&self.from_case, self.total),
            Item::Head(Head::When(_)) => nearest(&self.from_when, self.total),
            Item::Head(Head::Otherwise) => nearest(&self.from_when, self.total),
            _ => next,
        }
    }

    /// Adds an item at a place, which stands before those that were added.
    fn add_item(&mut self, place: u32, item: &Item) -> Result<(), NoMemory>
        ensures ends { OnOk result ((line : ℕ) (rest : List Row) → AreEnds self.old rest (place + 1)
            → AreEnds self.new (record { line = line; item = item.now } ∷ rest) place) }
        ensures total { OnOk result (self.new.total ≡ self.old.total) }
    {
        let next = plus(place, 1)?;
        let end = self.end_of(item, next);
        self.ends.push(end)?;
        match_end(while_role(item), next, &mut self.from_while)?;
        match_end(if_role(item), next, &mut self.from_if)?;
        match_end(else_role(item), next, &mut self.from_else)?;
        match_end(case_role(item), next, &mut self.from_case)?;
        match_end(when_role(item), next, &mut self.from_when)?;
        Ok(())
    }

    /// Adds the items of a line, of which the first is at a place, before those that were added.
    fn add_line(&mut self, first: u32, items: &[Item]) -> Result<(), NoMemory>
        ensures ends { OnOk result ((line : ℕ) (rest : List Row) → AreEnds self.old rest (first + length items.now)
            → AreEnds self.new (rows_of line items.now ++ rest) first) }
        ensures total { OnOk result (self.new.total ≡ self.old.total) }
    {
        for i in 0..items.len() {
            let at = items.len() - 1 - i;
            self.add_item(plus(first, at)?, &items[at])?;
        }
        Ok(())
    }

    /// The ends of a program.
    pub fn of_program(alloc: Global, prog: &Prog) -> Result<Ends, NoMemory>
        ensures { IfOk result (λ ends. AreEndsOf ends prog.now) }
    {
        let lines = prog.lines.as_slice();
        let mut place = item_count(lines)?;
        let mut ends = Ends::new(alloc, place);
        for i in 0..lines.len() {
            let items = lines[lines.len() - 1 - i].items.as_slice();
            place = place - items.len() as u32;
            ends.add_line(place, items)?;
        }
        Ok(ends)
    }

    /// The place after what the structure of the item at a place leads to.
    pub fn after_end(&self, place: u32) -> u32
        requires { place < length self.now.ends }
        ensures { (prog : Program) (row : Row) (rest : List Row) → AreEndsOf self.now prog → drop place (rows prog) ≡ row ∷ rest
            → result ≡ after_end prog (bound row.item) place }
    {
        let ends = self.ends.as_slice();
        ends[ends.len() - 1 - place as usize]
    }
}

/// The last of these places, or where there is none the place after all items.
fn nearest(places: &Items<u32>, total: u32) -> u32
    ensures { result ≡ slice_index_or (reverse places.now) 0 total }
{
    match places.as_slice().last() {
        Some(place) => *place,
        None => total,
    }
}

/// What an item with a role makes of the places after the ends that have no structure yet, where the next item has this place.
fn match_end(role: Role, next: u32, unmatched: &mut Items<u32>) -> Result<(), NoMemory>
    ensures { OnOk result (reverse unmatched.new ≡ unmatched_before role next (reverse unmatched.old)) }
{
    match role {
        Role::Opens => {
            unmatched.pop();
        }
        Role::Closes => unmatched.push(next)?,
        Role::Divides => {
            unmatched.pop();
            unmatched.push(next)?;
        }
        Role::Neither => {}
    }
    Ok(())
}

/// What an item is to the ends of WHILEs.
fn while_role(item: &Item) -> Role
    ensures { result ≡ role_of kinds.from_while item.now }
{
    match item {
        Item::Stmt(Stmt::Flow(Flow::While(_))) => Role::Opens,
        Item::Stmt(Stmt::Flow(Flow::EndWhile)) => Role::Closes,
        _ => Role::Neither,
    }
}

/// What an item is to the ends of block IFs.
fn if_role(item: &Item) -> Role
    ensures { result ≡ role_of kinds.from_if item.now }
{
    match item {
        Item::BlockIf(_) => Role::Opens,
        Item::Head(Head::EndIf) => Role::Closes,
        Item::Head(Head::BlockElse) => Role::Divides,
        _ => Role::Neither,
    }
}

/// What an item is to the ends of block IFs' ELSEs.
fn else_role(item: &Item) -> Role
    ensures { result ≡ role_of kinds.from_else item.now }
{
    match item {
        Item::BlockIf(_) => Role::Opens,
        Item::Head(Head::EndIf) => Role::Closes,
        _ => Role::Neither,
    }
}

/// What an item is to the ends of CASEs.
fn case_role(item: &Item) -> Role
    ensures { result ≡ role_of kinds.from_case item.now }
{
    match item {
        Item::Case(_) => Role::Opens,
        Item::Head(Head::EndCase) => Role::Closes,
        Item::Head(Head::Otherwise) => Role::Divides,
        _ => Role::Neither,
    }
}

/// What an item is to the ends of WHENs.
fn when_role(item: &Item) -> Role
    ensures { result ≡ role_of kinds.from_when item.now }
{
    match item {
        Item::Case(_) => Role::Opens,
        Item::Head(Head::EndCase) => Role::Closes,
        _ => Role::Neither,
    }
}

/// The number of items of lines.
fn item_count(lines: &[ProgLine]) -> Result<u32, NoMemory>
    ensures { IfOk result (λ count. count ≡ length (rows_among lines.now)) }
{
    let mut count = 0;
    for i in 0..lines.len() {
        count = plus(count, lines[i].items.len())?;
    }
    Ok(count)
}
