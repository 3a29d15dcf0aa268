//! Fragments: code that is put together from instructions, labels and other fragments, and then becomes words.
ghost use Rattle.std.specs.Prelude.{◌≡◌, ℕ, ◌+◌, ◌-◌, ◌*◌, ◌%◌, ◌^◌, ◌<◌, ◌≤◌, ◌++◌, List, [], ◌∷◌, length, map, take, true, IsTrue, IfOk, OnOk, OnErr, Option, Some, None, slice_get, slice_set, pos, ◌-ℤ◌};
ghost use Rattle.std.specs.List.{list_all};
ghost use Rattle.arm_isa.specs.Words.{IsValid};
ghost use Rattle.code_frag.specs.declared.item.Item.TheVariants.{Ins, Jump};
ghost use Rattle.code_frag.specs.Words.{FragState, IsFrag, IsOpen, AllPlaced, is_placed, most_words, item_fits, place_fits, place_of, distance, item_word, words_of, Reaches, shifted_item, shifted_place, joined};

use crate::item::{Item, Label};
use arm_isa::{Instr, encode};
use bv_base::NoMemory;
use std::alloc::Global;
use std::marker::Model;

/// Code with labels. Its items follow one another, and each of its labels has a place among them or none yet.
#[derive(Drop)]
pub struct Frag {
    items: Vec<Item>,
    places: Vec<Option<usize>>,
}

impl Model for Frag {
    ghost Value = { FragState };

    ghost view = { λ f. record { items = f.items.items; places = f.places.items } };

    ghost invariant = { λ f. IsFrag (record { items = f.items.items; places = f.places.items }) };
}

/// The distance of a branch at an item to another, in words from two words after it.
fn distance(at: usize, to: usize) -> i32
    requires at_in { at ≤ most_words }
    requires to_in { to ≤ most_words }
    ensures { result ≡ distance at to }
{
    to as i32 - (at as i32 + 2)
}

/// An item whose label comes after some others.
fn shifted(item: Item, number: u32) -> Item
    requires { IsTrue (item_fits (2 ^ 32 - number) item) }
    ensures { result ≡ shifted_item number item }
{
    match item {
        Item::Ins(i) => Item::Ins(i),
        Item::Jump { cond, link, to } => Item::Jump {
            cond,
            link,
            to: Label {
                number: to.number + number,
            },
        },
    }
}

/// Adds items whose labels come after some others. After an error the first items are as they were.
fn push_items(items: &mut Vec<Item>, more: &[Item], number: u32) -> Result<(), NoMemory>
    requires { IsTrue (list_all (item_fits (2 ^ 32 - number)) more.now) }
    ensures ok { OnOk result (items.new.items ≡ items.old.items ++ map (shifted_item number) more.now) }
    ensures kept { OnErr result (take (length items.old.items) items.new.items ≡ items.old.items) }
{
    for item in more {
        items.push(shifted(*item, number))?;
    }
    Ok(())
}

/// Adds places that come after a number of items. After an error the first places are as they were.
fn push_places(
    places: &mut Vec<Option<usize>>,
    more: &[Option<usize>],
    before: usize,
) -> Result<(), NoMemory>
    requires { IsTrue (list_all (place_fits (2 ^ 64 - 1 - before)) more.now) }
    ensures ok { OnOk result (places.new.items ≡ places.old.items ++ map (shifted_place before) more.now) }
    ensures kept { OnErr result (take (length places.old.items) places.new.items ≡ places.old.items) }
{
    for place in more {
        places.push(place.map(|p| p + before))?;
    }
    Ok(())
}

/// The place of a label.
fn place_at(places: &[Option<usize>], label: Label) -> usize
    requires label_in { label.number < length places.now }
    requires fit { IsTrue (list_all (place_fits most_words) places.now) }
    requires placed { IsTrue (list_all is_placed places.now) }
    ensures place { result ≡ place_of places.now label.number }
    ensures few { result ≤ most_words }
{
    places[label.number as usize].unwrap_or(0)
}

/// The word of an item at its place among the items.
fn word(item: &Item, at: usize, places: &[Option<usize>]) -> u32
    requires at_in { at < most_words }
    requires fits { IsTrue (item_fits (length places.now) item.now) }
    requires places_fit { IsTrue (list_all (place_fits most_words) places.now) }
    requires placed { IsTrue (list_all is_placed places.now) }
    ensures { result ≡ item_word places.now at item.now }
{
    match *item {
        Item::Ins(i) => encode(&i),
        Item::Jump { cond, link, to } => encode(&Instr::Branch {
            cond,
            link,
            words: distance(at, place_at(places, to)),
        }),
    }
}

impl Frag {
    /// A fragment without items and labels.
    pub fn new(alloc: Global) -> Frag
        ensures { result ≡ record { items = []; places = [] } }
    {
        Frag {
            items: Vec::new(alloc),
            places: Vec::new(alloc),
        }
    }

    /// The number of items.
    pub fn item_count(&self) -> usize
        ensures { result ≡ length self.now.items }
    {
        self.items.len()
    }

    /// Adds an instruction. The only error is want of memory, and then the fragment is as it was.
    pub fn emit(&mut self, i: &Instr) -> Result<(), NoMemory>
        requires { IsValid i.now }
        ensures ok { OnOk result (self.new ≡ record { items = self.old.items ++ Ins i.now ∷ []; places = self.old.places }) }
        ensures kept { OnErr result (self.new ≡ self.old) }
    {
        self.items.push(Item::Ins(*i))?;
        Ok(())
    }

    /// Adds the items of a table, whose labels are this fragment's. The only error is want of memory, and then the fragment
    /// is as it was.
    pub fn emit_all(&mut self, table: &[Item]) -> Result<(), NoMemory>
        requires { IsTrue (list_all (item_fits (length self.old.places)) table.now) }
        ensures ok { OnOk result (self.new ≡ record { items = self.old.items ++ table.now; places = self.old.places }) }
        ensures kept { OnErr result (self.new ≡ self.old) }
    {
        self.items.extend_from_slice(table)?;
        Ok(())
    }

    /// Adds a label, which has no place yet. The only error is want of memory, and then the fragment is as it was.
    pub fn label(&mut self) -> Result<Label, NoMemory>
        requires { length self.old.places + 1 < 2 ^ 32 }
        ensures number { IfOk result (λ l. l.number ≡ length self.old.places) }
        ensures ok { OnOk result (self.new ≡ record { items = self.old.items; places = self.old.places ++ None ∷ [] }) }
        ensures kept { OnErr result (self.new ≡ self.old) }
    {
        let number = self.places.len() as u32;
        self.places.push(None)?;
        Ok(Label { number })
    }

    /// Gives a label its place: it stands before the next item.
    pub fn place(&mut self, l: Label)
        requires { IsOpen self.old l.number }
        ensures { self.new ≡ record { items = self.old.items; places = slice_set self.old.places l.number (Some (length self.old.items)) } }
    {
        self.places[l.number as usize] = Some(self.items.len());
    }

    /// Adds a branch to a label under a condition, 0 (EQ) to 15 (NV); with `link` it leaves its return address in R14. The
    /// only error is want of memory, and then the fragment is as it was.
    pub fn branch(&mut self, cond: u8, link: bool, to: Label) -> Result<(), NoMemory>
        requires condition { cond < 16 }
        requires label { to.number < length self.old.places }
        ensures ok { OnOk result (self.new ≡ record { items = self.old.items ++ Jump cond link to ∷ []; places = self.old.places }) }
        ensures kept { OnErr result (self.new ≡ self.old) }
    {
        self.items.push(Item::Jump { cond, link, to })?;
        Ok(())
    }

    /// Adds another fragment after this one, and answers the number that is added to its labels: they come after this
    /// fragment's. The only error is want of memory, and then the fragment is as it was.
    pub fn join(&mut self, other: &Frag) -> Result<u32, NoMemory>
        requires labels { length self.old.places + length other.now.places < 2 ^ 32 }
        ensures number { IfOk result (λ number. number ≡ length self.old.places) }
        ensures ok { OnOk result (self.new ≡ joined self.old other.now) }
        ensures kept { OnErr result (self.new ≡ self.old) }
    {
        let items = self.items.len();
        let labels = self.places.len();
        let number = labels as u32;
        if push_items(&mut self.items, &other.items, number).is_err() {
            self.items.truncate(items);
            return Err(NoMemory);
        }
        if push_places(&mut self.places, &other.places, items).is_err() {
            self.items.truncate(items);
            self.places.truncate(labels);
            return Err(NoMemory);
        }
        Ok(number)
    }

    /// The words of a fragment whose first word stands at the address `base`. They are the same for every base, since branches
    /// are relative. The only error is want of memory.
    pub fn resolve(&self, alloc: Global, base: u32) -> Result<Vec<u32>, NoMemory>
        requires placed { AllPlaced self.now }
        requires few { length self.now.items ≤ most_words }
        ensures words { IfOk result (λ words. words.items ≡ words_of self.now) }
        ensures reaches { IfOk result (λ words. Reaches self.now base words.items) }
    {
        let mut words = Vec::new(alloc);
        for item in &self.items {
            let word = word(item, words.len(), &self.places);
            words.push(word)?;
        }
        Ok(words)
    }
}
