//! The store of a run.
ghost use Rattle.std.specs.Prelude.{◌≡◌, ◌<◌, length, Some, IfOk};
ghost use Rattle.bas_store.specs.Cells.{Resident};
ghost use Rattle.bas_store.specs.Stored.{nothing_stored, number_in, with_number, with_value};
ghost use Rattle.bas_store.specs.Store.{stored_of, slot_of, content_of, answer_in, IsKept};

use crate::cell::{BasValue, UNKNOWN_VARIABLE, Variable};
use crate::opened::OpenEntries;
use bas_ast::Prog;
use bas_value::Str;
use bv_base::NoMemory;
use sqlite_items::Items;
use std::alloc::Global;

/// The number of resident integers.
pub const RESIDENTS: usize = 27;

/// What a run stores. All its room is taken by `new`.
#[derive(Drop)]
pub struct Store {
    /// A% to Z%, and then @%.
    pub residents: [i32; RESIDENTS],
    /// The integers by the places of their names, `None` where one was never made.
    pub integers: Items<Option<i32>>,
    /// The strings likewise.
    pub strings: Items<Option<Str>>,
    /// The open loops and GOSUBs.
    pub opened: OpenEntries,
}

impl Store {
    /// The store of a program at the start of a run.
    pub fn new(alloc: Global, prog: &Prog) -> Result<Store, NoMemory>
        ensures { IfOk result (λ store. stored_of store ≡ nothing_stored prog.now.names) }
    {
        let names = prog.names.len();
        Ok(Store {
            residents: [0; RESIDENTS],
            integers: Items::from_vec(vec![in alloc; None; names]?),
            strings: Items::from_vec(vec![in alloc; None; names]?),
            opened: OpenEntries::new(alloc)?,
        })
    }

    /// The i-th of A% to Z%, from 0.
    pub fn letter(&self, i: u8) -> i32
        requires { i < 26 }
        ensures { Some result ≡ number_in (Resident i) (stored_of self.now) }
    {
        self.residents[usize::from(i)]
    }

    /// Stores a number in the i-th of A% to Z%.
    pub fn set_letter(&mut self, i: u8, v: i32)
        requires { i < 26 }
        ensures { stored_of self.new ≡ with_number (Resident i) v (stored_of self.old) }
    {
        self.residents[usize::from(i)] = v;
    }

    /// The value of a variable, or `UNKNOWN_VARIABLE` where it was never made.
    pub fn cell(&self, variable: Variable) -> Result<BasValue, u8>
        requires { IsKept variable self.now }
        ensures { result ≡ answer_in variable (stored_of self.now) }
    {
        match variable {
            Variable::Resident(i) => Ok(BasValue::Num(self.residents[usize::from(i)])),
            Variable::Integer(name) => match self.integers.as_slice()[usize::from(name)] {
                Some(v) => Ok(BasValue::Num(v)),
                None => Err(UNKNOWN_VARIABLE),
            },
            Variable::Text(name) => match self.strings.as_slice()[usize::from(name)] {
                Some(v) => Ok(BasValue::Text(v)),
                None => Err(UNKNOWN_VARIABLE),
            },
        }
    }

    /// Stores a value of its kind in a variable, which makes it. A value of the other kind changes nothing.
    pub fn set_cell(&mut self, variable: Variable, v: &BasValue)
        requires { IsKept variable self.old }
        ensures { stored_of self.new ≡ with_value (slot_of variable) (content_of v.now) (stored_of self.old) }
    {
        match (variable, *v) {
            (Variable::Resident(i), BasValue::Num(v)) => {
                self.residents[usize::from(i)] = v;
            }
            (Variable::Integer(name), BasValue::Num(v)) => {
                self.integers.set(usize::from(name), Some(v));
            }
            (Variable::Text(name), BasValue::Text(v)) => {
                self.strings.set(usize::from(name), Some(v));
            }
            _ => {}
        }
    }
}
