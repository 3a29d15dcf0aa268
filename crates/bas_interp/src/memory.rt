//! What the operations change, beside the output.
ghost use Rattle.std.specs.Prelude.{◌≡◌, slice_index_or, slice_set, IfOk};
ghost use Rattle.bas_interp.specs.Runs.{AtStart};

use crate::stack::Stack;
use bas_ir::Ir;
use bas_store::{OpenEntries, RESIDENTS};
use bas_value::Column;
use bv_base::NoMemory;
use std::alloc::Global;

/// What the operations change, beside the output: the cells, the column, the place in DATA, what is pending, and what is
/// open.
#[derive(Drop)]
pub(crate) struct Memory {
    /// A% to Z%, and @%.
    pub(crate) residents: [i32; RESIDENTS],
    /// The integer of each name, `None` where it was never made.
    pub(crate) integers: Vec<Option<i32>>,
    pub(crate) column: Column,
    /// The place of the next item of DATA.
    pub(crate) data_place: usize,
    /// The pending numbers.
    pub(crate) numbers: Stack<i32>,
    /// The pending strings, by their places in the table of texts.
    pub(crate) texts: Stack<u32>,
    /// The open loops and GOSUBs.
    pub(crate) opened: OpenEntries,
}

impl Memory {
    /// The memory in which a run of a code begins, with the room that the run needs. A code of 2^32 items, which no program in
    /// memory has, is answered as want of memory.
    pub(crate) fn new(alloc: Global, code: &Ir) -> Result<Memory, NoMemory>
        ensures { IfOk result (λ memory. AtStart code.now memory) }
    {
        if code.starts.len() > u32::MAX as usize {
            return Err(NoMemory);
        }
        let integers = vec![in alloc; None; code.names.len()]?;
        let numbers = Stack::new(alloc, 0, code.ops.len())?;
        let texts = Stack::new(alloc, 0, code.ops.len())?;
        let opened = OpenEntries::new(alloc)?;
        Ok(Memory {
            residents: [0; RESIDENTS],
            integers,
            column: Column { at: 0 },
            data_place: 0,
            numbers,
            texts,
            opened,
        })
    }
}

/// The item at a place, or another where there is none.
pub(crate) fn at_or<T: Copy>(items: &[T], at: usize, other: T) -> T
    ensures { result ≡ slice_index_or items.now at other }
{
    if at < items.len() { items[at] } else { other }
}

/// Stores an item at a place, where there is one.
pub(crate) fn store_at<T: Copy>(items: &mut [T], at: usize, item: T)
    ensures { items.new ≡ slice_set items.old at item }
{
    if at < items.len() {
        items[at] = item;
    }
}
