//! A stack in a room that is taken once.
ghost use Rattle.std.specs.Prelude.{◌≡◌, ◌<◌, ◌≤◌, [], ◌∷◌, length, replicate, IfOk, MatchOption};
ghost use Rattle.bas_interp.specs.Stack.{items_of, fits, has_room};

use bv_base::NoMemory;
use std::alloc::Global;

/// A stack in a room that is taken once. It grows down from the end of the room, so its items from the topmost on are the
/// end of the room.
#[derive(Drop)]
pub(crate) struct Stack<T> {
    pub(crate) room: Vec<T>,
    /// The place of the topmost item, or the length of the room.
    pub(crate) top: usize,
}

impl<T: Copy> Stack<T> {
    /// A stack without items, with room for this number of them.
    pub(crate) fn new(alloc: Global, blank: T, room: usize) -> Result<Stack<T>, NoMemory>
        ensures { IfOk result (λ stack. (items_of stack ≡ []) × (length stack.room.items ≡ room) × (fits stack)) }
    {
        let items = vec![in alloc; blank; room]?;
        Ok(Stack {
            room: items,
            top: room,
        })
    }

    /// Puts an item on top.
    pub(crate) fn push(&mut self, item: T)
        requires fits { fits self.old }
        requires room { has_room self.old }
        ensures items { items_of self.new ≡ item ∷ items_of self.old }
        ensures room { length self.new.room.items ≡ length self.old.room.items }
        ensures fits { fits self.new }
    {
        self.top -= 1;
        self.room[self.top] = item;
    }

    /// Takes the item from the top, if there is one.
    pub(crate) fn pop(&mut self) -> Option<T>
        requires fits { fits self.old }
        ensures items { MatchOption result ((items_of self.old ≡ []) × (items_of self.new ≡ [])) (λ item. items_of self.old ≡ item ∷ items_of self.new) }
        ensures room { length self.new.room.items ≡ length self.old.room.items }
        ensures fits { fits self.new }
    {
        if self.top < self.room.len() {
            let item = self.room[self.top];
            self.top += 1;
            Some(item)
        } else {
            None
        }
    }

    /// Takes all items away.
    pub(crate) fn clear(&mut self)
        ensures items { items_of self.new ≡ [] }
        ensures room { length self.new.room.items ≡ length self.old.room.items }
        ensures fits { fits self.new }
    {
        self.top = self.room.len();
    }
}
