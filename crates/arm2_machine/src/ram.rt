//! The board's RAM.
ghost use Rattle.std.specs.Prelude.{◌≡◌, ◌≤◌, length, IfOk};
ghost use Rattle.bv_base.specs.Limits.{image_words};
ghost use Rattle.arm2_machine.specs.Machine.{arena_of, loaded_ram};

use crate::words::words_to_bytes;
use arm2_memory::{Place, Window};
use bv_base::{ARENA_END, ARENA_START, IMAGE_START, NoMemory, RAM_END};
use std::alloc::Global;

/// The place of the board's RAM: supervisor mode may use all of it, user mode the arena.
pub struct BoardPlace;

impl Place for BoardPlace {
    ghost use Rattle.bv_base.specs.MemoryMap.{ram_end, arena_start, arena_end};
    ghost use Rattle.arm2_machine.specs.Machine.{board_place};

    ghost START = { 0 };

    ghost END = { ram_end };

    ghost USER_START = { arena_start };

    ghost USER_END = { arena_end };

    const START: u32 = 0;

    const END: u32 = RAM_END;

    const USER_START: u32 = ARENA_START;

    const USER_END: u32 = ARENA_END;

    ghost is_place = { board_place };
}

/// The RAM with an image's words in their place, and 0 elsewhere.
#[tactic(auto, using(crate::proofs::Memory::zeros_with_words, crate::proofs::Memory::bytes_of_words))]
pub fn load_ram(alloc: Global, words: &[u32]) -> Result<Window<BoardPlace>, NoMemory>
    requires { length words.now ≤ image_words }
    ensures { IfOk result (λ ram. ram ≡ loaded_ram words.now) }
{
    let bytes = words_to_bytes(alloc, words)?;
    let mut ram: Window<BoardPlace> = Window::new(alloc)?;
    ram.copy_in(IMAGE_START, bytes.as_slice());
    Ok(ram)
}

/// The bytes of the arena.
#[tactic(auto, unfolding(crate::specs::Machine::arena_of))]
pub fn arena(ram: &Window<BoardPlace>) -> &[u8]
    ensures { result.now ≡ arena_of ram.now }
{
    ram.part(ARENA_START, ARENA_END)
}
