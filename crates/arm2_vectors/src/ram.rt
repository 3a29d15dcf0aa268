//! The memories of the steps.
ghost use Rattle.std.specs.Prelude.{◌≡◌};

use crate::words::MOST_WORDS;
use arm2_cpu::Memory;
use arm2_memory::{Place, Window};
use arrayvec::ArrayVec;
use bv_base::{ARENA_END, ARENA_START};
use std::alloc::{AllocError, Global};

/// Room for the addresses that one step writes to, and one place more, which tells that they were too many.
const NOTES: usize = MOST_WORDS + 1;

/// The memory of the board.
pub struct Small;

impl Place for Small {
    ghost use Rattle.std.specs.Prelude.{refl};
    ghost use Rattle.std.proofs.Common.{lit≤};
    ghost use Rattle.bv_base.specs.MemoryMap.{arena_start, arena_end};

    ghost START = { 0 };

    ghost END = { 0x100_0000 };

    ghost USER_START = { arena_start };

    ghost USER_END = { arena_end };

    const START: u32 = 0;

    const END: u32 = 0x100_0000;

    const USER_START: u32 = ARENA_START;

    const USER_END: u32 = ARENA_END;

    ghost is_place = { record { start_aligned = refl; end_aligned = refl; low_aligned = refl; high_aligned = refl; begins = lit≤ tt; ordered = lit≤ tt; ends = lit≤ tt } };
}

/// All that 26 bits of address reach.
pub struct Large;

impl Place for Large {
    ghost use Rattle.std.specs.Prelude.{refl};
    ghost use Rattle.std.proofs.Common.{lit≤};
    ghost use Rattle.bv_base.specs.MemoryMap.{arena_start, arena_end};

    ghost START = { 0 };

    ghost END = { 0x400_0000 };

    ghost USER_START = { arena_start };

    ghost USER_END = { arena_end };

    const START: u32 = 0;

    const END: u32 = 0x400_0000;

    const USER_START: u32 = ARENA_START;

    const USER_END: u32 = ARENA_END;

    ghost is_place = { record { start_aligned = refl; end_aligned = refl; low_aligned = refl; high_aligned = refl; begins = lit≤ tt; ordered = lit≤ tt; ends = lit≤ tt } };
}

/// A memory that notes the words that the processor writes.
#[derive(Drop)]
pub struct StepRam<P: Place> {
    window: Window<P>,
    /// The addresses of the words that were written.
    noted: ArrayVec<u32, NOTES>,
}

impl<P: Place> StepRam<P> {
    ghost use Rattle.std.specs.Prelude.{◌≡◌};

    /// A memory of zeros.
    pub fn new(alloc: Global) -> Result<StepRam<P>, AllocError> {
        match Window::new(alloc) {
            Ok(window) => Ok(StepRam {
                window,
                noted: ArrayVec::new(),
            }),
            Err(_) => Err(AllocError),
        }
    }

    /// Notes that the word in which an address lies was written.
    fn note(&mut self, at: u32)
        ensures { self.new.window ≡ self.old.window }
    {
        if !self.noted.is_full() {
            self.noted.push(at / 4 * 4);
        }
    }

    /// The word at an address, or `None` where there is none.
    pub fn load(&self, at: u32) -> Option<u32> {
        if at % 4 == 0 {
            self.window.word(false, at)
        } else {
            None
        }
    }

    /// Stores a word, and doesn't note it. `false` where there is no word at that address.
    pub fn store(&mut self, at: u32, value: u32) -> bool {
        at % 4 == 0 && self.window.set_word(false, at, value)
    }

    /// The addresses of the words that the processor wrote since the last `forget`, or `None` where they were too many.
    pub fn written(&self) -> Option<&[u32]> {
        if self.noted.is_full() {
            None
        } else {
            Some(self.noted.as_slice())
        }
    }

    /// Forgets which words were written.
    pub fn forget(&mut self) {
        self.noted.clear();
    }
}

impl<P: Place> Memory for StepRam<P> {
    ghost use Rattle.arm2_memory.specs.Window.{window};
    ghost use Rattle.arm2_memory.specs.WindowLaws.{window-lawful};

    ghost space = { window P.START P.END P.USER_START P.USER_END };

    ghost bytes = { λ m. m.window };

    fn word(&self, user: bool, at: u32) -> Option<u32> {
        self.window.word(user, at)
    }

    fn byte(&self, user: bool, at: u32) -> Option<u8> {
        self.window.byte(user, at)
    }

    fn set_word(&mut self, user: bool, at: u32, v: u32) -> bool {
        let allowed = self.window.set_word(user, at, v);
        if allowed {
            self.note(at);
        }
        allowed
    }

    fn set_byte(&mut self, user: bool, at: u32, v: u8) -> bool {
        let allowed = self.window.set_byte(user, at, v);
        if allowed {
            self.note(at);
        }
        allowed
    }

    fn fetch(&self, user: bool, at: u32) -> Option<u32> {
        self.window.fetch(user, at)
    }

    ghost lawful = { window-lawful P.START P.END P.USER_START P.USER_END P.is_place };
}
