//! A window of addresses that RAM backs.
ghost use Rattle.std.specs.Prelude.{◌≡◌, ◌+◌, ◌-◌, ◌≤◌, length, slice_range, IfOk};
ghost use Rattle.bv_base.specs.Bytes.{zeros};
ghost use Rattle.bv_base.specs.Words.{put_at};
ghost use Rattle.arm2_memory.specs.Window.{window};

use crate::place::Place;
use arm2_cpu::Memory;
use bv_base::NoMemory;
use bv_ram::Ram;
use std::alloc::Global;
use std::marker::{Model, PhantomData};

/// The bytes of a window. Supervisor mode may use all of them, user mode those of its stretch.
#[derive(Drop)]
pub struct Window<P: Place> {
    ram: Ram,
    place: PhantomData<P>,
}

impl<P: Place> Model for Window<P> {
    ghost use Rattle.std.specs.Prelude.{◌≡◌, ◌-◌, ℕ, List, length};

    ghost Value = { List ℕ };

    ghost view = { λ w. w.ram };

    ghost invariant = { λ w. length w.ram ≡ P.END - P.START };
}

/// Whether a mode may use an address.
#[inline]
fn allows<P: Place>(user: bool, at: u32) -> bool
    ensures { result ≡ (window P.START P.END P.USER_START P.USER_END).allows user at }
{
    P::START <= at && at < P::END && (!user || (P::USER_START <= at && at < P::USER_END))
}

impl<P: Place> Window<P> {
    /// A window of zeros.
    pub fn new(alloc: Global) -> Result<Window<P>, NoMemory>
        ensures { IfOk result (λ bytes. bytes ≡ zeros (P.END - P.START)) }
    {
        let ram = Ram::new(alloc, P::END - P::START)?;
        Ok(Window {
            ram,
            place: PhantomData,
        })
    }

    /// Puts bytes from an address on.
    pub fn copy_in(&mut self, at: u32, bytes: &[u8])
        requires after { P.START ≤ at }
        requires inside { at + length bytes.now ≤ P.END }
        ensures { self.new ≡ put_at self.old (at - P.START) bytes.now }
    {
        self.ram.copy_in(at - P::START, bytes);
    }

    /// The bytes from an address up to another.
    pub fn part(&self, from: u32, to: u32) -> &[u8]
        requires after { P.START ≤ from }
        requires ordered { from ≤ to }
        requires inside { to ≤ P.END }
        ensures { result.now ≡ slice_range self.now (from - P.START) (to - P.START) }
    {
        self.ram.part(from - P::START, to - P::START)
    }
}

impl<P: Place> Memory for Window<P> {
    ghost use Rattle.arm2_memory.specs.Window.{window};
    ghost use Rattle.arm2_memory.specs.WindowLaws.{window-lawful};

    ghost space = { window P.START P.END P.USER_START P.USER_END };

    ghost bytes = { λ w. w };

    #[tactic(auto, unfolding(arm2_cpu::specs::Memory::read_word))]
    #[inline]
    fn word(&self, user: bool, at: u32) -> Option<u32> {
        // The proof learns here how long the RAM is.
        let ram = &self.ram;
        if allows::<P>(user, at) {
            Some(ram.word(at - P::START))
        } else {
            None
        }
    }

    #[tactic(auto, unfolding(arm2_cpu::specs::Memory::read_byte, arm2_cpu::specs::Memory::byte_at))]
    #[inline]
    fn byte(&self, user: bool, at: u32) -> Option<u8> {
        let ram = &self.ram;
        if allows::<P>(user, at) {
            Some(ram.byte(at - P::START))
        } else {
            None
        }
    }

    #[tactic(auto, unfolding(arm2_cpu::specs::Memory::wrote_word))]
    #[inline]
    fn set_word(&mut self, user: bool, at: u32, v: u32) -> bool {
        let allowed = allows::<P>(user, at);
        if allowed {
            self.ram.set_word(at - P::START, v);
        }
        allowed
    }

    #[tactic(auto, using(bv_base::proofs::Words::slice_set_is_put), unfolding(arm2_cpu::specs::Memory::wrote_byte))]
    #[inline]
    fn set_byte(&mut self, user: bool, at: u32, v: u8) -> bool {
        let allowed = allows::<P>(user, at);
        if allowed {
            self.ram.set_byte(at - P::START, v);
        }
        allowed
    }

    #[inline]
    fn fetch(&self, user: bool, at: u32) -> Option<u32> {
        self.word(user, at)
    }

    ghost lawful = { window-lawful P.START P.END P.USER_START P.USER_END P.is_place };
}
