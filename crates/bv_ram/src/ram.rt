//! The memory itself. A further call on it goes here.
ghost use Rattle.std.specs.Prelude.{◌≡◌, ◌+◌, ◌-◌, ◌%◌, ◌<◌, ◌≤◌, [], ◌∷◌, length, slice_index, slice_range, slice_set, IfOk};
ghost use Rattle.bv_base.specs.Bytes.{zeros, repeated};
ghost use Rattle.bv_base.specs.Words.{word_bytes, word_at, put_at};

use crate::block::{Block, Lease};
use bv_base::NoMemory;
use std::alloc::Global;
use std::marker::Model;

/// Memory of a fixed size: bytes at the addresses from 0 on. Once it is made, no call takes memory or fails. It is freed
/// at its end.
pub struct Ram {
    block: Block,
    lease: Lease<Global>,
    alloc: Global,
    len: u32,
}

impl Model for Ram {
    ghost use Rattle.std.specs.Prelude.{◌≡◌, ℕ, List, length};

    ghost Value = { List ℕ };

    ghost view = { λ r. r.block.bytes };

    ghost invariant = { λ r. (length r.block.bytes ≡ r.len) × (r.block.room ≡ r.len) × (r.lease.alloc ≡ r.alloc) × (r.lease.start ≡ r.block.start) × (r.lease.len ≡ r.len) };
}

impl Drop for Ram {
    fn drop(self) {
        let Ram {
            block,
            lease,
            alloc,
            len,
        } = self;
        block.free(lease, &alloc, len as usize);
    }
}

#[tactic(auto, using(crate::proofs::Bytes::zeros_length, crate::proofs::Bytes::zeros_more, crate::proofs::Bytes::zeros_none))]
/// Writes 0 to all of a block that is not written yet. The allocator offers no memory that is zero already. The loop does
/// nothing but store, so it becomes one `memset`.
fn clear(block: &mut Block, len: usize)
    requires empty { block.old.bytes ≡ [] }
    requires room { block.old.room ≡ len }
    ensures bytes { block.new.bytes ≡ zeros len }
    ensures in_place { (block.new.start ≡ block.old.start) × (block.new.room ≡ len) }
{
    for at in 0..len {
        block.push(at, 0);
    }
}

impl Ram {
    /// Memory of `len` bytes, all 0.
    pub fn new(alloc: Global, len: u32) -> Result<Ram, NoMemory>
        ensures bytes { IfOk result (λ ram. ram ≡ zeros len) }
        ensures length { IfOk result (λ ram. length ram ≡ len) }
    {
        match Block::allocate(&alloc, len as usize) {
            Some((mut block, lease)) => {
                clear(&mut block, len as usize);
                Ok(Ram {
                    block,
                    lease,
                    alloc,
                    len,
                })
            }
            None => Err(NoMemory),
        }
    }

    /// How many bytes it has.
    pub fn len(&self) -> u32
        ensures { result ≡ length self.now }
    {
        self.len
    }

    /// The byte at an address.
    pub fn byte(&self, at: u32) -> u8
        requires inside { at < length self.now }
        ensures { result ≡ slice_index self.now at }
    {
        self.block.bytes(self.len as usize)[at as usize]
    }

    /// Sets the byte at an address.
    pub fn set_byte(&mut self, at: u32, v: u8)
        requires inside { at < length self.old }
        ensures bytes { self.new ≡ slice_set self.old at v }
        ensures length { length self.new ≡ length self.old }
    {
        self.block.bytes_mut(self.len as usize)[at as usize] = v;
    }

    #[tactic(auto, unfolding(bv_base::specs::Words::word_at))]
    /// The word at an address, whose lowest byte comes first.
    pub fn word(&self, at: u32) -> u32
        requires aligned { at % 4 ≡ 0 }
        requires inside { at + 4 ≤ length self.now }
        ensures { result ≡ word_at self.now at }
    {
        let at = at as usize;
        let bytes = self.block.bytes(self.len as usize);
        u32::from_le_bytes([bytes[at], bytes[at + 1], bytes[at + 2], bytes[at + 3]])
    }

    /// Sets the word at an address, whose lowest byte comes first.
    pub fn set_word(&mut self, at: u32, v: u32)
        requires aligned { at % 4 ≡ 0 }
        requires inside { at + 4 ≤ length self.old }
        ensures bytes { self.new ≡ put_at self.old at (word_bytes v) }
        ensures length { length self.new ≡ length self.old }
    {
        self.copy_in(at, &v.to_le_bytes());
    }

    #[tactic(auto, unfolding(bv_base::specs::Bytes::repeated, bv_base::specs::Words::put_at))]
    /// Sets each byte from `from` up to `to`.
    pub fn fill(&mut self, from: u32, to: u32, v: u8)
        requires ordered { from ≤ to }
        requires inside { to ≤ length self.old }
        ensures bytes { self.new ≡ put_at self.old from (repeated (to - from) v) }
        ensures length { length self.new ≡ length self.old }
    {
        self.block.bytes_mut(self.len as usize)[from as usize..to as usize].fill(v);
    }

    #[tactic(auto, unfolding(bv_base::specs::Words::put_at))]
    /// Puts bytes from an address on.
    pub fn copy_in(&mut self, at: u32, bytes: &[u8])
        requires inside { at + length bytes.now ≤ length self.old }
        ensures bytes { self.new ≡ put_at self.old at bytes.now }
        ensures length { length self.new ≡ length self.old }
    {
        let from = at as usize;
        let to = from + bytes.len();
        self.block.bytes_mut(self.len as usize)[from..to].copy_from_slice(bytes);
    }

    /// The bytes from `from` up to `to`.
    pub fn part(&self, from: u32, to: u32) -> &[u8]
        requires ordered { from ≤ to }
        requires inside { to ≤ length self.now }
        ensures bytes { result.now ≡ slice_range self.now from to }
        ensures length { length result.now ≡ to - from }
    {
        &self.block.bytes(self.len as usize)[from as usize..to as usize]
    }
}
