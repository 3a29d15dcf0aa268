//! The block that a raw pointer points to, and the right to free it.
ghost use Rattle.std.specs.Prelude.{◌≡◌, ℕ, ◌^◌, ◌<◌, List, [], ◌∷◌, ◌++◌, length, IfSome};
ghost use Rattle.std.specs.Borrow.{sem};
ghost use denote.RawPtr.{Ptr};
ghost use Rattle.bv_ram.specs.Ownership.{block_owns, block_lent, lease_owns};

use std::alloc::Allocator;
use std::marker::{Model, PhantomData};
use std::slice;

/// Room on the heap for bytes, of which the first are written, up to all of them.
pub(crate) struct Block {
    pub(crate) start: *mut u8,
    pub(crate) ghost room: { ℕ },
    pub(crate) ghost bytes: { List ℕ },
}

impl Model for Block {
    ghost also_owns = { λ b. block_owns b.start b.room b.bytes };

    ghost also_shares = { λ b _ κ. block_lent b.start b.room b.bytes κ };
}

/// The right to give the room of `len` bytes at `start` back to `alloc`. It takes no space.
pub(crate) struct Lease<A: Allocator> {
    mark: PhantomData<A>,
    pub(crate) ghost alloc: { A },
    pub(crate) ghost start: { Ptr },
    pub(crate) ghost len: { ℕ },
}

impl<A: Allocator> Model for Lease<A> {
    ghost also_owns = { λ l. lease_owns (A.dealloc_token l.alloc) l.start l.len };
}

impl Block {
    ghost use Rattle.bv_ram.specs.Lends.{lends_bytes};

    /// A block in which nothing is written, or `None` where memory runs out.
    pub(crate) fn allocate<A: Allocator>(alloc: &A, len: usize) -> Option<(Block, Lease<A>)>
        requires { len < 2 ^ 63 }
        ensures { IfSome result (λ r. (r.0.room ≡ len) × (r.0.bytes ≡ []) × (r.1.alloc ≡ alloc.now) × (r.1.start ≡ r.0.start) × (r.1.len ≡ len)) }
    {
        match alloc.allocate(len, 1) {
            Ok(start) => {
                let mark = PhantomData;
                Some((Block { start }, Lease { mark }))
            }
            Err(_) => None,
        }
    }

    /// Writes the first byte that is not written yet, which is at `at`.
    pub(crate) fn push(&mut self, at: usize, byte: u8)
        requires { (at ≡ length self.old.bytes) × (at < self.old.room) }
        ensures { (self.new.start ≡ self.old.start) × (self.new.room ≡ self.old.room) × (self.new.bytes ≡ self.old.bytes ++ byte ∷ []) }
    {
        unsafe {
            *self.start.add(at) = byte;
        }
    }

    /// The `len` bytes that are written.
    pub(crate) fn bytes(&self, len: usize) -> &[u8]
        requires { len ≡ length self.now.bytes }
        ensures { result.now ≡ self.now.bytes }
    {
        unsafe { slice::from_raw_parts(self.start, len) }
    }

    /// The `len` bytes that are written.
    pub(crate) fn bytes_mut(&mut self, len: usize) -> &mut [u8]
        requires { len ≡ length self.old.bytes }
        ensures* writes_back { sem 𝓛 (lends_bytes self.entry result) }
        ensures value { result.now ≡ self.old.bytes }
    {
        unsafe { slice::from_raw_parts_mut(self.start, len) }
    }

    /// Gives the room for `len` bytes back.
    pub(crate) fn free<A: Allocator>(self, lease: Lease<A>, alloc: &A, len: usize)
        requires { (lease.alloc ≡ alloc.now) × (lease.start ≡ self.start) × (lease.len ≡ len) × (self.room ≡ len) }
    {
        let Block { start } = self;
        let Lease { mark: _ } = lease;
        unsafe { alloc.deallocate(start, len, 1) }
    }
}
