//! A small memory for the processor.

use arm2_cpu::Memory;
use arm2_memory::{Place, Window};
use bv_base::NoMemory;
use std::alloc::Global;

/// The address of the first byte.
pub const BASE: u32 = 0x8000;

/// 64 bytes, of which user mode may use the first half.
pub struct Small;

impl Place for Small {
    ghost use Rattle.std.specs.Prelude.{refl};
    ghost use Rattle.std.proofs.Common.{lit≤};

    ghost START = { 0x8000 };

    ghost END = { 0x8040 };

    ghost USER_START = { 0x8000 };

    ghost USER_END = { 0x8020 };

    const START: u32 = 0x8000;

    const END: u32 = 0x8040;

    const USER_START: u32 = 0x8000;

    const USER_END: u32 = 0x8020;

    ghost is_place = { record { start_aligned = refl; end_aligned = refl; low_aligned = refl; high_aligned = refl; begins = lit≤ tt; ordered = lit≤ tt; ends = lit≤ tt } };
}

/// A memory with an instruction at its start, words at &8010 and &8014, and 0 elsewhere.
pub fn small_ram(
    alloc: Global,
    code: u32,
    first: u32,
    second: u32,
) -> Result<Window<Small>, NoMemory> {
    let mut ram = Window::new(alloc)?;
    ram.set_word(false, BASE, code);
    ram.set_word(false, 0x8010, first);
    ram.set_word(false, 0x8014, second);
    Ok(ram)
}
