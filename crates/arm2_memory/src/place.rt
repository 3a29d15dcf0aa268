//! Where a window lies.
ghost use Rattle.std.specs.Prelude.{ℕ};
ghost use Rattle.arm2_memory.specs.Window.{IsPlace};

/// Where a window lies, and which stretch of it user mode may use. All four addresses are multiples of 4.
pub trait Place {
    ghost START: { ℕ };

    ghost END: { ℕ };

    ghost USER_START: { ℕ };

    ghost USER_END: { ℕ };

    /// The address of the first byte.
    const START: u32;

    /// The address after the last byte.
    const END: u32;

    /// The first address that user mode may use.
    const USER_START: u32;

    /// The address after the last that user mode may use.
    const USER_END: u32;

    ghost is_place: { IsPlace START END USER_START USER_END };
}
