//! The addresses of the board's memory, in bytes, each stated from the others. This project's own. Each is the number
//! that `specs/MemoryMap.antt` has for it.

/// The number of bytes of RAM, which is the address after its last byte. It begins at address 0.
pub const RAM_END: u32 = 0x100_0000;

/// The address of the arena's first byte. The arena is a program's one block of bytes for indirection and machine
/// code, and has the same addresses for the meaning of a program and for the board.
pub const ARENA_START: u32 = 0x8000;

/// The number of bytes in the arena.
pub const ARENA_BYTES: u32 = 0x8_0000;

/// The address after the arena's last byte.
pub const ARENA_END: u32 = ARENA_START + ARENA_BYTES;

/// The address at which a routine in user mode ends: it is left by jumping there.
pub const PAD: u32 = ARENA_START - 4;

/// The address of an image's first word, where a run begins.
pub const IMAGE_START: u32 = 0x10_0000;

/// The address at which the supervisor goes on when a routine in user mode comes to `PAD`.
pub const RETURN_ENTRY: u32 = IMAGE_START + 4;

/// The address at which the supervisor goes on when user mode traps.
pub const TRAP_ENTRY: u32 = RETURN_ENTRY + 4;
