//! The registers that code keeps everywhere, and the regions of memory that it uses. The definitions have them in `Regions.antt`
//! of `code_frag`.

/// The address of the pending strings' addresses below the topmost one.
pub const TEXTS: u8 = 9;

/// The address of the topmost pending string.
pub const TEXT: u8 = 10;

/// The address of the residents and of what follows on them.
pub const BASE: u8 = 11;

/// The address of the pending numbers below the topmost one, which is in R0.
pub const NUMBERS: u8 = 12;

/// The address of the latest frame of a routine.
pub const STACK: u8 = 13;

/// Where the resident integers are.
pub const RESIDENTS: u32 = 0x90_0000;

/// Where the column stands, from the residents on, in bytes.
pub const COLUMN: u16 = 0x6c;

/// Where the number of open loops and GOSUBs stands, from the residents on, in bytes.
pub const OPENED_COUNT: u16 = 0x70;

/// Where the address of the next item of DATA stands, from the residents on, in bytes.
pub const NEXT_ITEM: u16 = 0x78;

/// Where the cells of names stand, from the residents on, in bytes; and the bytes of a cell.
pub const CELLS: u32 = 0x100;

pub const CELL_BYTES: u32 = 8;

/// From where the pending numbers grow downwards.
pub const NUMBERS_END: u32 = 0x9a_0400;

/// From where the addresses of pending strings grow downwards.
pub const TEXTS_END: u32 = 0x9a_9040;

/// From where the frames of routines grow downwards.
pub const STACK_END: u32 = 0xff_f000;
