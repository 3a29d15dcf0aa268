//! What every crate of `basv` shares: the limits, the memory map, and the answer that memory ran out. A definition that two crates
//! cite and that belongs to neither is at home here.
#![tactic(auto)]

mod laws;
mod limits;
mod memory_map;
mod no_memory;

pub use laws::{addresses_numbered, limits_numbered};
pub use limits::{
    CRUNCHED_FILE_BYTES, DIMENSIONS, FILE_BYTES, IMAGE_BYTES, IMAGE_WORDS, INPUT_BYTES,
    LINE_NUMBERS, LONGEST_TEXT, NAMES, PARAMETERS, PENDING_STRINGS, TEXT_FILE_BYTES,
};
pub use memory_map::{
    ARENA_BYTES, ARENA_END, ARENA_START, IMAGE_START, PAD, RAM_END, RETURN_ENTRY, TRAP_ENTRY,
};
pub use no_memory::NoMemory;
