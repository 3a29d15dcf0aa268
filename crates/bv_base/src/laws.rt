//! The laws that the constants of the code are the numbers of the definitions.
ghost use Rattle.std.specs.Prelude.{◌≡◌};
ghost use Rattle.bv_base.specs.Limits as limits;
ghost use Rattle.bv_base.specs.MemoryMap as addresses;

use crate::limits::{
    CRUNCHED_FILE_BYTES, DIMENSIONS, FILE_BYTES, IMAGE_BYTES, IMAGE_WORDS, INPUT_BYTES,
    LINE_NUMBERS, LONGEST_TEXT, NAMES, PARAMETERS, PENDING_STRINGS, TEXT_FILE_BYTES,
};
use crate::memory_map::{
    ARENA_BYTES, ARENA_END, ARENA_START, IMAGE_START, PAD, RAM_END, RETURN_ENTRY, TRAP_ENTRY,
};

/// The law of the limits.
pub fn limits_numbered()
    ensures file_bytes { FILE_BYTES ≡ limits.file_bytes }
    ensures longest_text { LONGEST_TEXT ≡ limits.longest_text }
    ensures line_numbers { LINE_NUMBERS ≡ limits.line_numbers }
    ensures names { NAMES ≡ limits.names }
    ensures pending_strings { PENDING_STRINGS ≡ limits.pending_strings }
    ensures parameters { PARAMETERS ≡ limits.parameters }
    ensures dimensions { DIMENSIONS ≡ limits.dimensions }
    ensures input_bytes { INPUT_BYTES ≡ limits.input_bytes }
    ensures image_words { IMAGE_WORDS ≡ limits.image_words }
    ensures image_bytes { IMAGE_BYTES ≡ limits.image_bytes }
    ensures text_file_bytes { TEXT_FILE_BYTES ≡ limits.text_file_bytes }
    ensures crunched_file_bytes { CRUNCHED_FILE_BYTES ≡ limits.crunched_file_bytes }
{}

/// The law of the addresses.
pub fn addresses_numbered()
    ensures ram_end { RAM_END ≡ addresses.ram_end }
    ensures arena_start { ARENA_START ≡ addresses.arena_start }
    ensures arena_bytes { ARENA_BYTES ≡ addresses.arena_bytes }
    ensures arena_end { ARENA_END ≡ addresses.arena_end }
    ensures pad { PAD ≡ addresses.pad }
    ensures image_start { IMAGE_START ≡ addresses.image_start }
    ensures return_entry { RETURN_ENTRY ≡ addresses.return_entry }
    ensures trap_entry { TRAP_ENTRY ≡ addresses.trap_entry }
{}
