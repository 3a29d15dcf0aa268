//! The bytes of words.
ghost use Rattle.std.specs.Prelude.{◌≡◌, ◌≤◌, ◌++◌, length, flat_map, IfOk, OnOk};
ghost use Rattle.bv_base.specs.Limits.{image_words};
ghost use Rattle.bv_base.specs.Words.{word_bytes};

use byteorder::{ByteOrder, LittleEndian};
use std::alloc::{AllocError, Global};

/// Adds a word's four bytes, the lowest first.
pub fn push_word(bytes: &mut Vec<u8>, word: u32) -> Result<(), AllocError>
    ensures { OnOk result (bytes.new.items ≡ bytes.old.items ++ word_bytes word) }
{
    let mut word_bytes = [0u8; 4];
    LittleEndian::write_u32(&mut word_bytes, word);
    bytes.extend_from_slice(&word_bytes)
}

/// Adds the bytes of words, one word after the other.
pub fn push_words(bytes: &mut Vec<u8>, words: &[u32]) -> Result<(), AllocError>
    ensures { OnOk result (bytes.new.items ≡ bytes.old.items ++ flat_map word_bytes words.now) }
{
    for word in words {
        push_word(bytes, *word)?;
    }
    Ok(())
}

/// The bytes of at most `IMAGE_WORDS` words, one word after the other.
pub fn words_to_bytes(alloc: Global, words: &[u32]) -> Result<Vec<u8>, AllocError>
    requires { length words.now ≤ image_words }
    ensures { IfOk result (λ bytes. bytes.items ≡ flat_map word_bytes words.now) }
{
    let mut bytes = Vec::with_capacity(alloc, 4 * words.len())?;
    push_words(&mut bytes, words)?;
    Ok(bytes)
}
