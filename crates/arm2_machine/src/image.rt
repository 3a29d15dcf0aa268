//! Image files: the bytes of words, and the words of bytes.
ghost use Rattle.std.specs.Prelude.{◌≡◌, ◌≤◌, ◌<◌, ◌↔◌, IsTrue, length, slice_get, IfOk, IfErr};
ghost use Rattle.arm2_machine.specs.Image.{magic, ImageOf, HasOneImage, ExplainsImage, MagicEnds, IsWhole};
ghost use Rattle.bv_base.specs.Limits.{image_words};
ghost use Rattle.bv_base.specs.Words.{AreWords};

use crate::words::{push_word, push_words};
use bv_base::{IMAGE_WORDS, NoMemory};
use byteorder::{ByteOrder, LittleEndian};
use std::alloc::{AllocError, AllocFailed, Global};
use thiserror::Error;

/// The first bytes of an image file.
pub const MAGIC: [u8; 4] = *b"BVA2";

/// Why bytes are no image.
#[derive(Debug, Drop, Error)]
pub enum ImageError {
    /// The bytes are no image file. Those before `at`, an offset in bytes, could begin one.
    #[error("NotImage")]
    NotImage { at: u32 },
    /// The file says that it has more than `IMAGE_WORDS` words.
    #[error("TooLong")]
    TooLong,
    /// Memory ran out for the words.
    #[error("NoMemory")]
    NoMemory,
}

impl From<AllocError> for ImageError {
    ghost use Rattle.std.specs.Prelude.{◌≡◌};
    ghost use Rattle.arm2_machine.specs.declared.image.ImageError.TheVariants.{NoMemory};

    ghost from_gives = { λ _ error. error ≡ NoMemory };

    fn from(_error: AllocError) -> ImageError {
        ImageError::NoMemory
    }
}

impl<T: Drop> From<AllocFailed<T>> for ImageError {
    ghost use Rattle.std.specs.Prelude.{◌≡◌};
    ghost use Rattle.arm2_machine.specs.declared.image.ImageError.TheVariants.{NoMemory};

    ghost from_gives = { λ _ error. error ≡ NoMemory };

    fn from(_error: AllocFailed<T>) -> ImageError {
        ImageError::NoMemory
    }
}

/// The image file of these words, of which there are at most `IMAGE_WORDS`. Reading it gives the same words.
pub fn write_image(alloc: Global, words: &[u32]) -> Result<Vec<u8>, NoMemory>
    requires { length words.now ≤ image_words }
    ensures image { IfOk result (λ bytes. ImageOf bytes.items words.now) }
    ensures reading { IfOk result (λ bytes. HasOneImage bytes.items words.now) }
{
    let mut bytes = Vec::from_slice(alloc, &MAGIC)?;
    push_word(&mut bytes, words.len() as u32)?;
    push_words(&mut bytes, words)?;
    Ok(bytes)
}

/// Whether the byte at a place below 4 is there and is that of an image file.
fn is_magic_at(bytes: &[u8], at: usize) -> bool
    requires { at < 4 }
    ensures { IsTrue result ↔ (slice_get bytes.now at ≡ slice_get magic at) }
{
    at < bytes.len() && bytes[at] == MAGIC[at]
}

/// How many of the first bytes are those of an image file, up to all four.
fn magic_end(bytes: &[u8]) -> usize
    ensures { MagicEnds bytes.now result }
{
    let mut end = 0;
    'magic: while end < 4 {
        if !is_magic_at(bytes, end) {
            return end;
        }
        end += 1;
    }
    end
}

#[tactic(auto, unfolding(bv_base::specs::Words::word_at))]
/// How many words the bytes of a whole image file have.
fn check_image(bytes: &[u8]) -> Result<usize, ImageError>
    ensures ok { IfOk result (λ count. IsWhole bytes.now count) }
    ensures err { IfErr result (ExplainsImage bytes.now) }
{
    let magic = magic_end(bytes);
    if magic < 4 {
        return Err(ImageError::NotImage { at: magic as u32 });
    }
    if bytes.len() < 8 {
        return Err(ImageError::NotImage {
            at: bytes.len() as u32,
        });
    }
    let count = LittleEndian::read_u32(&bytes[4..]);
    if count > IMAGE_WORDS {
        return Err(ImageError::TooLong);
    }
    let end = 8 + 4 * count as usize;
    if bytes.len() != end {
        let at = bytes.len().min(end) as u32;
        return Err(ImageError::NotImage { at });
    }
    Ok(count as usize)
}

#[tactic(auto, unfolding(bv_base::specs::Words::word_at))]
/// The words of an image file.
pub fn read_image(alloc: Global, bytes: &[u8]) -> Result<Vec<u32>, ImageError>
    ensures ok { IfOk result (λ words. ImageOf bytes.now words.items) }
    ensures are_words { IfOk result (λ words. AreWords words.items) }
    ensures err { IfErr result (ExplainsImage bytes.now) }
{
    let count = check_image(bytes)?;
    let mut words = Vec::with_capacity(alloc, count)?;
    for index in 0..count {
        words.push(LittleEndian::read_u32(&bytes[8 + 4 * index..]))?;
    }
    Ok(words)
}
