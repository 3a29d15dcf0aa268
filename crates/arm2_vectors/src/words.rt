//! The words of memory that a field lists.
use crate::fields::hexadecimal;
use arrayvec::ArrayVec;

/// The most words that a list of a case has: LDM and STM move sixteen registers.
pub const MOST_WORDS: usize = 16;

/// A word of memory.
#[derive(Clone, Copy, Default)]
pub struct Word {
    pub address: u32,
    pub value: u32,
}

/// Words of memory, as a field of a case lists them.
pub type Words = ArrayVec<Word, MOST_WORDS>;

/// A word that is written as ADDRESS:WORD.
fn word_of(text: &str) -> Option<Word> {
    let (address, value) = text.split_once(':')?;
    Some(Word {
        address: hexadecimal(address)?,
        value: hexadecimal(value)?,
    })
}

/// Words with commas between, or - for none.
pub fn words_of(field: &str) -> Option<Words> {
    let mut words = Words::new();
    if field == "-" {
        return Some(words);
    }
    for text in field.split(',') {
        words.try_push(word_of(text)?).ok()?;
    }
    Some(words)
}
