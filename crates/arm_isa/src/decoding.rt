//! Instructions from words. A new class has its reader here, and its line in `read_as`.
ghost use Rattle.std.specs.Prelude.{◌≡◌};
ghost use Rattle.arm_isa.specs.Fields.{bits, signed_offset};
ghost use Rattle.arm_isa.specs.Words.{means, word_of, IsValid, data_of, multiply_of, single_of, block_of, branch_of, swi_of, read_as};

use crate::classes::{Class, class_of};
use crate::fields::{bit, bits, nibble};
use crate::instruction::{BRANCH_WORDS, Instr};

#[inline(always)]
fn data(word: u32) -> Instr
    ensures { result ≡ data_of word }
{
    Instr::Data {
        cond: nibble(word, 28),
        imm: bit(word, 25),
        op: nibble(word, 21),
        s: bit(word, 20),
        rn: nibble(word, 16),
        rd: nibble(word, 12),
        op2: bits(word, 11, 0) as u16,
    }
}

#[inline(always)]
fn multiply(word: u32) -> Instr
    ensures { result ≡ multiply_of word }
{
    Instr::Mul {
        cond: nibble(word, 28),
        acc: bit(word, 21),
        s: bit(word, 20),
        rd: nibble(word, 16),
        rn: nibble(word, 12),
        rs: nibble(word, 8),
        rm: nibble(word, 0),
    }
}

#[inline(always)]
fn single(word: u32) -> Instr
    ensures { result ≡ single_of word }
{
    Instr::Single {
        cond: nibble(word, 28),
        reg: bit(word, 25),
        pre: bit(word, 24),
        up: bit(word, 23),
        byte: bit(word, 22),
        wb: bit(word, 21),
        load: bit(word, 20),
        rn: nibble(word, 16),
        rd: nibble(word, 12),
        offset: bits(word, 11, 0) as u16,
    }
}

#[inline(always)]
fn block(word: u32) -> Instr
    ensures { result ≡ block_of word }
{
    Instr::Block {
        cond: nibble(word, 28),
        pre: bit(word, 24),
        up: bit(word, 23),
        psr: bit(word, 22),
        wb: bit(word, 21),
        load: bit(word, 20),
        rn: nibble(word, 16),
        list: bits(word, 15, 0) as u16,
    }
}

/// The distance of a branch, in words, whose lowest 24 bits the word has.
#[inline(always)]
fn branch_words(word: u32) -> i32
    ensures { result ≡ signed_offset (bits word 23 0) }
{
    let field = bits(word, 23, 0) as i32;
    if field < BRANCH_WORDS {
        field
    } else {
        field - 2 * BRANCH_WORDS
    }
}

#[inline(always)]
fn branch(word: u32) -> Instr
    ensures { result ≡ branch_of word }
{
    Instr::Branch {
        cond: nibble(word, 28),
        link: bit(word, 24),
        words: branch_words(word),
    }
}

#[inline(always)]
fn swi(word: u32) -> Instr
    ensures { result ≡ swi_of word }
{
    Instr::Swi {
        cond: nibble(word, 28),
        number: bits(word, 23, 0),
    }
}

/// A word read as one of a class.
#[inline(always)]
fn read_as(class: Class, word: u32) -> Instr
    ensures { result ≡ read_as class word }
{
    match class {
        Class::Data => data(word),
        Class::Multiply => multiply(word),
        Class::Single => single(word),
        Class::Block => block(word),
        Class::Branch => branch(word),
        Class::Swi => swi(word),
        Class::Undefined => Instr::Undefined { word },
    }
}

/// The instruction that a word is (VL86C010 (ARM2) data manual, instruction set): every word is one. Encoding it
/// gives the word back.
#[inline(always)]
pub fn decode(word: u32) -> Instr
    ensures value { result ≡ means word }
    ensures valid { IsValid result }
    ensures encodes { word_of result ≡ word }
{
    read_as(class_of(word), word)
}
