//! The class of a word. The words of a class are read in `decoding`.
ghost use Rattle.std.specs.Prelude.{◌≡◌, ◌≤◌, ◌&&◌, if◌then◌else◌};
ghost use Rattle.arm_isa.specs.declared.classes.Class.TheVariants.{Undefined};
ghost use Rattle.arm_isa.specs.Fields.{bits, bit};
ghost use Rattle.arm_isa.specs.Table.{is_multiply, class_of};

use crate::fields::{bit, bits, has_bits_7_and_4};

/// The classes of words (VL86C010 (ARM2) data manual, instruction set).
#[derive(Clone, Copy, Debug, PartialEq, Eq)]
pub enum Class {
    /// Data processing.
    Data,
    /// MUL and MLA.
    Multiply,
    /// LDR and STR.
    Single,
    /// LDM and STM.
    Block,
    /// B and BL.
    Branch,
    /// SWI.
    Swi,
    /// Any other word: the processor takes its undefined trap.
    Undefined,
}

/// Whether bits 27 to 22 and 7 to 4 of a word are those of MUL and MLA.
fn is_multiply(word: u32) -> bool
    ensures { result ≡ is_multiply word }
{
    bits(word, 27, 22) == 0 && bits(word, 7, 4) == 0b1001
}

fn undefined_if(set: bool, class: Class) -> Class
    ensures { result ≡ (if set then Undefined else class) }
{
    if set { Class::Undefined } else { class }
}

/// The class of a word whose bits 27 to 25 are 0: data processing with a register operand, unless bits 7 and 4 are set.
#[inline]
fn register_class(word: u32) -> Class
    requires { bits word 27 25 ≡ 0 }
    ensures { result ≡ class_of word }
{
    if !has_bits_7_and_4(word) {
        Class::Data
    } else if is_multiply(word) {
        Class::Multiply
    } else {
        Class::Undefined
    }
}

/// The class of a word whose bits 27 and 26 are 0.
#[inline]
fn data_class(word: u32) -> Class
    requires { bits word 27 26 ≡ 0 }
    ensures { result ≡ class_of word }
{
    if bit(word, 25) {
        Class::Data
    } else {
        register_class(word)
    }
}

/// Whether a transfer's word has a register offset with bit 4.
#[inline]
fn has_bits_25_and_4(word: u32) -> bool
    ensures { result ≡ (bit word 25 && bit word 4) }
{
    bit(word, 25) && bit(word, 4)
}

/// The class of a word whose bits 27 and 26 are 01: LDR or STR, unless a register offset has bit 4 set.
#[inline]
fn single_class(word: u32) -> Class
    requires { bits word 27 26 ≡ 1 }
    ensures { result ≡ class_of word }
{
    undefined_if(has_bits_25_and_4(word), Class::Single)
}

/// The class of a word whose bit 27 is 1.
#[inline]
fn upper_class(word: u32) -> Class
    requires { 4 ≤ bits word 27 25 }
    ensures { result ≡ class_of word }
{
    match bits(word, 27, 25) {
        0b100 => Class::Block,
        0b101 => Class::Branch,
        0b110 => Class::Undefined,
        _ => undefined_if(!bit(word, 24), Class::Swi),
    }
}

/// The class of a word, by the bits that all words of the class share.
#[inline]
pub fn class_of(word: u32) -> Class
    ensures { result ≡ class_of word }
{
    if bits(word, 27, 26) == 0 {
        data_class(word)
    } else if bits(word, 27, 27) == 0 {
        single_class(word)
    } else {
        upper_class(word)
    }
}
