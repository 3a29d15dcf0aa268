//! The texts of a program and its items of DATA: their bytes as they stand in the image, those as words, and their addresses.
ghost use Rattle.std.specs.Prelude.{◌≡◌, ◌+◌, ◌-◌, min, ◌<◌, ◌^◌, ◌++◌, OnOk, IfOk, [], length, slice_index, slice_index_or};
ghost use Rattle.codegen.specs.Agrees.{AreBytes};
ghost use Rattle.codegen.specs.Emission.{word_from};
ghost use Rattle.codegen.specs.Placing.{addresses, texts_start};
ghost use Rattle.codegen.specs.Program.{all_texts, data_bytes, text_bytes, packed, data_items, text_of, named_text, first_item};

use arm_isa::decode;
use bas_ir::{Ir, Op};
use bas_value::Str;
use bv_base::{IMAGE_START, NoMemory};
use code_frag::Frag;
use runtime_lib::error_table;
use std::alloc::Global;

/// The bytes of a word.
const WORD_BYTES: usize = 4;

/// The byte after the last item of DATA, which is no item's length.
const END_MARK: u8 = 255;

// ---- texts and items

/// The number of texts and items of DATA. One past the end of `usize` is answered as want of memory.
fn text_count(ir: &Ir) -> Result<usize, NoMemory>
    ensures { IfOk result (λ count. count ≡ length (all_texts ir.now)) }
{
    ir.texts
        .len()
        .checked_add(ir.data_items.len())
        .ok_or(NoMemory)
}

/// A text by its number, or an item of DATA by its own and that of the texts.
fn text_of_number(ir: &Ir, number: usize) -> &Str
    requires { number < length (all_texts ir.now) }
    ensures { result.now ≡ slice_index_or (all_texts ir.now) number [] }
{
    let texts = ir.texts.as_slice();
    if number < texts.len() {
        &texts[number]
    } else {
        &ir.data_items.as_slice()[number - texts.len()]
    }
}

/// Adds a text to the bytes of others. The only error is want of memory.
fn push_text(bytes: &mut Vec<u8>, text: &Str) -> Result<(), NoMemory>
    ensures { OnOk result (bytes.new.items ≡ bytes.old.items ++ text_bytes text.now) }
{
    bytes.push(text.len())?;
    bytes.extend_from_slice(text.as_slice())?;
    Ok(())
}

/// The bytes of all texts: those of errors, then the program's with its items of DATA, and the byte after them. The only error is want
/// of memory.
pub fn data_bytes(alloc: Global, ir: &Ir) -> Result<Vec<u8>, NoMemory>
    ensures { IfOk result (λ bytes. bytes.items ≡ data_bytes ir.now) }
{
    let mut bytes = Vec::from_slice(alloc, error_table())?;
    for number in 0..text_count(ir)? {
        push_text(&mut bytes, text_of_number(ir, number))?;
    }
    bytes.push(END_MARK)?;
    Ok(bytes)
}

/// The byte at a place, and 0 past the end.
fn byte_at(bytes: &[u8], at: usize) -> u32
    ensures value { result ≡ slice_index bytes.now at }
    ensures small { result < 2 ^ 8 }
{
    match bytes.get(at) {
        Some(byte) => (*byte).into(),
        None => 0,
    }
}

/// The word of the four bytes from a place on, the lowest one first.
fn word_from(bytes: &[u8], at: usize) -> u32
    requires { at + 3 < 2 ^ 64 }
    ensures { result ≡ word_from bytes.now at }
{
    byte_at(bytes, at)
        + byte_at(bytes, at + 1) * 0x100
        + byte_at(bytes, at + 2) * 0x1_0000
        + byte_at(bytes, at + 3) * 0x100_0000
}

/// Adds bytes as words, the lowest byte first, with zeros after the last one. The only error is want of memory.
pub fn emit_bytes(frag: &mut Frag, bytes: &[u8]) -> Result<(), NoMemory>
    ensures words { OnOk result (frag.new ≡ record { items = frag.old.items ++ data_items (packed bytes.now); places = frag.old.places }) }
    ensures bytes { AreBytes bytes.now }
{
    for k in 0..bytes.len().div_ceil(WORD_BYTES) {
        frag.emit(&decode(word_from(bytes, k * WORD_BYTES)))?;
    }
    Ok(())
}

// ---- addresses

/// The address of the texts of errors: they come after an image's three first words.
const ERROR_TEXTS: u32 = IMAGE_START + 12;

/// The address of the program's first text.
fn texts_start() -> u32
    ensures { result ≡ texts_start }
{
    ERROR_TEXTS + error_table().len() as u32
}

/// The address after a text. One past the end of `u32` is answered as want of memory.
fn after_text(address: u32, text: &Str) -> Result<u32, NoMemory>
    ensures { IfOk result (λ after. after ≡ address + length (text_bytes text.now)) }
{
    address
        .checked_add(u32::from(text.len()) + 1)
        .ok_or(NoMemory)
}

/// The addresses of a program's texts and items of DATA, and that after them. The only error is want of memory.
pub fn text_addresses(alloc: Global, ir: &Ir) -> Result<Vec<u32>, NoMemory>
    ensures { IfOk result (λ table. table.items ≡ addresses ir.now) }
{
    let mut address = texts_start();
    let mut table = Vec::new(alloc);
    for number in 0..text_count(ir)? {
        table.push(address)?;
        address = after_text(address, text_of_number(ir, number))?;
    }
    table.push(address)?;
    Ok(table)
}

/// The number of the text or item of DATA that an operation names, and 0 if it names none. One past the end of `usize` stands still
/// at it.
fn text_of(ir: &Ir, op: Op) -> usize
    ensures { result ≡ min (text_of ir.now op) (2 ^ 64 - 1) }
{
    match op {
        Op::PushText(number) => number as usize,
        Op::Restore(item) => ir.texts.len().saturating_add(item as usize),
        _ => 0,
    }
}

/// That number, if it isn't past the last one.
fn text_within(ir: &Ir, op: Op, last: usize) -> usize
    ensures { result ≡ min (text_of ir.now op) last }
{
    text_of(ir, op).min(last)
}

/// The address of the text or item of DATA that an operation names, by the table of the addresses; that of the first one if it names
/// none.
pub fn address_of(ir: &Ir, op: Op, table: &[u32]) -> u32
    requires { table.now ≡ addresses ir.now }
    ensures { result ≡ named_text ir.now op }
{
    table[text_within(ir, op, table.len() - 1)]
}

/// The address of the first item of DATA, or that after the texts if there is none.
pub fn first_item(ir: &Ir, table: &[u32]) -> u32
    requires { table.now ≡ addresses ir.now }
    ensures { result ≡ first_item ir.now }
{
    address_of(ir, Op::Restore(0), table)
}
