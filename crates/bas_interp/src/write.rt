//! What is written to the sink: each byte in a write of its own.
ghost use Rattle.std.specs.Prelude.{◌≡◌, ◌≤◌, ◌++◌, [], codes, length, slice_index_or};
ghost use Rattle.bas_ir.specs.Effects.{mark, piece};
ghost use Rattle.bas_value.specs.Output.{Closing, Number, number_text, low_byte, second_byte, new_line, part_bytes, spaces, to_column};
ghost use Rattle.bv_num.specs.Digits.{decimal_digits};
ghost use Rattle.bas_interp.specs.Machine.{part_of};
ghost use Rattle.bas_interp.specs.Writes.{Takes};

use crate::act::Part;
use bas_ast::NumberFormat;
use bas_ir::{Ir, Mark, Piece};
use bas_value::Column;
use bv_io::{Sink, SinkFault};
use bv_num::Digits;

/// The bytes of a new line.
const NEW_LINE: &[u8] = b"\n\r";

/// The greatest number of spaces that are written at once.
const MOST_SPACES: usize = 255;

/// As many spaces.
const SPACES: [u8; MOST_SPACES] = [b' '; MOST_SPACES];

/// The number of columns in which a number is right-justified.
pub(crate) const FIELD: u8 = 10;

/// Writes bytes.
fn write_bytes<O: Sink>(bytes: &[u8], out: &mut O) -> Result<(), SinkFault>
    ensures { Takes result bytes.now (O.written out.old) (O.written out.new) (O.log out.old) (O.log out.new) (O.faults out.old) (O.faults out.new) }
{
    'bytes: for byte in bytes {
        if let Err(fault) = out.write(&[*byte]) {
            return Err(fault);
        }
    }
    Ok(())
}

/// Writes bytes and then others.
fn write_both<O: Sink>(first: &[u8], second: &[u8], out: &mut O) -> Result<(), SinkFault>
    ensures { Takes result (first.now ++ second.now) (O.written out.old) (O.written out.new) (O.log out.old) (O.log out.new) (O.faults out.old) (O.faults out.new) }
{
    if let Err(fault) = write_bytes(first, out) {
        return Err(fault);
    }
    write_bytes(second, out)
}

/// Some spaces.
fn spaces(count: u8) -> &'static [u8]
    ensures { result.now ≡ spaces count }
{
    &SPACES[..usize::from(count)]
}

/// The text of a number.
pub(crate) fn number_text(format: NumberFormat, value: i32) -> Digits
    ensures value { result ≡ number_text format value }
    ensures short { length result ≤ 11 }
{
    match format {
        NumberFormat::Decimal => bv_num::decimal(value),
        NumberFormat::Hexadecimal => bv_num::hex(value.cast_unsigned()),
    }
}

/// The low byte of a number.
pub(crate) fn low_byte(value: i32) -> u8
    ensures { result ≡ low_byte value }
{
    (value.cast_unsigned() % 0x100) as u8
}

/// The byte above it.
fn second_byte(value: i32) -> u8
    ensures { result ≡ second_byte value }
{
    (value.cast_unsigned() / 0x100 % 0x100) as u8
}

/// The text at a place of the table.
pub(crate) fn text_at(code: &Ir, place: u32) -> &[u8]
    ensures value { result.now ≡ slice_index_or code.now.texts place [] }
    ensures short { length result.now ≤ 255 }
{
    let texts = code.texts.as_slice();
    if (place as usize) < texts.len() {
        texts[place as usize].as_slice()
    } else {
        &[]
    }
}

/// Writes a number.
fn write_number<O: Sink>(
    padded: bool,
    format: NumberFormat,
    value: i32,
    out: &mut O,
) -> Result<(), SinkFault>
    ensures { Takes result (part_bytes (Number padded format value) 0) (O.written out.old) (O.written out.new) (O.log out.old) (O.log out.new) (O.faults out.old) (O.faults out.new) }
{
    let text = number_text(format, value);
    if padded {
        let lead = FIELD.saturating_sub(text.len);
        return write_both(spaces(lead), text.as_slice(), out);
    }
    write_bytes(text.as_slice(), out)
}

/// Writes what leads to a column.
fn write_tab<O: Sink>(wanted: u8, column: Column, out: &mut O) -> Result<(), SinkFault>
    ensures { Takes result (to_column wanted column.at) (O.written out.old) (O.written out.new) (O.log out.old) (O.log out.new) (O.faults out.old) (O.faults out.new) }
{
    if column.at <= u16::from(wanted) {
        write_bytes(spaces((u16::from(wanted) - column.at) as u8), out)
    } else {
        write_both(NEW_LINE, spaces(wanted), out)
    }
}

/// Writes what a number makes.
fn write_piece<O: Sink>(
    kind: Piece,
    value: i32,
    column: Column,
    out: &mut O,
) -> Result<(), SinkFault>
    ensures { Takes result (part_bytes (piece kind value) column.at) (O.written out.old) (O.written out.new) (O.log out.old) (O.log out.new) (O.faults out.old) (O.faults out.new) }
{
    let low = low_byte(value);
    match kind {
        Piece::Spaces => write_bytes(spaces(low), out),
        Piece::Tab => write_tab(low, column, out),
        Piece::Byte => write_bytes(&[low], out),
        Piece::Word => write_bytes(&[low, second_byte(value)], out),
        Piece::Mode => write_bytes(&[22, low], out),
        Piece::Colour => write_bytes(&[17, low], out),
    }
}

/// Writes a part of the output at a column.
pub(crate) fn write_part<O: Sink>(
    code: &Ir,
    part: Part,
    column: Column,
    out: &mut O,
) -> Result<(), SinkFault>
    ensures { Takes result (part_bytes (part_of code.now part) column.at) (O.written out.old) (O.written out.new) (O.log out.old) (O.log out.new) (O.faults out.old) (O.faults out.new) }
{
    match part {
        Part::Number {
            padded,
            format,
            value,
        } => write_number(padded, format, value, out),
        Part::Text(place) => write_bytes(text_at(code, place), out),
        Part::Piece(kind, value) => write_piece(kind, value, column, out),
        Part::Mark(Mark::Field) => write_bytes(spaces(column.to_field() as u8), out),
        Part::Mark(Mark::NewLine) => write_bytes(NEW_LINE, out),
        Part::Mark(Mark::Clear) => write_bytes(&[12], out),
    }
}

/// The digits of a line's number.
fn line_text(line: u16) -> Digits
    ensures { result ≡ decimal_digits line }
{
    bv_num::decimal(i32::from(line))
}

/// Writes where an error arose, and a new line.
fn write_line<O: Sink>(line: u16, out: &mut O) -> Result<(), SinkFault>
    ensures { Takes result (codes " at line " ++ decimal_digits line ++ new_line) (O.written out.old) (O.written out.new) (O.log out.old) (O.log out.new) (O.faults out.old) (O.faults out.new) }
{
    if let Err(fault) = write_both(b" at line ", line_text(line).as_slice(), out) {
        return Err(fault);
    }
    write_bytes(NEW_LINE, out)
}

/// Writes the end of a run by an error with a text, at a line.
pub(crate) fn write_closing<O: Sink>(text: &[u8], line: u16, out: &mut O) -> Result<(), SinkFault>
    ensures { Takes result (part_bytes (Closing text.now line) 0) (O.written out.old) (O.written out.new) (O.log out.old) (O.log out.new) (O.faults out.old) (O.faults out.new) }
{
    if let Err(fault) = write_both(NEW_LINE, text, out) {
        return Err(fault);
    }
    write_line(line, out)
}
