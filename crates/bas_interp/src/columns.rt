//! The column after a part of the output.
ghost use Rattle.std.specs.Prelude.{◌≡◌};
ghost use Rattle.bas_ir.specs.Effects.{piece};
ghost use Rattle.bas_value.specs.Output.{Number, column_after};
ghost use Rattle.bas_interp.specs.Machine.{part_of};

use crate::act::Part;
use crate::write::{FIELD, low_byte, number_text, text_at};
use bas_ast::NumberFormat;
use bas_ir::{Ir, Mark, Piece};
use bas_value::Column;

/// The column after a number.
fn after_number(padded: bool, format: NumberFormat, value: i32, column: Column) -> Column
    ensures { result.at ≡ column_after (Number padded format value) column.at }
{
    let bytes = number_text(format, value).len;
    if padded {
        return column.after(u32::from(bytes.max(FIELD)));
    }
    column.after(u32::from(bytes))
}

/// The column after what a number makes.
fn after_piece(kind: Piece, value: i32, column: Column) -> Column
    ensures { result.at ≡ column_after (piece kind value) column.at }
{
    let low = low_byte(value);
    match kind {
        Piece::Spaces => column.after(u32::from(low)),
        Piece::Tab => Column { at: u16::from(low) },
        Piece::Byte | Piece::Word | Piece::Colour => column,
        Piece::Mode => Column { at: 0 },
    }
}

/// The column after a part of the output that is written at a column.
pub(crate) fn column_after(code: &Ir, part: Part, column: Column) -> Column
    ensures { result.at ≡ column_after (part_of code.now part) column.at }
{
    match part {
        Part::Number {
            padded,
            format,
            value,
        } => after_number(padded, format, value, column),
        Part::Text(place) => column.after(text_at(code, place).len() as u32),
        Part::Piece(kind, value) => after_piece(kind, value, column),
        Part::Mark(Mark::Field) => column.after(column.to_field()),
        Part::Mark(Mark::NewLine | Mark::Clear) => Column { at: 0 },
    }
}
