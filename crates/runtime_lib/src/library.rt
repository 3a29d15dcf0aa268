//! The library: all routines, and where its entries are.
ghost use Rattle.std.specs.Prelude.{◌≡◌, ◌≤◌, [], ◌∷◌, length, replicate, None, OnOk, IfOk};
ghost use Rattle.code_frag.specs.Words.{IsOpen, AllPlaced};
ghost use Rattle.runtime_lib.specs.Entries.{Product, Quotient, Modulus, DecimalNumber, HexadecimalNumber, SomeSpaces, LineEnd, StringOut, ClosingText, ToField, ToTab, Run, Division, Opening, ClosingWord, Turning, NextItem, ItemNumber, label_of};
ghost use Rattle.runtime_lib.specs.Library.{with_routine, with_routines, numbers, writers, loops, readers, no_routines, library, library_entries, most_library_words};
ghost use Rattle.runtime_lib.specs.Routines.{routines_count};

use crate::data::{emit_item_number, emit_next_item};
use crate::digits::{emit_decimal_number, emit_hexadecimal_number};
use crate::ids;
use crate::labels::{
    CLOSING_TEXT, CLOSING_WORD, DECIMAL_NUMBER, DIVISION, HEXADECIMAL_NUMBER, ITEM_NUMBER,
    LINE_END, MODULUS, NEXT_ITEM, OPENING, PRODUCT, QUOTIENT, RUN, SOME_SPACES, STRING_OUT,
    TO_FIELD, TO_TAB, TURNING,
};
use crate::loops::{emit_closing_word, emit_opening, emit_turning};
use crate::numbers::{emit_division, emit_modulus, emit_product, emit_quotient};
use crate::writing::{
    emit_closing_text, emit_line_end, emit_run, emit_some_spaces, emit_string_out, emit_to_field,
    emit_to_tab,
};
use bv_base::NoMemory;
use code_frag::{Entry, Frag, Lib};
use std::alloc::Global;

/// The number of routines, and of their labels.
const ROUTINES: usize = 18;

/// A fragment with the routines' labels, which have no places yet.
fn with_labels(alloc: Global) -> Result<Frag, NoMemory>
    ensures { IfOk result (λ frag. frag ≡ no_routines) }
{
    let mut frag = Frag::new(alloc);
    for _ in 0..ROUTINES {
        frag.label()?;
    }
    Ok(frag)
}

/// Adds the routine of a product at its label.
fn add_product(frag: &mut Frag) -> Result<(), NoMemory>
    requires open { IsOpen frag.old (label_of Product) }
    requires labels { length frag.old.places ≡ routines_count }
    ensures { OnOk result (frag.new ≡ with_routine Product frag.old) }
{
    frag.place(PRODUCT);
    emit_product(frag)
}

/// Adds the routine of DIV at its label.
fn add_quotient(frag: &mut Frag) -> Result<(), NoMemory>
    requires open { IsOpen frag.old (label_of Quotient) }
    requires labels { length frag.old.places ≡ routines_count }
    ensures { OnOk result (frag.new ≡ with_routine Quotient frag.old) }
{
    frag.place(QUOTIENT);
    emit_quotient(frag)
}

/// Adds the routine of MOD at its label.
fn add_modulus(frag: &mut Frag) -> Result<(), NoMemory>
    requires open { IsOpen frag.old (label_of Modulus) }
    requires labels { length frag.old.places ≡ routines_count }
    ensures { OnOk result (frag.new ≡ with_routine Modulus frag.old) }
{
    frag.place(MODULUS);
    emit_modulus(frag)
}

/// Adds the routine of a number in decimal at its label.
fn add_decimal_number(frag: &mut Frag) -> Result<(), NoMemory>
    requires open { IsOpen frag.old (label_of DecimalNumber) }
    requires labels { length frag.old.places ≡ routines_count }
    ensures { OnOk result (frag.new ≡ with_routine DecimalNumber frag.old) }
{
    frag.place(DECIMAL_NUMBER);
    emit_decimal_number(frag)
}

/// Adds the routine of a number in hexadecimal at its label.
fn add_hexadecimal_number(frag: &mut Frag) -> Result<(), NoMemory>
    requires open { IsOpen frag.old (label_of HexadecimalNumber) }
    requires labels { length frag.old.places ≡ routines_count }
    ensures { OnOk result (frag.new ≡ with_routine HexadecimalNumber frag.old) }
{
    frag.place(HEXADECIMAL_NUMBER);
    emit_hexadecimal_number(frag)
}

/// Adds the routine of SPC at its label.
fn add_some_spaces(frag: &mut Frag) -> Result<(), NoMemory>
    requires open { IsOpen frag.old (label_of SomeSpaces) }
    requires labels { length frag.old.places ≡ routines_count }
    ensures { OnOk result (frag.new ≡ with_routine SomeSpaces frag.old) }
{
    frag.place(SOME_SPACES);
    emit_some_spaces(frag)
}

/// Adds the routine of a new line at its label.
fn add_line_end(frag: &mut Frag) -> Result<(), NoMemory>
    requires open { IsOpen frag.old (label_of LineEnd) }
    requires labels { length frag.old.places ≡ routines_count }
    ensures { OnOk result (frag.new ≡ with_routine LineEnd frag.old) }
{
    frag.place(LINE_END);
    emit_line_end(frag)
}

/// Adds the routine of a string at its label.
fn add_string_out(frag: &mut Frag) -> Result<(), NoMemory>
    requires open { IsOpen frag.old (label_of StringOut) }
    requires labels { length frag.old.places ≡ routines_count }
    ensures { OnOk result (frag.new ≡ with_routine StringOut frag.old) }
{
    frag.place(STRING_OUT);
    emit_string_out(frag)
}

/// Adds the routine of the closing text at its label.
fn add_closing_text(frag: &mut Frag) -> Result<(), NoMemory>
    requires open { IsOpen frag.old (label_of ClosingText) }
    requires labels { length frag.old.places ≡ routines_count }
    ensures { OnOk result (frag.new ≡ with_routine ClosingText frag.old) }
{
    frag.place(CLOSING_TEXT);
    emit_closing_text(frag)
}

/// Adds the routine of a comma at its label.
fn add_to_field(frag: &mut Frag) -> Result<(), NoMemory>
    requires open { IsOpen frag.old (label_of ToField) }
    requires labels { length frag.old.places ≡ routines_count }
    ensures { OnOk result (frag.new ≡ with_routine ToField frag.old) }
{
    frag.place(TO_FIELD);
    emit_to_field(frag)
}

/// Adds the routine of TAB at its label.
fn add_to_tab(frag: &mut Frag) -> Result<(), NoMemory>
    requires open { IsOpen frag.old (label_of ToTab) }
    requires labels { length frag.old.places ≡ routines_count }
    ensures { OnOk result (frag.new ≡ with_routine ToTab frag.old) }
{
    frag.place(TO_TAB);
    emit_to_tab(frag)
}

/// Adds the routine that writes R1 spaces at its label.
fn add_run(frag: &mut Frag) -> Result<(), NoMemory>
    requires open { IsOpen frag.old (label_of Run) }
    requires labels { length frag.old.places ≡ routines_count }
    ensures { OnOk result (frag.new ≡ with_routine Run frag.old) }
{
    frag.place(RUN);
    emit_run(frag)
}

/// Adds the routine that divides words at its label.
fn add_division(frag: &mut Frag) -> Result<(), NoMemory>
    requires open { IsOpen frag.old (label_of Division) }
    requires labels { length frag.old.places ≡ routines_count }
    ensures { OnOk result (frag.new ≡ with_routine Division frag.old) }
{
    frag.place(DIVISION);
    emit_division(frag)
}

/// Adds the routine of FOR, REPEAT, WHILE and GOSUB at its label.
fn add_opening(frag: &mut Frag) -> Result<(), NoMemory>
    requires open { IsOpen frag.old (label_of Opening) }
    requires labels { length frag.old.places ≡ routines_count }
    ensures { OnOk result (frag.new ≡ with_routine Opening frag.old) }
{
    frag.place(OPENING);
    emit_opening(frag)
}

/// Adds the routine of UNTIL, ENDWHILE and RETURN at its label.
fn add_closing_word(frag: &mut Frag) -> Result<(), NoMemory>
    requires open { IsOpen frag.old (label_of ClosingWord) }
    requires labels { length frag.old.places ≡ routines_count }
    ensures { OnOk result (frag.new ≡ with_routine ClosingWord frag.old) }
{
    frag.place(CLOSING_WORD);
    emit_closing_word(frag)
}

/// Adds the routine of NEXT at its label.
fn add_turning(frag: &mut Frag) -> Result<(), NoMemory>
    requires open { IsOpen frag.old (label_of Turning) }
    requires labels { length frag.old.places ≡ routines_count }
    ensures { OnOk result (frag.new ≡ with_routine Turning frag.old) }
{
    frag.place(TURNING);
    emit_turning(frag)
}

/// Adds the routine of the next item of DATA at its label.
fn add_next_item(frag: &mut Frag) -> Result<(), NoMemory>
    requires open { IsOpen frag.old (label_of NextItem) }
    requires labels { length frag.old.places ≡ routines_count }
    ensures { OnOk result (frag.new ≡ with_routine NextItem frag.old) }
{
    frag.place(NEXT_ITEM);
    emit_next_item(frag)
}

/// Adds the routine of an item's number at its label.
fn add_item_number(frag: &mut Frag) -> Result<(), NoMemory>
    requires open { IsOpen frag.old (label_of ItemNumber) }
    requires labels { length frag.old.places ≡ routines_count }
    ensures { OnOk result (frag.new ≡ with_routine ItemNumber frag.old) }
{
    frag.place(ITEM_NUMBER);
    emit_item_number(frag)
}

/// Adds the routines on numbers.
fn add_numbers(frag: &mut Frag) -> Result<(), NoMemory>
    requires { frag.old ≡ no_routines }
    ensures { OnOk result (frag.new ≡ with_routines numbers no_routines) }
{
    add_product(frag)?;
    add_quotient(frag)?;
    add_modulus(frag)?;
    add_decimal_number(frag)?;
    add_hexadecimal_number(frag)
}

/// Adds the routines that write, and those that others call.
fn add_writers(frag: &mut Frag) -> Result<(), NoMemory>
    requires { frag.old ≡ with_routines numbers no_routines }
    ensures { OnOk result (frag.new ≡ with_routines writers (with_routines numbers no_routines)) }
{
    add_some_spaces(frag)?;
    add_line_end(frag)?;
    add_string_out(frag)?;
    add_closing_text(frag)?;
    add_to_field(frag)?;
    add_to_tab(frag)?;
    add_run(frag)?;
    add_division(frag)
}

/// Adds the routines on open loops and GOSUBs.
fn add_loops(frag: &mut Frag) -> Result<(), NoMemory>
    requires { frag.old ≡ with_routines writers (with_routines numbers no_routines) }
    ensures { OnOk result (frag.new ≡ with_routines loops (with_routines writers (with_routines numbers no_routines))) }
{
    add_opening(frag)?;
    add_closing_word(frag)?;
    add_turning(frag)
}

/// Adds the routines on the items of DATA.
fn add_readers(frag: &mut Frag) -> Result<(), NoMemory>
    requires { frag.old ≡ with_routines loops (with_routines writers (with_routines numbers no_routines)) }
    ensures { OnOk result (frag.new ≡ with_routines readers (with_routines loops (with_routines writers (with_routines numbers no_routines)))) }
{
    add_next_item(frag)?;
    add_item_number(frag)
}

/// The entries: their numbers, and their labels.
fn entries(alloc: Global) -> Result<Vec<Entry>, NoMemory>
    ensures { IfOk result (λ entries. entries.items ≡ library_entries) }
{
    Ok(Vec::from_array(
        alloc,
        [
            Entry {
                id: ids::PRODUCT,
                at: PRODUCT,
            },
            Entry {
                id: ids::QUOTIENT,
                at: QUOTIENT,
            },
            Entry {
                id: ids::MODULUS,
                at: MODULUS,
            },
            Entry {
                id: ids::DECIMAL_NUMBER,
                at: DECIMAL_NUMBER,
            },
            Entry {
                id: ids::HEXADECIMAL_NUMBER,
                at: HEXADECIMAL_NUMBER,
            },
            Entry {
                id: ids::SOME_SPACES,
                at: SOME_SPACES,
            },
            Entry {
                id: ids::LINE_END,
                at: LINE_END,
            },
            Entry {
                id: ids::STRING_OUT,
                at: STRING_OUT,
            },
            Entry {
                id: ids::CLOSING_TEXT,
                at: CLOSING_TEXT,
            },
            Entry {
                id: ids::OPENING,
                at: OPENING,
            },
            Entry {
                id: ids::CLOSING_WORD,
                at: CLOSING_WORD,
            },
            Entry {
                id: ids::NEXT_ITEM,
                at: NEXT_ITEM,
            },
            Entry {
                id: ids::ITEM_NUMBER,
                at: ITEM_NUMBER,
            },
            Entry {
                id: ids::TO_FIELD,
                at: TO_FIELD,
            },
            Entry {
                id: ids::TO_TAB,
                at: TO_TAB,
            },
            Entry {
                id: ids::TURNING,
                at: TURNING,
            },
        ],
    )?)
}

/// The library. The only error is want of memory.
pub fn routines(alloc: Global) -> Result<Lib, NoMemory>
    ensures code { IfOk result (λ lib. lib.frag ≡ library) }
    ensures entries { IfOk result (λ lib. lib.entries.items ≡ library_entries) }
    ensures labels { IfOk result (λ lib. length lib.frag.places ≡ routines_count) }
    ensures placed { IfOk result (λ lib. AllPlaced lib.frag) }
    ensures few { IfOk result (λ lib. length lib.frag.items ≤ most_library_words) }
{
    let mut frag = with_labels(alloc)?;
    add_numbers(&mut frag)?;
    add_writers(&mut frag)?;
    add_loops(&mut frag)?;
    add_readers(&mut frag)?;
    Ok(Lib {
        frag,
        entries: entries(alloc)?,
    })
}
