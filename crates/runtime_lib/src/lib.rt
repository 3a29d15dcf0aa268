//! The run-time library: routines of ARM code for what the code of a program does not do in words of its own. Each entry has a
//! relation over the definitions of numbers and of output, or over the open loops, GOSUBs and items of DATA in memory.
#![tactic(auto)]

mod data;
mod digits;
mod errors;
pub mod ids;
mod instructions;
pub mod labels;
mod laws;
mod library;
mod loops;
mod numbers;
mod writing;

pub use data::{emit_item_number, emit_next_item};
pub use digits::{emit_decimal_number, emit_hexadecimal_number};
pub use errors::error_table;
pub use laws::library_meets;
pub use library::routines;
pub use loops::{emit_closing_word, emit_opening, emit_turning};
pub use numbers::{emit_division, emit_modulus, emit_product, emit_quotient};
pub use writing::{
    emit_closing_text, emit_line_end, emit_run, emit_some_spaces, emit_string_out, emit_to_field,
    emit_to_tab,
};
