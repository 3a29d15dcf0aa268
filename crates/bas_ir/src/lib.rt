//! The flat code of programs: operations in one list, which the interpreter executes and the compiler translates. What the
//! operations do is defined in `specs/`.
#![tactic(auto)]

mod ir;
mod laws;
mod op;

pub use ir::{Height, Ir, LineStart, Routine};
pub use laws::{all_have_widths, errors_handled};
pub use op::{CallKind, Mark, Op, Piece};
