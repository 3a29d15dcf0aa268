//! The parser of statements and lines: the items of a run of a line's terminals.
//!
//! Each rule of the grammar is a function whose contract is an equation with the rule's function in `specs/`.
#![tactic(auto)]

mod assignments;
mod for_loop;
mod formals;
mod kept;
mod laws;
mod lines;
mod marks;
mod parts;
mod place;
mod rows;
mod runs;
mod statements;
mod steps;
mod targets;
mod words;

pub use laws::one_run;
pub use lines::parse_line;
pub use runs::parse_run;
