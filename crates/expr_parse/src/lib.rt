//! The parser of expressions: the longest expression at the front of a line's terminals.
//!
//! Each rule of the grammar is a function whose contract is an equation with the rule's function in `specs/Parse.antt`.
#![tactic(auto)]

mod classify;
mod failure;
mod found;
mod grammar;
mod laws;
mod marks;
mod operands;
mod operators;
mod parser;
mod rows;
mod top;
mod trees;
mod words;

pub use classify::terminals;
pub use failure::{Failure, optional, past, with};
pub use found::Found;
pub use laws::one_tree;
pub use marks::{close, comma};
pub use parser::{
    longest_any, longest_num, longest_offset, longest_operand, longest_text, whole_arguments,
    whole_subscripts,
};
pub use rows::pushed;
pub use top::{ParseError, front_num, front_text, parse_num, parse_str};
