//! The tokens of tokenised BASIC V: their keywords, references to lines, and the keywords at the front of a text.
#![tactic(auto)]

mod laws;
mod names;
mod reference;
mod tokens;
mod words;

pub use laws::tokens_named;
pub use names::{begins_name, is_in_name};
pub use reference::{LINE_REFERENCE, line_ref, write_ref};
pub use tokens::{
    DATA, ELSE, END, FIRST_TOKEN, FN, GOSUB, GOTO, LINE_ELSE, OTHERWISE, PAIR_FIRST, PAIR_LAST,
    PROC, REM, RESTORE, THEN, VDU, begins_pair, keyword,
};
pub use words::longest_word;
