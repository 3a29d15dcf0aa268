//! From trees to flat code. The code of each expression and item is defined in `specs/Code.antt`; that its machine shows
//! what the meaning shows is proved here.
#![tactic(auto)]

mod cases;
mod copies;
mod data;
mod ends;
mod expressions;
mod flow;
mod fused;
mod heights;
mod laws;
mod numbers;
mod ops;
mod output;
mod places;
mod program;
mod statements;
mod tables;

pub use laws::{
    all_have_code, code_in_items, code_laid_out, code_well_formed, flat_runs_agree,
    simple_items_light, steps_alike,
};
pub use program::build;
