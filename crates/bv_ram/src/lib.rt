//! Memory of a fixed size: one block of bytes, seen by contracts as the list of its bytes.
#![tactic(auto)]

mod block;
mod ram;

pub use ram::Ram;
