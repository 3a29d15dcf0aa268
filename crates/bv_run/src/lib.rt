//! Runs: how they end, what they show under a bound, and when two of them agree. The definitions are in `specs/`, the
//! laws in `proofs/`; each machine of the project is a step of its own under these.
#![tactic(auto)]

mod laws;
mod report;

pub use laws::{agreements_compose, bounds_add_up};
pub use report::{Report, RunEnd, Trap};
