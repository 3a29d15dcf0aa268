//! Memories for the processor: a window of addresses that RAM backs. A further memory goes into a file of its own.
#![tactic(auto)]

mod place;
mod window;

pub use place::Place;
pub use window::Window;
