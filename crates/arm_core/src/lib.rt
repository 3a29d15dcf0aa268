//! One instruction of the ARM2 in supervisor mode, on a core: registers and memory as functions from numbers, flags, output
//! and input. The definitions are in specs/, and the law that the board does what they say is in `laws`.
#![tactic(auto)]

mod laws;

pub use laws::steps_are_made;
