//! The tests of the flat code, by its public calls alone. They stand in a crate of their own, since a crate with tests is
//! proved once more with them.
#![tactic(auto)]

#[cfg(test)]
mod blocks;
#[cfg(test)]
mod code;
#[cfg(test)]
mod data;
#[cfg(test)]
mod fused;
#[cfg(test)]
mod loops;
#[cfg(test)]
mod parts;
