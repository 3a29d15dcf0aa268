//! The tests of all crates, by their public calls alone, a file a crate under test. They are in a crate of their own, since
//! a crate with tests is proved once more with them.
#![tactic(auto)]

#[cfg(test)]
mod board;
#[cfg(test)]
mod commands;
#[cfg(test)]
mod compiler;
#[cfg(test)]
mod crunch;
#[cfg(test)]
mod files;
#[cfg(test)]
mod images;
#[cfg(test)]
mod instructions;
#[cfg(test)]
mod memory;
#[cfg(test)]
mod numbers;
#[cfg(test)]
mod processor;
#[cfg(test)]
mod sinks;
#[cfg(test)]
mod small_ram;
#[cfg(test)]
mod symbols;
#[cfg(test)]
mod tokens;
