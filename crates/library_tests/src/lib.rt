//! The tests of the run-time library on the board, by its public calls alone.
#![tactic(auto)]

#[cfg(test)]
mod boards;
#[cfg(test)]
mod data;
#[cfg(test)]
mod entries;
#[cfg(test)]
mod errors;
#[cfg(test)]
mod loops;
