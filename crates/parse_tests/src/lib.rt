//! The tests of the parser of lines, from text on.
#![tactic(auto)]

#[cfg(test)]
mod lines;
#[cfg(test)]
mod rows;
#[cfg(test)]
mod shapes;
