//! The tests of the parser of expressions, by its public calls alone.
#![tactic(auto)]

#[cfg(test)]
mod fronts;
#[cfg(test)]
mod words;
