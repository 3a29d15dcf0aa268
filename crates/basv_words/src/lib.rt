//! The words of the command line, and the commands that they are. A command gets its cases in `command` and what it
//! takes in `form`; an option gets its name in `setting`. `reader` is where `clap` reads the words.
#![tactic(auto)]

mod command;
mod form;
mod reader;
mod setting;

pub use command::{Command, Options, read_command};
