//! The program `basv`: its words, the real files and streams, and its status.
#![tactic(auto)]

use basv_top::{Status, basv};
use bv_io::{DiskShelf, Sink, StdSink};
use std::env;
use std::io::{self, ErrorKind};
use std::process::ExitCode;

/// The words after the program's name.
fn words(rt: &HostRuntime) -> io::Result<Vec<String>> {
    let mut words = Vec::new(rt.alloc());
    for word in env::args(rt)?.skip(1) {
        words.push(word)?;
    }
    Ok(words)
}

fn run(rt: HostRuntime) -> Status {
    let mut err = StdSink::err(rt);
    let words = match words(&rt) {
        Ok(words) => words,
        Err(error) if error.kind() == ErrorKind::OutOfMemory => {
            let _ = err.write(b"no memory\n");
            return Status::NoMemory;
        }
        // Words that are no text are no command.
        Err(_) => Vec::new(rt.alloc()),
    };
    let mut shelf = DiskShelf::new(rt);
    let mut out = StdSink::out(rt);
    basv(rt.alloc(), words.as_slice(), &mut shelf, &mut out, &mut err)
}

fn main(rt: HostRuntime) -> ExitCode {
    ExitCode::from(run(rt).code())
}
