//! The law of the program over a shelf that never fails.
ghost use Rattle.std.specs.Prelude.{◌≢◌, [], List, map, string_bytes};
ghost use Rattle.bv_io.specs.Log.{Event};
ghost use Rattle.basv_words.specs.Command.{command_of};
ghost use Rattle.basv_top.specs.InMemory.{seen_dropped, seen_in_memory};
ghost use Rattle.basv_top.specs.Top.{Ends};

use crate::status::Status;
use crate::top::basv;
use bv_io::{NullSink, SureShelf};
use std::alloc::Global;

/// The program over a shelf in memory that never fails. Its status has its cause, and is neither of the two faults.
pub fn basv_in_memory(alloc: Global, words: &[String], shelf: &mut SureShelf) -> Status
    ensures ends { (out err : List Event) × Ends (seen_in_memory shelf.old) (seen_in_memory shelf.new)
        (seen_dropped []) (seen_dropped out) (seen_dropped []) (seen_dropped err)
        (command_of (map string_bytes words.now)) result }
    ensures no_read_fault { result ≢ Status.ReadFault }
    ensures no_write_fault { result ≢ Status.WriteFault }
{
    let mut out = NullSink::new();
    let mut err = NullSink::new();
    basv(alloc, words, shelf, &mut out, &mut err)
}
