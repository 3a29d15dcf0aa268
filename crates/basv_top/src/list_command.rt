//! The command `list FILE`.
ghost use Rattle.std.specs.Prelude.{◌≤◌, length};
ghost use Rattle.bv_base.specs.Limits.{file_bytes};
ghost use Rattle.basv_top.specs.Ending.{told, ended};
ghost use Rattle.basv_top.specs.ListCommand.{BytesEndList, EndsList};
ghost use Rattle.basv_top.specs.Seen.{Same, seen_shelf, seen_sink};

use crate::ending::Ending;
use crate::taking::take_within;
use bv_base::FILE_BYTES;
use bv_io::{Shelf, Sink};
use lister::list_lines;
use profile_check::LONG_FILE;
use std::alloc::Global;
use token_file::read_file;

/// Lists the lines that the bytes of a file are. The whole text is made before its first byte is written.
fn list_bytes<'a, O: Sink>(alloc: Global, bytes: &[u8], out: &mut O) -> Result<(), Ending<'a>>
    requires { length bytes.now ≤ file_bytes }
    ensures { BytesEndList bytes.now (seen_sink O.Sink out.old) (seen_sink O.Sink out.new) (ended result) }
{
    let lines = read_file(alloc, bytes)?;
    let text = list_lines(alloc, lines.as_slice())?;
    out.write(text.as_slice())?;
    Ok(())
}

/// Lists the program under a name.
pub fn list<'a, S: Shelf, O: Sink>(
    alloc: Global,
    file: &'a str,
    shelf: &mut S,
    out: &mut O,
) -> Ending<'a>
    ensures ends { EndsList (seen_shelf S.Shelf shelf.old) (seen_shelf S.Shelf shelf.new)
        (seen_sink O.Sink out.old) (seen_sink O.Sink out.new) file.now (told result) }
    ensures same { Same (seen_shelf S.Shelf shelf.old) (seen_shelf S.Shelf shelf.new) }
{
    match take_within(alloc, file, FILE_BYTES, LONG_FILE, shelf) {
        Ok(bytes) => Ending::of(list_bytes(alloc, bytes.as_slice(), out)),
        Err(ending) => ending,
    }
}
