//! The command `crunch TEXT FILE`.
ghost use Rattle.std.specs.Prelude.{◌≡◌, ◌≢◌, ◌⊎◌, ◌∷◌, ℕ, ◌≤◌, List, length};
ghost use Rattle.bv_base.specs.Limits.{text_file_bytes};
ghost use Rattle.bv_io.specs.Log.{Took};
ghost use Rattle.basv_top.specs.CompileCommand.{MayWrite};
ghost use Rattle.basv_top.specs.CrunchCommand.{BytesEndCrunch, EndsCrunch};
ghost use Rattle.basv_top.specs.Ending.{told, ended, status_of};
ghost use Rattle.basv_top.specs.Seen.{Same, SeenShelf, seen_shelf};

use crate::ending::Ending;
use crate::limits::LONG_TEXT;
use crate::taking::take_within;
use basv_crunch::crunch as crunch_bytes;
use bv_base::TEXT_FILE_BYTES;
use bv_io::Shelf;
use std::alloc::Global;

/// Tokenises the bytes of a text, which were taken just before, and puts their file under a name.
fn put_file<'a, S: Shelf>(
    alloc: Global,
    bytes: &[u8],
    file: &str,
    shelf: &mut S,
) -> Result<(), Ending<'a>>
    requires { length bytes.now ≤ text_file_bytes }
    ensures ends { (before : SeenShelf) (text : List ℕ) → S.log shelf.old ≡ Took text bytes.now ∷ before.log
        → before.put_faults ≡ S.put_faults shelf.old
        → BytesEndCrunch before (seen_shelf S.Shelf shelf.new) text file.now bytes.now (ended result) }
    ensures others { (n : List ℕ) → n ≢ file.now → S.content shelf.new n ≡ S.content shelf.old n }
    ensures same { MayWrite (status_of (ended result)) ⊎ ((n : List ℕ) → S.content shelf.new n ≡ S.content shelf.old n) }
{
    let contents = crunch_bytes(alloc, bytes)?;
    shelf.put(file, contents.as_slice())?;
    Ok(())
}

/// Tokenises the text under one name to a program's file under another.
pub fn crunch<'a, S: Shelf>(alloc: Global, text: &'a str, file: &str, shelf: &mut S) -> Ending<'a>
    ensures ends { EndsCrunch (seen_shelf S.Shelf shelf.old) (seen_shelf S.Shelf shelf.new) text.now file.now (told result) }
    ensures others { (n : List ℕ) → n ≢ file.now → S.content shelf.new n ≡ S.content shelf.old n }
    ensures same { MayWrite (status_of (told result)) ⊎ Same (seen_shelf S.Shelf shelf.old) (seen_shelf S.Shelf shelf.new) }
{
    match take_within(alloc, text, TEXT_FILE_BYTES, LONG_TEXT, shelf) {
        Ok(bytes) => Ending::of(put_file(alloc, bytes.as_slice(), file, shelf)),
        Err(ending) => ending,
    }
}
