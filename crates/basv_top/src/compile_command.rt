//! The command `compile FILE IMAGE`.
ghost use Rattle.std.specs.Prelude.{◌≡◌, ◌≢◌, ◌⊎◌, ℕ, List, Some};
ghost use Rattle.bv_io.specs.Log.{Took};
ghost use Rattle.bv_io.specs.Shelf.{Tells};
ghost use Rattle.basv_top.specs.CompileCommand.{BytesEndCompile, EndsCompile, MayWrite, OnlyTook};
ghost use Rattle.basv_top.specs.Ending.{told, ended, status_of};
ghost use Rattle.basv_top.specs.Seen.{Same, SeenShelf, seen_shelf};

use crate::ending::Ending;
use crate::taking::take_within;
use bas_compile::compile as compile_bytes;
use bv_base::FILE_BYTES;
use bv_io::Shelf;
use profile_check::LONG_FILE;
use std::alloc::Global;

/// Compiles the bytes of a file, which were taken just before, and puts their image under a name.
fn put_image<'a, S: Shelf>(
    alloc: Global,
    bytes: &[u8],
    image: &str,
    shelf: &mut S,
) -> Result<(), Ending<'a>>
    ensures ends { (before : SeenShelf) (file : List ℕ) → OnlyTook before (seen_shelf S.Shelf shelf.old) file bytes.now
        → before.put_faults ≡ S.put_faults shelf.old
        → BytesEndCompile before (seen_shelf S.Shelf shelf.new) file image.now bytes.now (ended result) }
    ensures others { (n : List ℕ) → n ≢ image.now → S.content shelf.new n ≡ S.content shelf.old n }
    ensures same { MayWrite (status_of (ended result)) ⊎ ((n : List ℕ) → S.content shelf.new n ≡ S.content shelf.old n) }
{
    let contents = compile_bytes(alloc, bytes)?;
    shelf.put(image, contents.as_slice())?;
    Ok(())
}

/// Compiles the program under one name to an image under another.
pub fn compile<'a, S: Shelf>(alloc: Global, file: &'a str, image: &str, shelf: &mut S) -> Ending<'a>
    ensures ends { EndsCompile (seen_shelf S.Shelf shelf.old) (seen_shelf S.Shelf shelf.new) file.now image.now (told result) }
    ensures others { (n : List ℕ) → n ≢ image.now → S.content shelf.new n ≡ S.content shelf.old n }
    ensures same { MayWrite (status_of (told result)) ⊎ Same (seen_shelf S.Shelf shelf.old) (seen_shelf S.Shelf shelf.new) }
{
    match take_within(alloc, file, FILE_BYTES, LONG_FILE, shelf) {
        Ok(bytes) => Ending::of(put_image(alloc, bytes.as_slice(), image, shelf)),
        Err(ending) => ending,
    }
}
