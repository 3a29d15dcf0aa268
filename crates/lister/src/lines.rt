//! The listing of a program.
ghost use Rattle.std.specs.Prelude.{◌≡◌, IfOk};
ghost use Rattle.lister.specs.Listings.{listings};

use crate::line::list_line;
use bv_base::NoMemory;
use std::alloc::Global;
use token_file::Line;

/// The listing of every line, in order.
pub fn list_lines(alloc: Global, lines: &[Line]) -> Result<Vec<u8>, NoMemory>
    ensures { IfOk result (λ text. text.items ≡ listings lines.now) }
{
    let mut text = Vec::new(alloc);
    for line in lines {
        let listing = list_line(alloc, line)?;
        text.extend_from_slice(listing.as_slice())?;
    }
    Ok(text)
}
