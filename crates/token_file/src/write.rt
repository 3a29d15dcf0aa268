//! Writing the file of lines.
ghost use Rattle.std.specs.Prelude.{◌≡◌, ◌++◌, All, IfOk, OnOk};
ghost use Rattle.token_file.specs.Lines.{IsLine, record_of, file_of, Lines, HasOneReading};

use crate::line::{END_MARK, HEAD_BYTES, Line, RECORD_START};
use bv_base::NoMemory;
use std::alloc::{AllocError, Global};

fn push_record(bytes: &mut Vec<u8>, line: &Line) -> Result<(), AllocError>
    requires { IsLine line.now }
    ensures { OnOk result (bytes.new.items ≡ bytes.old.items ++ record_of line.now) }
{
    let size = line.text.len() as u8 + HEAD_BYTES;
    let [high, low] = line.number.to_be_bytes();
    bytes.extend_from_slice(&[RECORD_START, high, low, size])?;
    bytes.extend_from_slice(line.text.as_slice())
}

/// The file of these lines, each of which has a number and a text that a record can hold. Reading it gives the same
/// lines, and nothing follows its end.
pub fn write_file(alloc: Global, lines: &[Line]) -> Result<Vec<u8>, NoMemory>
    requires { All IsLine lines.now }
    ensures exact { IfOk result (λ bytes. bytes.items ≡ file_of lines.now) }
    ensures lines { IfOk result (λ bytes. Lines bytes.items lines.now) }
    ensures reading { IfOk result (λ bytes. HasOneReading bytes.items lines.now) }
{
    let mut bytes = Vec::new(alloc);
    for line in lines {
        push_record(&mut bytes, line)?;
    }
    bytes.extend_from_slice(&[RECORD_START, END_MARK])?;
    Ok(bytes)
}
