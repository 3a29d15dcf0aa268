//! The size of a program's file.

ghost use Rattle.std.specs.Prelude.{◌≡◌, ◌<◌, ◌^◌};
ghost use Rattle.profile_check.specs.Programs as spec;

use token_file::{HEAD_BYTES, Line};

/// The bytes of the file of these lines: two for its end, and those of each line's record.
pub fn file_size(lines: &[Line]) -> u32
    requires { spec.file_size lines.now < 2 ^ 32 }
    ensures { result ≡ spec.file_size lines.now }
{
    let mut size = 2;
    for line in lines {
        size += u32::from(HEAD_BYTES) + line.text.len() as u32;
    }
    size
}
