//! The laws of files, which take no step.
ghost use Rattle.token_file.specs.Lines.{OneReading};

/// Every list of bytes, of any length, is a file of one list of lines, or is malformed at one place, and never both.
pub fn one_reading(bytes: &[u8])
    ensures { OneReading bytes.now }
{}
