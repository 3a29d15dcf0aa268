//! That the routines do what the definitions say.
ghost use Rattle.runtime_lib.specs.Library.{LibraryMeets};

/// The law of the library: wherever it stands in a memory, each routine meets its contract.
pub fn library_meets()
    ensures { LibraryMeets }
{}
