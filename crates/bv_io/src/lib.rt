//! What a program of `basv` meets outside itself: files under names, and bytes that are written. It hands on the types
//! of reports of `bv_run`, in which its callers speak.
#![tactic(auto)]

mod disk_shelf;
mod files;
mod log;
mod mem_shelf;
mod mem_sink;
mod null_sink;
mod shelf;
mod sink;
mod std_sink;
mod sure_shelf;

pub use bv_base::NoMemory;
pub use bv_run::{Report, RunEnd, Trap};
pub use disk_shelf::DiskShelf;
pub use mem_shelf::MemShelf;
pub use mem_sink::MemSink;
pub use null_sink::NullSink;
pub use shelf::{PutError, Shelf, TakeError};
pub use sink::{Sink, SinkFault};
pub use std_sink::StdSink;
pub use sure_shelf::SureShelf;
