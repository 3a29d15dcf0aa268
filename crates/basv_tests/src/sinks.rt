//! Sinks in memory.

use bv_io::{MemSink, Sink};
use std::test::Fail;

/// What is written, one write each, and whether the sink takes it: its second write fails.
const WRITES: [(&[u8], bool); 3] = [(b"AB", true), (b"C", false), (b"D", true)];

#[test]
fn sinks_fail(rt: HostRuntime) -> Result<(), Fail> {
    let mut sink = MemSink::new(rt.alloc(), 10)?;
    sink.fail_at(2)?;
    for (bytes, taken) in WRITES {
        assert_eq!(rt; sink.write(bytes).is_ok(), taken, "{bytes:?}");
    }
    assert_eq!(rt; sink.bytes(), b"ABD".as_slice());
    Ok(())
}
