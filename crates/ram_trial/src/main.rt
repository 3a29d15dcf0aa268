//! Makes and drops a thousand memories of a mebibyte, one after the other. Run in less address space than they take together
//! (`.ci/memory`), it shows that each gives its block back: no contract can say that.
#![tactic(auto)]

use bv_ram::Ram;
use std::alloc::Global;
use std::io;

/// The number of bytes in a memory.
const BYTES: u32 = 0x10_0000;

/// Makes a memory, writes to it and reads from it, and drops it. `None` where memory ran out.
fn use_memory(alloc: Global, value: u8) -> Option<u8> {
    let mut ram = Ram::new(alloc, BYTES).ok()?;
    ram.fill(0, BYTES, value);
    Some(ram.byte(BYTES / 2))
}

fn main(rt: HostRuntime) -> io::Result<()> {
    let mut sum = 0u64;
    for round in 0..1000u64 {
        match use_memory(rt.alloc(), (round % 10) as u8) {
            Some(byte) => sum = sum.saturating_add(u64::from(byte)),
            None => {
                println!(rt; "no memory after {round}")?;
                return Ok(());
            }
        }
    }
    println!(rt; "1000 memories, whose bytes add up to {sum}")?;
    Ok(())
}
