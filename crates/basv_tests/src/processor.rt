//! The processor over a small memory. The steps that were worked by hand are in the input of the program `arm2_vectors`.

use crate::small_ram::{BASE, small_ram};
use arm2_cpu::{CpuEvent, Memory, Pc, Regs, step_cpu};
use std::test::Fail;

/// The registers of user mode before an instruction at the memory's start. R1 is an address in the memory.
fn registers() -> Regs {
    let mut regs = Regs::starting_at(Pc::of(BASE));
    regs.svc = false;
    regs.low[0] = 0x1234_5678;
    regs.low[1] = 0x8010;
    regs
}

// A load and a store of a byte.
#[test]
fn loads_and_stores(rt: HostRuntime) -> Result<(), Fail> {
    let alloc = rt.alloc();

    // LDR R0,[R1].
    let mut regs = registers();
    let mut ram = small_ram(alloc, 0xe591_0000, 0x4433_2211, 0)?;
    let event = step_cpu(&mut regs, &mut ram);
    assert_eq!(rt; event, CpuEvent::Ran);
    assert_eq!(rt; (regs.low[0], regs.pc.address()), (0x4433_2211, 0x8004));

    // STRB R0,[R1].
    let mut regs = registers();
    let mut ram = small_ram(alloc, 0xe5c1_0000, 0x4433_2211, 0)?;
    let event = step_cpu(&mut regs, &mut ram);
    assert_eq!(rt; event, CpuEvent::Ran);
    assert_eq!(rt; ram.word(false, 0x8010), Some(0x4433_2278));
    Ok(())
}
