//! What one instruction comes to.
ghost use Rattle.std.specs.Prelude.{◌≡◌};
ghost use Rattle.arm2_cpu.specs.Access.{data_trapped};
ghost use Rattle.arm2_cpu.specs.Outcomes.{trapped};

use arm2_alu::Regs;
use bv_run::Trap;

/// What one instruction came to.
#[derive(Clone, Copy, Debug, PartialEq, Eq)]
pub enum CpuEvent {
    /// It was executed, or its condition failed.
    Ran,
    /// A software interrupt with this number of 24 bits. The PC is at the next instruction.
    Swi(u32),
    /// It was not executed, and nothing changed.
    Trap {
        /// Why it was not executed.
        kind: Trap,
        /// The refused address of an access to memory (`Trap::Data`), otherwise the address of the instruction.
        address: u32,
    },
}

/// The trap of an instruction that isn't executed.
pub(crate) fn trap(regs: &Regs, kind: Trap) -> CpuEvent
    ensures { record { event = result; regs = regs.now } ≡ trapped kind regs.now }
{
    CpuEvent::Trap {
        kind,
        address: regs.pc.address(),
    }
}

/// The trap of a refused access.
pub(crate) fn data_trap(regs: &Regs, address: u32) -> CpuEvent
    ensures { record { event = result; regs = regs.now } ≡ data_trapped address regs.now }
{
    CpuEvent::Trap {
        kind: Trap::Data,
        address,
    }
}
