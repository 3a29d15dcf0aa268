//! The steps of the machine, and what becomes of them.
ghost use Rattle.std.specs.Prelude.{◌≡◌, ◌<◌};

use crate::machine::Machine;
use arm2_cpu::{CpuEvent, Pc, step_cpu};
use bv_base::{PAD, RETURN_ENTRY};
use bv_run::{Report, Trap};

/// What an instruction writes.
#[derive(Clone, Copy, Debug, PartialEq, Eq)]
pub enum Output {
    Nothing,
    Byte(u8),
    /// The bytes 10 and 13.
    NewLine,
}

/// What became of a step.
#[derive(Clone, Copy, Debug, PartialEq, Eq)]
pub enum StepOutcome {
    /// The run goes on after this output.
    Continued(Output),
    /// The run ended with a report.
    Over(Report),
    /// The supervisor trapped, at the address.
    Broken { kind: Trap, address: u32 },
}

/// A stretch of instructions: the number of those before the last, which have no event, and the last one's address and
/// event.
#[derive(Clone, Copy)]
pub struct Stretch {
    pub before: u64,
    pub at: Pc,
    pub event: CpuEvent,
}

impl Machine {
    ghost use Rattle.arm2_machine.specs.Step.{after_event, board_step, turn_of};
    ghost use Rattle.arm2_machine.specs.Stretch.{MakesStretch};

    #[tactic(auto, unfolding(crate::specs::Step::board_step))]
    /// Makes one instruction, but for what its event comes to.
    #[inline]
    fn instruct(&mut self) -> CpuEvent
        ensures { board_step self.old ≡ after_event self.new self.old.regs.pc result }
    {
        if !self.regs.svc && self.regs.pc.address() == PAD {
            self.enter(RETURN_ENTRY);
            return CpuEvent::Ran;
        }
        step_cpu(&mut self.regs, &mut self.ram)
    }

    /// Makes instructions up to the first that has an event, or `most` of them. What that event comes to is left to
    /// `follow`. This is the inner loop of a run: it neither counts for the board nor writes.
    #[inline(never)]
    pub(crate) fn advance(&mut self, most: u64) -> Stretch
        requires { 0 < most }
        ensures { MakesStretch most self.old result self.new }
    {
        let mut before = 0;
        'plain: loop {
            let at = self.regs.pc;
            match self.instruct() {
                CpuEvent::Ran => {
                    if before + 1 == most {
                        let event = CpuEvent::Ran;
                        return Stretch { before, at, event };
                    }
                    before += 1;
                }
                event => return Stretch { before, at, event },
            }
        }
    }

    /// Carries out what an instruction's event comes to. The instruction is at the address.
    pub(crate) fn follow(&mut self, at: Pc, event: CpuEvent) -> StepOutcome
        ensures { after_event self.old at event ≡ turn_of result self.new }
    {
        match event {
            CpuEvent::Ran => StepOutcome::Continued(Output::Nothing),
            CpuEvent::Swi(number) => self.call(at, number),
            CpuEvent::Trap { kind, address } => self.trap(kind, address),
        }
    }
}
