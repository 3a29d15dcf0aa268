//! The calls of the board, which are software interrupts. A new call goes here, and its number beside the others.
ghost use Rattle.std.specs.Prelude.{◌≡◌};

use crate::machine::Machine;
use crate::reports;
use crate::step::{Output, StepOutcome};
use arm2_cpu::Pc;
use bv_run::Report;

/// The software interrupt that writes the low byte of R0.
pub const SWI_WRITE: u32 = 0x00;

/// The software interrupt that writes a new line, the bytes 10 and 13.
pub const SWI_NEW_LINE: u32 = 0x03;

/// The software interrupt that takes a byte of the input into R0.
pub const SWI_READ: u32 = 0x04;

/// The software interrupt that ends the run with the report in R0 to R3.
pub const SWI_END: u32 = 0x11;

/// The first of the 256 software interrupts that write the low byte of their number.
pub const SWI_CHARACTER: u32 = 0x100;

impl Machine {
    ghost use Rattle.arm2_machine.specs.Step.{turn_of};
    ghost use Rattle.arm2_machine.specs.Swi.{called, called_by_user, reported, with_input};

    /// Takes the next byte of the input into R0, or all ones where there is none.
    fn read_input(&mut self)
        ensures { self.new ≡ with_input self.old self.old.input }
    {
        self.regs.low[0] = match self.input.next() {
            Some(byte) => u32::from(byte),
            None => u32::MAX,
        };
    }

    /// Ends with a report, if there is one.
    fn end(&mut self, at: Pc, report: Option<Report>) -> StepOutcome
        ensures { reported self.old at report ≡ turn_of result self.new }
    {
        match report {
            Some(report) => StepOutcome::Over(report),
            None => self.refuse(at),
        }
    }

    /// Carries out a call that user mode alone has.
    fn call_of_user(&mut self, at: Pc, number: u32) -> StepOutcome
        ensures { called_by_user self.old at number ≡ turn_of result self.new }
    {
        if (SWI_CHARACTER..SWI_CHARACTER + 256).contains(&number) {
            StepOutcome::Continued(Output::Byte((number % 0x100) as u8))
        } else {
            self.refuse(at)
        }
    }

    /// Carries out the call with a number, whose instruction is at the address.
    pub(crate) fn call(&mut self, at: Pc, number: u32) -> StepOutcome
        ensures { called self.old at number ≡ turn_of result self.new }
    {
        match number {
            SWI_WRITE => StepOutcome::Continued(Output::Byte((self.regs.low[0] % 0x100) as u8)),
            SWI_NEW_LINE => StepOutcome::Continued(Output::NewLine),
            _ if !self.regs.svc => self.call_of_user(at, number),
            SWI_READ => {
                self.read_input();
                StepOutcome::Continued(Output::Nothing)
            }
            SWI_END => {
                let report = reports::report(&self.regs.low);
                self.end(at, report)
            }
            _ => self.refuse(at),
        }
    }
}
