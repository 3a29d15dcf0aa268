//! The board's machine: the processor with the board's RAM, and the input that is left. What it does at a trap is here; its
//! calls are in `swi`, and a step of it is in `step`.
ghost use Rattle.std.specs.Prelude.{◌≡◌, ◌%◌, ◌^◌, ◌<◌, ◌≤◌, length, IfOk};
ghost use Rattle.bv_base.specs.Limits.{image_words};

use crate::input::Input;
use crate::ram::{self, BoardPlace};
use crate::reports;
use crate::step::{Output, StepOutcome};
use arm2_cpu::{Pc, Regs};
use arm2_memory::Window;
use bv_base::{IMAGE_START, NoMemory, TRAP_ENTRY};
use bv_run::Trap;
use std::alloc::Global;
use std::marker::Model;

/// The processor's registers, the RAM, and the input that is left.
#[derive(Drop)]
pub struct Machine {
    pub(crate) regs: Regs,
    pub(crate) ram: Window<BoardPlace>,
    pub(crate) input: Input,
}

impl Model for Machine {
    ghost use Rattle.arm2_machine.specs.Machine as machine;

    ghost Value = { machine.Machine };

    ghost view = { λ m. record { regs = m.regs; ram = m.ram; input = m.input } };
}

impl Machine {
    ghost use Rattle.arm2_machine.specs.Machine.{arena_of, loaded, entered, refused, trapped};
    ghost use Rattle.arm2_machine.specs.Step.{turn_of};

    /// The machine at the start of an image of at most `IMAGE_WORDS` words, with this input.
    pub fn load(alloc: Global, words: &[u32], input: Vec<u8>) -> Result<Machine, NoMemory>
        requires { length words.now ≤ image_words }
        ensures { IfOk result (λ machine. machine ≡ loaded words.now input.items) }
    {
        let ram = ram::load_ram(alloc, words)?;
        Ok(Machine {
            regs: Regs::starting_at(Pc::of(IMAGE_START)),
            ram,
            input: Input::new(input),
        })
    }

    /// The bytes of the arena.
    pub fn arena(&self) -> &[u8]
        ensures { result.now ≡ arena_of self.now.ram }
    {
        ram::arena(&self.ram)
    }

    /// Goes to the supervisor, at an entry.
    pub(crate) fn enter(&mut self, entry: u32)
        requires aligned { entry % 4 ≡ 0 }
        requires within { entry < 2 ^ 26 }
        ensures { self.new ≡ record self.old { regs = entered self.old.regs entry } }
    {
        self.regs.svc = true;
        self.regs.pc = Pc::of(entry);
    }

    /// Takes a trap: user mode goes to the supervisor, and the supervisor breaks the run.
    pub(crate) fn trap(&mut self, kind: Trap, address: u32) -> StepOutcome
        ensures { trapped self.old kind address ≡ turn_of result self.new }
    {
        if self.regs.svc {
            return StepOutcome::Broken { kind, address };
        }
        self.regs.low[0] = reports::trap_number(kind);
        self.regs.low[1] = address;
        self.enter(TRAP_ENTRY);
        StepOutcome::Continued(Output::Nothing)
    }

    /// Takes the trap of a call that isn't there, whose instruction is at the address.
    pub(crate) fn refuse(&mut self, at: Pc) -> StepOutcome
        ensures { refused self.old at ≡ turn_of result self.new }
    {
        self.regs.pc = at;
        self.trap(Trap::Swi, at.address())
    }
}
