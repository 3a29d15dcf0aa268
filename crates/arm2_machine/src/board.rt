//! The board: a machine that counts its steps and writes what they write to a sink.
ghost use Rattle.std.specs.Prelude.{◌≡◌, ◌+◌, ◌-◌, ◌^◌, ◌≤◌, min, [], false, true, length, IfOk, OnOk, OnErr};
ghost use Rattle.bv_base.specs.Limits.{image_words};
ghost use Rattle.bv_run.specs.Runs.{run, steps_made, output_so_far};
ghost use Rattle.bv_io.specs.Shelf.{Rose};
ghost use Rattle.bv_io.specs.Sink.{with_bytes, WritesPart};
ghost use Rattle.arm2_machine.specs.Machine.{loaded, arena_of};
ghost use Rattle.arm2_machine.specs.Step.{board_step, bytes_of};
ghost use Rattle.bv_io.specs.Writes.{byte_writes, FailsAtByte};

use crate::machine::Machine;
use crate::step::{Output, StepOutcome};
use bv_base::NoMemory;
use bv_io::{Sink, SinkFault};
use bv_run::RunEnd;
use std::alloc::Global;
use std::marker::Model;

/// The board: a machine. It counts the instructions that it has executed, up to the greatest `u64`, and is closed once its
/// run has come to an end.
#[derive(Drop)]
pub struct Board {
    machine: Machine,
    steps: u64,
    closed: bool,
}

impl Model for Board {
    ghost use Rattle.arm2_machine.specs.Board.{BoardState};

    ghost Value = { BoardState };

    ghost view = { λ b. record { machine = b.machine; steps = b.steps; closed = b.closed } };
}

#[tactic(auto, using(crate::proofs::Outputs::first_of_two, crate::proofs::Outputs::second_of_two, crate::proofs::Outputs::both_of_two))]
/// Hands what an instruction writes to a sink, each byte in a write of its own.
fn write<O: Sink>(out: &mut O, output: Output) -> Result<(), SinkFault>
    ensures ok { OnOk result (O.written out.new ≡ with_bytes (O.written out.old) (bytes_of output)) }
    ensures part { OnErr result (WritesPart (O.written out.old) (bytes_of output) (O.written out.new)) }
    ensures failed { OnErr result (Rose (O.faults out.old) (O.faults out.new)) }
    ensures faults { O.faults out.old ≤ O.faults out.new }
    ensures each_byte { OnOk result (O.log out.new ≡ byte_writes (bytes_of output) (O.log out.old)) }
    ensures fault_byte { OnErr result (FailsAtByte (bytes_of output) (O.log out.old) (O.log out.new)) }
{
    match output {
        Output::Nothing => Ok(()),
        Output::Byte(byte) => out.write(&[byte]),
        Output::NewLine => {
            out.write(b"\n")?;
            out.write(b"\r")
        }
    }
}

impl Board {
    ghost use Rattle.arm2_machine.specs.Board.{progress_of, is_end, HasFaulted};

    /// The board at the start of an image of at most `IMAGE_WORDS` words, with this input.
    pub fn load(alloc: Global, words: &[u32], input: Vec<u8>) -> Result<Board, NoMemory>
        requires { length words.now ≤ image_words }
        ensures { IfOk result (λ board. board ≡ record { machine = loaded words.now input.items; steps = 0; closed = false }) }
    {
        let machine = Machine::load(alloc, words, input)?;
        Ok(Board {
            machine,
            steps: 0,
            closed: false,
        })
    }

    /// The arena's bytes, from `ARENA_START` to `ARENA_END`.
    pub fn arena(&self) -> &[u8]
        ensures { result.now ≡ arena_of self.now.machine.ram }
    {
        self.machine.arena()
    }

    /// Whether the board's run has come to an end.
    pub fn closed(&self) -> bool
        ensures { result ≡ self.now.closed }
    {
        self.closed
    }

    /// The number of instructions that the board has executed, which stays at the greatest `u64`.
    pub fn steps(&self) -> u64
        ensures { result ≡ self.now.steps }
    {
        self.steps
    }

    /// Counts steps, and tells whether they came to the run's end.
    fn note(&mut self, made: u64, closed: bool)
        ensures { self.new ≡ record self.old { steps = min (self.old.steps + made) (2 ^ 64 - 1); closed = closed } }
    {
        self.steps = self.steps.saturating_add(made);
        self.closed = closed;
    }

    /// Makes at most `bound` instructions, and hands each byte that they write to `out` in a write of its own. After
    /// `RunEnd::Going` the run may go on by another call; after any other answer the board is closed.
    pub fn run<O: Sink>(&mut self, bound: u64, out: &mut O) -> Result<RunEnd, SinkFault>
        requires { self.old.closed ≡ false }
        ensures ends { IfOk result (λ end. run board_step bound self.old.machine []
            ≡ progress_of end self.new.machine (output_so_far (run board_step bound self.old.machine []))) }
        ensures written { OnOk result
            (O.written out.new ≡ with_bytes (O.written out.old) (output_so_far (run board_step bound self.old.machine []))) }
        ensures each_byte { OnOk result
            (O.log out.new ≡ byte_writes (output_so_far (run board_step bound self.old.machine [])) (O.log out.old)) }
        ensures closed { IfOk result (λ end. self.new.closed ≡ is_end end) }
        ensures steps { OnOk result
            (self.new.steps ≡ min (self.old.steps + steps_made board_step bound self.old.machine) (2 ^ 64 - 1)) }

        // After a fault some first part of the run's output was written, and the board is at the instruction after the one at
        // whose output the sink failed.
        ensures fault { OnErr result
            (WritesPart (O.written out.old) (output_so_far (run board_step bound self.old.machine [])) (O.written out.new)) }
        ensures fault_byte { OnErr result
            (FailsAtByte (output_so_far (run board_step bound self.old.machine [])) (O.log out.old) (O.log out.new)) }
        ensures fault_at { OnErr result (HasFaulted bound self.old self.new (O.written out.old) (O.written out.new)) }
        ensures fault_closes { OnErr result (self.new.closed ≡ true) }
        ensures cause { OnErr result (Rose (O.faults out.old) (O.faults out.new)) }
        ensures faults { O.faults out.old ≤ O.faults out.new }
    {
        let mut made = 0;
        'steps: while made < bound {
            let stretch = self.machine.advance(bound - made);
            made += stretch.before + 1;
            match self.machine.follow(stretch.at, stretch.event) {
                StepOutcome::Continued(output) => {
                    if let Err(fault) = write(out, output) {
                        self.note(made, true);
                        return Err(fault);
                    }
                }
                StepOutcome::Over(report) => {
                    self.note(made, true);
                    return Ok(RunEnd::Over(report));
                }
                StepOutcome::Broken { kind, address } => {
                    self.note(made, true);
                    return Ok(RunEnd::Broken { kind, address });
                }
            }
        }
        self.note(bound, false);
        Ok(RunEnd::Going)
    }
}
