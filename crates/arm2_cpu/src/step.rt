//! One instruction.
ghost use Rattle.std.specs.Prelude.{◌≡◌, ℕ, List, IsTrue};
ghost use Rattle.arm_isa.specs.Words.{Fits};
ghost use Rattle.arm2_cpu.specs.Memory.{Space};
ghost use Rattle.arm2_cpu.specs.Outcomes.{IfTrap};
ghost use Rattle.arm2_alu.specs.Registers.{IsValidRegs};
ghost use Rattle.arm2_cpu.specs.Step.{uses_no_memory, instruction_step, word_step, cpu_step};

use crate::access::block_access;
use crate::block::{count_of, transfer_block};
use crate::branch::branch;
use crate::data_processing::execute_data;
use crate::event::{CpuEvent, trap};
use crate::memory::Memory;
use crate::multiply::multiply;
use crate::single::execute_single;
use crate::unpredictable::{is_unpredictable_block, is_unpredictable_multiply};
use arm_isa::{Instr, decode};
use arm2_alu::Regs;
use bv_run::Trap;

#[tactic(auto, unfolding(crate::specs::Step::instruction_step, crate::specs::Step::class_step, crate::specs::Unpredictable::is_unpredictable))]
/// Executes an instruction of a class that uses no memory, or traps where it is unpredictable.
#[inline(always)]
fn execute_in_registers(regs: &mut Regs, i: &Instr) -> CpuEvent
    requires fits { Fits i.now }
    requires class { IsTrue (uses_no_memory i.now) }
    ensures { (s : Space) (bytes : List ℕ) → instruction_step s regs.old bytes i.now ≡ record { event = result; regs = regs.new; bytes = bytes } }
{
    match *i {
        Instr::Data {
            imm,
            op,
            s,
            rn,
            rd,
            op2,
            ..
        } => execute_data(regs, imm, op, s, rn, rd, op2),
        Instr::Mul {
            acc,
            s,
            rd,
            rn,
            rs,
            rm,
            ..
        } => {
            if is_unpredictable_multiply(rd, rn, rs, rm) {
                trap(regs, Trap::Unpredictable)
            } else {
                multiply(regs, acc, s, rd, rn, rs, rm)
            }
        }
        Instr::Branch { link, words, .. } => branch(regs, link, words),
        Instr::Swi { number, .. } => {
            regs.advance();
            CpuEvent::Swi(number)
        }
        Instr::Undefined { .. } => trap(regs, Trap::Undefined),
        Instr::Single { .. } | Instr::Block { .. } => unreachable!(),
    }
}

#[tactic(auto, unfolding(crate::specs::Step::instruction_step, crate::specs::Step::class_step, crate::specs::Unpredictable::is_unpredictable))]
/// Executes an instruction, or traps where it is unpredictable.
#[inline(always)]
fn execute<M: Memory>(regs: &mut Regs, mem: &mut M, i: &Instr) -> CpuEvent
    requires { Fits i.now }
    ensures { instruction_step M.space regs.old (M.bytes mem.old) i.now ≡ record { event = result; regs = regs.new; bytes = M.bytes mem.new } }
{
    match *i {
        Instr::Single {
            reg,
            pre,
            up,
            byte,
            wb,
            load,
            rn,
            rd,
            offset,
            ..
        } => execute_single(regs, mem, reg, pre, up, byte, wb, load, rn, rd, offset),
        Instr::Block {
            pre,
            up,
            psr,
            wb,
            load,
            rn,
            list,
            ..
        } => {
            if is_unpredictable_block(psr, wb, load, rn, list) {
                trap(regs, Trap::Unpredictable)
            } else {
                let access = block_access(regs, pre, up, wb, rn, count_of(list));
                transfer_block(regs, mem, psr, load, list, &access)
            }
        }
        _ => execute_in_registers(regs, i),
    }
}

#[tactic(auto, unfolding(crate::specs::Step::word_step))]
/// Executes a word, if its condition holds.
#[inline(always)]
fn execute_word<M: Memory>(regs: &mut Regs, mem: &mut M, word: u32) -> CpuEvent
    ensures { word_step M.space regs.old (M.bytes mem.old) word ≡ record { event = result; regs = regs.new; bytes = M.bytes mem.new } }
{
    if regs.holds((word >> 28) as u8) {
        execute(regs, mem, &decode(word))
    } else {
        regs.advance();
        CpuEvent::Ran
    }
}

#[tactic(auto, unfolding(crate::specs::Step::cpu_step))]
/// Executes the instruction at the PC.
#[inline(always)]
fn fetch_and_execute<M: Memory>(regs: &mut Regs, mem: &mut M) -> CpuEvent
    ensures value { cpu_step M.space regs.old (M.bytes mem.old) ≡ record { event = result; regs = regs.new; bytes = M.bytes mem.new } }
    ensures trap { IfTrap result ((regs.new ≡ regs.old) × (M.bytes mem.new ≡ M.bytes mem.old)) }
{
    match mem.fetch(!regs.svc, regs.pc.address()) {
        Some(word) => execute_word(regs, mem, word),
        None => trap(regs, Trap::Fetch),
    }
}

/// Makes one instruction of the ARM2 (VL86C010 (ARM2) data manual): the one at the PC, in the current mode. The registers
/// and the memory are those that it leaves; after a trap they are as they were.
#[inline(always)]
pub fn step_cpu<M: Memory>(regs: &mut Regs, mem: &mut M) -> CpuEvent
    ensures value { cpu_step M.space regs.old (M.bytes mem.old) ≡ record { event = result; regs = regs.new; bytes = M.bytes mem.new } }
    ensures valid { IsValidRegs regs.new }
    ensures trap { IfTrap result ((regs.new ≡ regs.old) × (M.bytes mem.new ≡ M.bytes mem.old)) }
{
    let event = fetch_and_execute(regs, mem);
    // The proof learns here that registers are always valid.
    regs.are_valid();
    event
}
