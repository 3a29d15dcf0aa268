//! B and BL.
ghost use Rattle.std.specs.Prelude.{◌≡◌};
ghost use Rattle.arm_isa.specs.Words.{FitsOffset};
ghost use Rattle.arm2_cpu.specs.Branch.{branch_target, branch_step};

use crate::event::CpuEvent;
use arm_isa::numbers::R14;
use arm2_alu::{Pc, Regs};

#[tactic(auto, using(crate::proofs::BranchLaws::target_laws))]
/// The address `words` words from the instruction's address plus 8.
fn target(regs: &Regs, words: i32) -> Pc
    requires { FitsOffset words }
    ensures { result ≡ branch_target regs.now words }
{
    let offset = words.cast_unsigned().wrapping_mul(4);
    regs.pc.plus(offset.wrapping_add(8))
}

#[tactic(auto, unfolding(crate::specs::Branch::branch_step))]
/// Executes B, or BL where `link`.
pub(crate) fn branch(regs: &mut Regs, link: bool, words: i32) -> CpuEvent
    requires { FitsOffset words }
    ensures { branch_step regs.old link words ≡ record { event = result; regs = regs.new } }
{
    let target = target(regs, words);
    if link {
        let back = regs.r15(4);
        regs.set_register(R14, back);
    }
    regs.pc = target;
    CpuEvent::Ran
}
