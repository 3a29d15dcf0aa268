//! MUL and MLA.
ghost use Rattle.std.specs.Prelude.{◌≡◌};
ghost use Rattle.arm2_cpu.specs.Multiply.{product, multiplied, multiply_step};

use crate::event::CpuEvent;
use arm2_alu::{Computed, Regs};

#[tactic(auto, using(crate::proofs::ProductLaws::product_laws), unfolding(crate::specs::Multiply::product))]
fn product(regs: &Regs, acc: bool, rn: u8, rs: u8, rm: u8) -> u32
    ensures { result ≡ product regs.now acc rn rs rm }
{
    let product = regs.register(rm).wrapping_mul(regs.register(rs));
    let more = if acc { regs.register(rn) } else { 0 };
    product.wrapping_add(more)
}

#[tactic(auto, unfolding(crate::specs::Multiply::multiplied))]
fn set_product(regs: &mut Regs, s: bool, rd: u8, value: u32)
    ensures { regs.new ≡ multiplied regs.old s rd value }
{
    if s {
        let outcome = Computed {
            value,
            carry: regs.has_carry(),
            overflow: regs.has_overflow(),
        };
        regs.set_flags_by(outcome);
    }
    regs.set_register(rd, value);
    regs.advance();
}

#[tactic(auto, unfolding(crate::specs::Multiply::multiply_step))]
/// Executes MUL, or MLA where `acc`.
pub(crate) fn multiply(
    regs: &mut Regs,
    acc: bool,
    s: bool,
    rd: u8,
    rn: u8,
    rs: u8,
    rm: u8,
) -> CpuEvent
    ensures { multiply_step regs.old acc s rd rn rs rm ≡ record { event = result; regs = regs.new } }
{
    let value = product(regs, acc, rn, rs, rm);
    set_product(regs, s, rd, value);
    CpuEvent::Ran
}
