//! Which addresses a transfer uses, and what its base takes.
ghost use Rattle.std.specs.Prelude.{◌≡◌, ◌<◌, ◌%◌, ◌^◌};
ghost use Rattle.arm2_cpu.specs.Access.{moved, with_base, writes_back, offset_of, single_access, block_access};

use arm2_alu::{Regs, amount_operand};

/// Which address a transfer begins at, and what its base register takes.
#[derive(Clone, Copy)]
pub struct Access {
    /// Whether the memory is used as in user mode.
    pub user: bool,
    /// The byte address that LDR and STR use, or that of the lowest word of LDM and STM, a multiple of 4.
    pub address: u32,
    /// The number of the base register.
    pub base: u8,
    /// The address that the base register takes, or `None` where it keeps its value.
    pub written_back: Option<u32>,
}

#[tactic(auto, unfolding(crate::specs::Access::moved))]
#[inline]
fn moved(up: bool, base: u32, offset: u32) -> u32
    ensures { result ≡ moved up base offset }
{
    if up {
        base.wrapping_add(offset)
    } else {
        base.wrapping_sub(offset)
    }
}

/// Whether LDR or STR writes the moved address back to its base.
#[inline]
pub(crate) fn writes_back(pre: bool, wb: bool) -> bool
    ensures { result ≡ writes_back pre wb }
{
    !pre || wb
}

#[tactic(auto, unfolding(crate::specs::Access::offset_of))]
#[inline]
fn offset_of(regs: &Regs, reg: bool, offset: u16) -> u32
    requires { offset < 2 ^ 12 }
    ensures { result ≡ offset_of regs.now reg offset }
{
    if reg {
        amount_operand(regs, offset).value
    } else {
        offset.into()
    }
}

#[tactic(auto, unfolding(crate::specs::Access::single_access))]
/// The access of LDR and STR.
#[inline(always)]
pub(crate) fn single_access(
    regs: &Regs,
    reg: bool,
    pre: bool,
    up: bool,
    wb: bool,
    rn: u8,
    offset: u16,
) -> Access
    requires { offset < 2 ^ 12 }
    ensures { result ≡ single_access regs.now reg pre up wb rn offset }
{
    let base = regs.first_operand(8, rn);
    let target = moved(up, base, offset_of(regs, reg, offset));
    Access {
        user: !regs.svc || (!pre && wb),
        address: if pre { target } else { base },
        base: rn,
        written_back: if writes_back(pre, wb) {
            Some(target)
        } else {
            None
        },
    }
}

#[tactic(auto, unfolding(crate::specs::Access::block_access))]
/// The access of LDM and STM of `count` words.
pub(crate) fn block_access(regs: &Regs, pre: bool, up: bool, wb: bool, rn: u8, count: u32) -> Access
    requires { count < 17 }
    ensures value { result ≡ block_access regs.now pre up wb rn count }
    ensures aligned { result.address % 4 ≡ 0 }
{
    let base = regs.register(rn);
    let target = moved(up, base, 4 * count);
    let lowest = if up { base } else { target };
    let skipped = if pre == up { 4 } else { 0 };
    Access {
        user: !regs.svc,
        address: lowest.wrapping_add(skipped) / 4 * 4,
        base: rn,
        written_back: if wb { Some(target) } else { None },
    }
}

/// Gives a transfer's base register what it takes.
#[inline]
pub(crate) fn write_base(regs: &mut Regs, access: &Access)
    ensures { regs.new ≡ with_base regs.old access.now }
{
    if let Some(value) = access.written_back {
        regs.set_register(access.base, value);
    }
}
