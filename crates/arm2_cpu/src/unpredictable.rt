//! Which multiplications and transfers trap as unpredictable. Data processing has its tests where it is executed.
ghost use Rattle.std.specs.Prelude.{◌≡◌, ◌<◌, ◌^◌};
ghost use Rattle.arm2_cpu.specs.Block.{uses_user_bank};
ghost use Rattle.arm2_cpu.specs.Unpredictable.{is_unpredictable_multiply, is_unpredictable_single, is_unpredictable_block};

use crate::access::writes_back;
use arm_isa::bit;
use arm_isa::numbers::R15;
use arm2_alu::register_at;

/// Whether MUL or MLA traps.
pub(crate) fn is_unpredictable_multiply(rd: u8, rn: u8, rs: u8, rm: u8) -> bool
    ensures { result ≡ is_unpredictable_multiply rd rn rs rm }
{
    rd == rm || rd == R15 || rn == R15 || rs == R15 || rm == R15
}

/// Whether LDR or STR traps.
#[inline]
pub(crate) fn is_unpredictable_single(
    reg: bool,
    pre: bool,
    byte: bool,
    wb: bool,
    load: bool,
    rn: u8,
    rd: u8,
    offset: u16,
) -> bool
    requires { offset < 2 ^ 12 }
    ensures { result ≡ is_unpredictable_single reg pre byte wb load rn rd offset }
{
    (reg && register_at(offset, 0) == R15)
        || (writes_back(pre, wb) && rn == R15)
        || (load && writes_back(pre, wb) && rd == rn)
        || (load && byte && rd == R15)
}

/// Whether the user bank is transferred.
fn uses_user_bank(psr: bool, load: bool, list: u16) -> bool
    ensures { result ≡ uses_user_bank psr load list }
{
    psr && !(load && bit(list.into(), 15))
}

/// Whether LDM or STM traps.
pub(crate) fn is_unpredictable_block(psr: bool, wb: bool, load: bool, rn: u8, list: u16) -> bool
    requires { rn < 2 ^ 4 }
    ensures { result ≡ is_unpredictable_block psr wb load rn list }
{
    list == 0
        || rn == R15
        || (wb && (bit(list.into(), rn.into()) || uses_user_bank(psr, load, list)))
}
