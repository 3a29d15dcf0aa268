//! The instruction that programs begin with: a register takes a number.
ghost use Rattle.std.specs.Prelude.{◌≡◌, ◌<◌, ◌++◌, OnOk};
ghost use Rattle.code_frag.specs.Instructions.{num, mov};
ghost use Rattle.code_frag.specs.Language.{items};

use arm_isa::Instr;
use arm_isa::numbers::{AL, MOV};
use bv_base::NoMemory;
use code_frag::Frag;

/// Adds MOV of a number into a register below R15.
pub fn emit_number(frag: &mut Frag, rd: u8, n: u8) -> Result<(), NoMemory>
    requires { rd < 15 }
    ensures { OnOk result (frag.new ≡ record { items = frag.old.items ++ items (mov rd (num n)); places = frag.old.places }) }
{
    frag.emit(&Instr::Data {
        cond: AL,
        imm: true,
        op: MOV,
        s: false,
        rn: 0,
        rd,
        op2: n as u16,
    })
}
