//! Items of pieces by short names, as they stand in `Instructions.antt` of `code_frag`, where a table has them; and the
//! instructions whose fields the program decides. An operand is `num` with a number or the field of an immediate, `reg` with a
//! register, or `lsl`, `lsr` or `asr` with a register and the bits that it is shifted by.
ghost use Rattle.std.specs.Prelude.{◌≡◌, ◌<◌, ◌^◌, OnOk, true, false};
ghost use Rattle.arm_isa.specs.declared.instruction.Instr.TheVariants.{Data, Single};
ghost use Rattle.arm_isa.specs.Numbers.{AL};
ghost use Rattle.code_frag.specs.Language.{Do, Call, Leave, LeaveIf};
ghost use Rattle.codegen.specs.Emission.{with_code};

use arm_isa::Instr;
use arm_isa::numbers::AL;
use bv_base::NoMemory;
use code_frag::{Frag, Label};

/// Data processing under a condition, without flags or with them.
macro_rules! data {
    ($cond:expr, $op:expr, $s:expr, $rd:expr, $rn:expr, num $field:expr) => {
        Item::Ins(Instr::Data {
            cond: $cond,
            imm: true,
            op: $op,
            s: $s,
            rn: $rn,
            rd: $rd,
            op2: $field,
        })
    };
    ($cond:expr, $op:expr, $s:expr, $rd:expr, $rn:expr, reg $rm:expr) => {
        Item::Ins(Instr::Data {
            cond: $cond,
            imm: false,
            op: $op,
            s: $s,
            rn: $rn,
            rd: $rd,
            op2: $rm,
        })
    };
    ($cond:expr, $op:expr, $s:expr, $rd:expr, $rn:expr, lsl $rm:expr, $by:expr) => {
        data!($cond, $op, $s, $rd, $rn, reg $by * 0x80 + $rm)
    };
    ($cond:expr, $op:expr, $s:expr, $rd:expr, $rn:expr, lsr $rm:expr, $by:expr) => {
        data!($cond, $op, $s, $rd, $rn, reg $by * 0x80 + 0x20 + $rm)
    };
    ($cond:expr, $op:expr, $s:expr, $rd:expr, $rn:expr, asr $rm:expr, $by:expr) => {
        data!($cond, $op, $s, $rd, $rn, reg $by * 0x80 + 0x40 + $rm)
    };
}

/// Rd takes the operand.
macro_rules! mov {
    ($rd:expr, $($operand:tt)*) => {
        data!(AL, MOV, false, $rd, 0, $($operand)*)
    };
}

/// The flags of Rn - operand.
macro_rules! cmp {
    ($rn:expr, $($operand:tt)*) => {
        data!(AL, CMP, true, 0, $rn, $($operand)*)
    };
}

/// The flags of Rn AND operand.
macro_rules! tst {
    ($rn:expr, $($operand:tt)*) => {
        data!(AL, TST, true, 0, $rn, $($operand)*)
    };
}

/// A load or a store of a word: before the register is moved or after it, above it or below, and with the register moved.
macro_rules! single {
    ($pre:expr, $up:expr, $wb:expr, $load:expr, $rd:expr, $rn:expr, $offset:expr) => {
        Item::Ins(Instr::Single {
            cond: AL,
            reg: false,
            pre: $pre,
            up: $up,
            byte: false,
            wb: $wb,
            load: $load,
            rn: $rn,
            rd: $rd,
            offset: $offset,
        })
    };
}

/// Rd takes the word at Rn + offset.
macro_rules! ldr {
    ($rd:expr, $rn:expr, $offset:expr) => {
        single!(true, true, false, true, $rd, $rn, $offset)
    };
}

/// The word at Rn + offset takes Rd.
macro_rules! store {
    ($rd:expr, $rn:expr, $offset:expr) => {
        single!(true, true, false, false, $rd, $rn, $offset)
    };
}

/// Rd goes to a stack at Rn.
macro_rules! push {
    ($rd:expr, $rn:expr) => {
        single!(true, false, true, false, $rd, $rn, 4)
    };
}

/// Rd comes from a stack at Rn.
macro_rules! pull {
    ($rd:expr, $rn:expr) => {
        single!(false, true, false, true, $rd, $rn, 4)
    };
}

/// To the address in a register.
macro_rules! leave_to {
    ($rm:expr) => {
        data!(AL, MOV, false, R15, 0, reg $rm)
    };
}

/// A call of the board.
macro_rules! swi {
    ($number:expr) => {
        Item::Ins(Instr::Swi {
            cond: AL,
            number: $number,
        })
    };
}

/// A branch over a number of words.
macro_rules! over {
    ($cond:expr, $count:expr) => {
        Item::Ins(Instr::Branch {
            cond: $cond,
            link: false,
            words: $count - 1,
        })
    };
}

pub(crate) use cmp;
pub(crate) use data;
pub(crate) use ldr;
pub(crate) use leave_to;
pub(crate) use mov;
pub(crate) use over;
pub(crate) use pull;
pub(crate) use push;
pub(crate) use single;
pub(crate) use store;
pub(crate) use swi;
pub(crate) use tst;

/// Adds data processing without flags, of a register and an immediate. The only error is want of memory.
pub fn emit_process(
    frag: &mut Frag,
    cond: u8,
    op: u8,
    rd: u8,
    rn: u8,
    field: u16,
) -> Result<(), NoMemory>
    requires cond { cond < 16 }
    requires op { op < 16 }
    requires rd { rd < 16 }
    requires rn { rn < 16 }
    requires field { field < 4096 }
    ensures { OnOk result (frag.new ≡ with_code (Do (Data cond true op false rn rd field)) frag.old) }
{
    frag.emit(&Instr::Data {
        cond,
        imm: true,
        op,
        s: false,
        rn,
        rd,
        op2: field,
    })
}

/// Adds data processing of a register and an operand, a byte or a register, without flags or with them. The only
/// error is want of memory.
pub fn emit_data(
    frag: &mut Frag,
    s: bool,
    op: u8,
    rd: u8,
    rn: u8,
    imm: bool,
    field: u16,
) -> Result<(), NoMemory>
    requires op { op < 16 }
    requires rd { rd < 16 }
    requires rn { rn < 16 }
    requires field { field < 2 ^ 8 }
    requires register { imm ≡ false → field < 2 ^ 4 }
    ensures { OnOk result (frag.new ≡ with_code (Do (Data AL imm op s rn rd field)) frag.old) }
{
    frag.emit(&Instr::Data {
        cond: AL,
        imm,
        op,
        s,
        rn,
        rd,
        op2: field,
    })
}

/// Adds a load or a store of the word at an offset above a register. The only error is want of memory.
pub fn emit_transfer(
    frag: &mut Frag,
    load: bool,
    rd: u8,
    rn: u8,
    offset: u16,
) -> Result<(), NoMemory>
    requires rd { rd < 16 }
    requires rn { rn < 16 }
    requires offset { offset < 4096 }
    ensures { OnOk result (frag.new ≡ with_code (Do (Single AL false true true false false load rn rd offset)) frag.old) }
{
    frag.emit(&Instr::Single {
        cond: AL,
        reg: false,
        pre: true,
        up: true,
        byte: false,
        wb: false,
        load,
        rn,
        rd,
        offset,
    })
}
