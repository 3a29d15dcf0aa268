//! Items of routines by short names, as they stand in `Instructions.antt` of `code_frag`: an operand is `num` with a number or the
//! field of an immediate, `reg` with a register, or `lsl` or `lsr` with a register and the bits that it is shifted by.

/// The register that has the residents' address.
pub const BASE: u8 = 11;

/// Where the column stands, from the residents on, in bytes.
pub const COLUMN: u16 = 108;

/// Where the number of open entries stands, likewise.
pub const COUNT: u16 = 112;

/// Where the depth of the call that runs stands, likewise.
pub const DEPTH: u16 = 116;

/// Where the address of the next item of DATA stands, likewise.
pub const NEXT_ADDRESS: u16 = 120;

/// The field of the immediate 2^31.
pub const TOP_BIT: u16 = 0x102;

/// Data processing without flags or with them.
macro_rules! data {
    ($op:expr, $s:expr, $rd:expr, $rn:expr, num $field:expr) => {
        Item::Ins(Instr::Data {
            cond: AL,
            imm: true,
            op: $op,
            s: $s,
            rn: $rn,
            rd: $rd,
            op2: $field,
        })
    };
    ($op:expr, $s:expr, $rd:expr, $rn:expr, reg $rm:expr) => {
        Item::Ins(Instr::Data {
            cond: AL,
            imm: false,
            op: $op,
            s: $s,
            rn: $rn,
            rd: $rd,
            op2: $rm,
        })
    };
    ($op:expr, $s:expr, $rd:expr, $rn:expr, lsl $rm:expr, $by:expr) => {
        data!($op, $s, $rd, $rn, reg $by * 0x80 + $rm)
    };
    ($op:expr, $s:expr, $rd:expr, $rn:expr, lsr $rm:expr, $by:expr) => {
        data!($op, $s, $rd, $rn, reg $by * 0x80 + 0x20 + $rm)
    };
}

/// Data processing under a condition.
macro_rules! data_if {
    ($cond:expr, $op:expr, $s:expr, $rd:expr, $rn:expr, num $field:expr) => {
        Item::Ins(Instr::Data {
            cond: $cond,
            imm: true,
            op: $op,
            s: $s,
            rn: $rn,
            rd: $rd,
            op2: $field,
        })
    };
    ($cond:expr, $op:expr, $s:expr, $rd:expr, $rn:expr, reg $rm:expr) => {
        Item::Ins(Instr::Data {
            cond: $cond,
            imm: false,
            op: $op,
            s: $s,
            rn: $rn,
            rd: $rd,
            op2: $rm,
        })
    };
}

/// Rd takes the operand.
macro_rules! mov {
    ($rd:expr, $($operand:tt)*) => {
        data!(MOV, false, $rd, 0, $($operand)*)
    };
}

/// Rd = Rn + operand.
macro_rules! add {
    ($rd:expr, $rn:expr, $($operand:tt)*) => {
        data!(ADD, false, $rd, $rn, $($operand)*)
    };
}

/// Rd = Rn - operand.
macro_rules! sub {
    ($rd:expr, $rn:expr, $($operand:tt)*) => {
        data!(SUB, false, $rd, $rn, $($operand)*)
    };
}

/// Rd = operand - Rn.
macro_rules! rsb {
    ($rd:expr, $rn:expr, $($operand:tt)*) => {
        data!(RSB, false, $rd, $rn, $($operand)*)
    };
}

/// The flags of Rn - operand.
macro_rules! cmp {
    ($rn:expr, $($operand:tt)*) => {
        data!(CMP, true, 0, $rn, $($operand)*)
    };
}

/// Rd = Rm times Rs.
macro_rules! mul {
    ($rd:expr, $rm:expr, $rs:expr) => {
        Item::Ins(Instr::Mul {
            cond: AL,
            acc: false,
            s: false,
            rd: $rd,
            rn: 0,
            rs: $rs,
            rm: $rm,
        })
    };
}

/// A load or a store at an offset above a register: of a byte or a word.
macro_rules! single {
    ($byte:expr, $load:expr, $rd:expr, $rn:expr, $offset:expr) => {
        Item::Ins(Instr::Single {
            cond: AL,
            reg: false,
            pre: true,
            up: true,
            byte: $byte,
            wb: false,
            load: $load,
            rn: $rn,
            rd: $rd,
            offset: $offset,
        })
    };
}

/// Rd takes the word at Rn + offset.
macro_rules! ldr {
    ($rd:expr, $rn:expr, $offset:expr) => {
        single!(false, true, $rd, $rn, $offset)
    };
}

/// Rd takes the word at Rn - offset.
macro_rules! ldr_below {
    ($rd:expr, $rn:expr, $offset:expr) => {
        Item::Ins(Instr::Single {
            cond: AL,
            reg: false,
            pre: true,
            up: false,
            byte: false,
            wb: false,
            load: true,
            rn: $rn,
            rd: $rd,
            offset: $offset,
        })
    };
}

/// The word at Rn + offset takes Rd.
macro_rules! store {
    ($rd:expr, $rn:expr, $offset:expr) => {
        single!(false, false, $rd, $rn, $offset)
    };
}

/// Rd takes the byte at Rn + offset.
macro_rules! ldrb {
    ($rd:expr, $rn:expr, $offset:expr) => {
        single!(true, true, $rd, $rn, $offset)
    };
}

/// A call of the board.
macro_rules! swi {
    ($number:expr) => {
        Item::Ins(Instr::Swi {
            cond: AL,
            number: $number,
        })
    };
}

/// A branch inside a routine, by its distance from two words after it.
macro_rules! branch {
    ($cond:expr, $words:expr) => {
        Item::Ins(Instr::Branch {
            cond: $cond,
            link: false,
            words: $words,
        })
    };
}

/// A routine is called.
macro_rules! call {
    ($label:expr) => {
        Item::Jump {
            cond: AL,
            link: true,
            to: $label,
        }
    };
}

/// The items of the answer of a magnitude in R0 and a sign in R5, between others.
macro_rules! answered {
    (before [$($before:expr),*], after [$($after:expr),*]) => {
        [
            $($before,)*
            mov!(1, num 0),
            cmp!(5, num 0),
            branch!(EQ, 4),
            cmp!(0, num TOP_BIT),
            branch!(LS, 0),
            mov!(1, num TOO_BIG as u16),
            rsb!(0, 0, num 0),
            branch!(AL, 2),
            cmp!(0, num TOP_BIT),
            branch!(CC, 0),
            mov!(1, num TOO_BIG as u16),
            $($after,)*
        ]
    };
}

/// The end of a routine: to the address in R14.
macro_rules! back {
    () => {
        data!(MOV, false, 15, 0, reg 14)
    };
}

pub(crate) use add;
pub(crate) use answered;
pub(crate) use back;
pub(crate) use branch;
pub(crate) use call;
pub(crate) use cmp;
pub(crate) use data;
pub(crate) use data_if;
pub(crate) use ldr;
pub(crate) use ldr_below;
pub(crate) use ldrb;
pub(crate) use mov;
pub(crate) use mul;
pub(crate) use rsb;
pub(crate) use single;
pub(crate) use store;
pub(crate) use sub;
pub(crate) use swi;
