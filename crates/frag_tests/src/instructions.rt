//! Items of routines by short names, as they stand in `Instructions.antt` of `code_frag`: an operand is `num` with a number below
//! 256 or the field of another immediate, or `reg` with a register.

/// Data processing.
macro_rules! data {
    ($op:expr, $s:expr, $rd:expr, $rn:expr, num $field:expr) => {
        Item::Ins(Instr::Data {
            cond: AL,
            imm: true,
            op: $op,
            s: $s,
            rn: $rn,
            rd: $rd,
            op2: $field,
        })
    };
    ($op:expr, $s:expr, $rd:expr, $rn:expr, reg $rm:expr) => {
        Item::Ins(Instr::Data {
            cond: AL,
            imm: false,
            op: $op,
            s: $s,
            rn: $rn,
            rd: $rd,
            op2: $rm,
        })
    };
}

/// Rd takes the operand.
macro_rules! mov {
    ($rd:expr, $($operand:tt)*) => {
        data!(MOV, false, $rd, 0, $($operand)*)
    };
}

/// Rd = Rn + operand.
macro_rules! add {
    ($rd:expr, $rn:expr, $($operand:tt)*) => {
        data!(ADD, false, $rd, $rn, $($operand)*)
    };
}

/// Rd = Rn - operand.
macro_rules! sub {
    ($rd:expr, $rn:expr, $($operand:tt)*) => {
        data!(SUB, false, $rd, $rn, $($operand)*)
    };
}

/// The flags of Rn - operand.
macro_rules! cmp {
    ($rn:expr, $($operand:tt)*) => {
        data!(CMP, true, 0, $rn, $($operand)*)
    };
}

/// A load or a store of a word; with `pre` at an offset above Rn, else at Rn, which the offset is added to.
macro_rules! single {
    ($pre:expr, $load:expr, $rd:expr, $rn:expr, $offset:expr) => {
        Item::Ins(Instr::Single {
            cond: AL,
            reg: false,
            pre: $pre,
            up: true,
            byte: false,
            wb: false,
            load: $load,
            rn: $rn,
            rd: $rd,
            offset: $offset,
        })
    };
}

/// The registers of a list are stored below Rn, or come back from there.
macro_rules! push_all {
    ($rn:expr, $list:expr) => {
        block!(true, false, false, $rn, $list)
    };
}

macro_rules! pull_all {
    ($rn:expr, $list:expr) => {
        block!(false, true, true, $rn, $list)
    };
}

macro_rules! block {
    ($pre:expr, $up:expr, $load:expr, $rn:expr, $list:expr) => {
        Item::Ins(Instr::Block {
            cond: AL,
            pre: $pre,
            up: $up,
            psr: false,
            wb: true,
            load: $load,
            rn: $rn,
            list: $list,
        })
    };
}

/// A call of the board.
macro_rules! swi {
    ($number:expr) => {
        Item::Ins(Instr::Swi {
            cond: AL,
            number: $number,
        })
    };
}

/// A branch inside a routine, by its distance from two words after it.
macro_rules! branch {
    ($cond:expr, $words:expr) => {
        Item::Ins(Instr::Branch {
            cond: $cond,
            link: false,
            words: $words,
        })
    };
}

/// The entry of a label is called.
macro_rules! call {
    ($number:expr) => {
        Item::Jump {
            cond: AL,
            link: true,
            to: Label { number: $number },
        }
    };
}

/// The end of an entry: to the address in R14.
macro_rules! back {
    () => {
        data!(MOV, false, 15, 0, reg 14)
    };
}

pub(crate) use add;
pub(crate) use back;
pub(crate) use block;
pub(crate) use branch;
pub(crate) use call;
pub(crate) use cmp;
pub(crate) use data;
pub(crate) use mov;
pub(crate) use pull_all;
pub(crate) use push_all;
pub(crate) use single;
pub(crate) use sub;
pub(crate) use swi;
