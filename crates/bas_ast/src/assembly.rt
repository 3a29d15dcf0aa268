//! The assembler's statements (VL86C010 data manual, instruction set).

use crate::expressions::{NumExpr, StrExpr};
use sqlite_items::Items;

/// A statement of the assembler: a label, an instruction, both or none.
#[derive(Drop)]
pub struct AsmStmt {
    pub label: Option<u16>,
    pub instruction: Option<Instruction>,
}

/// A register: by its name, from 0 to 15, or by a number that is computed.
#[derive(Drop)]
pub enum Register {
    Named(u8),
    Computed(NumExpr),
}

/// The condition of an instruction, in the order of its numbers.
#[derive(Debug, Clone, Copy, PartialEq, Eq, Drop)]
pub enum Condition {
    Eq,
    Ne,
    Cs,
    Cc,
    Mi,
    Pl,
    Vs,
    Vc,
    Hi,
    Ls,
    Ge,
    Lt,
    Gt,
    Le,
    Al,
    Nv,
}

#[derive(Debug, Clone, Copy, PartialEq, Eq, Drop)]
pub enum MoveOp {
    Mov,
    Mvn,
}

#[derive(Debug, Clone, Copy, PartialEq, Eq, Drop)]
pub enum ArithmeticOp {
    And,
    Eor,
    Sub,
    Rsb,
    Add,
    Adc,
    Sbc,
    Rsc,
    Orr,
    Bic,
}

#[derive(Debug, Clone, Copy, PartialEq, Eq, Drop)]
pub enum TestOp {
    Tst,
    Teq,
    Cmp,
    Cmn,
}

#[derive(Debug, Clone, Copy, PartialEq, Eq, Drop)]
pub enum TransferOp {
    Load,
    Store,
}

/// A shift, with ASL as LSL.
#[derive(Debug, Clone, Copy, PartialEq, Eq, Drop)]
pub enum ShiftOp {
    Lsl,
    Lsr,
    Asr,
    Ror,
}

/// The last operand of a data operation.
#[derive(Drop)]
pub enum Operand {
    Constant(NumExpr),
    Plain(Register),
    ShiftedBy(Register, ShiftOp, NumExpr),
    ShiftedByRegister(Register, ShiftOp, Register),
    /// RRX
    RotatedWithCarry(Register),
}

/// What is added to the base of a single transfer.
#[derive(Drop)]
pub enum Offset {
    Constant(NumExpr),
    /// Whether a minus comes before it, the register, and its shift.
    Register(bool, Register, Option<(ShiftOp, NumExpr)>),
}

/// The address of a single transfer.
#[derive(Drop)]
pub enum Address {
    /// `[Rn]`
    Base(Register),
    /// `[Rn,offset]`, with writeback where `!` follows it.
    PreIndexed(Register, Offset, bool),
    /// `[Rn],offset`
    PostIndexed(Register, Offset),
    /// An address that is reached from the PC.
    Relative(NumExpr),
}

/// The order of a block transfer, by the names that tell the addresses: increment or decrement, after or before.
#[derive(Debug, Clone, Copy, PartialEq, Eq, Drop)]
pub enum BlockMode {
    Ia,
    Ib,
    Da,
    Db,
}

/// A register of a block's list, or all from the lower to the higher of two.
#[derive(Drop)]
pub enum RegisterRange {
    One(Register),
    Between(Register, Register),
}

/// The size of EQUB, EQUW and EQUD.
#[derive(Debug, Clone, Copy, PartialEq, Eq, Drop)]
pub enum DataSize {
    Byte,
    HalfWord,
    Word,
}

/// An instruction or a directive.
#[derive(Drop)]
pub enum Instruction {
    Move {
        op: MoveOp,
        condition: Condition,
        sets_flags: bool,
        rd: Register,
        operand: Operand,
    },
    Arithmetic {
        op: ArithmeticOp,
        condition: Condition,
        sets_flags: bool,
        rd: Register,
        rn: Register,
        operand: Operand,
    },
    Test {
        op: TestOp,
        condition: Condition,
        /// Whether P is written, so that the PSR is set from the result.
        writes_psr: bool,
        rn: Register,
        operand: Operand,
    },
    Multiply {
        condition: Condition,
        sets_flags: bool,
        rd: Register,
        rm: Register,
        rs: Register,
    },
    MultiplyAdd {
        condition: Condition,
        sets_flags: bool,
        rd: Register,
        rm: Register,
        rs: Register,
        rn: Register,
    },
    Transfer {
        op: TransferOp,
        condition: Condition,
        byte: bool,
        /// Whether T is written, so that the access is as in user mode.
        as_user: bool,
        rd: Register,
        address: Address,
    },
    BlockTransfer {
        op: TransferOp,
        condition: Condition,
        mode: BlockMode,
        rn: Register,
        writes_back: bool,
        registers: Items<RegisterRange>,
        /// Whether `^` is written.
        psr_or_user: bool,
    },
    Branch {
        link: bool,
        condition: Condition,
        to: NumExpr,
    },
    SoftwareInterrupt {
        condition: Condition,
        number: NumExpr,
    },
    /// ADR
    TakeAddress {
        condition: Condition,
        rd: Register,
        address: NumExpr,
    },
    /// EQUB, EQUW and EQUD.
    Data(DataSize, NumExpr),
    /// EQUS
    Text(StrExpr),
    Align,
    Opt(NumExpr),
}
