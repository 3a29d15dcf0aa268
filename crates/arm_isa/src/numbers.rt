//! The numbers by which words name conditions, operations, kinds of shifts and registers (VL86C010 (ARM2) data manual).
//! The definitions have the same names in `specs/Numbers.antt`.
ghost use Rattle.arm_isa.specs.Numbers.{AreNumbered};

/// Equal: Z is set.
pub const EQ: u8 = 0;

/// Not equal: Z is clear.
pub const NE: u8 = 1;

/// Unsigned higher or same: C is set.
pub const CS: u8 = 2;

/// Unsigned lower: C is clear.
pub const CC: u8 = 3;

/// Negative: N is set.
pub const MI: u8 = 4;

/// Positive or zero: N is clear.
pub const PL: u8 = 5;

/// Overflow: V is set.
pub const VS: u8 = 6;

/// No overflow: V is clear.
pub const VC: u8 = 7;

/// Unsigned higher: C is set and Z clear.
pub const HI: u8 = 8;

/// Unsigned lower or same: C is clear or Z set.
pub const LS: u8 = 9;

/// Signed greater or equal: N and V are the same.
pub const GE: u8 = 10;

/// Signed less: N and V differ.
pub const LT: u8 = 11;

/// Signed greater: Z is clear, and N and V are the same.
pub const GT: u8 = 12;

/// Signed less or equal: Z is set, or N and V differ.
pub const LE: u8 = 13;

/// Always.
pub const AL: u8 = 14;

/// Never.
pub const NV: u8 = 15;

/// `Rn AND operand`.
pub const AND: u8 = 0;

/// `Rn EOR operand`.
pub const EOR: u8 = 1;

/// `Rn - operand`.
pub const SUB: u8 = 2;

/// `operand - Rn`.
pub const RSB: u8 = 3;

/// `Rn + operand`.
pub const ADD: u8 = 4;

/// `Rn + operand + C`.
pub const ADC: u8 = 5;

/// `Rn - operand - NOT C`.
pub const SBC: u8 = 6;

/// `operand - Rn - NOT C`.
pub const RSC: u8 = 7;

/// The flags of `Rn AND operand`.
pub const TST: u8 = 8;

/// The flags of `Rn EOR operand`.
pub const TEQ: u8 = 9;

/// The flags of `Rn - operand`.
pub const CMP: u8 = 10;

/// The flags of `Rn + operand`.
pub const CMN: u8 = 11;

/// `Rn OR operand`.
pub const ORR: u8 = 12;

/// The operand.
pub const MOV: u8 = 13;

/// `Rn AND NOT operand`.
pub const BIC: u8 = 14;

/// `NOT operand`.
pub const MVN: u8 = 15;

/// Logical shift left.
pub const LSL: u8 = 0;

/// Logical shift right.
pub const LSR: u8 = 1;

/// Arithmetic shift right.
pub const ASR: u8 = 2;

/// Rotation right.
pub const ROR: u8 = 3;

/// The first register of which each mode has its own.
pub const R13: u8 = 13;

/// The register in which BL leaves its way back.
pub const R14: u8 = 14;

/// The register that holds the PC and the flags.
pub const R15: u8 = 15;

/// The law of the numbers: the constants of this module are those that the definitions name.
pub fn constants_numbered()
    ensures { AreNumbered }
{}
