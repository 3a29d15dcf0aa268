//! Instructions, and which of them have a word.
ghost use Rattle.std.specs.Prelude.{◌≡◌};
ghost use Rattle.arm_isa.specs.Valid.{are_nibbles, is_operand, is_offset, is_distance};

use crate::classes::{Class, class_of};
use crate::fields::{bit, has_bits_7_and_4};

/// Fields of four bits are below this: conditions, operations, numbers of registers.
pub const NIBBLES: u8 = 16;

/// Second operands and offsets, fields of twelve bits, are below this.
pub const OPERANDS: u16 = 0x1000;

/// Distances of branches, in words, are below this, and not below its negative.
pub const BRANCH_WORDS: i32 = 0x80_0000;

/// Numbers of software interrupts are below this.
pub const SWI_NUMBERS: u32 = 0x100_0000;

/// An instruction of the ARM2 (VL86C010 (ARM2) data manual, instruction set), with the fields of its word. `cond` is the
/// condition, 0 (EQ) to 15 (NV); `rn`, `rd`, `rs` and `rm` are numbers of registers, 0 to 15.
#[derive(Clone, Copy, Debug, PartialEq, Eq)]
pub enum Instr {
    /// Data processing: `op` is 0 (AND) to 15 (MVN), `s` sets the flags. `op2` is an immediate where `imm`, as
    /// `immediate` gives it, and else the register of bits 3 to 0 with its shift: the kind of bits 6 and 5 (LSL, LSR,
    /// ASR, ROR), by the number of bits 11 to 7, or where bit 4 is set by the register of bits 11 to 8.
    Data {
        cond: u8,
        imm: bool,
        op: u8,
        s: bool,
        rn: u8,
        rd: u8,
        op2: u16,
    },
    /// MUL, or MLA where `acc`: `rd` is `rm` times `rs`, and `rn` is what MLA adds. `s` sets the flags.
    Mul {
        cond: u8,
        acc: bool,
        s: bool,
        rd: u8,
        rn: u8,
        rs: u8,
        rm: u8,
    },
    /// LDR where `load`, else STR: `reg` has a register, shifted by a number as in `op2` of data processing, in place of an
    /// `offset` of 0 to 4,095 bytes. `up` adds the offset to `rn`, and else it is subtracted, before the access where `pre`
    /// and else after it. `byte` moves a byte. With `pre`, `wb` writes the moved address back to `rn`. Without `pre` that
    /// is always done, and `wb` makes the access as in user mode (LDRT, STRT).
    Single {
        cond: u8,
        reg: bool,
        pre: bool,
        up: bool,
        byte: bool,
        wb: bool,
        load: bool,
        rn: u8,
        rd: u8,
        offset: u16,
    },
    /// LDM where `load`, else STM: bit n of `list` is register n, and register `rn` is the base. The block lies above the
    /// base where `up` and else below it, and leaves out the base's own word where `pre`: IB with both, IA with `up`
    /// alone, DB with `pre` alone, and DA. `wb` writes the base back, moved by 4 bytes for each register. `psr` is the
    /// form written with ^: it takes the flags with R15 that is loaded, and else moves the user's R13 and R14.
    Block {
        cond: u8,
        pre: bool,
        up: bool,
        psr: bool,
        wb: bool,
        load: bool,
        rn: u8,
        list: u16,
    },
    /// B, or BL where `link`. `words` is the distance in words from the address of the instruction plus 8: a signed number
    /// of 24 bits, from -`BRANCH_WORDS` to `BRANCH_WORDS` - 1, which is 32 MiB each way.
    Branch {
        cond: u8,
        link: bool,
        words: i32,
    },
    /// SWI, whose `number` has 24 bits.
    Swi {
        cond: u8,
        number: u32,
    },
    /// Any other word.
    Undefined {
        word: u32,
    },
}

/// Whether two fields have four bits each.
fn are_nibbles(a: u8, b: u8) -> bool
    ensures { result ≡ are_nibbles a b }
{
    a < NIBBLES && b < NIBBLES
}

/// Whether data processing can have this second operand: an immediate, or a register operand without bits 7 and 4.
fn is_operand(imm: bool, op2: u16) -> bool
    ensures { result ≡ is_operand imm op2 }
{
    op2 < OPERANDS && (imm || !has_bits_7_and_4(op2.into()))
}

/// Whether LDR and STR can have this offset: a number of bytes, or a register operand without bit 4.
fn is_offset(reg: bool, offset: u16) -> bool
    ensures { result ≡ is_offset reg offset }
{
    offset < OPERANDS && !(reg && bit(offset.into(), 4))
}

/// Whether 24 bits can hold the distance of a branch.
fn is_distance(words: i32) -> bool
    ensures { result ≡ is_distance words }
{
    -BRANCH_WORDS <= words && words < BRANCH_WORDS
}

impl Instr {
    ghost use Rattle.std.specs.Prelude.{◌≡◌, ◌↔◌, IsTrue};
    ghost use Rattle.arm_isa.specs.Words.{IsValid};
    ghost use Rattle.arm_isa.specs.Valid.{is_valid};

    /// Whether the fields are in range, and their word is of the instruction's own class.
    fn fields_fit(&self) -> bool
        ensures { result ≡ is_valid self.now }
    {
        match *self {
            Instr::Data {
                cond,
                imm,
                op,
                rn,
                rd,
                op2,
                ..
            } => are_nibbles(cond, op) && are_nibbles(rn, rd) && is_operand(imm, op2),
            Instr::Mul {
                cond,
                rd,
                rn,
                rs,
                rm,
                ..
            } => cond < NIBBLES && are_nibbles(rd, rn) && are_nibbles(rs, rm),
            Instr::Single {
                cond,
                reg,
                rn,
                rd,
                offset,
                ..
            } => cond < NIBBLES && are_nibbles(rn, rd) && is_offset(reg, offset),
            Instr::Block { cond, rn, list, .. } => {
                // The proof learns here that the list is a `u16`.
                let _ = list;
                are_nibbles(cond, rn)
            }
            Instr::Branch { cond, words, .. } => cond < NIBBLES && is_distance(words),
            Instr::Swi { cond, number } => cond < NIBBLES && number < SWI_NUMBERS,
            Instr::Undefined { word } => class_of(word) == Class::Undefined,
        }
    }

    /// Whether the instruction has a word, which `encode` asks for: its fields are in range, and `decode` would not class
    /// their word otherwise. Data that have bits 7 and 4 of a register operand set, and LDR and STR that have bit 4 of
    /// a register offset set, have none.
    pub fn is_valid(&self) -> bool
        ensures value { result ≡ is_valid self.now }
        ensures valid { IsTrue result ↔ IsValid self.now }
    {
        self.fields_fit()
    }
}
