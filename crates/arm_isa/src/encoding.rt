//! Words from instructions. A new class has its writer here, and its arm in `sum_of_fields`.
ghost use Rattle.std.specs.Prelude.{◌≡◌, ℕ, ◌<◌, ◌≤◌, ◌*◌, ◌+◌, ◌%◌, ◌^◌};
ghost use Rattle.std.specs.Int.{from_bool};
ghost use Rattle.arm_isa.specs.declared.instruction.Instr.TheVariants.{Data, Mul, Branch, Swi};
ghost use Rattle.arm_isa.specs.Words.{means, word_of, transfer_flags, Fits, IsValid};

use crate::instruction::Instr;

/// The bits that make a word one of LDR and STR.
const SINGLE: u32 = 0b01 << 26;

/// The bits that make a word one of LDM and STM.
const BLOCK: u32 = 0b100 << 25;

/// The bits that make a word one of B and BL.
const BRANCH: u32 = 0b101 << 25;

/// The bits that make a word an SWI.
const SWI: u32 = 0b1111 << 24;

/// The bits that make a word one of MUL and MLA.
const MULTIPLY: u32 = 0b1001 << 4;

/// The bits of a branch's distance.
const DISTANCE: u32 = 0xff_ffff;

/// A field of four bits at its place in a word.
fn nibble(value: u8, low: u32) -> u32
    requires value { value < 2 ^ 4 }
    requires low { low ≤ 28 }
    ensures { result ≡ value * 2 ^ low }
{
    u32::from(value) << low
}

/// A field of one bit at its place in a word.
fn flag(set: bool, at: u32) -> u32
    requires { at < 32 }
    ensures { result ≡ from_bool set * 2 ^ at }
{
    u32::from(set) << at
}

fn data(cond: u8, imm: bool, op: u8, s: bool, rn: u8, rd: u8, op2: u16) -> u32
    requires { Fits (Data cond imm op s rn rd op2) }
    ensures { result ≡ word_of (Data cond imm op s rn rd op2) }
{
    nibble(cond, 28)
        | flag(imm, 25)
        | nibble(op, 21)
        | flag(s, 20)
        | nibble(rn, 16)
        | nibble(rd, 12)
        | u32::from(op2)
}

fn multiply(cond: u8, acc: bool, s: bool, rd: u8, rn: u8, rs: u8, rm: u8) -> u32
    requires { Fits (Mul cond acc s rd rn rs rm) }
    ensures { result ≡ word_of (Mul cond acc s rd rn rs rm) }
{
    nibble(cond, 28)
        | flag(acc, 21)
        | flag(s, 20)
        | nibble(rd, 16)
        | nibble(rn, 12)
        | nibble(rs, 8)
        | MULTIPLY
        | u32::from(rm)
}

/// The five flags of a transfer at their places: P, U, B (of one register) or S (of a block), W and L.
fn transfer(pre: bool, up: bool, third: bool, wb: bool, load: bool) -> u32
    ensures { result ≡ transfer_flags pre up third wb load }
{
    flag(pre, 24) | flag(up, 23) | flag(third, 22) | flag(wb, 21) | flag(load, 20)
}

fn single(cond: u8, reg: bool, flags: u32, rn: u8, rd: u8, offset: u16) -> u32
    requires fields { (cond < 2 ^ 4) × (rn < 2 ^ 4) × (rd < 2 ^ 4) × (offset < 2 ^ 12) }
    requires flags { (flags % 2 ^ 20 ≡ 0) × (flags < 2 ^ 25) }
    ensures { result ≡ cond * 2 ^ 28 + 1 * 2 ^ 26 + from_bool reg * 2 ^ 25 + flags
        + rn * 2 ^ 16 + rd * 2 ^ 12 + offset }
{
    nibble(cond, 28)
        | SINGLE
        | flag(reg, 25)
        | flags
        | nibble(rn, 16)
        | nibble(rd, 12)
        | u32::from(offset)
}

fn block(cond: u8, flags: u32, rn: u8, list: u16) -> u32
    requires fields { (cond < 2 ^ 4) × (rn < 2 ^ 4) }
    requires flags { (flags % 2 ^ 20 ≡ 0) × (flags < 2 ^ 25) }
    ensures { result ≡ cond * 2 ^ 28 + 4 * 2 ^ 25 + flags + rn * 2 ^ 16 + list }
{
    nibble(cond, 28) | BLOCK | flags | nibble(rn, 16) | u32::from(list)
}

fn branch(cond: u8, link: bool, words: i32) -> u32
    requires { Fits (Branch cond link words) }
    ensures { result ≡ word_of (Branch cond link words) }
{
    nibble(cond, 28) | BRANCH | flag(link, 24) | (words.cast_unsigned() & DISTANCE)
}

fn swi(cond: u8, number: u32) -> u32
    requires { Fits (Swi cond number) }
    ensures { result ≡ word_of (Swi cond number) }
{
    nibble(cond, 28) | SWI | number
}

/// The fields of an instruction, each at its place, and the bits of its class.
fn sum_of_fields(i: &Instr) -> u32
    requires { Fits i.now }
    ensures { result ≡ word_of i.now }
{
    match *i {
        Instr::Data {
            cond,
            imm,
            op,
            s,
            rn,
            rd,
            op2,
        } => data(cond, imm, op, s, rn, rd, op2),
        Instr::Mul {
            cond,
            acc,
            s,
            rd,
            rn,
            rs,
            rm,
        } => multiply(cond, acc, s, rd, rn, rs, rm),
        Instr::Single {
            cond,
            reg,
            pre,
            up,
            byte,
            wb,
            load,
            rn,
            rd,
            offset,
        } => {
            let flags = transfer(pre, up, byte, wb, load);
            single(cond, reg, flags, rn, rd, offset)
        }
        Instr::Block {
            cond,
            pre,
            up,
            psr,
            wb,
            load,
            rn,
            list,
        } => {
            let flags = transfer(pre, up, psr, wb, load);
            block(cond, flags, rn, list)
        }
        Instr::Branch { cond, link, words } => branch(cond, link, words),
        Instr::Swi { cond, number } => swi(cond, number),
        Instr::Undefined { word } => word,
    }
}

/// The word of a valid instruction (VL86C010 (ARM2) data manual, instruction set). Decoding it gives the instruction
/// back, and so does no other word.
pub fn encode(i: &Instr) -> u32
    requires { IsValid i.now }
    ensures value { result ≡ word_of i.now }
    ensures decodes { means result ≡ i.now }
    ensures only { (word : ℕ) → word < 2 ^ 32 → means word ≡ i.now → word ≡ result }
{
    sum_of_fields(i)
}
