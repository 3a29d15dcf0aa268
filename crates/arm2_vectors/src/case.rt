//! A step as a line tells it.
use crate::fields::{Fields, decimal, hexadecimal};
use crate::words::{Words, words_of};
use arm2_cpu::{CpuEvent, Pc, Psr, Regs};
use bv_run::Trap;

/// How many registers both modes share, R0 to R12.
const LOW_REGISTERS: usize = 13;

/// One step of the processor.
#[derive(Drop)]
pub struct Case {
    /// Where the memory ends.
    pub end: u32,
    /// The word at the PC, if it is to be had.
    pub code: Option<u32>,
    /// The registers before the step.
    pub before: Regs,
    /// Words of memory before the step.
    pub words: Words,
    /// What the step comes to.
    pub event: CpuEvent,
    /// The registers after the step.
    pub after: Regs,
    /// Words of memory that the step writes.
    pub written: Words,
}

/// Whether a mode's name is that of supervisor mode.
fn is_supervisor(name: &str) -> Option<bool> {
    match name {
        "u" => Some(false),
        "s" => Some(true),
        _ => None,
    }
}

/// The PC at an address, if that is one.
fn pc_of(address: u32) -> Option<Pc> {
    let pc = Pc::of(address);
    if pc.address() == address {
        Some(pc)
    } else {
        None
    }
}

/// The flags of a number, if it is one of six bits.
fn psr_of(number: u32) -> Option<Psr> {
    let bits = u8::try_from(number).ok()?;
    let psr = Psr::of(bits);
    if psr.bits() == bits { Some(psr) } else { None }
}

/// R0 to R12.
fn low_registers(fields: &mut Fields<'_>) -> Option<[u32; LOW_REGISTERS]> {
    let mut low = [0; LOW_REGISTERS];
    for n in 0..LOW_REGISTERS {
        low[n] = fields.hexadecimal()?;
    }
    Some(low)
}

/// The mode, the PC and the flags, with the registers of the next 17 fields.
fn registers(svc: bool, pc: Pc, psr: Psr, fields: &mut Fields<'_>) -> Option<Regs> {
    Some(Regs {
        low: low_registers(fields)?,
        user13: fields.hexadecimal()?,
        user14: fields.hexadecimal()?,
        svc13: fields.hexadecimal()?,
        svc14: fields.hexadecimal()?,
        pc,
        psr,
        svc,
    })
}

/// Gives a register of R0 to R12 a new value.
fn change_low(regs: &mut Regs, number: &str, value: u32) -> Option<()> {
    *regs.low.get_mut(decimal(number)? as usize)? = value;
    Some(())
}

/// Gives a register, or a part of R15, its new value, which is written as NAME=VALUE.
fn change(regs: &mut Regs, text: &str) -> Option<()> {
    let (name, value) = text.split_once('=')?;
    if name == "mode" {
        regs.svc = is_supervisor(value)?;
        return Some(());
    }
    let number = hexadecimal(value)?;
    match name {
        "u13" => regs.user13 = number,
        "u14" => regs.user14 = number,
        "s13" => regs.svc13 = number,
        "s14" => regs.svc14 = number,
        "pc" => regs.pc = pc_of(number)?,
        "psr" => regs.psr = psr_of(number)?,
        _ => change_low(regs, name, number)?,
    }
    Some(())
}

/// The registers with changes that commas divide, or - for none.
fn changed(before: &Regs, field: &str) -> Option<Regs> {
    let mut after = *before;
    if field == "-" {
        return Some(after);
    }
    for text in field.split(',') {
        change(&mut after, text)?;
    }
    Some(after)
}

/// The answer that a field tells.
fn event_of(field: &str) -> Option<CpuEvent> {
    if field == "ran" {
        return Some(CpuEvent::Ran);
    }
    let (name, value) = field.split_once(':')?;
    let number = hexadecimal(value)?;
    let kind = match name {
        "swi" => return Some(CpuEvent::Swi(number)),
        "data" => Trap::Data,
        "fetch" => Trap::Fetch,
        "undefined" => Trap::Undefined,
        "unpredictable" => Trap::Unpredictable,
        _ => return None,
    };
    Some(CpuEvent::Trap {
        kind,
        address: number,
    })
}

/// Whether an answer is that the word at the PC is not to be had.
fn is_fetch(event: &CpuEvent) -> bool {
    matches!(
        event,
        CpuEvent::Trap {
            kind: Trap::Fetch,
            ..
        }
    )
}

/// The step that a line tells, or `None` where the line is not as the format says.
pub fn parse(line: &str) -> Option<Case> {
    let mut fields = Fields::of(line);
    let _number = decimal(fields.next()?)?;
    let _class = fields.next()?;
    let svc = is_supervisor(fields.next()?)?;
    let end = fields.hexadecimal()?;
    let pc = pc_of(fields.hexadecimal()?)?;
    let psr = psr_of(fields.hexadecimal()?)?;
    let word = fields.hexadecimal()?;
    let before = registers(svc, pc, psr, &mut fields)?;
    let words = words_of(fields.next()?)?;
    let event = event_of(fields.next()?)?;
    let after = changed(&before, fields.next()?)?;
    let written = words_of(fields.next()?)?;
    let _mark = fields.next()?;
    if !fields.is_empty() {
        return None;
    }
    Some(Case {
        end,
        code: if is_fetch(&event) { None } else { Some(word) },
        before,
        words,
        event,
        after,
        written,
    })
}
