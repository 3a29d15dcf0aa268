//! Reads single steps of the ARM2 from its input, one a line, and prints the first that the processor makes otherwise, or
//! the first line that it can't read. Lines that begin with # are comments. A line has 29 fields, divided by single spaces;
//! numbers are hexadecimal, but for the first field and the names 0 to 12:
//!
//! 1 a number, 2 a class, 3 the mode (u or s), 4 the end of the memory (1000000 or 4000000), 5 the PC, 6 the flags
//! N Z C V I F in bits 5 to 0, 7 the word at the PC, 8 to 24 R0 to R12, the user's R13 and R14 and the supervisor's,
//! 25 words of memory (ADDRESS:WORD with commas between, or -), 26 the answer (ran, swi:NUMBER, or data, fetch, undefined
//! or unpredictable with :ADDRESS), 27 what changes (NAME=VALUE with commas between, or -; the names are 0 to 12, u13,
//! u14, s13, s14, pc, psr and mode), 28 the words that are written (as field 25), 29 a mark.
//!
//! All other words of memory are 0. Where the answer is fetch, the word at the PC is not to be had. Field 28 has all words
//! that the step writes, and field 27 all that it changes.
#![tactic(auto)]

mod case;
mod fields;
mod ram;
mod words;

use arm2_cpu::step_cpu;
use arm2_memory::Place;
use case::{Case, parse};
use ram::{Large, Small, StepRam};
use std::io;
use std::io::{BufRead, BufReader};
use words::Word;

/// What a line comes to.
enum Verdict {
    Agrees,
    Differs,
    Unreadable,
}

/// Stores the words of a memory before a step. `false` where the memory has no such word.
fn set_up<P: Place>(ram: &mut StepRam<P>, case: &Case) -> bool {
    for word in case.words.as_slice() {
        if !ram.store(word.address, word.value) {
            return false;
        }
    }
    match case.code {
        Some(code) => ram.store(case.before.pc.address(), code),
        None => true,
    }
}

/// Whether one of these words is at an address.
fn names(words: &[Word], address: u32) -> bool {
    words.iter().any(|word| word.address == address)
}

/// Whether a word is one of those that were written, and is in the memory.
fn stands<P: Place>(ram: &StepRam<P>, written: &[u32], word: &Word) -> bool {
    written.contains(&word.address) && ram.load(word.address) == Some(word.value)
}

/// Whether the processor wrote the words that are told, and no other.
fn wrote_as_told<P: Place>(ram: &StepRam<P>, told: &[Word]) -> bool {
    match ram.written() {
        Some(written) => {
            written.iter().all(|address| names(told, *address))
                && told.iter().all(|word| stands(ram, written, word))
        }
        None => false,
    }
}

/// Makes the memory one of zeros again, after a step that went as it is told.
fn clear<P: Place>(ram: &mut StepRam<P>, case: &Case) {
    ram.store(case.before.pc.address(), 0);
    for word in case.words.as_slice() {
        ram.store(word.address, 0);
    }
    for word in case.written.as_slice() {
        ram.store(word.address, 0);
    }
    ram.forget();
}

/// Makes a step in a memory of zeros, which it is again where the step goes as it is told.
fn judge<P: Place>(case: &Case, ram: &mut StepRam<P>) -> Verdict {
    if !set_up(ram, case) {
        return Verdict::Unreadable;
    }
    let mut regs = case.before;
    let event = step_cpu(&mut regs, ram);
    if event == case.event && regs == case.after && wrote_as_told(ram, case.written.as_slice()) {
        clear(ram, case);
        Verdict::Agrees
    } else {
        Verdict::Differs
    }
}

/// Makes the step that a line tells, in the memory that it asks for.
fn judge_line(line: &str, small: &mut StepRam<Small>, large: &mut StepRam<Large>) -> Verdict {
    match parse(line) {
        Some(case) => match case.end {
            Small::END => judge(&case, small),
            Large::END => judge(&case, large),
            _ => Verdict::Unreadable,
        },
        None => Verdict::Unreadable,
    }
}

fn main(rt: HostRuntime) -> io::Result<()> {
    let mut small: StepRam<Small> = StepRam::new(rt.alloc())?;
    let mut large: StepRam<Large> = StepRam::new(rt.alloc())?;
    let mut count = 0u64;
    for line in BufReader::new(rt.alloc(), rt.reader())?.lines(rt.alloc()) {
        let line = line?;
        if line.as_str().starts_with("#") {
            continue;
        }
        match judge_line(line.as_str(), &mut small, &mut large) {
            Verdict::Agrees => count = count.saturating_add(1),
            Verdict::Differs => {
                println!(rt; "differs: {line}")?;
                return Ok(());
            }
            Verdict::Unreadable => {
                println!(rt; "cannot read: {line}")?;
                return Ok(());
            }
        }
    }
    if count == 0 {
        println!(rt; "no steps")?;
    } else {
        println!(rt; "{count} steps agree")?;
    }
    Ok(())
}
