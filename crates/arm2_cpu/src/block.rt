//! LDM and STM.
ghost use Rattle.std.specs.Prelude.{◌≡◌, ◌≤◌, ◌<◌, ◌%◌, ◌^◌, true, None, length};
ghost use Rattle.arm2_cpu.specs.Access.{can_use};
ghost use Rattle.arm2_cpu.specs.Block.{registers_among, registers_in, low_registers_in, next_word, refused_word, stored_value, with_block, with_words, store_block, last_word, with_low_words, load_with_r15, load_block, block_step};
ghost use Rattle.arm_isa.specs.Fields.{bit};
ghost use Rattle.arm2_cpu.specs.Memory.{word_in, with_word};

use crate::access::{Access, write_base};
use crate::event::{CpuEvent, data_trap, trap};
use crate::memory::Memory;
use arm_isa::bit;
use arm_isa::numbers::R15;
use arm2_alu::{PC_END, Regs};
use bv_run::Trap;

/// Whether a list has a register.
fn is_listed(list: u16, n: u8) -> bool
    requires { n < 16 }
    ensures { result ≡ bit list n }
{
    bit(list.into(), n.into())
}

#[tactic(auto, using(crate::proofs::BlockLaws::count_laws))]
/// The number of registers in a list.
pub(crate) fn count_of(list: u16) -> u32
    ensures value { result ≡ length (registers_in list) }
    ensures few { result < 17 }
{
    list.count_ones()
}

#[tactic(auto, using(crate::proofs::BlockLaws::count_laws))]
/// The number of registers below R15 in a list.
fn count_low(list: u16) -> u32
    ensures value { result ≡ length (low_registers_in list) }
    ensures few { result < 16 }
{
    (list % 0x8000).count_ones()
}

#[tactic(auto, unfolding(crate::specs::Memory::read_word))]
fn can_use<M: Memory>(mem: &M, user: bool, at: u32) -> bool
    requires { at % 4 ≡ 0 }
    ensures { result ≡ can_use M.space user at }
{
    at < PC_END && mem.word(user, at).is_some()
}

/// The address of the first refused word, among `count` words from an address up.
fn first_refused<M: Memory>(mem: &M, user: bool, start: u32, count: u32) -> Option<u32>
    requires { start % 4 ≡ 0 }
    ensures { result ≡ refused_word count M.space user start }
{
    let mut at = start;
    'words: for _ in 0..count {
        if !can_use(mem, user, at) {
            return Some(at);
        }
        at = at.wrapping_add(4);
    }
    None
}

#[tactic(auto, unfolding(crate::specs::Memory::read_word))]
/// The word at an address that may be used.
fn word_of<M: Memory>(mem: &M, user: bool, at: u32) -> u32
    requires aligned { at % 4 ≡ 0 }
    requires allowed { can_use M.space user at ≡ true }
    ensures { result ≡ word_in M.space (M.bytes mem.now) at }
{
    match mem.word(user, at) {
        Some(word) => word,
        None => unreachable!(),
    }
}

#[tactic(auto, unfolding(crate::specs::Memory::wrote_word))]
/// Stores a word at an address that may be used.
fn set_word_of<M: Memory>(mem: &mut M, user: bool, at: u32, value: u32)
    requires aligned { at % 4 ≡ 0 }
    requires allowed { can_use M.space user at ≡ true }
    ensures { M.bytes mem.new ≡ with_word M.space (M.bytes mem.old) at value }
{
    mem.set_word(user, at, value);
}

#[tactic(auto, unfolding(crate::specs::Block::stored_value))]
fn stored_value(regs: &Regs, svc: bool, n: u8) -> u32
    ensures { result ≡ stored_value regs.now svc n }
{
    if n == R15 {
        regs.r15(12)
    } else {
        regs.banked(svc, n)
    }
}

/// Stores the registers of a list from an address up.
fn store_registers<M: Memory>(
    regs: &Regs,
    mem: &mut M,
    svc: bool,
    list: u16,
    user: bool,
    start: u32,
)
    requires aligned { start % 4 ≡ 0 }
    requires allowed { refused_word (length (registers_in list)) M.space user start ≡ None }
    ensures { M.bytes mem.new ≡ with_block (registers_in list) M.space (M.bytes mem.old) regs.now svc start }
{
    let mut at = start;
    'registers: for n in 0..16u8 {
        if !is_listed(list, n) {
            continue;
        }
        set_word_of(mem, user, at, stored_value(regs, svc, n));
        at = at.wrapping_add(4);
    }
}

/// Loads the registers of a list below R15 from an address up.
fn load_registers<M: Memory>(regs: &mut Regs, mem: &M, svc: bool, list: u16, user: bool, start: u32)
    requires aligned { start % 4 ≡ 0 }
    requires allowed { refused_word (length (registers_in list)) M.space user start ≡ None }
    ensures { regs.new ≡ with_words (low_registers_in list) M.space (M.bytes mem.now) regs.old svc start }
{
    let mut at = start;
    'registers: for n in 0..15u8 {
        if !is_listed(list, n) {
            continue;
        }
        regs.set_banked(svc, n, word_of(mem, user, at));
        at = at.wrapping_add(4);
    }
}

#[tactic(auto, unfolding(crate::specs::Block::store_block))]
/// STM, once all its addresses may be used.
fn store_block<M: Memory>(
    regs: &mut Regs,
    mem: &mut M,
    psr: bool,
    list: u16,
    access: &Access,
) -> CpuEvent
    requires aligned { access.now.address % 4 ≡ 0 }
    requires allowed { refused_word (length (registers_in list)) M.space access.now.user access.now.address ≡ None }
    ensures { store_block M.space regs.old (M.bytes mem.old) psr list access.now ≡ record { event = result; regs = regs.new; bytes = M.bytes mem.new } }
{
    let svc = regs.svc && !psr;
    store_registers(regs, mem, svc, list, access.user, access.address);
    write_base(regs, access);
    regs.advance();
    CpuEvent::Ran
}

/// Loads the base and the registers below R15 of a list.
fn load_low<M: Memory>(regs: &mut Regs, mem: &M, svc: bool, list: u16, access: &Access)
    requires aligned { access.now.address % 4 ≡ 0 }
    requires allowed { refused_word (length (registers_in list)) M.space access.now.user access.now.address ≡ None }
    ensures { regs.new ≡ with_low_words M.space regs.old (M.bytes mem.now) svc list access.now }
{
    write_base(regs, access);
    load_registers(regs, mem, svc, list, access.user, access.address);
}

/// The last word of a block that R15 is loaded from.
fn last_word<M: Memory>(mem: &M, list: u16, access: &Access) -> u32
    requires aligned { access.now.address % 4 ≡ 0 }
    requires listed { bit list 15 ≡ true }
    requires allowed { refused_word (length (registers_in list)) M.space access.now.user access.now.address ≡ None }
    ensures { result ≡ last_word M.space (M.bytes mem.now) list access.now }
{
    let at = access.address.wrapping_add(4 * count_low(list));
    word_of(mem, access.user, at)
}

#[tactic(auto, unfolding(crate::specs::Block::load_with_r15))]
/// LDM that loads R15, once all its addresses may be used.
fn load_with_r15<M: Memory>(
    regs: &mut Regs,
    mem: &M,
    psr: bool,
    list: u16,
    access: &Access,
) -> CpuEvent
    requires aligned { access.now.address % 4 ≡ 0 }
    requires listed { bit list 15 ≡ true }
    requires allowed { refused_word (length (registers_in list)) M.space access.now.user access.now.address ≡ None }
    ensures { load_with_r15 M.space regs.old (M.bytes mem.now) psr list access.now ≡ record { event = result; regs = regs.new } }
{
    let value = last_word(mem, list, access);
    if psr && !regs.takes_psr(value) {
        return trap(regs, Trap::Unpredictable);
    }
    load_low(regs, mem, regs.svc, list, access);
    if psr {
        regs.set_psr(value);
    }
    regs.jump(value);
    CpuEvent::Ran
}

#[tactic(auto, unfolding(crate::specs::Block::load_block))]
/// LDM, once all its addresses may be used.
fn load_block<M: Memory>(
    regs: &mut Regs,
    mem: &M,
    psr: bool,
    list: u16,
    access: &Access,
) -> CpuEvent
    requires aligned { access.now.address % 4 ≡ 0 }
    requires allowed { refused_word (length (registers_in list)) M.space access.now.user access.now.address ≡ None }
    ensures { load_block M.space regs.old (M.bytes mem.now) psr list access.now ≡ record { event = result; regs = regs.new } }
{
    if is_listed(list, R15) {
        return load_with_r15(regs, mem, psr, list, access);
    }
    load_low(regs, mem, regs.svc && !psr, list, access);
    regs.advance();
    CpuEvent::Ran
}

#[tactic(auto, unfolding(crate::specs::Block::block_step))]
/// Executes LDM where `load`, else STM.
pub(crate) fn transfer_block<M: Memory>(
    regs: &mut Regs,
    mem: &mut M,
    psr: bool,
    load: bool,
    list: u16,
    access: &Access,
) -> CpuEvent
    requires { access.now.address % 4 ≡ 0 }
    ensures { block_step M.space regs.old (M.bytes mem.old) psr load list access.now ≡ record { event = result; regs = regs.new; bytes = M.bytes mem.new } }
{
    match first_refused(mem, access.user, access.address, count_of(list)) {
        Some(at) => data_trap(regs, at),
        None => {
            if load {
                load_block(regs, mem, psr, list, access)
            } else {
                store_block(regs, mem, psr, list, access)
            }
        }
    }
}
