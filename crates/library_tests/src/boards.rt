//! Boards whose program calls one entry of the library: the image begins with a branch over the texts of errors, and then come
//! the library and its caller.
ghost use Rattle.std.specs.Prelude.{◌≡◌, ◌+◌, ◌*◌, ◌≤◌, ◌<◌, length, OnOk};

use arm_isa::Instr;
use arm_isa::numbers::{AL, CMP, MOV, NE, ORR};
use arm2_machine::{Board, SWI_END, SWI_WRITE};
use bv_base::{IMAGE_START, IMAGE_WORDS, NoMemory};
use bv_io::MemSink;
use bv_run::{Report, RunEnd};
use code_frag::{Frag, Item, Label, Lib};
use runtime_lib::{error_table, routines};
use std::alloc::Global;

/// What an entry is called with.
#[derive(Clone, Copy)]
pub struct Call {
    /// Its number.
    pub entry: u16,
    pub r0: u32,
    pub r1: u32,
    /// The column that is stored before.
    pub column: u32,
}

/// What an entry on open loops and GOSUBs is called with, and what is shown of what it left: R0, the error in R1, where there is none
/// and it is asked for R2, and words of memory.
#[derive(Clone, Copy)]
pub struct EntryCall {
    /// Its number.
    pub entry: u16,
    /// R1 to R4.
    pub registers: [u32; 4],
    /// Whether R2 is shown.
    pub shows_code: bool,
}

/// What an entry on the items of DATA is called with, and what it leaves: its error, or 0 and R0.
#[derive(Clone, Copy)]
pub struct ItemCall {
    /// Its number.
    pub entry: u16,
    /// R0 before.
    pub item: u32,
    pub error: u8,
    /// R0 after, where there is no error.
    pub result: u32,
}

/// A word of memory.
#[derive(Clone, Copy)]
pub struct Word {
    pub at: u32,
    pub value: u32,
}

/// What R0 is before an entry on open loops and GOSUBs is called, and after it.
pub const KEPT: u32 = 0x1234_5678;

/// The words before the code: the branch, two that nothing leads to, and the texts.
const WORDS_BEFORE: u32 = 3 + 134;

/// A branch to two words after it.
const BRANCH: u32 = 0xea00_0000;

/// The numbers of entries below this leave a number and write nothing.
const WRITERS: u16 = 4;

/// Data processing with an immediate, or with a register.
macro_rules! data {
    ($op:expr, $rd:expr, $rn:expr, $imm:expr, $op2:expr) => {
        Item::Ins(Instr::Data {
            cond: AL,
            imm: $imm,
            op: $op,
            s: false,
            rn: $rn,
            rd: $rd,
            op2: $op2,
        })
    };
}

/// A load or a store of the column.
macro_rules! column {
    ($load:expr, $rd:expr) => {
        Item::Ins(Instr::Single {
            cond: AL,
            reg: false,
            pre: true,
            up: true,
            byte: false,
            wb: false,
            load: $load,
            rn: 11,
            rd: $rd,
            offset: 108,
        })
    };
}

/// A call of the board.
macro_rules! swi {
    ($number:expr) => {
        Item::Ins(Instr::Swi {
            cond: AL,
            number: $number,
        })
    };
}

/// R2 is stored as the column.
static STORE_COLUMN: [Item; 1] = [column!(false, 2)];

/// The two bytes of the column are written, the low one first, and the run ends.
static SHOW_COLUMN: [Item; 6] = [
    column!(true, 0),
    swi!(SWI_WRITE),
    data!(MOV, 0, 0, false, 8 * 0x80 + 0x20),
    swi!(SWI_WRITE),
    data!(MOV, 0, 0, true, 0),
    swi!(SWI_END),
];

/// The low byte of R1 is written, and then, where that is 0, the four bytes of R0, the low one first; and the run ends.
static SHOW_NUMBER: [Item; 15] = [
    data!(MOV, 2, 0, false, 0),
    data!(MOV, 0, 0, false, 1),
    swi!(SWI_WRITE),
    Item::Ins(Instr::Data {
        cond: AL,
        imm: true,
        op: CMP,
        s: true,
        rn: 1,
        rd: 0,
        op2: 0,
    }),
    Item::Ins(Instr::Branch {
        cond: NE,
        link: false,
        words: 7,
    }),
    data!(MOV, 0, 0, false, 2),
    swi!(SWI_WRITE),
    data!(MOV, 0, 0, false, 8 * 0x80 + 0x20),
    swi!(SWI_WRITE),
    data!(MOV, 0, 0, false, 8 * 0x80 + 0x20),
    swi!(SWI_WRITE),
    data!(MOV, 0, 0, false, 8 * 0x80 + 0x20),
    swi!(SWI_WRITE),
    data!(MOV, 0, 0, true, 0),
    swi!(SWI_END),
];

/// R5 is stored at R6.
static STORE_WORD: [Item; 1] = [Item::Ins(Instr::Single {
    cond: AL,
    reg: false,
    pre: true,
    up: true,
    byte: false,
    wb: false,
    load: false,
    rn: 6,
    rd: 5,
    offset: 0,
})];

/// The word at R6 comes into R0.
static LOAD_WORD: [Item; 1] = [Item::Ins(Instr::Single {
    cond: AL,
    reg: false,
    pre: true,
    up: true,
    byte: false,
    wb: false,
    load: true,
    rn: 6,
    rd: 0,
    offset: 0,
})];

/// The four bytes of R0 are written, the low one first.
static SHOW_WORD: [Item; 7] = [
    swi!(SWI_WRITE),
    data!(MOV, 0, 0, false, 8 * 0x80 + 0x20),
    swi!(SWI_WRITE),
    data!(MOV, 0, 0, false, 8 * 0x80 + 0x20),
    swi!(SWI_WRITE),
    data!(MOV, 0, 0, false, 8 * 0x80 + 0x20),
    swi!(SWI_WRITE),
];

/// The low byte of R1 is written.
static SHOW_ERROR: [Item; 2] = [data!(MOV, 0, 0, false, 1), swi!(SWI_WRITE)];

/// R0 is kept in R8, and comes back.
static KEEP_RESULT: [Item; 1] = [data!(MOV, 8, 0, false, 0)];

static TAKE_RESULT: [Item; 1] = [data!(MOV, 0, 0, false, 8)];

/// R2 comes into R0.
static TAKE_CODE: [Item; 1] = [data!(MOV, 0, 0, false, 2)];

/// The end of the run.
static END: [Item; 2] = [data!(MOV, 0, 0, true, 0), swi!(SWI_END)];

/// Rd takes a number, by its four bytes.
fn set(frag: &mut Frag, rd: u8, value: u32) -> Result<(), NoMemory>
    requires { rd < 16 }
    ensures places { OnOk result (frag.new.places ≡ frag.old.places) }
    ensures items { OnOk result (length frag.new.items ≡ length frag.old.items + 4) }
{
    let [low, second, third, high] = value.to_le_bytes();
    frag.emit_all(&[
        data!(MOV, rd, 0, true, u16::from(low)),
        data!(ORR, rd, rd, true, 0xc00 + u16::from(second)),
        data!(ORR, rd, rd, true, 0x800 + u16::from(third)),
        data!(ORR, rd, rd, true, 0x400 + u16::from(high)),
    ])
}

/// The label of an entry.
fn label_of(lib: &Lib, entry: u16) -> Label
    ensures { result.number < 18 }
{
    for e in &lib.entries {
        if e.id == entry && e.at.number < 18 {
            return e.at;
        }
    }
    Label { number: 0 }
}

/// Adds what calls an entry, whose label is given.
fn add_call(frag: &mut Frag, call: Call, to: Label) -> Result<(), NoMemory>
    requires { to.number < length frag.old.places }
    ensures places { OnOk result (frag.new.places ≡ frag.old.places) }
    ensures few { OnOk result (length frag.new.items ≡ length frag.old.items + 22) }
{
    set(frag, 11, 0x90_0000)?;
    set(frag, 13, 0xff_f000)?;
    set(frag, 2, call.column)?;
    frag.emit_all(&STORE_COLUMN)?;
    set(frag, 0, call.r0)?;
    set(frag, 1, call.r1)?;
    frag.branch(AL, true, to)
}

/// Adds what shows what an entry left.
fn add_show(frag: &mut Frag, entry: u16) -> Result<(), NoMemory>
    ensures places { OnOk result (frag.new.places ≡ frag.old.places) }
    ensures few { OnOk result (length frag.new.items ≤ length frag.old.items + 15) }
{
    if entry < WRITERS {
        frag.emit_all(&SHOW_NUMBER)
    } else {
        frag.emit_all(&SHOW_COLUMN)
    }
}

/// Adds what stores words.
fn add_stores(frag: &mut Frag, stored: &[Word]) -> Result<(), NoMemory>
    ensures places { OnOk result (frag.new.places ≡ frag.old.places) }
    ensures few { OnOk result (length frag.new.items ≡ length frag.old.items + 9 * length stored.now) }
{
    for word in stored {
        set(frag, 5, word.value)?;
        set(frag, 6, word.at)?;
        frag.emit_all(&STORE_WORD)?;
    }
    Ok(())
}

/// Adds what calls an entry on open loops and GOSUBs.
fn add_entry_call(
    frag: &mut Frag,
    call: EntryCall,
    stored: &[Word],
    to: Label,
) -> Result<(), NoMemory>
    requires { to.number < length frag.old.places }
    ensures places { OnOk result (frag.new.places ≡ frag.old.places) }
    ensures few { OnOk result (length frag.new.items ≡ length frag.old.items + 9 * length stored.now + 29) }
{
    let [r1, r2, r3, r4] = call.registers;
    add_stores(frag, stored)?;
    set(frag, 11, 0x90_0000)?;
    set(frag, 13, 0xff_f000)?;
    set(frag, 0, KEPT)?;
    set(frag, 1, r1)?;
    set(frag, 2, r2)?;
    set(frag, 3, r3)?;
    set(frag, 4, r4)?;
    frag.branch(AL, true, to)
}

/// Adds what shows words.
fn add_loads(frag: &mut Frag, shown: &[Word]) -> Result<(), NoMemory>
    ensures places { OnOk result (frag.new.places ≡ frag.old.places) }
    ensures few { OnOk result (length frag.new.items ≡ length frag.old.items + 12 * length shown.now) }
{
    for word in shown {
        set(frag, 6, word.at)?;
        frag.emit_all(&LOAD_WORD)?;
        frag.emit_all(&SHOW_WORD)?;
    }
    Ok(())
}

/// Adds what shows R2, where it is asked for.
fn add_code_show(frag: &mut Frag, shows_code: bool) -> Result<(), NoMemory>
    ensures places { OnOk result (frag.new.places ≡ frag.old.places) }
    ensures few { OnOk result (length frag.new.items ≤ length frag.old.items + 8) }
{
    if shows_code {
        frag.emit_all(&TAKE_CODE)?;
        frag.emit_all(&SHOW_WORD)
    } else {
        Ok(())
    }
}

/// Adds what shows what an entry on open loops and GOSUBs left, and the end of the run.
fn add_entry_show(frag: &mut Frag, shows_code: bool, shown: &[Word]) -> Result<(), NoMemory>
    ensures places { OnOk result (frag.new.places ≡ frag.old.places) }
    ensures few { OnOk result (length frag.new.items ≤ length frag.old.items + 12 * length shown.now + 19) }
{
    frag.emit_all(&SHOW_WORD)?;
    frag.emit_all(&SHOW_ERROR)?;
    add_code_show(frag, shows_code)?;
    add_loads(frag, shown)?;
    frag.emit_all(&END)
}

/// Adds what calls an entry on the items of DATA, with a word in R1 that is no error.
fn add_item_call(
    frag: &mut Frag,
    call: ItemCall,
    stored: &[Word],
    to: Label,
) -> Result<(), NoMemory>
    requires { to.number < length frag.old.places }
    ensures places { OnOk result (frag.new.places ≡ frag.old.places) }
    ensures few { OnOk result (length frag.new.items ≡ length frag.old.items + 9 * length stored.now + 17) }
{
    add_stores(frag, stored)?;
    set(frag, 11, 0x90_0000)?;
    set(frag, 13, 0xff_f000)?;
    set(frag, 0, call.item)?;
    set(frag, 1, KEPT)?;
    frag.branch(AL, true, to)
}

/// Adds what shows words and what an entry on the items of DATA left, and the end of the run.
fn add_item_show(frag: &mut Frag, shown: &[Word]) -> Result<(), NoMemory>
    ensures places { OnOk result (frag.new.places ≡ frag.old.places) }
    ensures few { OnOk result (length frag.new.items ≡ length frag.old.items + 12 * length shown.now + 17) }
{
    frag.emit_all(&KEEP_RESULT)?;
    add_loads(frag, shown)?;
    frag.emit_all(&TAKE_RESULT)?;
    frag.emit_all(&SHOW_NUMBER)
}

/// The words of the library, and then those of a program that calls one of its entries on the items of DATA; and the number of the
/// library's.
fn item_code(
    alloc: Global,
    call: ItemCall,
    stored: &[Word],
    shown: &[Word],
) -> Result<(Vec<u32>, usize), NoMemory>
    requires few_stored { length stored.now ≤ 100 }
    requires few_shown { length shown.now ≤ 100 }
{
    let base = IMAGE_START + 4 * WORDS_BEFORE;
    let mut lib = routines(alloc)?;
    let before = lib.frag.resolve(alloc, base)?.len();
    let to = label_of(&lib, call.entry);
    add_item_call(&mut lib.frag, call, stored, to)?;
    add_item_show(&mut lib.frag, shown)?;
    let words = lib.frag.resolve(alloc, base)?;
    Ok((words, before))
}

/// The words of the library, and then those of a program that calls one of its entries on open loops and GOSUBs; and the number of
/// the library's.
fn entry_code(
    alloc: Global,
    call: EntryCall,
    stored: &[Word],
    shown: &[Word],
) -> Result<(Vec<u32>, usize), NoMemory>
    requires few_stored { length stored.now ≤ 100 }
    requires few_shown { length shown.now ≤ 100 }
{
    let base = IMAGE_START + 4 * WORDS_BEFORE;
    let mut lib = routines(alloc)?;
    let before = lib.frag.resolve(alloc, base)?.len();
    let to = label_of(&lib, call.entry);
    add_entry_call(&mut lib.frag, call, stored, to)?;
    add_entry_show(&mut lib.frag, call.shows_code, shown)?;
    let words = lib.frag.resolve(alloc, base)?;
    Ok((words, before))
}

/// The words of the library, and then those of a program that calls one of its entries; and the number of the library's.
fn code(alloc: Global, call: Call) -> Result<(Vec<u32>, usize), NoMemory> {
    let base = IMAGE_START + 4 * WORDS_BEFORE;
    let mut lib = routines(alloc)?;
    let before = lib.frag.resolve(alloc, base)?.len();
    let to = label_of(&lib, call.entry);
    add_call(&mut lib.frag, call, to)?;
    add_show(&mut lib.frag, call.entry)?;
    let words = lib.frag.resolve(alloc, base)?;
    Ok((words, before))
}

/// The byte at a place, and 0 after the last.
fn byte_at(bytes: &[u8], place: usize) -> u8 {
    bytes.get(place).copied().unwrap_or(0)
}

/// The words of an image whose code has its first words before the program: a branch over them and the texts, two words that
/// nothing leads to, and the texts.
fn words_before(alloc: Global, words: usize) -> Result<Vec<u32>, NoMemory>
    requires { words ≤ 2000 }
{
    let mut image = Vec::new(alloc);
    image.push(BRANCH + WORDS_BEFORE - 2 + words as u32)?;
    image.push(0)?;
    image.push(0)?;
    let texts = error_table();
    for k in 0..134_usize {
        image.push(u32::from_le_bytes([
            byte_at(texts, 4 * k),
            byte_at(texts, 4 * k + 1),
            byte_at(texts, 4 * k + 2),
            byte_at(texts, 4 * k + 3),
        ]))?;
    }
    Ok(image)
}

/// Whether the board writes these bytes where it runs code, whose first words come before the program, and ends so.
fn writes(
    alloc: Global,
    code: &[u32],
    before: usize,
    bytes: &[u8],
    report: Report,
) -> Result<bool, NoMemory> {
    if before > 2000 {
        return Ok(false);
    }
    let mut words = words_before(alloc, before)?;
    words.extend_from_slice(code)?;
    if words.len() > IMAGE_WORDS as usize {
        return Ok(false);
    }
    let mut board = Board::load(alloc, &words, Vec::new(alloc))?;
    let mut out = MemSink::new(alloc, 1000)?;
    let end = board.run(100_000, &mut out);
    Ok(end == Ok(RunEnd::Over(report)) && out.bytes() == bytes)
}

/// Whether the board writes these bytes where an entry is called, and ends so.
pub fn shows(alloc: Global, call: Call, bytes: &[u8], report: Report) -> Result<bool, NoMemory> {
    let (code, before) = code(alloc, call)?;
    writes(alloc, &code, before, bytes, report)
}

/// Whether an entry on open loops and GOSUBs, called where these words are stored, leaves R0 as it was, this error, this code where
/// it is shown, and these words.
pub fn leaves(
    alloc: Global,
    call: EntryCall,
    stored: &[Word],
    error: u8,
    code_at: u32,
    words: &[Word],
) -> Result<bool, NoMemory> {
    if stored.len() > 100 || words.len() > 100 {
        return Ok(false);
    }
    let (code, before) = entry_code(alloc, call, stored, words)?;
    let mut bytes = Vec::new(alloc);
    bytes.extend_from_slice(&KEPT.to_le_bytes())?;
    bytes.push(error)?;
    if call.shows_code {
        bytes.extend_from_slice(&code_at.to_le_bytes())?;
    }
    for word in words {
        bytes.extend_from_slice(&word.value.to_le_bytes())?;
    }
    writes(alloc, &code, before, &bytes, Report::Done)
}

/// Whether an entry on the items of DATA, called where these words are stored, leaves its error or result, and these words.
pub fn reads(
    alloc: Global,
    call: ItemCall,
    stored: &[Word],
    words: &[Word],
) -> Result<bool, NoMemory> {
    if stored.len() > 100 || words.len() > 100 {
        return Ok(false);
    }
    let (code, before) = item_code(alloc, call, stored, words)?;
    let mut bytes = Vec::new(alloc);
    for word in words {
        bytes.extend_from_slice(&word.value.to_le_bytes())?;
    }
    bytes.push(call.error)?;
    if call.error == 0 {
        bytes.extend_from_slice(&call.result.to_le_bytes())?;
    }
    writes(alloc, &code, before, &bytes, Report::Done)
}
