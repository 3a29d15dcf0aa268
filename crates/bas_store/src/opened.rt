//! Open loops and GOSUBs, and the words that close them.
ghost use Rattle.std.specs.Prelude.{◌≡◌, ◌<◌, ◌≤◌, ◌+◌, [], ◌∷◌, length, nat_lt, IfOk, IfSome};
ghost use Rattle.bas_store.specs.Opened.{closes, nearest, closing_error};
ghost use Rattle.bas_store.specs.Stored.{most_opened};
ghost use Rattle.bas_store.specs.Entries.{opening_of, closer_of, entry_of, lowest, found_in};

use crate::cell::IntegerCell;
use bv_base::NoMemory;
use std::alloc::Global;
use std::marker::Model;

/// The error of NEXT where no FOR is open.
pub const NO_FOR: u8 = 32;

/// The error of NEXT of a variable where only FORs of others are open.
pub const OTHER_FOR: u8 = 33;

/// The error of an entry for which there is no room.
pub const NO_ROOM: u8 = 37;

/// The error of RETURN where no GOSUB is open.
pub const NO_SUBROUTINE: u8 = 38;

/// The error of UNTIL where no REPEAT is open.
pub const NO_REPEAT: u8 = 43;

/// The error of ENDWHILE where no WHILE is open.
pub const NO_WHILE: u8 = 46;

/// The greatest number of open entries.
pub const MOST_OPENED: usize = 4096;

/// What is open.
#[derive(Clone, Copy, Drop)]
pub enum OpeningWord {
    /// The FOR of a variable.
    For {
        cell: IntegerCell,
        limit: i32,
        step: i32,
    },
    Repeat,
    While,
    Gosub,
}

/// A word that closes what is open.
#[derive(Clone, Copy, Drop)]
pub enum ClosingWord {
    /// NEXT without a variable.
    AnyNext,
    /// NEXT of a variable.
    NextOf(IntegerCell),
    Until,
    EndWhile,
    Return,
}

/// An open entry: what is open, the place after the item that opened it, and the depth of the call that did.
#[derive(Clone, Copy, Drop)]
pub struct OpenEntry {
    pub opening: OpeningWord,
    pub at: u32,
    pub call: u16,
}

/// An open entry with the number of those below it.
#[derive(Clone, Copy, Drop)]
pub struct FoundEntry {
    pub entry: OpenEntry,
    pub below: usize,
}

impl ClosingWord {
    /// Whether the word closes what is open.
    pub fn closes(self, opening: OpeningWord) -> bool
        ensures { result ≡ closes (closer_of self) (opening_of opening) }
    {
        match (self, opening) {
            (ClosingWord::NextOf(named), OpeningWord::For { cell, .. }) => named.is(cell),
            (ClosingWord::AnyNext, OpeningWord::For { .. })
            | (ClosingWord::Until, OpeningWord::Repeat)
            | (ClosingWord::EndWhile, OpeningWord::While)
            | (ClosingWord::Return, OpeningWord::Gosub) => true,
            _ => false,
        }
    }
}

/// The open entries of a run, in a room that `new` takes. It is filled down from its end, so the entries from the latest on
/// are the end of the room.
#[derive(Drop)]
pub struct OpenEntries {
    room: Vec<OpenEntry>,
    /// The place of the latest entry, or the length of the room.
    latest: usize,
}

impl Model for OpenEntries {
    ghost use Rattle.std.specs.Prelude.{◌≡◌, ◌≤◌, List, length, drop};
    ghost use Rattle.bas_store.specs.Stored.{Entry, most_opened};
    ghost use Rattle.bas_store.specs.Entries.{entries_of};

    ghost Value = { List Entry };

    ghost view = { λ s. entries_of (drop s.latest s.room.items) };

    ghost invariant = { λ s. (s.latest ≤ most_opened) × (length s.room.items ≡ most_opened) };
}

impl OpenEntries {
    /// No entries, with room for `MOST_OPENED` of them.
    pub fn new(alloc: Global) -> Result<OpenEntries, NoMemory>
        ensures { IfOk result (λ entries. entries ≡ []) }
    {
        let blank = OpenEntry {
            opening: OpeningWord::Repeat,
            at: 0,
            call: 0,
        };
        let room = vec![in alloc; blank; MOST_OPENED]?;
        Ok(OpenEntries {
            room,
            latest: MOST_OPENED,
        })
    }

    #[tactic(auto, using(crate::proofs::Entries::height_is))]
    /// The number of entries.
    pub fn height(&self) -> usize
        ensures { result ≡ length self.now }
    {
        MOST_OPENED - self.latest
    }

    #[tactic(auto, using(crate::proofs::Entries::height_is))]
    /// Whether there is room for one more.
    pub fn can_open(&self) -> bool
        ensures { result ≡ nat_lt (length self.now) most_opened }
    {
        self.latest > 0
    }

    #[tactic(auto, using(crate::proofs::Entries::height_is, crate::proofs::Entries::one_opened))]
    /// Opens an entry.
    pub fn open(&mut self, entry: OpenEntry)
        requires { length self.old < most_opened }
        ensures { self.new ≡ entry_of entry ∷ self.old }
    {
        self.latest -= 1;
        self.room[self.latest] = entry;
    }

    /// The nearest entry of the call at a depth that a word closes, if there is one.
    pub fn nearest(&self, call: u16, word: ClosingWord) -> Option<FoundEntry>
        ensures found { found_in result self.now ≡ nearest call (closer_of word) self.now }
        ensures within { IfSome result (λ f. f.below < length self.now) }
        ensures few { IfSome result (λ f. f.below < most_opened) }
        ensures whole { IfSome result (λ f. lowest (f.below + 1) self.now ≡ entry_of f.entry ∷ lowest f.below self.now) }
    {
        for i in self.latest..MOST_OPENED {
            let entry = self.room[i];
            if entry.call != call {
                return None;
            }
            if word.closes(entry.opening) {
                return Some(FoundEntry {
                    entry,
                    below: MOST_OPENED - 1 - i,
                });
            }
        }
        None
    }

    /// The error of a word that closes nothing in the call at a depth.
    pub fn closing_error(&self, call: u16, word: ClosingWord) -> u8
        ensures { result ≡ closing_error call (closer_of word) self.now }
    {
        match word {
            ClosingWord::AnyNext => NO_FOR,
            ClosingWord::NextOf(_) => match self.nearest(call, ClosingWord::AnyNext) {
                Some(_) => OTHER_FOR,
                None => NO_FOR,
            },
            ClosingWord::Until => NO_REPEAT,
            ClosingWord::EndWhile => NO_WHILE,
            ClosingWord::Return => NO_SUBROUTINE,
        }
    }

    #[tactic(auto, using(crate::proofs::Entries::height_is, crate::proofs::Entries::lowest_is))]
    /// Drops the latest entries, so that this number of them is left.
    pub fn cut(&mut self, height: usize)
        requires { height ≤ length self.old }
        ensures { self.new ≡ lowest height self.old }
    {
        self.latest = self.room.len() - height;
    }
}
