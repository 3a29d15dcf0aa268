//! The words of a fragment before they have addresses.
use arm_isa::Instr;

/// A label of a fragment: its number, counted from 0. Labels of two fragments have nothing to do with one another.
#[derive(Clone, Copy, Debug, PartialEq, Eq)]
pub struct Label {
    /// Its number among the labels of its fragment.
    pub number: u32,
}

/// One word of a fragment.
#[derive(Clone, Copy, Debug, PartialEq, Eq)]
pub enum Item {
    /// An instruction as it stands. A branch in it keeps its distance, and so stays inside its piece.
    Ins(Instr),
    /// A branch to a label, under a condition from 0 (EQ) to 15 (NV); with `link` it leaves its return address in R14.
    Jump { cond: u8, link: bool, to: Label },
}
