//! The laws of texts, which take no step.
ghost use Rattle.basv_crunch.specs.Crunched.{OneAnswer};

/// A text of any length has one file at most, or one first bad piece, or is too long, and never two of these.
pub fn one_answer(text: &[u8])
    ensures { OneAnswer text.now }
{}
