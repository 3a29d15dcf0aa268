//! The laws of the meaning, for every program.
ghost use Rattle.bas_sem.specs.Laws.{BoundKept, EndUnique, GoesOn, OutermostEnds};

use bas_ast::Prog;

/// A greater bound keeps how a run ended, and extends the output of a run that goes on.
pub fn bound_kept(prog: &Prog)
    ensures { BoundKept prog.now }
{}

/// Two bounds never give two ends.
pub fn end_unique(prog: &Prog)
    ensures { EndUnique prog.now }
{}

/// Executing from a place is executing its item, for one step, and what follows it: the fuel of the recursion is never
/// seen.
pub fn execution_goes_on(prog: &Prog)
    ensures { GoesOn prog.now }
{}

/// The outermost level is never left, and takes each error that a handler takes.
pub fn outermost_ends(prog: &Prog)
    ensures { OutermostEnds prog.now }
{}
