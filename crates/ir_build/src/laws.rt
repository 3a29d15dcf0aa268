//! The laws of a program's flat code.
ghost use Rattle.std.specs.Prelude.{◌≡◌, ℕ, List};
ghost use Rattle.bas_ir.specs.Coded.{AllHaveCode, AtMostOneText, IsInItems};
ghost use Rattle.bas_ir.specs.Machine.{flat_run, flat_run_within};
ghost use Rattle.bas_ast.specs.WellFormed.{WellFormed};
ghost use Rattle.bas_ir.specs.WellFormed.{IsLaidOut, IsWellFormed};
ghost use Rattle.bas_sem.specs.Meaning.{source_run};
ghost use Rattle.bv_run.specs.Outcome.{RunsAgree};
ghost use Rattle.ir_build.specs.Code.{flat_code};
ghost use Rattle.ir_build.specs.Weight.{SimpleItemsLight};

use bas_ast::Prog;

/// At each bound of steps the machine of the flat code shows what the program shows.
pub fn steps_alike(prog: &Prog)
    ensures { (input : List ℕ) (n : ℕ) → source_run prog.now input n ≡ flat_run_within (flat_code prog.now) input n }
{}

/// The program and its flat code, counted in operations, end alike or go on alike.
pub fn flat_runs_agree(prog: &Prog)
    ensures { (input : List ℕ) → RunsAgree (source_run prog.now input) (flat_run (flat_code prog.now) input) }
{}

/// The code of a simple item has at most one operation more than the item weighs, and all of them are plain.
pub fn simple_items_light(prog: &Prog)
    ensures { SimpleItemsLight prog.now }
{}

/// The tables of a program's flat code fit its operations: marks, starts, what is pending, and where each leads.
pub fn code_laid_out(prog: &Prog)
    ensures { IsLaidOut (flat_code prog.now) }
{}

/// Each operation of a program's flat code has machine code, and at most one string is pending before it.
pub fn all_have_code(prog: &Prog)
    ensures has_code { AllHaveCode (flat_code prog.now) }
    ensures one_text { AtMostOneText (flat_code prog.now) }
{}

/// The operations of a program's flat code are those of its items: a mark for each, the first item first, and nothing is pending
/// after a jump.
pub fn code_in_items(prog: &Prog)
    ensures { IsInItems (flat_code prog.now) }
{}

/// The flat code of a well-formed program is well formed: its tables fit, what it names is there, little is pending, and its
/// machine code is short.
pub fn code_well_formed(prog: &Prog)
    requires { WellFormed prog.now }
    ensures { IsWellFormed (flat_code prog.now) }
{}
