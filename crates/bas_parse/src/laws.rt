ghost use Rattle.bas_parse.specs.Parsed.{OneRun};

use bas_ast::Terminal;

/// The law of lines: no run of a line has two lists of items.
#[tactic(auto, using(crate::proofs::CompleteRuns::one_run))]
pub fn one_run(list: &[Terminal])
    ensures { OneRun list.now }
{}
