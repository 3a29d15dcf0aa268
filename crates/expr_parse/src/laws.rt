ghost use Rattle.expr_parse.specs.Longest.{OneTree};

use bas_ast::Terminal;

/// The law of expressions: no list of terminals has two trees, nor one of each kind.
#[tactic(auto, using(crate::proofs::LongestFront::one_tree))]
pub fn one_tree(list: &[Terminal])
    ensures { OneTree list.now }
{}
