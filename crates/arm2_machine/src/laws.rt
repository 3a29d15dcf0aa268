//! What holds of runs in several calls.
ghost use Rattle.std.specs.Prelude.{◌≡◌, ℕ, ◌+◌, List, []};
ghost use Rattle.bv_run.specs.Runs.{Going, Ended, End, run, with_front, steps_made};
ghost use Rattle.arm2_machine.specs.Machine.{Machine};
ghost use Rattle.arm2_machine.specs.Step.{board_step};

/// The law of a run in several calls: under two bounds one after the other, a board does what it does under their sum,
/// and executes as many instructions.
pub fn calls_add_up(first: u64, second: u64)
    ensures goes_on { (old middle : Machine) (out : List ℕ) → run board_step first old [] ≡ Going middle out
        → run board_step (first + second) old [] ≡ with_front out (run board_step second middle []) }
    ensures has_ended { (old last : Machine) (out : List ℕ) (end : End) → run board_step first old [] ≡ Ended last out end
        → run board_step (first + second) old [] ≡ Ended last out end }
    ensures steps_add_up { (old middle : Machine) (out : List ℕ) → run board_step first old [] ≡ Going middle out
        → steps_made board_step (first + second) old ≡ first + steps_made board_step second middle }
    ensures steps_end { (old last : Machine) (out : List ℕ) (end : End) → run board_step first old [] ≡ Ended last out end
        → steps_made board_step (first + second) old ≡ steps_made board_step first old }
{}
