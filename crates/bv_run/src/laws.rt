//! The laws of runs and their agreement, for every machine.
ghost use Rattle.std.specs.Prelude.{◌≡◌, ℕ, ◌+◌, List, []};
ghost use Rattle.bv_run.specs.Outcome.{Outcome, RunsAgree};
ghost use Rattle.bv_run.specs.Runs.{Turn, Going, Ended, run, with_front};

/// A greater bound keeps how a run ended, and more steps go on where fewer left off.
pub fn bounds_add_up<S, E>()
    ensures goes_on { (step : S → Turn S E) (first more : ℕ) (state middle : S) (out : List ℕ) → run step first state [] ≡ Going middle out
        → run step (first + more) state [] ≡ with_front out (run step more middle []) }
    ensures stays_ended { (step : S → Turn S E) (first more : ℕ) (state last : S) (out : List ℕ) (end : E) → run step first state [] ≡ Ended last out end
        → run step (first + more) state [] ≡ Ended last out end }
{}

/// Runs that agree with the same run agree.
pub fn agreements_compose()
    ensures { (source middle target : ℕ → Outcome) → RunsAgree source middle → RunsAgree middle target → RunsAgree source target }
{}
