//! What becomes of a period: the pieces that workers hand over, the verdict, the commit, the end of a span, and the whole run with
//! speculation and its journal. These are definitions, for every number of workers; no code stands here.
#![tactic(auto)]

ghost use Rattle.period_rules.specs.Laws.{FailedTurnsGoFirst, SpentRunsAreOver, StatesAreSame};

/// A failed turn goes before all else in a verdict.
pub fn failed_turns_go_first()
    ensures { FailedTurnsGoFirst }
{}

/// A run is over where its steps are taken.
pub fn spent_runs_are_over()
    ensures { SpentRunsAreOver }
{}

/// A state is the same as itself, whatever triples there are.
pub fn a_state_is_the_same_as_itself()
    ensures { StatesAreSame }
{}
