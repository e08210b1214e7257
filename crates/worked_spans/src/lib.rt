//! Worked spans: verdicts, a commit, pieces and journals of small loops, computed by the definitions. A reader can check them by hand; they
//! are proved, and no code calls them.
#![tactic(auto)]

ghost use Rattle.worked_spans.specs.Given.{LeastTurnFails, ReadConflicts, SumLeavesRange, SumStays, SumIsCommitted, StepsAreSpent, StepsAreJustEnough, KeptObjectsAreRenamed, MemoryIsJustEnough, MemoryIsShort};
ghost use Rattle.worked_spans.specs.Computed.{WritingIsDone, RewritingFails, WritingCommits, WritingEnds, RewritingRecovers, WritingIsSpent};

/// Several turns failed: that of the least counts.
pub fn the_least_turn_fails()
    ensures { LeastTurnFails }
{}

/// One worker read a byte that the other wrote.
pub fn a_read_conflicts()
    ensures { ReadConflicts }
{}

/// A sum with promised range: from one value on it leaves it, and from another it does not, and is committed.
pub fn a_sum_leaves_its_range()
    ensures sum_leaves_range { SumLeavesRange }
    ensures sum_stays { SumStays }
    ensures sum_is_committed { SumIsCommitted }
{}

/// The steps of a period are counted over all workers, and a limit may be reached.
pub fn steps_are_counted_together()
    ensures steps_are_spent { StepsAreSpent }
    ensures steps_are_just_enough { StepsAreJustEnough }
{}

/// Live memory is counted with what earlier turns kept.
pub fn memory_is_counted_together()
    ensures memory_is_just_enough { MemoryIsJustEnough }
    ensures memory_is_short { MemoryIsShort }
{}

/// Objects that two workers kept under the same names get names of their own.
pub fn kept_objects_are_renamed()
    ensures { KeptObjectsAreRenamed }
{}

/// A piece of two turns.
pub fn a_piece_is_done()
    ensures { WritingIsDone }
{}

/// A piece whose only turn fails.
pub fn a_piece_fails()
    ensures { RewritingFails }
{}

/// A run whose span is committed whole.
pub fn periods_are_committed()
    ensures writing_commits { WritingCommits }
    ensures writing_ends { WritingEnds }
{}

/// A run whose span fails at once.
pub fn a_period_is_recovered()
    ensures { RewritingRecovers }
{}

/// A run that is spent in a recovery.
pub fn a_run_is_spent()
    ensures { WritingIsSpent }
{}
