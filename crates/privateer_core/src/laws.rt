//! What follows from how the top call ends: it is proved, and no code calls it.
ghost use Rattle.privateer_core.specs.Laws.{TopLaws};

/// What each status tells, over any files and sinks: the module is refused, a file is too long and words are refused exactly
/// where their texts say so, each with its line; a fault is told; and with none what is wanted is answered.
pub fn the_top_says()
    ensures { TopLaws }
{}
