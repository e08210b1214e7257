//! What the results of the operations are, as laws over their definitions.
ghost use Rattle.int_num.specs.Laws.{BinaryKeepsWidth, CastHasWidth, ReduceKeepsWidth, IdentityHasWidth};

/// Every result is an integer of the right width.
pub fn results_have_their_width()
    ensures binary { BinaryKeepsWidth }
    ensures cast { CastHasWidth }
    ensures reduce { ReduceKeepsWidth }
    ensures identity { IdentityHasWidth }
{}
