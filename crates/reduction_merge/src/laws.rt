//! What a partial says of a list of operands.
ghost use Rattle.reduction_merge.specs.Operands.{StartLaw, AddLaw, JoinLaw, SumsLaw, FinishLaw, RangeLaw};

/// A new partial is that of no operand, one to which an operand is added is that of one operand more, and two that are
/// joined are that of the operands of both: it has their count, the sums of their signed values above 0 and below 0 and of their unsigned ones, and their fold.
pub fn operands_law()
    ensures start { StartLaw }
    ensures add { AddLaw }
    ensures join { JoinLaw }
{}

/// The sums of a partial of at most 2^60 operands are within their bounds. So a caller that keeps to a list of operands
/// meets the conditions of `add` and `join` by their count alone.
pub fn sums_law()
    ensures { SumsLaw }
{}

/// What is finished of a partial of a list of operands is the first value folded with all of them.
pub fn finish_law()
    ensures { FinishLaw }
{}

/// Where the range test of a partial passes, adding its operands one by one to the first value, in any order, leaves the
/// range of no flag at any step.
pub fn range_law()
    ensures { RangeLaw }
{}
