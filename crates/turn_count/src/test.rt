//! The counted test of a loop.
ghost use Rattle.std.specs.Prelude.{◌≡◌};
ghost use Rattle.turn_count.specs.Arcs.{swapped, negated, leading};

use int_num::int::Int;
use int_num::ops::Pred;

/// A test that compares a counter of the loop with a bound, in each turn once.
#[derive(Clone, Copy, Debug, PartialEq, Eq)]
pub struct Test {
    pub pred: Pred,
    /// Whether the tested value is the left operand of the predicate and the bound the right one, or the other way round.
    pub tested_left: bool,
    /// The answer of the predicate on which the loop is entered.
    pub into_on: bool,
    /// Whether the tested value is that which the counter will have in the next turn.
    pub latch_value: bool,
    /// What is added to the counter from turn to turn, modulo 2^width.
    pub step: Int,
}

/// The predicate that holds where this one holds of the operands the other way round.
#[tactic(auto, unfolding(crate::specs::Arcs::swapped))]
fn swapped(pred: Pred) -> Pred
    ensures { result ≡ swapped pred }
{
    match pred {
        Pred::Eq => Pred::Eq,
        Pred::Ne => Pred::Ne,
        Pred::Ugt => Pred::Ult,
        Pred::Uge => Pred::Ule,
        Pred::Ult => Pred::Ugt,
        Pred::Ule => Pred::Uge,
        Pred::Sgt => Pred::Slt,
        Pred::Sge => Pred::Sle,
        Pred::Slt => Pred::Sgt,
        Pred::Sle => Pred::Sge,
    }
}

/// The predicate that holds where this one does not.
#[tactic(auto, unfolding(crate::specs::Arcs::negated))]
fn negated(pred: Pred) -> Pred
    ensures { result ≡ negated pred }
{
    match pred {
        Pred::Eq => Pred::Ne,
        Pred::Ne => Pred::Eq,
        Pred::Ugt => Pred::Ule,
        Pred::Uge => Pred::Ult,
        Pred::Ult => Pred::Uge,
        Pred::Ule => Pred::Ugt,
        Pred::Sgt => Pred::Sle,
        Pred::Sge => Pred::Slt,
        Pred::Slt => Pred::Sge,
        Pred::Sle => Pred::Sgt,
    }
}

/// The predicate that holds of a tested value and the bound where the test leads into the loop.
#[tactic(auto, unfolding(crate::specs::Arcs::leading))]
pub(crate) fn leading(test: &Test) -> Pred
    ensures { result ≡ leading test.now }
{
    let pred = if test.tested_left {
        test.pred
    } else {
        swapped(test.pred)
    };
    if test.into_on { pred } else { negated(pred) }
}
