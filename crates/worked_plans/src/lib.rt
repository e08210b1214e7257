//! Plans of worked loops, computed by the definition: what a reader can check by hand. They are proved, and no code calls them.
#![tactic(auto)]

ghost use Rattle.worked_plans.specs.Plans.{CounterIsPrivate, CounterHasLines, CounterIsReduction, CounterWithoutTest, CounterWithoutPhi, CounterFlows, CounterUnknown, SumIsReduced, ListIsBuiltInTurns, ListFlows, ListGuessLeaves, ListGuessesOverlap, ListIsMixed};
ghost use Rattle.worked_plans.specs.Reasons.{HeaderIsFirst, HeaderIsNotListed, EnteredFromOutside, NoLatch, TwoLatches, UnknownGoesFirst, UnknownSlot, BoundIsRegister, BoundIsInLoop, RightIsTested, HeaderIsLatch, ReadTwice, LoopsDisagree};

/// A counter from which each turn takes one.
pub fn a_counter_is_private()
    ensures { CounterIsPrivate }
{}

/// The lines that are put beside it.
pub fn a_counter_has_lines()
    ensures { CounterHasLines }
{}

/// A counter to which each turn adds.
pub fn a_counter_is_a_reduction()
    ensures { CounterIsReduction }
{}

/// The same counter without a phi that steps.
pub fn a_counter_without_a_test()
    ensures { CounterWithoutTest }
{}

/// The same counter without a line for its phi.
pub fn a_counter_without_a_phi()
    ensures { CounterWithoutPhi }
{}

/// The same counter whose bytes flow.
pub fn a_counter_flows()
    ensures { CounterFlows }
{}

/// The same counter where a line names another global.
pub fn a_counter_is_unknown()
    ensures { CounterUnknown }
{}

/// A sum in a register.
pub fn a_sum_is_reduced()
    ensures { SumIsReduced }
{}

/// A list that each turn builds and empties.
pub fn a_list_is_built_in_turns()
    ensures { ListIsBuiltInTurns }
{}

/// The same list without its guess.
pub fn a_list_flows()
    ensures { ListFlows }
{}

/// A guess past the end of its global.
pub fn a_guess_leaves()
    ensures { ListGuessLeaves }
{}

/// Two guesses of one byte.
pub fn guesses_overlap()
    ensures { ListGuessesOverlap }
{}

/// A slot that touches objects of two classes.
pub fn a_list_is_mixed()
    ensures { ListIsMixed }
{}

/// A header that is the first block.
pub fn the_header_is_first()
    ensures { HeaderIsFirst }
{}

/// A header that is not listed.
pub fn the_header_is_not_listed()
    ensures { HeaderIsNotListed }
{}

/// A block that is entered from outside.
pub fn entered_from_outside()
    ensures { EnteredFromOutside }
{}

/// No edge back.
pub fn no_latch()
    ensures { NoLatch }
{}

/// Two edges back.
pub fn two_latches()
    ensures { TwoLatches }
{}

/// An instruction without slots, and a wrong header.
pub fn unknown_goes_first()
    ensures { UnknownGoesFirst }
{}

/// A slot that is not there.
pub fn an_unknown_slot()
    ensures { UnknownSlot }
{}

/// A bound that is a parameter.
pub fn a_bound_is_a_register()
    ensures { BoundIsRegister }
{}

/// A bound that the loop defines.
pub fn a_bound_is_in_the_loop()
    ensures { BoundIsInLoop }
{}

/// A test whose constant stands left.
pub fn the_right_is_tested()
    ensures { RightIsTested }
{}

/// A loop of one block.
pub fn the_header_is_the_latch()
    ensures { HeaderIsLatch }
{}

/// A phi that is read twice.
pub fn a_phi_is_read_twice()
    ensures { ReadTwice }
{}

/// Two loops with one global.
pub fn loops_disagree()
    ensures { LoopsDisagree }
{}
