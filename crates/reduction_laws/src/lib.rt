//! Laws of reductions: they are proved, and nothing is computed here.
//!
//! Workers keep partials of the operands of a reduction and join them, in whatever order they come. A partial does not
//! depend on the order, and what is finished of one is what the instruction itself makes of the operands one by one.
#![tactic(auto)]

ghost use Rattle.reduction_laws.specs.Laws.{OperationsCommute, AnyOrderHasThePartial, AnyOrderIsFinished};

/// The operation of a reduction gives the same, with or without its flags, on whichever side the operands stand.
pub fn operations_commute()
    ensures { OperationsCommute }
{}

/// A partial of a list of operands is one of that list in every order.
pub fn any_order_has_the_partial()
    ensures { AnyOrderHasThePartial }
{}

/// Where the range test of a partial passes, the instruction, done with its operands one by one in any order and the value on
/// either side, is never poison, and ends in what is finished of the partial.
pub fn any_order_is_finished()
    ensures { AnyOrderIsFinished }
{}
