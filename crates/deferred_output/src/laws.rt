//! What the order of turns says of outputs.
ghost use Rattle.deferred_output.specs.Order.{OneAnswer};

/// Where no two parts are of one turn, their bytes in the order of turns are the same, in whatever order the parts come.
pub fn distinct_turns_have_one_answer()
    ensures { OneAnswer }
{}
