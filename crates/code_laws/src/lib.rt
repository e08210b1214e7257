//! Laws of what a module means: they are proved, and nothing is computed here.
//!
//! A module is held in a table that gives numbers to its names, types and constants. Its code, the memory in which it starts and
//! its run are those of the module written out, so that they do not depend on the numbers.
#![tactic(auto)]

ghost use Rattle.code_laws.specs.Laws.{CodeIsTheModules, PictureIsTheModules, StateIsTheModules, OutcomeIsTheModules};

/// The code.
pub fn code_is_that_of_the_module()
    ensures { CodeIsTheModules }
{}

/// The memory in which it starts.
pub fn picture_is_that_of_the_module()
    ensures { PictureIsTheModules }
{}

/// The state in which its program starts.
pub fn state_is_that_of_the_module()
    ensures { StateIsTheModules }
{}

/// What a run leaves, whatever the input and the budget.
pub fn outcome_is_that_of_the_module()
    ensures { OutcomeIsTheModules }
{}
