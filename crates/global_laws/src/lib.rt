//! Laws that a run keeps its globals: they are proved, and nothing is computed here.
//!
//! The globals of a program stay alive to the end of its run, each under its name, with its site, its kind, its mark and its size.
#![tactic(auto)]

ghost use Rattle.global_laws.specs.Filled.{InitialisersFill};
ghost use Rattle.global_laws.specs.Laws.{StatesAreOwned, StepKeepsOwned, RunKeepsOwned, StepKeepsGlobals, RunKeepsGlobals, ProgramKeepsGlobals, ProgramHasGlobals, InitialisersAreFound, OutcomeHasGlobals};

/// What the frames of a state of a code own are live stack slots.
pub fn states_are_owned()
    ensures { StatesAreOwned }
{}

/// They are after a step.
pub fn step_keeps_owned()
    ensures { StepKeepsOwned }
{}

/// They are after a run.
pub fn run_keeps_owned()
    ensures { RunKeepsOwned }
{}

/// One step keeps the globals.
pub fn step_keeps_globals()
    ensures { StepKeepsGlobals }
{}

/// A run keeps the globals.
pub fn run_keeps_globals()
    ensures { RunKeepsGlobals }
{}

/// A run of a checked module keeps those with which its program starts.
pub fn program_keeps_globals()
    ensures { ProgramKeepsGlobals }
{}

/// It has each global of the module under its number.
pub fn program_has_globals()
    ensures { ProgramHasGlobals }
{}

/// The first bytes of a constant whose names and addresses are found fill its type.
pub fn initialisers_fill()
    ensures { InitialisersFill }
{}

/// Those of the initialisers of a checked module are found.
pub fn initialisers_are_found()
    ensures { InitialisersAreFound }
{}

/// What a run leaves has all bytes of each global that is no constant.
pub fn outcome_has_globals()
    ensures { OutcomeHasGlobals }
{}
