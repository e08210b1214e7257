//! Laws of where a run traps `unreachable`: they are proved, and nothing is computed here.
//!
//! The step answers this trap also where a checked module cannot bring it: a value of another kind, a block or a function that is
//! missing. So the trap tells that the program itself said that it does not come there.
#![tactic(auto)]

ghost use Rattle.unreachable_laws.specs.Laws.{StepKeepsTyped, TypedRunsStop, FirstIsTyped, UnreachableIsThere, TypedProgramsStop};

/// A step of a typed code.
pub fn step_keeps_typed()
    ensures { StepKeepsTyped }
{}

/// A run of a typed code.
pub fn typed_runs_stop()
    ensures { TypedRunsStop }
{}

/// The first frame of a checked module.
pub fn first_is_typed()
    ensures { FirstIsTyped }
{}

/// Where a module's code has the instruction `unreachable`, the module has it.
pub fn unreachable_is_there()
    ensures { UnreachableIsThere }
{}

/// A run of a module's program.
pub fn typed_programs_stop()
    ensures { TypedProgramsStop }
{}
