//! Laws of what a program keeps of its state: they are proved, and no code of the interpreter calls them.
//!
//! Numbers stay below their bounds, and every name is one that the memory gave. A run keeps that of the state it begins in, where
//! the constants of the code keep to the same bounds; those of a module do, and its first state has it.
#![tactic(auto)]

pub mod nodes;

ghost use Rattle.keeping_laws.specs.Laws.{TreesKeep, InstructionsFit, StepKeeps, RunKeeps, CodesFit, FirstKeeps, ProgramKeeps};

/// What a tree leaves of a memory.
pub fn trees_keep()
    ensures { TreesKeep }
{}

/// What an instruction asks and gives.
pub fn instructions_fit()
    ensures { InstructionsFit }
{}

/// A step.
pub fn a_step_keeps()
    ensures { StepKeeps }
{}

/// A run.
pub fn a_run_keeps()
    ensures { RunKeeps }
{}

/// The first state of a program.
pub fn the_first_keeps()
    ensures { FirstKeeps }
{}

/// The constants in the code of a module.
pub fn codes_fit()
    ensures { CodesFit }
{}

/// The run of a module's program, from its first state on.
pub fn a_program_keeps()
    ensures { ProgramKeeps }
{}
