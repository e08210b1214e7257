//! Laws of how a module's names are resolved: they are proved, and nothing is computed here.
//!
//! A module names its registers, blocks, functions and constants. Its code has numbers and values in their places. What each
//! instruction becomes is said by what its names stand for, and not by how they are looked up.
#![tactic(auto)]

ghost use Rattle.resolving_laws.specs.Laws.{ResolvedOrStuck, NoneIsStuck, AllAreResolved};

/// Each instruction is resolved, where it breaks no rule.
pub fn resolved_or_stuck()
    ensures { ResolvedOrStuck }
{}

/// None of a checked module is stuck.
pub fn none_is_stuck()
    ensures { NoneIsStuck }
{}

/// Each instruction of a checked module is resolved.
pub fn all_are_resolved()
    ensures { AllAreResolved }
{}
