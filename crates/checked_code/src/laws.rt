//! Laws of checked modules, each the contract of a function that does nothing.
ghost use Rattle.checked_code.specs.Laws.{InitialisersFit, GlobalsAreFew, CheckedStarts};

/// The first bytes of a constant of a type are no more than the type's layout says.
pub fn initialisers_fit()
    ensures { InitialisersFit }
{}

/// The globals of a checked module are no more than a memory holds, where they are no more than it has names.
pub fn globals_fit()
    ensures { GlobalsAreFew }
{}

/// The code of a checked module has a function at which its program begins.
pub fn checked_starts()
    ensures { CheckedStarts }
{}
