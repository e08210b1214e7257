//! Laws of canonical text: they are proved, and nothing is computed here.
//!
//! Where tokens spell a function, what is printed of it spells it too, behind whatever other names.
#![tactic(auto)]

ghost use Rattle.print_functions.specs.Laws.{DeclarationsReadBack, DefinitionsReadBack, FunctionsStand};

/// A printed declaration spells that function.
pub fn declarations_read_back()
    ensures { DeclarationsReadBack }
{}

/// A printed definition spells that function.
pub fn definitions_read_back()
    ensures { DefinitionsReadBack }
{}

/// Printed functions are whole lines.
pub fn functions_stand()
    ensures { FunctionsStand }
{}
