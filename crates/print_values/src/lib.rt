//! Laws of canonical text: they are proved, and nothing is computed here.
//!
//! Where tokens spell a name, a type, a constant or an operand, what is printed of it spells it too.
#![tactic(auto)]

ghost use Rattle.print_values.specs.Laws.{NamesFit, NamesReadBack, TypesReadBack, RegisterTypesReadBack, ResultTypesReadBack, ConstantsReadBack, OperandsReadBack, TypesStand, ConstantsStand, OperandsStand};

/// A name that a token of a text spells may be printed.
pub fn names_fit()
    ensures { NamesFit }
{}

/// A printed name spells that name, behind either sign and as a label.
pub fn names_read_back()
    ensures { NamesReadBack }
{}

/// A printed type spells that type.
pub fn types_read_back()
    ensures { TypesReadBack }
{}

/// A printed type of a register spells that type.
pub fn register_types_read_back()
    ensures { RegisterTypesReadBack }
{}

/// A printed type of a result spells that type.
pub fn result_types_read_back()
    ensures { ResultTypesReadBack }
{}

/// A printed constant spells that constant, at the width at which it was written.
pub fn constants_read_back()
    ensures { ConstantsReadBack }
{}

/// A printed operand spells that operand.
pub fn operands_read_back()
    ensures { OperandsReadBack }
{}

/// A printed type stands inside a line.
pub fn types_stand()
    ensures { TypesStand }
{}

/// A printed constant stands inside a line.
pub fn constants_stand()
    ensures { ConstantsStand }
{}

/// A printed operand stands inside a line.
pub fn operands_stand()
    ensures { OperandsStand }
{}
