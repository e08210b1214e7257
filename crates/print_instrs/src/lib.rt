//! Laws of canonical text: they are proved, and nothing is computed here.
//!
//! Where tokens spell an instruction, what is printed of it spells it too.
#![tactic(auto)]

ghost use Rattle.print_instrs.specs.Laws.{InstructionsReadBack, InstructionsStand};

/// A printed instruction spells that instruction, behind the same names and numbers.
pub fn instructions_read_back()
    ensures { InstructionsReadBack }
{}

/// A printed instruction stands inside a line.
pub fn instructions_stand()
    ensures { InstructionsStand }
{}
