//! Laws of canonical text: they are proved, and nothing is computed here.
//!
//! The canonical text of a module that was read is read as that module: printing and reading is the identity on modules, and
//! printing twice on texts.
#![tactic(auto)]

ghost use Rattle.print_modules.specs.Laws.{ReadsBack, SpellsNoOther, PrintsTheSame};

/// The canonical text of a module that some text spells is read as that module.
pub fn reads_back()
    ensures { ReadsBack }
{}

/// The canonical text spells no other module.
pub fn spells_no_other()
    ensures { SpellsNoOther }
{}

/// What is printed of a module that was read from canonical text is that text.
pub fn prints_the_same()
    ensures { PrintsTheSame }
{}
