//! Laws of what is read: they are proved, and nothing is computed here.
//!
//! What the grammar reads stands: it keeps what a tree could break.
#![tactic(auto)]

ghost use Rattle.read_laws.specs.Functions.{DeclarationsStand, DefinitionsStand};
ghost use Rattle.read_laws.specs.Modules.{AllItemsStand, AllItemsAreFew};
ghost use Rattle.read_laws.specs.Texts.{TextsStand};
ghost use Rattle.read_laws.specs.Types.{TextsDescribe, AllTypesStand};
ghost use Rattle.read_laws.specs.Laws.{RegistersStand, AnswersStand, MemoryStands, CasesStand, IndicesStand, ConstantsStand, InstructionsStand};

/// Where an instruction asks for the type of a register, one is written.
pub fn registers_stand()
    ensures { RegistersStand }
{}

/// What a call answers is nothing or of a register's type.
pub fn answers_stand()
    ensures { AnswersStand }
{}

/// The types of which an instruction names memory have a layout.
pub fn memory_stands()
    ensures { MemoryStands }
{}

/// The numbers of a switch differ.
pub fn cases_stand()
    ensures { CasesStand }
{}

/// The indices of an address stay inside of structs.
pub fn indices_stand()
    ensures { IndicesStand }
{}

/// The constants of an instruction stand at each of their levels.
pub fn constants_stand()
    ensures { ConstantsStand }
{}

/// An instruction that is read stands.
pub fn instructions_stand()
    ensures { InstructionsStand }
{}

/// A function that is declared stands.
pub fn declarations_stand()
    ensures { DeclarationsStand }
{}

/// A function that is defined stands, and its instructions are read.
pub fn definitions_stand()
    ensures { DefinitionsStand }
{}

/// What is read of all items stands.
pub fn items_stand()
    ensures { AllItemsStand }
{}

/// What is read of few tokens is few.
pub fn items_are_few()
    ensures { AllItemsAreFew }
{}

/// What a text says of its named types describes the types that it has.
pub fn texts_describe()
    ensures { TextsDescribe }
{}

/// The named types of a text stand.
pub fn types_stand()
    ensures { AllTypesStand }
{}

/// The module that a text gives stands.
pub fn texts_stand()
    ensures { TextsStand }
{}
