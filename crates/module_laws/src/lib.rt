//! Laws of reading whole modules: they are proved, and nothing is computed here.
//!
//! Each part of an item is read exactly where it is spelled, and else its first fault is met. A text is read as a module
//! exactly where it spells it, and it spells at most one. A text of none has one first fault, or its tokens end: no text
//! avoids that fault that begins alike through its token and defines the same named types. Faults of items and of the bodies
//! of definitions, wherever these stand, are in one order: by place.
#![tactic(auto)]

ghost use Rattle.std.specs.Prelude.{ℕ, Bool, List};
ghost use Rattle.pv_base.specs.declared.name.Name.{Name};
ghost use Rattle.ir_tree.specs.declared.items.NamedType.{NamedType};
ghost use Rattle.ir_tree.specs.Trees.{TypeV};
ghost use Rattle.ir_text.specs.Lawful.{Behind, anything, Lawful};
ghost use Rattle.ir_text.specs.Tokens.{is_mark};
ghost use Rattle.ir_text.specs.Types.{Known};
ghost use Rattle.ir_grammar.specs.Scopes.{Scope};
ghost use Rattle.ir_grammar.specs.Headers.{param_at, params_at, header_at};
ghost use Rattle.ir_grammar.specs.Bodies.{instructions_at, block_at, body_at};
ghost use Rattle.ir_grammar.specs.Modules.{SoFar};
ghost use Rattle.ir_grammar.specs.PassedItems.{to_string, attributes_at, metadata_at, comdat_at, attached_at};
ghost use Rattle.ir_grammar.specs.Items.{named_type_at, global_at, declaration_at, definition_at, item_at};
ghost use Rattle.module_laws.specs.Behind.{at_end, BehindParam, BehindBlock, BehindDeclaration, BehindItem};
ghost use Rattle.module_laws.specs.Heads.{a_param, closed_params, a_head};
ghost use Rattle.module_laws.specs.Blocks.{some_instructions, a_block, a_body};
ghost use Rattle.module_laws.specs.Skipped.{up_to_string, some_attributes, some_metadata, a_comdat, some_attached};
ghost use Rattle.module_laws.specs.ItemsSpelled.{a_named_type, a_global, a_declaration, a_definition, an_item, a_module};
ghost use Rattle.module_laws.specs.TextLaws.{items_module_at, ReadIsSpelled, SpelledIsRead, OneModule, ItemsStayWrong, BodiesStayWrong, FaultIsFirst, OneFault, FaultsApart};

/// A parameter, before the `,` or `)` that ends it.
pub fn parameters_are_read()
    ensures { (n : ℕ) (declared : Bool) (scope : Scope) → Lawful n BehindParam (param_at declared scope) (a_param declared scope) }
{}

/// The parameters of a function, with the closing parenthesis.
pub fn parameter_lists_are_read()
    ensures { (n : ℕ) (declared : Bool) → Lawful n anything (params_at declared) (closed_params declared) }
{}

/// The head of a function: its result, its name and its parameters.
pub fn heads_are_read()
    ensures { (n : ℕ) (declared : Bool) (values : List Name) → Lawful n anything (header_at declared values) (a_head declared values) }
{}

/// The tokens up to a string, and the string.
pub fn strings_are_passed()
    ensures { (n : ℕ) → Lawful n anything to_string (λ u. up_to_string) }
{}

/// A group of attributes, behind `attributes`.
pub fn attributes_are_passed()
    ensures { (n : ℕ) → Lawful n anything attributes_at (λ u. some_attributes) }
{}

/// An item of metadata.
pub fn metadata_is_passed()
    ensures { (n : ℕ) → Lawful n anything metadata_at (λ u. some_metadata) }
{}

/// A comdat.
pub fn comdats_are_passed()
    ensures { (n : ℕ) → Lawful n anything comdat_at (λ u. a_comdat) }
{}

/// What is attached to a declaration, before anything but `!`.
pub fn attachments_are_passed()
    ensures { (n : ℕ) → Lawful n (Behind (is_mark 33) anything) attached_at (λ u. some_attached) }
{}

/// A named type with its body, where these names of types were given before.
pub fn named_types_are_read()
    ensures { (n : ℕ) (known : Known) (types : List Name) → Lawful n anything (named_type_at known types) (a_named_type known types) }
{}

/// A global, where the globals before it take so many bytes.
pub fn globals_are_read()
    ensures { (n : ℕ) (known : Known) (size : ℕ) (values : List Name) → Lawful n (Behind (is_mark 44) anything) (global_at known values size) (a_global known values size) }
{}

/// A declaration, behind its word.
pub fn declarations_are_read()
    ensures { (n : ℕ) (values : List Name) → Lawful n BehindDeclaration (declaration_at values) (a_declaration values) }
{}

/// The instructions of a block, before a label or the closing brace: words before a call may belong to the call before it.
pub fn instructions_are_read()
    ensures { (n : ℕ) (known : Known) (scope : Scope) → Lawful n BehindBlock (instructions_at known scope) (some_instructions known scope) }
{}

/// A block with its label.
pub fn blocks_are_read()
    ensures { (n : ℕ) (known : Known) (scope : Scope) → Lawful n BehindBlock (block_at known scope) (a_block known scope) }
{}

/// The body of a function, with its closing brace.
pub fn bodies_are_read()
    ensures { (n : ℕ) (known : Known) (scope : Scope) → Lawful n anything (body_at known scope) (a_body known scope) }
{}

/// A definition, behind its word.
pub fn definitions_are_read()
    ensures { (n : ℕ) (known : Known) (values : List Name) → Lawful n anything (definition_at known values) (a_definition known values) }
{}

/// An item, behind those so far.
pub fn items_are_read()
    ensures { (n : ℕ) (known : Known) (s : SoFar) → Lawful n BehindItem (item_at known s) (an_item known s) }
{}

/// The items of a whole module with these named types, where the bodies of all definitions are read.
pub fn modules_are_read()
    ensures { (n : ℕ) (types : List (NamedType Name TypeV)) (known : Known) → Lawful n at_end (items_module_at types known) (a_module types known) }
{}

/// A module that is read of a text is spelled by it.
pub fn modules_are_spelled()
    ensures { ReadIsSpelled }
{}

/// A module that a text spells is read of it.
pub fn spelled_modules_are_read()
    ensures { SpelledIsRead }
{}

/// A text spells at most one module.
pub fn one_module()
    ensures { OneModule }
{}

/// A fault in an item stays, whatever stands behind.
pub fn items_stay_wrong()
    ensures { ItemsStayWrong }
{}

/// A fault in the body of a definition stays, whatever stands behind.
pub fn bodies_stay_wrong()
    ensures { BodiesStayWrong }
{}

/// A text of no module has a first fault at a token, or its fault is where its tokens end.
pub fn faults_are_first()
    ensures { FaultIsFirst }
{}

/// A text has at most one first fault.
pub fn one_fault()
    ensures { OneFault }
{}

/// A text with a first fault at a token has none where its tokens end.
pub fn faults_are_apart()
    ensures { FaultsApart }
{}
