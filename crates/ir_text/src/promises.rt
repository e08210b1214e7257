//! What holds of reading, whatever the text.

ghost use Rattle.std.specs.Prelude.{ℕ, Bool};
ghost use Rattle.ir_tree.specs.Trees.{TypeV};
ghost use Rattle.ir_text.specs.Tokens.{TokenV, is_mark};
ghost use Rattle.ir_text.specs.Lawful.{Behind, anything, Lawful};
ghost use Rattle.ir_text.specs.Passed.{AfterPassed, may_pass, words_at, some_words};
ghost use Rattle.ir_text.specs.Tails.{tails_at, some_tails};
ghost use Rattle.ir_text.specs.Types.{Known, type_at as read_type};
ghost use Rattle.ir_text.specs.TypeSpelled.{a_type};
ghost use Rattle.ir_text.specs.MemoryTypes.{memory_type_at, a_memory_type};
ghost use Rattle.ir_text.specs.Operands.{operand_at, an_operand, argument_at, an_argument};

/// A type is read exactly where it is spelled, and else its first fault is met.
pub fn types_are_read()
    ensures { (n : ℕ) (known : Known) → Lawful n anything (read_type known) (a_type known) }
{}

/// A type of memory is read exactly where it is spelled and has a layout, and else the first fault is met: one in the type,
/// and Layout at its first token behind all others.
pub fn memory_types_are_read()
    ensures { (n : ℕ) (known : Known) → Lawful n anything (memory_type_at known) (a_memory_type known) }
{}

/// Attributes and markers are passed over up to a word that is not, and else the first fault in them is met.
pub fn words_are_passed()
    ensures { (n : ℕ) (stop : TokenV → Bool) → Lawful n (Behind (may_pass stop) AfterPassed) (words_at stop) (some_words stop) }
{}

/// What stands behind an instruction is passed over up to what is no comma, and else the first fault in it is met.
pub fn tails_are_passed()
    ensures { (n : ℕ) → Lawful n (Behind (is_mark 44) anything) tails_at some_tails }
{}

/// An operand at a type is read exactly where it is spelled, and else its first fault is met.
pub fn operands_are_read()
    ensures { (n : ℕ) (known : Known) (type : TypeV) → Lawful n anything (operand_at known type) (an_operand known type) }
{}

/// The same of an operand with its type.
pub fn arguments_are_read()
    ensures { (n : ℕ) (known : Known) → Lawful n anything (argument_at known) (an_argument known) }
{}
