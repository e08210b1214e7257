//! Laws of reading instructions: they are proved, and nothing is computed here.
//!
//! Each form is read, behind its word, exactly where it is spelled, and else its first fault is met: what is read is
//! spelled by the tokens taken, what is spelled is read, and a fault stands where nothing was wrong before it and where
//! nothing behind it helps.
#![tactic(auto)]

ghost use Rattle.std.specs.Prelude.{ℕ, List, Option};
ghost use Rattle.pv_base.specs.declared.name.Name.{Name};
ghost use Rattle.int_num.specs.declared.ops.BinOp.{BinOp};
ghost use Rattle.int_num.specs.declared.ops.CastOp.{CastOp};
ghost use Rattle.ir_text.specs.Lawful.{Behind, anything, Lawful};
ghost use Rattle.ir_text.specs.Tokens.{is_mark};
ghost use Rattle.ir_text.specs.Types.{Known};
ghost use Rattle.ir_instr.specs.Arithmetic.{binary_at};
ghost use Rattle.ir_instr.specs.Casts.{cast_at, freeze_at};
ghost use Rattle.ir_instr.specs.Comparing.{compare_at};
ghost use Rattle.ir_instr.specs.Selecting.{select_at, phi_at};
ghost use Rattle.ir_instr.specs.Memory.{alloca_at, load_at, store_at};
ghost use Rattle.ir_instr.specs.Addresses.{address_at};
ghost use Rattle.ir_instr.specs.Calls.{argument_at, call_at};
ghost use Rattle.ir_instr.specs.Control.{return_at, jump_or_branch_at, switch_at};
ghost use Rattle.ir_instr.specs.Instructions.{instruction_at};
ghost use Rattle.ir_instr.specs.InstructionSpelled.{an_argument, an_instruction};
ghost use Rattle.instr_laws.specs.Behind.{BehindArgument, BehindCall, BehindInstruction};
ghost use Rattle.instr_laws.specs.Forms.{a_call_form, a_binary, a_cast, a_freeze, a_compare, a_select, a_load, a_store, a_return, a_jump_or_branch, a_switch, a_phi, an_alloca, an_address};
ghost use Rattle.instr_laws.specs.Laws.{OneInstruction, OneEnd};

/// Operations on two integers.
pub fn binaries_are_read()
    ensures { (n : ℕ) (known : Known) (to : Name) (operation : BinOp) → Lawful n anything (binary_at known to operation) (a_binary known to operation) }
{}

/// Changes of width.
pub fn casts_are_read()
    ensures { (n : ℕ) (known : Known) (to : Name) (operation : CastOp) → Lawful n anything (cast_at known to operation) (a_cast known to operation) }
{}

/// `freeze`.
pub fn freezes_are_read()
    ensures { (n : ℕ) (known : Known) (to : Name) → Lawful n anything (freeze_at known to) (a_freeze known to) }
{}

/// `icmp`.
pub fn comparisons_are_read()
    ensures { (n : ℕ) (known : Known) (to : Name) → Lawful n anything (compare_at known to) (a_compare known to) }
{}

/// `select`.
pub fn selections_are_read()
    ensures { (n : ℕ) (known : Known) (to : Name) → Lawful n anything (select_at known to) (a_select known to) }
{}

/// `load`.
pub fn loads_are_read()
    ensures { (n : ℕ) (known : Known) (to : Name) → Lawful n anything (load_at known to) (a_load known to) }
{}

/// `store`.
pub fn stores_are_read()
    ensures { (n : ℕ) (known : Known) → Lawful n anything (store_at known) (a_store known) }
{}

/// `ret`.
pub fn returns_are_read()
    ensures { (n : ℕ) (known : Known) → Lawful n anything (return_at known) (a_return known) }
{}

/// `br`, to one label or by a condition to one of two.
pub fn branches_are_read()
    ensures { (n : ℕ) (known : Known) → Lawful n anything (jump_or_branch_at known) (a_jump_or_branch known) }
{}

/// `switch`, whose cases have values that differ.
pub fn switches_are_read()
    ensures { (n : ℕ) (known : Known) → Lawful n anything (switch_at known) (a_switch known) }
{}

/// `phi`, with what is passed over behind its arms.
pub fn phis_are_read()
    ensures { (n : ℕ) (known : Known) (to : Name) → Lawful n (Behind (is_mark 44) anything) (phi_at known to) (a_phi known to) }
{}

/// `alloca`, with what is passed over behind it.
pub fn allocas_are_read()
    ensures { (n : ℕ) (known : Known) (to : Name) → Lawful n (Behind (is_mark 44) anything) (alloca_at known to) (an_alloca known to) }
{}

/// `getelementptr`, with what is passed over behind its indices.
pub fn addresses_are_read()
    ensures { (n : ℕ) (known : Known) (to : Name) → Lawful n (Behind (is_mark 44) anything) (address_at known to) (an_address known to) }
{}

/// An argument of a call, with attributes between its type and its value, before the `,` or `)` that ends it.
pub fn call_arguments_are_read()
    ensures { (n : ℕ) (known : Known) → Lawful n BehindArgument (argument_at known) (an_argument known) }
{}

/// `call`, without what is passed over behind it.
pub fn calls_are_read()
    ensures { (n : ℕ) (known : Known) (to : Option Name) → Lawful n BehindCall (call_at known to) (a_call_form known to) }
{}

/// An instruction of a function whose counter stands at a number and that has defined some names, whatever its form.
pub fn instructions_are_read()
    ensures { (n : ℕ) (known : Known) (next : ℕ) (defined : List Name)
        → Lawful n BehindInstruction (instruction_at known next defined) (an_instruction known next defined) }
{}

/// The same tokens spell at most one instruction.
pub fn one_instruction()
    ensures { OneInstruction }
{}

/// In a row of tokens an instruction ends at one place only.
pub fn one_end()
    ensures { OneEnd }
{}
