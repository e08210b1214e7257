//! Whether the numbers in the items of a module are of its table.
ghost use Rattle.std.specs.Prelude.{◌≡◌, ◌&&◌, IfOk};
ghost use Rattle.std.specs.List.{list_all};
ghost use Rattle.ir_rules.specs.Forms.{memory_types, cast_types, called_types, callee_names, called_names};
ghost use Rattle.ir_rules.specs.Numbering.{is_name, is_type, is_constant, given_within, operand_within, use_within, result_within, instruction_within, block_within, name_within, param_within, function_within, global_within, is_within};

use ir_rules::forms::{result_of, uses};
use ir_rules::given::{Defined, Given, Use};
use ir_rules::labels::{sources, targets};
use ir_tree::instruction::{Callee, Instruction, Operand};
use ir_tree::items::{Block, Function, Global as Variable, Param};
use ir_tree::nodes::{ConstantId, NameId, TypeId};
use ir_tree::table::Names;
use ir_tree::whole::Module;
use pv_base::want::Memory;
use std::alloc::Global;

fn is_name(names: &Names, number: NameId) -> bool
    ensures { result ≡ is_name names.now number }
{
    (number as usize) < names.name_count()
}

fn is_type(names: &Names, number: TypeId) -> bool
    ensures { result ≡ is_type names.now number }
{
    (number as usize) < names.type_count()
}

fn is_constant(names: &Names, number: ConstantId) -> bool
    ensures { result ≡ is_constant names.now number }
{
    (number as usize) < names.constant_count()
}

fn given_within(names: &Names, of: Given) -> bool
    ensures { result ≡ given_within names.now of }
{
    match of {
        Given::Written(of) => is_type(names, of),
        Given::Pointer => true,
        Given::Bit => true,
    }
}

fn operand_within(names: &Names, operand: Operand) -> bool
    ensures { result ≡ operand_within names.now operand }
{
    match operand {
        Operand::Register(number) => is_name(names, number),
        Operand::Constant(number) => is_constant(names, number),
    }
}

fn use_within(names: &Names, needed: Use) -> bool
    ensures { result ≡ use_within names.now needed }
{
    operand_within(names, needed.value) && given_within(names, needed.of)
}

fn result_within(names: &Names, one: Option<Defined>) -> bool
    ensures { result ≡ result_within names.now one }
{
    match one {
        Some(one) => is_name(names, one.name),
        None => true,
    }
}

fn uses_within(names: &Names, uses: &[Use]) -> bool
    ensures { result ≡ list_all (use_within names.now) uses.now }
{
    uses.iter().all(|u| use_within(names, *u))
}

fn are_names(names: &Names, numbers: &[NameId]) -> bool
    ensures { result ≡ list_all (is_name names.now) numbers.now }
{
    numbers.iter().all(|k| is_name(names, *k))
}

#[tactic(auto, using(crate::proofs::WithinLemmas::and_true), unfolding(ir_rules::specs::Forms::memory_types))]
fn memory_within(names: &Names, instruction: &Instruction) -> bool
    ensures { result ≡ list_all (is_type names.now) (memory_types instruction.now) }
{
    match instruction {
        Instruction::Alloca { of, .. } => is_type(names, *of),
        Instruction::Load { of, .. } => is_type(names, *of),
        Instruction::Store { of, .. } => is_type(names, *of),
        Instruction::Address { of, .. } => is_type(names, *of),
        _ => true,
    }
}

#[tactic(auto, using(crate::proofs::WithinLemmas::and_true), unfolding(ir_rules::specs::Forms::cast_types))]
fn cast_within(names: &Names, instruction: &Instruction) -> bool
    ensures { result ≡ list_all (is_type names.now) (cast_types instruction.now) }
{
    match instruction {
        Instruction::Cast { target, .. } => is_type(names, *target),
        _ => true,
    }
}

#[tactic(auto, using(crate::proofs::WithinLemmas::and_true), unfolding(ir_rules::specs::Forms::called_types))]
fn answer_within(names: &Names, instruction: &Instruction) -> bool
    ensures { result ≡ list_all (is_type names.now) (called_types instruction.now) }
{
    match instruction {
        Instruction::Call { of, .. } => is_type(names, *of),
        _ => true,
    }
}

#[tactic(auto, using(crate::proofs::WithinLemmas::and_true))]
fn callee_within(names: &Names, callee: Callee) -> bool
    ensures { result ≡ list_all (is_name names.now) (callee_names callee) }
{
    match callee {
        Callee::Function(name) => is_name(names, name),
        Callee::Pointer(_) => true,
    }
}

#[tactic(auto, unfolding(ir_rules::specs::Forms::called_names))]
fn called_within(names: &Names, instruction: &Instruction) -> bool
    ensures { result ≡ list_all (is_name names.now) (called_names instruction.now) }
{
    match instruction {
        Instruction::Call { callee, .. } => callee_within(names, *callee),
        _ => true,
    }
}

fn types_within(names: &Names, before: bool, instruction: &Instruction) -> bool
    ensures { result ≡ (before && list_all (is_type names.now) (memory_types instruction.now) && list_all (is_type names.now) (cast_types instruction.now) && list_all (is_type names.now) (called_types instruction.now) && list_all (is_name names.now) (called_names instruction.now)) }
{
    before
        && memory_within(names, instruction)
        && cast_within(names, instruction)
        && answer_within(names, instruction)
        && called_within(names, instruction)
}

/// Whether the numbers in an instruction are of the table.
pub fn instruction_within(
    alloc: Global,
    names: &Names,
    instruction: &Instruction,
) -> Result<bool, Memory>
    ensures { IfOk result (λ b. b ≡ instruction_within names.now instruction.now) }
{
    let uses = uses(alloc, instruction)?;
    let to = targets(alloc, instruction)?;
    let from = sources(alloc, instruction)?;
    let defines = result_within(names, result_of(instruction));
    let operands = uses_within(names, uses.as_slice());
    let to = are_names(names, to.as_slice());
    let from = are_names(names, from.as_slice());
    Ok(types_within(names, defines && operands && to && from, instruction))
}

#[tactic(auto, using(crate::proofs::WithinLemmas::all_stop, crate::proofs::WithinLemmas::all_more, crate::proofs::WithinLemmas::all_end))]
fn instructions_within(
    alloc: Global,
    names: &Names,
    instructions: &[Instruction],
) -> Result<bool, Memory>
    ensures { IfOk result (λ b. b ≡ list_all (instruction_within names.now) instructions.now) }
{
    for instruction in instructions {
        let within = instruction_within(alloc, names, instruction)?;
        if !within {
            return Ok(false);
        }
    }
    Ok(true)
}

fn block_within(alloc: Global, names: &Names, block: &Block) -> Result<bool, Memory>
    ensures { IfOk result (λ b. b ≡ block_within names.now block.now) }
{
    let within = instructions_within(alloc, names, block.instructions.as_slice())?;
    Ok(is_name(names, block.label) && within)
}

#[tactic(auto, using(crate::proofs::WithinLemmas::all_stop, crate::proofs::WithinLemmas::all_more, crate::proofs::WithinLemmas::all_end))]
fn blocks_within(alloc: Global, names: &Names, blocks: &[Block]) -> Result<bool, Memory>
    ensures { IfOk result (λ b. b ≡ list_all (block_within names.now) blocks.now) }
{
    for block in blocks {
        let within = block_within(alloc, names, block)?;
        if !within {
            return Ok(false);
        }
    }
    Ok(true)
}

fn name_within(names: &Names, name: Option<NameId>) -> bool
    ensures { result ≡ name_within names.now name }
{
    match name {
        Some(name) => is_name(names, name),
        None => true,
    }
}

fn param_within(names: &Names, param: Param) -> bool
    ensures { result ≡ param_within names.now param }
{
    name_within(names, param.name) && is_type(names, param.of)
}

fn params_within(names: &Names, params: &[Param]) -> bool
    ensures { result ≡ list_all (param_within names.now) params.now }
{
    params.iter().all(|p| param_within(names, *p))
}

/// Whether the numbers in a function are of the table.
pub fn function_within(alloc: Global, names: &Names, function: &Function) -> Result<bool, Memory>
    ensures { IfOk result (λ b. b ≡ function_within names.now function.now) }
{
    let blocks = blocks_within(alloc, names, function.blocks.as_slice())?;
    Ok(
        is_name(names, function.name)
            && is_type(names, function.result)
            && params_within(names, function.params.as_slice())
            && blocks,
    )
}

#[tactic(auto, using(crate::proofs::WithinLemmas::all_stop, crate::proofs::WithinLemmas::all_more, crate::proofs::WithinLemmas::all_end))]
fn functions_within(alloc: Global, names: &Names, functions: &[Function]) -> Result<bool, Memory>
    ensures { IfOk result (λ b. b ≡ list_all (function_within names.now) functions.now) }
{
    for function in functions {
        let within = function_within(alloc, names, function)?;
        if !within {
            return Ok(false);
        }
    }
    Ok(true)
}

fn global_within(names: &Names, variable: Variable) -> bool
    ensures { result ≡ global_within names.now variable }
{
    is_name(names, variable.name)
        && is_type(names, variable.of)
        && is_constant(names, variable.init)
}

fn globals_within(names: &Names, globals: &[Variable]) -> bool
    ensures { result ≡ list_all (global_within names.now) globals.now }
{
    globals.iter().all(|g| global_within(names, *g))
}

/// Whether the numbers in the items of a module are of its table. What stands in its constants is, by the table's own rule.
#[tactic(auto, using(ir_rules::proofs::NumberingLemmas::constants_are, crate::proofs::WithinLemmas::and_true))]
pub fn is_within(alloc: Global, tree: &Module) -> Result<bool, Memory>
    ensures { IfOk result (λ b. b ≡ is_within tree.now) }
{
    let names = tree.names();
    names.is_table();
    let functions = functions_within(alloc, names, tree.functions())?;
    Ok(globals_within(names, tree.globals()) && functions)
}
