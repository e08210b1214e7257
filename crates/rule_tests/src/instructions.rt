//! Whether an instruction is one of a module that is read from text.
ghost use Rattle.std.specs.Prelude.{◌≡◌, ◌++◌, ◌∷◌, [], nat_eq, map, IfOk};
ghost use Rattle.std.specs.Option.{option_to_list};
ghost use Rattle.std.specs.List.{list_all, filter_map};
ghost use Rattle.ir_tree.specs.Naming.{type_at, constant_at};
ghost use Rattle.ir_tree.specs.Modules.{types_of};
ghost use Rattle.ir_tree.specs.Shown.{shown, shown_operand, shown_argument};
ghost use Rattle.ir_rules.specs.Forms.{memory_types, argument_types, answer_types, register_types, called_types, case_values};
ghost use Rattle.ir_rules.specs.Causes.{operand_index};
ghost use Rattle.ir_rules.specs.Constants.{constant_bits};
ghost use Rattle.ir_rules.specs.Indexing.{path, is_inside};
ghost use Rattle.ir_rules.specs.Reading.{all_differ, is_register, is_answer, has_layout, indices_stand, instruction_stands};

use crate::differing::numbers_differ;
use crate::levels::{has_layout, is_inside};
use ir_rules::constants::constant;
use ir_rules::paths::path;
use ir_rules::together::constant_index;
use ir_rules::types::{is_answer, is_register};
use ir_tree::instruction::{Argument, Case, Instruction, Operand};
use ir_tree::nodes::{ConstantId, ConstantNode, NameId, TypeId};
use ir_tree::table::Names;
use ir_tree::whole::Module;
use pv_base::list::List;
use pv_base::want::Memory;
use std::alloc::Global;

fn one(alloc: Global, a: TypeId) -> Result<List<TypeId>, Memory>
    ensures { IfOk result (λ l. l ≡ a ∷ []) }
{
    List::from_slice(alloc, &[a])
}

fn argument_types(alloc: Global, argument: Option<Argument>) -> Result<List<TypeId>, Memory>
    ensures { IfOk result (λ l. l ≡ argument_types argument) }
{
    match argument {
        Some(argument) => one(alloc, argument.of),
        None => Ok(List::new(alloc)),
    }
}

fn answer_types(alloc: Global, to: Option<NameId>, of: TypeId) -> Result<List<TypeId>, Memory>
    ensures { IfOk result (λ l. l ≡ answer_types to of) }
{
    match to {
        Some(_) => one(alloc, of),
        None => Ok(List::new(alloc)),
    }
}

fn with_arguments(mut types: List<TypeId>, arguments: &[Argument]) -> Result<List<TypeId>, Memory>
    ensures { IfOk result (λ l. l ≡ types ++ map (λ a. a.of) arguments.now) }
{
    for argument in arguments {
        types.push(argument.of)?;
    }
    Ok(types)
}

/// The written types that are to be those of a register.
#[tactic(auto, unfolding(ir_rules::specs::Forms::register_types))]
fn register_types(alloc: Global, instruction: &Instruction) -> Result<List<TypeId>, Memory>
    ensures { IfOk result (λ l. l ≡ register_types instruction.now) }
{
    match instruction {
        Instruction::Binary { of, .. } => one(alloc, *of),
        Instruction::Cast { of, target, .. } => List::from_slice(alloc, &[*of, *target]),
        Instruction::Freeze { of, .. } => one(alloc, *of),
        Instruction::Compare { of, .. } => one(alloc, *of),
        Instruction::Select { of, .. } => one(alloc, *of),
        Instruction::Phi { of, .. } => one(alloc, *of),
        Instruction::Alloca { count, .. } => argument_types(alloc, *count),
        Instruction::Load { of, .. } => one(alloc, *of),
        Instruction::Store { of, .. } => one(alloc, *of),
        Instruction::Address { indices, .. } => {
            with_arguments(List::new(alloc), indices.as_slice())
        }
        Instruction::Call {
            to,
            of,
            arguments,
            ..
        } => with_arguments(answer_types(alloc, *to, *of)?, arguments.as_slice()),
        Instruction::Return { value } => argument_types(alloc, *value),
        Instruction::Switch { of, .. } => one(alloc, *of),
        Instruction::Jump { target: _ } => Ok(List::new(alloc)),
        Instruction::Branch {
            condition: _,
            on_true: _,
            on_false: _,
        } => Ok(List::new(alloc)),
        Instruction::Unreachable => Ok(List::new(alloc)),
    }
}

fn are_registers(names: &Names, types: &[TypeId]) -> bool
    ensures { result ≡ list_all (λ k. is_register (type_at names.now k)) types.now }
{
    types.iter().all(|k| is_register(names, *k))
}

/// Whether the answer of a call has a type that an answer may have.
#[tactic(auto, using(crate::proofs::WithinLemmas::and_true), unfolding(ir_rules::specs::Forms::called_types))]
fn answer_stands(names: &Names, instruction: &Instruction) -> bool
    ensures { result ≡ list_all (λ k. is_answer (type_at names.now k)) (called_types instruction.now) }
{
    match instruction {
        Instruction::Call { of, .. } => is_answer(names, *of),
        _ => true,
    }
}

/// Whether the type of which memory is named has a layout.
#[tactic(auto, using(crate::proofs::WithinLemmas::and_true), unfolding(ir_rules::specs::Forms::memory_types))]
fn memory_stands(tree: &Module, instruction: &Instruction) -> bool
    ensures { result ≡ list_all (λ k. has_layout (types_of tree.now) (type_at tree.now.names k)) (memory_types instruction.now) }
{
    match instruction {
        Instruction::Alloca { of, .. } => has_layout(tree, *of),
        Instruction::Load { of, .. } => has_layout(tree, *of),
        Instruction::Store { of, .. } => has_layout(tree, *of),
        Instruction::Address { of, .. } => has_layout(tree, *of),
        _ => true,
    }
}

fn case_bits(names: &Names, value: ConstantId) -> Option<u64>
    ensures { result ≡ constant_bits (constant_at names.now value) }
{
    match constant(names, value) {
        Some(ConstantNode::Integer(n)) => Some(n.bits()),
        Some(ConstantNode::Zero) => Some(0),
        _ => None,
    }
}

fn with_one(mut all: List<u64>, one: Option<u64>) -> Result<List<u64>, Memory>
    ensures { IfOk result (λ l. l ≡ all ++ option_to_list one) }
{
    match one {
        Some(one) => {
            all.push(one)?;
            Ok(all)
        }
        None => Ok(all),
    }
}

fn all_case_bits(alloc: Global, names: &Names, cases: &[Case]) -> Result<List<u64>, Memory>
    ensures { IfOk result (λ l. l ≡ filter_map (λ c. constant_bits (constant_at names.now c.value)) cases.now) }
{
    let mut all = List::new(alloc);
    for case in cases {
        all = with_one(all, case_bits(names, case.value))?;
    }
    Ok(all)
}

fn values_differ(alloc: Global, names: &Names, cases: &[Case]) -> Result<bool, Memory>
    ensures { IfOk result (λ b. b ≡ all_differ nat_eq (filter_map (λ k. constant_bits (constant_at names.now k)) (map (λ c. c.value) cases.now))) }
{
    let all = all_case_bits(alloc, names, cases)?;
    let differ = numbers_differ(alloc, all.as_slice())?;
    Ok(differ)
}

/// Whether the cases of a switch differ.
#[tactic(auto, unfolding(ir_rules::specs::Forms::case_values, ir_rules::specs::Reading::all_differ))]
fn cases_differ(alloc: Global, names: &Names, instruction: &Instruction) -> Result<bool, Memory>
    ensures { IfOk result (λ b. b ≡ all_differ nat_eq (filter_map (λ k. constant_bits (constant_at names.now k)) (case_values instruction.now))) }
{
    match instruction {
        Instruction::Switch { cases, .. } => values_differ(alloc, names, cases.as_slice()),
        _ => Ok(true),
    }
}

fn operand_index(names: &Names, argument: Argument) -> Option<u64>
    ensures { result ≡ operand_index (type_at names.now argument.of) (shown_operand names.now argument.value) }
{
    match argument.value {
        Operand::Register(_) => None,
        Operand::Constant(number) => { constant_index(names, argument.of, constant(names, number)) }
    }
}

fn indices(
    alloc: Global,
    names: &Names,
    arguments: &[Argument],
) -> Result<List<Option<u64>>, Memory>
    ensures { IfOk result (λ l. l ≡ map (λ a. operand_index (type_at names.now a.of) (shown_operand names.now a.value)) arguments.now) }
{
    let mut numbers = List::new(alloc);
    for argument in arguments {
        numbers.push(operand_index(names, *argument))?;
    }
    Ok(numbers)
}

#[tactic(auto, using(ir_rules::proofs::CallLemmas::indices_shown))]
fn indices_inside(
    alloc: Global,
    tree: &Module,
    of: TypeId,
    arguments: &[Argument],
) -> Result<bool, Memory>
    ensures { IfOk result (λ b. b ≡ is_inside (path (types_of tree.now) (type_at tree.now.names of) (map (λ a. operand_index a.of a.value) (map (shown_argument tree.now.names) arguments.now)))) }
{
    let numbers = indices(alloc, tree.names(), arguments)?;
    Ok(is_inside(path(tree, of, numbers.as_slice())))
}

/// Whether indices stay inside of structs.
#[tactic(auto, unfolding(ir_rules::specs::Reading::indices_stand, ir_tree::specs::Shown::shown))]
fn indices_stand(alloc: Global, tree: &Module, instruction: &Instruction) -> Result<bool, Memory>
    ensures { IfOk result (λ b. b ≡ indices_stand (types_of tree.now) (shown tree.now.names instruction.now)) }
{
    match instruction {
        Instruction::Address { of, indices, .. } => {
            indices_inside(alloc, tree, *of, indices.as_slice())
        }
        _ => Ok(true),
    }
}

/// Whether an instruction is one of a module that is read from text.
pub fn instruction_stands(
    alloc: Global,
    tree: &Module,
    instruction: &Instruction,
) -> Result<bool, Memory>
    ensures { IfOk result (λ b. b ≡ instruction_stands (types_of tree.now) (shown tree.now.names instruction.now)) }
{
    let names = tree.names();
    let types = register_types(alloc, instruction)?;
    let cases = cases_differ(alloc, names, instruction)?;
    let inside = indices_stand(alloc, tree, instruction)?;
    let registers = are_registers(names, types.as_slice());
    let answer = answer_stands(names, instruction);
    let memory = memory_stands(tree, instruction);
    Ok(registers & answer & memory & cases & inside)
}
