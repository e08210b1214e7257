//! Whether a function is one of a module that is read from text.
ghost use Rattle.std.specs.Prelude.{◌≡◌, nat_le, is_some, map, IfOk};
ghost use Rattle.std.specs.List.{list_all};
ghost use Rattle.ir_tree.specs.Naming.{type_at};
ghost use Rattle.ir_tree.specs.Modules.{types_of};
ghost use Rattle.ir_tree.specs.Shown.{shown, shown_function};
ghost use Rattle.ir_rules.specs.Defining.{defined};
ghost use Rattle.ir_rules.specs.Spots.{instruction_count};
ghost use Rattle.ir_rules.specs.Reading.{names_differ, is_register, form_stands, counts_stand, instruction_stands, function_stands};

use crate::differing::names_differ;
use crate::instructions::instruction_stands;
use ir_rules::defining::defined;
use ir_rules::given::Defined;
use ir_rules::types::{is_answer, is_register};
use ir_tree::instruction::Instruction;
use ir_tree::items::{Block, Function, Param};
use ir_tree::nodes::NameId;
use ir_tree::table::Names;
use ir_tree::whole::Module;
use pv_base::list::List;
use pv_base::want::Memory;
use std::alloc::Global;

fn are_registers(names: &Names, params: &[Param]) -> bool
    ensures { result ≡ list_all (λ p. is_register (type_at names.now p.of)) params.now }
{
    params.iter().all(|p| is_register(names, p.of))
}

fn all_named(params: &[Param]) -> bool
    ensures { result ≡ list_all (λ p. is_some p.name) params.now }
{
    params.iter().all(|p| p.name.is_some())
}

/// Whether a function that is declared has no blocks, and another takes no further arguments and names its parameters.
#[tactic(auto, using(crate::proofs::FunctionLemmas::form_declared, crate::proofs::FunctionLemmas::form_defined))]
fn form_stands(names: &Names, function: &Function) -> bool
    ensures { result ≡ form_stands (shown_function names.now function.now) }
{
    if function.declared {
        function.blocks.len() == 0
    } else {
        !function.variadic && all_named(function.params.as_slice())
    }
}

fn names_of(alloc: Global, all: &[Defined]) -> Result<List<NameId>, Memory>
    ensures { IfOk result (λ l. l ≡ map (λ d. d.name) all.now) }
{
    let names = all.iter().map(|d| d.name).collect(alloc)?;
    Ok(List::from_vec(names))
}

/// Whether a function defines no name twice.
#[tactic(auto, using(crate::proofs::FunctionLemmas::names_are))]
fn names_stand(alloc: Global, names: &Names, function: &Function) -> Result<bool, Memory>
    ensures { IfOk result (λ b. b ≡ names_differ (map (λ d. d.name) (defined (shown_function names.now function.now)))) }
{
    let all = defined(alloc, function)?;
    let numbers = names_of(alloc, all.as_slice())?;
    let differ = names_differ(alloc, names, numbers.as_slice())?;
    Ok(differ)
}

/// Whether blocks have fewer than 2^32 instructions together.
fn count_below(blocks: &[Block]) -> bool
    ensures { result ≡ nat_le (instruction_count blocks.now) 4294967295 }
{
    let mut left: usize = 4294967295;
    for block in blocks {
        let count = block.instructions.len();
        if count > left {
            return false;
        }
        left -= count;
    }
    true
}

/// Whether the counts of a function are below their limits.
#[tactic(auto, using(crate::proofs::FunctionLemmas::counts_are))]
fn counts_stand(names: &Names, function: &Function) -> bool
    ensures { result ≡ counts_stand (shown_function names.now function.now) }
{
    let blocks = function.blocks.as_slice();
    blocks.len() < 4294967296 && count_below(blocks)
}

#[tactic(auto, using(crate::proofs::WithinLemmas::all_stop, crate::proofs::WithinLemmas::all_more, crate::proofs::WithinLemmas::all_end))]
fn instructions_stand(
    alloc: Global,
    tree: &Module,
    instructions: &[Instruction],
) -> Result<bool, Memory>
    ensures { IfOk result (λ b. b ≡ list_all (λ i. instruction_stands (types_of tree.now) (shown tree.now.names i)) instructions.now) }
{
    for instruction in instructions {
        let stands = instruction_stands(alloc, tree, instruction)?;
        if !stands {
            return Ok(false);
        }
    }
    Ok(true)
}

#[tactic(auto, using(crate::proofs::WithinLemmas::all_stop, crate::proofs::WithinLemmas::all_more, crate::proofs::WithinLemmas::all_end))]
fn blocks_stand(alloc: Global, tree: &Module, blocks: &[Block]) -> Result<bool, Memory>
    ensures { IfOk result (λ r. r ≡ list_all (λ b. list_all (λ i. instruction_stands (types_of tree.now) (shown tree.now.names i)) b.instructions) blocks.now) }
{
    for block in blocks {
        let stands = instructions_stand(alloc, tree, block.instructions.as_slice())?;
        if !stands {
            return Ok(false);
        }
    }
    Ok(true)
}

/// Whether a function is one of a module that is read from text.
#[tactic(auto, using(crate::proofs::FunctionLemmas::function_is))]
pub fn function_stands(alloc: Global, tree: &Module, function: &Function) -> Result<bool, Memory>
    ensures { IfOk result (λ b. b ≡ function_stands (types_of tree.now) (shown_function tree.now.names function.now)) }
{
    let names = tree.names();
    let answer = is_answer(names, function.result);
    let params = are_registers(names, function.params.as_slice());
    let differ = names_stand(alloc, names, function)?;
    let form = form_stands(names, function);
    let counts = counts_stand(names, function);
    let blocks = blocks_stand(alloc, tree, function.blocks.as_slice())?;
    Ok(answer & params & differ & form & counts & blocks)
}
