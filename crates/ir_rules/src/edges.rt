//! Terminators, the edges between blocks, and allocations.
ghost use Rattle.std.specs.Prelude.{◌≡◌, not, map, option_map, IfOk};
ghost use Rattle.std.specs.List.{list_all};
ghost use Rattle.ir_tree.specs.Table.{Table};
ghost use Rattle.ir_tree.specs.Naming.{name_at};
ghost use Rattle.ir_tree.specs.Shown.{shown, shown_operand, shown_argument, shown_block, shown_function};
ghost use Rattle.ir_rules.specs.Same.{same_bool};
ghost use Rattle.ir_rules.specs.Forms.{is_terminator};
ghost use Rattle.ir_rules.specs.Spots.{is_entry};
ghost use Rattle.ir_rules.specs.Causes.{spares_entry, is_constant, count_is_constant, alloca_fits};

use crate::forms::is_terminator;
use crate::labels::targets;
use crate::types::same_name;
use ir_tree::instruction::{Argument, Instruction, Operand};
use ir_tree::items::{Block, Function};
use ir_tree::nodes::NameId;
use ir_tree::table::Names;
use pv_base::want::Memory;
use std::alloc::Global;

/// Whether an instruction is a terminator exactly where it is the last of its block.
#[tactic(auto, using(crate::proofs::ShownLemmas::terminator_shown))]
pub fn terminates(instruction: &Instruction, last: bool) -> bool
    ensures { (t : Table) → result ≡ same_bool (is_terminator (shown t instruction.now)) last }
{
    is_terminator(instruction) == last
}

/// Whether the entry block has this label.
#[tactic(auto, using(crate::proofs::EdgeLemmas::entry_some, crate::proofs::EdgeLemmas::entry_none))]
fn is_entry(names: &Names, blocks: &[Block], label: NameId) -> bool
    ensures { result ≡ is_entry (map (shown_block names.now) blocks.now) (name_at names.now label) }
{
    match blocks.get(0) {
        Some(entry) => same_name(names, entry.label, label),
        None => false,
    }
}

fn none_is_entry(names: &Names, blocks: &[Block], labels: &[NameId]) -> bool
    ensures { result ≡ list_all (λ l. not (is_entry (map (shown_block names.now) blocks.now) (name_at names.now l))) labels.now }
{
    labels.iter().all(|l| !is_entry(names, blocks, *l))
}

/// Whether no edge of an instruction goes to the entry block.
#[tactic(auto, using(crate::proofs::EdgeLemmas::spares_is))]
pub fn spares_entry(
    alloc: Global,
    names: &Names,
    function: &Function,
    instruction: &Instruction,
) -> Result<bool, Memory>
    ensures { IfOk result (λ b. b ≡ spares_entry (shown_function names.now function.now) (shown names.now instruction.now)) }
{
    let labels = targets(alloc, instruction)?;
    Ok(none_is_entry(names, function.blocks.as_slice(), labels.as_slice()))
}

fn is_constant(operand: Operand) -> bool
    ensures { (t : Table) → result ≡ is_constant (shown_operand t operand) }
{
    match operand {
        Operand::Register(_) => false,
        Operand::Constant(_) => true,
    }
}

fn count_is_constant(count: Option<Argument>) -> bool
    ensures { (t : Table) → result ≡ count_is_constant (option_map (shown_argument t) count) }
{
    match count {
        Some(count) => is_constant(count.value),
        None => true,
    }
}

/// Whether an `alloca` stands in the entry block, and its count is a constant.
#[tactic(auto, unfolding(crate::specs::Causes::alloca_fits, ir_tree::specs::Shown::shown))]
pub fn alloca_fits(entry: bool, instruction: &Instruction) -> bool
    ensures { (t : Table) → result ≡ alloca_fits entry (shown t instruction.now) }
{
    match instruction {
        Instruction::Alloca { count, .. } => entry && count_is_constant(*count),
        _ => true,
    }
}
