//! The edges of a block.
ghost use Rattle.std.specs.Prelude.{◌≡◌, ◌∷◌, [], IfOk, OnOk, map, slice_index_or};
ghost use Rattle.std.specs.List.{flat_map};
ghost use Rattle.ir_code.specs.Options.{every};
ghost use Rattle.ir_code.specs.Blocks.{exits_of, move_of, edge_to};
ghost use Rattle.ir_code.specs.Adding.{AddsTarget, Adds};

use crate::code::{Edge, Move};
use crate::joins::moves;
use crate::lookups::Lookups;
use crate::places::Places;
use crate::scope::Scope;
use ir_tree::instruction::{Case, Instruction};
use ir_tree::nodes::NameId;
use pv_base::list::List;
use pv_base::want::Memory;
use std::alloc::Global;

/// The edge from the block of a label to the block of a number, where the phis there can be resolved.
fn edge_to(
    alloc: Global,
    lookups: &Lookups,
    scope: &Scope,
    label: NameId,
    to: u32,
) -> Result<Option<Edge>, Memory>
    ensures { IfOk result (λ e. e ≡ edge_to lookups.now scope.now label to) }
{
    let moves = match scope.joins.as_slice().get(to as usize) {
        Some(joins) => moves(alloc, lookups, &scope.registers, label, joins.as_slice())?,
        None => Some(List::new(alloc)),
    };
    match moves {
        Some(moves) => Ok(Some(Edge { to, moves })),
        None => Ok(None),
    }
}

/// Adds the edge to the block of a number, where none leads there yet.
fn add_target(
    alloc: Global,
    lookups: &Lookups,
    scope: &Scope,
    label: NameId,
    to: u32,
    edges: &mut List<Edge>,
    targets: &mut Places,
) -> Result<(), Memory>
    ensures { OnOk result (AddsTarget lookups.now scope.now label to edges.old targets.old edges.new targets.new) }
{
    if targets.place(to).is_some() {
        return Ok(());
    }
    match edge_to(alloc, lookups, scope, label, to)? {
        Some(edge) => {
            targets.add(Some(to))?;
            edges.push(edge)
        }
        None => Ok(()),
    }
}

/// Adds the edge to the block of a label.
fn add_exit(
    alloc: Global,
    lookups: &Lookups,
    scope: &Scope,
    label: NameId,
    exit: NameId,
    edges: &mut List<Edge>,
    targets: &mut Places,
) -> Result<(), Memory>
    ensures { OnOk result (Adds lookups.now scope.now label (exit ∷ []) edges.old targets.old edges.new targets.new) }
{
    match scope.labels.place(exit) {
        Some(to) => add_target(alloc, lookups, scope, label, to, edges, targets),
        None => Ok(()),
    }
}

/// Adds the edges of the cases of a switch.
fn add_cases(
    alloc: Global,
    lookups: &Lookups,
    scope: &Scope,
    label: NameId,
    cases: &[Case],
    edges: &mut List<Edge>,
    targets: &mut Places,
) -> Result<(), Memory>
    ensures { OnOk result (Adds lookups.now scope.now label (map (λ c. c.to) cases.now) edges.old targets.old edges.new targets.new) }
{
    for case in cases {
        add_exit(alloc, lookups, scope, label, case.to, edges, targets)?;
    }
    Ok(())
}

/// Adds the edges of an instruction.
fn add_exits(
    alloc: Global,
    lookups: &Lookups,
    scope: &Scope,
    label: NameId,
    instruction: &Instruction,
    edges: &mut List<Edge>,
    targets: &mut Places,
) -> Result<(), Memory>
    ensures { OnOk result (Adds lookups.now scope.now label (exits_of instruction.now) edges.old targets.old edges.new targets.new) }
{
    match instruction {
        Instruction::Jump { target } => {
            add_exit(alloc, lookups, scope, label, *target, edges, targets)
        }
        Instruction::Branch {
            condition: _,
            on_true,
            on_false,
        } => {
            add_exit(alloc, lookups, scope, label, *on_true, edges, targets)?;
            add_exit(alloc, lookups, scope, label, *on_false, edges, targets)
        }
        Instruction::Switch {
            of: _,
            value: _,
            default,
            cases,
        } => {
            add_exit(alloc, lookups, scope, label, *default, edges, targets)?;
            add_cases(
                alloc,
                lookups,
                scope,
                label,
                cases.as_slice(),
                edges,
                targets,
            )
        }
        _ => Ok(()),
    }
}

/// Adds the edges of a block with this label behind those of other blocks. Answers where they lead.
pub(crate) fn add_edges(
    alloc: Global,
    lookups: &Lookups,
    scope: &Scope,
    label: NameId,
    instructions: &[Instruction],
    edges: &mut List<Edge>,
) -> Result<Places, Memory>
    ensures { IfOk result (λ targets. Adds lookups.now scope.now label (flat_map exits_of instructions.now) edges.old [] edges.new targets) }
{
    let mut targets = Places::new(alloc);
    for instruction in instructions {
        add_exits(
            alloc,
            lookups,
            scope,
            label,
            instruction,
            edges,
            &mut targets,
        )?;
    }
    Ok(targets)
}
