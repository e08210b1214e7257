//! Functions with their names resolved.
ghost use Rattle.std.specs.Prelude.{◌≡◌, ◌+◌, ◌<◌, ◌^◌, ◌++◌, IfOk, OnOk, length, map, Some};
ghost use Rattle.std.specs.List.{flat_map};
ghost use Rattle.ir_code.specs.Tables.{scalar_or_pointer, linkage_of};
ghost use Rattle.ir_code.specs.Blocks.{joins_of, edges_of, block_of, blocks_from, registers_of};
ghost use Rattle.ir_code.specs.Fitting.{BlocksFit};
ghost use Rattle.ir_code.specs.Coding.{scope_of, function_of};

use crate::code::{BlockCode, Edge, FunctionCode};
use crate::edges::add_edges;
use crate::exits::Exits;
use crate::joins::joins;
use crate::lookups::{Linkage, Lookups, external_of};
use crate::op::Scalar;
use crate::ops::ops_of;
use crate::places::Places;
use crate::registers::registers_of;
use crate::scope::{Scope, all_joins};
use ir_tree::items::{Block, Function, Param};
use ir_tree::whole::Module;
use pv_base::list::List;
use pv_base::want::Memory;
use std::alloc::Global;

/// How many numbers there are.
const NUMBERS: usize = 4294967296;

/// A block behind so many instructions, and its edges behind those of other blocks.
fn block_of(
    alloc: Global,
    module: &Module,
    lookups: &Lookups,
    scope: &Scope,
    first: usize,
    block: &Block,
    edges: &mut List<Edge>,
) -> Result<BlockCode, Memory>
    requires { length lookups.now.sizes ≡ length «module».now.names.types }
    ensures code { IfOk result (λ b. b ≡ block_of «module».now lookups.now scope.now first (length edges.old) block.now) }
    ensures edges { OnOk result (edges.new ≡ edges.old ++ edges_of lookups.now scope.now block.now) }
    ensures count { OnOk result (first + length block.now.instructions < 2 ^ 32) }
    ensures fits { IfOk result (λ b. b.first + length b.ops < 2 ^ 32) }
{
    let instructions = block.instructions.as_slice();
    let first_edge = edges.len();
    let targets = add_edges(alloc, lookups, scope, block.label, instructions, edges)?;
    if first >= NUMBERS || instructions.len() >= NUMBERS - first || edges.len() >= NUMBERS {
        return Err(Memory);
    }
    let count = joins(alloc, instructions)?.len();
    let exits = Exits {
        first: first_edge as u32,
        targets,
    };
    let ops = ops_of(alloc, module, lookups, scope, &exits, count, instructions)?;
    Ok(BlockCode {
        first: first as u32,
        phis: count as u32,
        ops,
    })
}

/// The blocks of a function, and their edges behind others.
fn blocks_of(
    alloc: Global,
    module: &Module,
    lookups: &Lookups,
    scope: &Scope,
    all: &[Block],
    edges: &mut List<Edge>,
) -> Result<List<BlockCode>, Memory>
    requires { length lookups.now.sizes ≡ length «module».now.names.types }
    ensures code { IfOk result (λ bs. bs ≡ blocks_from «module».now lookups.now scope.now 0 (length edges.old) all.now) }
    ensures edges { OnOk result (edges.new ≡ edges.old ++ flat_map (edges_of lookups.now scope.now) all.now) }
    ensures fits { IfOk result BlocksFit }
{
    let mut blocks = List::new(alloc);
    let mut first = 0;
    for block in all {
        let code = block_of(alloc, module, lookups, scope, first, block, edges)?;
        blocks.push(code)?;
        first += block.instructions.len();
    }
    Ok(blocks)
}

fn labels_of(alloc: Global, blocks: &[Block]) -> Result<Places, Memory>
    ensures { IfOk result (λ p. p ≡ map (λ b. Some b.label) blocks.now) }
{
    let mut labels = Places::new(alloc);
    for block in blocks {
        labels.add(Some(block.label))?;
    }
    Ok(labels)
}

fn parameters_of(alloc: Global, lookups: &Lookups, params: &[Param]) -> Result<List<Scalar>, Memory>
    ensures { IfOk result (λ ts. ts ≡ map (λ p. scalar_or_pointer lookups.now p.of) params.now) }
{
    let mut types = List::new(alloc);
    for param in params {
        types.push(lookups.scalar_or_pointer(param.of))?;
    }
    Ok(types)
}

/// The blocks of a function, and their edges.
fn blocks_and_edges(
    alloc: Global,
    module: &Module,
    lookups: &Lookups,
    scope: &Scope,
    all: &[Block],
) -> Result<(List<BlockCode>, List<Edge>), Memory>
    requires { length lookups.now.sizes ≡ length «module».now.names.types }
    ensures blocks { IfOk result (λ p. p.0 ≡ blocks_from «module».now lookups.now scope.now 0 0 all.now) }
    ensures edges { IfOk result (λ p. p.1 ≡ flat_map (edges_of lookups.now scope.now) all.now) }
    ensures fits { IfOk result (λ p. BlocksFit p.0) }
{
    let mut edges = List::new(alloc);
    let blocks = blocks_of(alloc, module, lookups, scope, all, &mut edges)?;
    Ok((blocks, edges))
}

/// What the instructions of a function are resolved in, and the types of its registers.
fn scope_of(
    alloc: Global,
    lookups: &Lookups,
    function: &Function,
) -> Result<(Scope, List<Scalar>), Memory>
    ensures scope { IfOk result (λ p. p.0 ≡ scope_of lookups.now function.now) }
    ensures types { IfOk result (λ p. p.1 ≡ map (λ r. r.of) (registers_of lookups.now function.now)) }
{
    let blocks = function.blocks.as_slice();
    let labels = labels_of(alloc, blocks)?;
    let joins = all_joins(alloc, blocks)?;
    let registers = registers_of(alloc, lookups, function)?;
    let types = registers.types(alloc)?;
    let scope = Scope {
        registers: registers.into_names(),
        labels,
        joins,
    };
    Ok((scope, types))
}

/// A function that is linked so.
pub(crate) fn function_of(
    alloc: Global,
    module: &Module,
    lookups: &Lookups,
    function: &Function,
    linkage: Linkage,
) -> Result<FunctionCode, Memory>
    requires sizes { length lookups.now.sizes ≡ length «module».now.names.types }
    requires linkage { linkage ≡ linkage_of «module».now.names function.now }
    ensures code { IfOk result (λ f. f ≡ function_of «module».now lookups.now function.now) }
    ensures fits { IfOk result (λ f. BlocksFit f.blocks) }
{
    let all = function.blocks.as_slice();
    let parameters = parameters_of(alloc, lookups, function.params.as_slice())?;
    let (scope, registers) = scope_of(alloc, lookups, function)?;
    let (blocks, edges) = blocks_and_edges(alloc, module, lookups, &scope, all)?;
    Ok(FunctionCode {
        parameters,
        result: lookups.scalar(function.result),
        registers,
        blocks,
        edges,
        external: external_of(linkage),
        declared: function.declared,
    })
}
