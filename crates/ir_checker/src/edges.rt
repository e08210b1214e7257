//! The edges of a function, by the blocks to which they go.
ghost use Rattle.std.specs.Prelude.{◌≡◌, ℕ, Bool, true, not, ◌&&◌, ◌||◌, nat_eq, unwrap_or, [], IfOk};
ghost use Rattle.std.specs.List.{list_all};
ghost use Rattle.ir_rules.specs.Forms.{targets};
ghost use Rattle.ir_checker.specs.Keys.{key_of, IsZero};
ghost use Rattle.ir_checker.specs.Entering.{list_at, AreEdges, Enter};

use crate::firsts::Firsts;
use crate::keys::key_of;
use ir_rules::labels::targets;
use ir_tree::instruction::Instruction;
use ir_tree::items::{Block, Function};
use ir_tree::nodes::NameId;
use ir_tree::table::Names;
use pv_base::list::List;
use pv_base::want::Memory;
use std::alloc::Global;
use std::collections::BTreeMap;

#[derive(Drop)]
pub struct Edges {
    /// The key of the name 0.
    pub zero: usize,
    /// At the key of a label the keys of the labels of the blocks with an edge to its block.
    pub to: BTreeMap<usize, List<usize>>,
}

/// Whether a list ends in a number.
fn ends_in(list: &List<usize>, number: usize) -> bool
    ensures { result ≡ true → (p : ℕ → Bool) → (list_all p list.now && p number) ≡ list_all p list.now }
{
    if list.len() == 0 {
        return false;
    }
    let last = *list.at(list.len() - 1);
    last == number
}

/// A list with one more number, unless it ends in that number.
fn with_last(mut list: List<usize>, number: usize) -> Result<List<usize>, Memory>
    ensures { IfOk result (λ l. (p : ℕ → Bool) → list_all p l ≡ (list_all p list && p number)) }
{
    if ends_in(&list, number) {
        return Ok(list);
    }
    list.push(number)?;
    Ok(list)
}

fn taken(alloc: Global, found: Option<List<usize>>) -> List<usize>
    ensures { result ≡ unwrap_or found [] }
{
    match found {
        Some(list) => list,
        None => List::new(alloc),
    }
}

/// The lists with one more edge.
fn with_edge(
    alloc: Global,
    mut to: BTreeMap<usize, List<usize>>,
    key: usize,
    from: usize,
) -> Result<BTreeMap<usize, List<usize>>, Memory>
    ensures { IfOk result (λ m. (q : ℕ) (p : ℕ → Bool) → list_all p (list_at m q) ≡ (list_all p (list_at to q) && (not (nat_eq q key) || p from))) }
{
    let found = to.remove(&key);
    let list = with_last(taken(alloc, found), from)?;
    match to.insert(key, list) {
        Ok(_) => Ok(to),
        Err(_) => Err(Memory),
    }
}

fn with_targets(
    alloc: Global,
    mut to: BTreeMap<usize, List<usize>>,
    names: &Names,
    zero: usize,
    from: usize,
    targets: &[NameId],
) -> Result<BTreeMap<usize, List<usize>>, Memory>
    ensures { IfOk result (λ m. (q : ℕ) (p : ℕ → Bool) → list_all p (list_at m q) ≡ (list_all p (list_at to q) && list_all (λ k. not (nat_eq q (key_of names.now zero k)) || p from) targets.now)) }
{
    for target in targets {
        to = with_edge(alloc, to, key_of(names, zero, *target), from)?;
    }
    Ok(to)
}

fn with_instructions(
    alloc: Global,
    mut to: BTreeMap<usize, List<usize>>,
    names: &Names,
    zero: usize,
    from: usize,
    instructions: &[Instruction],
) -> Result<BTreeMap<usize, List<usize>>, Memory>
    ensures { IfOk result (λ m. (q : ℕ) (p : ℕ → Bool) → list_all p (list_at m q) ≡ (list_all p (list_at to q) && list_all (λ i. list_all (λ k. not (nat_eq q (key_of names.now zero k)) || p from) (targets i)) instructions.now)) }
{
    for instruction in instructions {
        let labels = targets(alloc, instruction)?;
        to = with_targets(alloc, to, names, zero, from, labels.as_slice())?;
    }
    Ok(to)
}

fn with_blocks(
    alloc: Global,
    names: &Names,
    zero: usize,
    blocks: &[Block],
) -> Result<BTreeMap<usize, List<usize>>, Memory>
    ensures { IfOk result (λ m. (q : ℕ) (p : ℕ → Bool) → list_all p (list_at m q) ≡ list_all (λ b. list_all (λ i. list_all (λ k. not (nat_eq q (key_of names.now zero k)) || p (key_of names.now zero b.label)) (targets i)) b.instructions) blocks.now) }
{
    let mut to = BTreeMap::new(alloc);
    for block in blocks {
        let from = key_of(names, zero, block.label);
        to = with_instructions(alloc, to, names, zero, from, block.instructions.as_slice())?;
    }
    Ok(to)
}

/// The edges of a function.
pub fn find_edges(
    alloc: Global,
    names: &Names,
    zero: usize,
    function: &Function,
) -> Result<Edges, Memory>
    requires { IsZero names.now zero }
    ensures { IfOk result (AreEdges names.now function.now) }
{
    let to = with_blocks(alloc, names, zero, function.blocks.as_slice())?;
    Ok(Edges { zero, to })
}

fn copy_at(
    alloc: Global,
    to: &BTreeMap<usize, List<usize>>,
    key: usize,
) -> Result<List<usize>, Memory>
    ensures { IfOk result (λ l. l ≡ list_at to.now key) }
{
    match to.get(&key) {
        Some(list) => List::from_slice(alloc, list.as_slice()),
        None => Ok(List::new(alloc)),
    }
}

/// The keys of the blocks with an edge to the one of a label.
pub fn entering(
    alloc: Global,
    names: &Names,
    function: &Function,
    edges: &Edges,
    label: NameId,
) -> Result<Firsts, Memory>
    requires { AreEdges names.now function.now edges.now }
    ensures { IfOk result (Enter names.now edges.now.zero function.now label) }
{
    let key = key_of(names, edges.zero, label);
    let list = copy_at(alloc, &edges.to, key)?;
    let enter = Firsts::new(alloc, list)?;
    Ok(enter)
}
