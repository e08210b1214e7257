//! Phis: where they stand, their labels, and their operands.
ghost use Rattle.std.specs.Prelude.{◌≡◌, ◌<◌, ◌&&◌, map, length, Bool, is_some, IfOk};
ghost use Rattle.std.specs.List.{list_all};
ghost use Rattle.ir_tree.specs.Naming.{name_at};
ghost use Rattle.ir_tree.specs.Shown.{shown, shown_arm, shown_function};
ghost use Rattle.ir_rules.specs.Spots.{predecessors, same_names};
ghost use Rattle.ir_rules.specs.Causes.{all_agree, phi_fits};
ghost use Rattle.ir_checker.specs.ConstantClasses.{AreKinds};
ghost use Rattle.ir_checker.specs.Firsts.{first_place};
ghost use Rattle.ir_checker.specs.Keys.{key_of, IsZero};
ghost use Rattle.ir_checker.specs.Entering.{Enter, AreEdges, IsFirstOperand};

use crate::edges::{Edges, entering};
use crate::firsts::Firsts;
use crate::keys::key_of;
use crate::kinds::same_operand;
use ir_tree::instruction::{Arm, Instruction};
use ir_tree::items::Function;
use ir_tree::nodes::NameId;
use ir_tree::table::Names;
use pv_base::list::List;
use pv_base::want::Memory;
use std::alloc::Global;

/// The keys of the labels of arms.
fn arm_keys(alloc: Global, names: &Names, zero: usize, arms: &[Arm]) -> Result<List<usize>, Memory>
    ensures { IfOk result (λ l. l ≡ map (λ a. key_of names.now zero a.from) arms.now) }
{
    let keys = arms
        .iter()
        .map(|a| key_of(names, zero, a.from))
        .collect(alloc)?;
    Ok(List::from_vec(keys))
}

fn all_in(firsts: &Firsts, numbers: &[usize]) -> bool
    ensures { result ≡ list_all (λ k. is_some (first_place k firsts.now)) numbers.now }
{
    numbers.iter().all(|k| firsts.has(*k))
}

fn both(a: bool, b: bool) -> bool
    ensures { result ≡ (a && b) }
{
    a && b
}

/// Whether the arms have the labels of the blocks that are given, and no others.
fn labels_match(
    names: &Names,
    zero: usize,
    function: &Function,
    label: NameId,
    enter: &Firsts,
    from: &Firsts,
    arms: &[Arm],
) -> bool
    requires zero { IsZero names.now zero }
    requires enter { Enter names.now zero function.now label enter.now }
    requires from { from.now ≡ map (λ a. key_of names.now zero a.from) arms.now }
    ensures { result ≡ same_names (map (λ a. a.from) (map (shown_arm names.now) arms.now)) (predecessors (shown_function names.now function.now) (name_at names.now label)) }
{
    let forth = all_in(enter, from.numbers());
    let back = all_in(from, enter.numbers());
    both(forth, back)
}

/// Whether the operand of an arm is that of the first arm of its label.
fn has_first_operand(
    names: &Names,
    kinds: &[usize],
    zero: usize,
    from: &Firsts,
    arms: &[Arm],
    i: usize,
) -> bool
    requires kinds { AreKinds names.now kinds.now }
    requires zero { IsZero names.now zero }
    requires from { from.now ≡ map (λ a. key_of names.now zero a.from) arms.now }
    requires within { i < length arms.now }
    ensures { IsFirstOperand names.now zero from.now arms.now i result }
{
    let arm = &arms[i];
    match from.first(key_of(names, zero, arm.from)) {
        Some(first) => {
            match arms.get(first) {
                Some(other) => same_operand(names, kinds, other.value, arm.value),
                None => true,
            }
        }
        None => true,
    }
}

/// Whether the operands of a phi for one block are one operand.
fn all_agree(names: &Names, kinds: &[usize], zero: usize, from: &Firsts, arms: &[Arm]) -> bool
    requires kinds { AreKinds names.now kinds.now }
    requires zero { IsZero names.now zero }
    requires from { from.now ≡ map (λ a. key_of names.now zero a.from) arms.now }
    ensures { result ≡ all_agree (map (shown_arm names.now) arms.now) }
{
    for i in 0..arms.len() {
        if !has_first_operand(names, kinds, zero, from, arms, i) {
            return false;
        }
    }
    true
}

#[tactic(auto, using(crate::proofs::PhiLemmas::from_shown))]
fn arms_fit(
    alloc: Global,
    names: &Names,
    kinds: &[usize],
    function: &Function,
    edges: &Edges,
    label: NameId,
    behind: bool,
    arms: &[Arm],
) -> Result<bool, Memory>
    requires kinds { AreKinds names.now kinds.now }
    requires edges { AreEdges names.now function.now edges.now }
    ensures { IfOk result (λ b. b ≡ (behind && same_names (map (λ a. a.from) (map (shown_arm names.now) arms.now)) (predecessors (shown_function names.now function.now) (name_at names.now label)) && all_agree (map (shown_arm names.now) arms.now))) }
{
    let keys = arm_keys(alloc, names, edges.zero, arms)?;
    let from = Firsts::new(alloc, keys)?;
    let enter = entering(alloc, names, function, edges, label)?;
    let labels = labels_match(names, edges.zero, function, label, &enter, &from, arms);
    Ok(behind && labels && all_agree(names, kinds, edges.zero, &from, arms))
}

/// Whether a phi of the block of a label stands behind phis alone, has the labels of the blocks with an edge to its block,
/// and one operand for each. `behind` says whether only phis stand before it.
#[tactic(auto, unfolding(ir_rules::specs::Causes::phi_fits, ir_tree::specs::Shown::shown))]
pub fn phi_fits(
    alloc: Global,
    names: &Names,
    kinds: &[usize],
    function: &Function,
    edges: &Edges,
    label: NameId,
    behind: bool,
    instruction: &Instruction,
) -> Result<bool, Memory>
    requires kinds { AreKinds names.now kinds.now }
    requires edges { AreEdges names.now function.now edges.now }
    ensures { (entry last : Bool) → IfOk result (λ b. b ≡ phi_fits (shown_function names.now function.now) (record { instruction = shown names.now instruction.now; label = name_at names.now label; entry = entry; behind_phis = behind; last = last }) (shown names.now instruction.now)) }
{
    match instruction {
        Instruction::Phi { arms, .. } => arms_fit(
            alloc,
            names,
            kinds,
            function,
            edges,
            label,
            behind,
            arms.as_slice(),
        ),
        _ => Ok(true),
    }
}
