//! Which constants of a table are the same: found once by their keys, from the first constant on, and compared by number from then on.
ghost use Rattle.std.specs.Prelude.{◌≡◌, ◌<◌, ◌≤◌, ◌+◌, ◌++◌, ◌∷◌, [], length, slice_get, Some, IfOk};
ghost use Rattle.ir_tree.specs.Naming.{constant_at};
ghost use Rattle.ir_tree.specs.Shown.{shown_operand};
ghost use Rattle.ir_rules.specs.Same.{same_operand};
ghost use Rattle.ir_rules.specs.Classes.{AreClasses};
ghost use Rattle.ir_checker.specs.ConstantClasses.{KindsBelow, AreKinds, IsNextKind};
ghost use Rattle.ir_checker.specs.ConstantKeys.{Keyed};

use crate::constant_keys::{ConstantKey, ConstantKeys, constant_key};
use ir_rules::classes::class_at;
use ir_rules::types::same_name;
use ir_tree::instruction::Operand;
use ir_tree::nodes::ConstantNode;
use ir_tree::table::Names;
use pv_base::list::List;
use pv_base::want::Memory;
use std::alloc::Global;

/// The keys before the first constant: the one of `null`, which has the class 0.
fn first_keys(alloc: Global, names: &Names, classes: &[usize]) -> Result<ConstantKeys, Memory>
    ensures { IfOk result (Keyed names.now classes.now []) }
{
    let mut keys = ConstantKeys::new(alloc);
    keys.number(ConstantKey::Null)?;
    Ok(keys)
}

/// A class for the constant behind those that have one: the number of its key.
fn kind_of(
    alloc: Global,
    names: &Names,
    classes: &[usize],
    kinds: &[usize],
    keys: &mut ConstantKeys,
    node: &ConstantNode,
) -> Result<usize, Memory>
    requires classes { AreClasses names.now classes.now }
    requires below { KindsBelow names.now kinds.now }
    requires keyed { Keyed names.now classes.now kinds.now keys.old }
    requires node { slice_get names.now.constants (length kinds.now) ≡ Some node.now }
    ensures class { IfOk result (IsNextKind names.now kinds.now (constant_at names.now (length kinds.now))) }
    ensures most { IfOk result (λ k. k ≤ length kinds.now + 1) }
    ensures keyed { IfOk result (λ k. Keyed names.now classes.now (kinds.now ++ k ∷ []) keys.new) }
{
    names.is_table();
    let key = constant_key(alloc, classes, kinds, node)?;
    let kind = keys.number(key)?;
    Ok(kind)
}

/// The same, where the constant is found by its number.
fn next_kind(
    alloc: Global,
    names: &Names,
    classes: &[usize],
    kinds: &[usize],
    keys: &mut ConstantKeys,
) -> Result<usize, Memory>
    requires classes { AreClasses names.now classes.now }
    requires below { KindsBelow names.now kinds.now }
    requires keyed { Keyed names.now classes.now kinds.now keys.old }
    requires more { length kinds.now < length names.now.constants }
    ensures class { IfOk result (IsNextKind names.now kinds.now (constant_at names.now (length kinds.now))) }
    ensures most { IfOk result (λ k. k ≤ length kinds.now + 1) }
    ensures keyed { IfOk result (λ k. Keyed names.now classes.now (kinds.now ++ k ∷ []) keys.new) }
{
    names.is_table();
    match names.constant_node(kinds.len() as u32) {
        Some(node) => kind_of(alloc, names, classes, kinds, keys, node),
        None => unreachable!(),
    }
}

/// The classes of all constants.
pub fn constant_kinds(
    alloc: Global,
    names: &Names,
    classes: &[usize],
) -> Result<List<usize>, Memory>
    requires { AreClasses names.now classes.now }
    ensures { IfOk result (AreKinds names.now) }
{
    let mut keys = first_keys(alloc, names, classes)?;
    let mut kinds = List::new(alloc);
    for _number in 0..names.constant_count() {
        let kind = next_kind(alloc, names, classes, kinds.as_slice(), &mut keys)?;
        kinds.push(kind)?;
    }
    Ok(kinds)
}

/// Whether two operands are written alike.
pub fn same_operand(names: &Names, kinds: &[usize], a: Operand, b: Operand) -> bool
    requires { AreKinds names.now kinds.now }
    ensures { result ≡ same_operand (shown_operand names.now a) (shown_operand names.now b) }
{
    match (a, b) {
        (Operand::Register(a), Operand::Register(b)) => same_name(names, a, b),
        (Operand::Constant(a), Operand::Constant(b)) => class_at(kinds, a) == class_at(kinds, b),
        _ => false,
    }
}
