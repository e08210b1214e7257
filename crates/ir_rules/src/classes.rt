//! Which types of a table are the same: found once by their keys, from the first type on, and compared by number from then on.
ghost use Rattle.std.specs.Prelude.{◌≡◌, ◌<◌, ◌≤◌, ◌+◌, ◌++◌, ◌∷◌, [], length, slice_get, Some, IfOk};
ghost use Rattle.ir_tree.specs.Naming.{type_at};
ghost use Rattle.ir_rules.specs.Same.{same_type};
ghost use Rattle.ir_rules.specs.Classes.{class_at, ClassesBelow, AreClasses, IsNextClass};
ghost use Rattle.ir_rules.specs.TypeKeys.{Keyed};

use crate::type_keys::{TypeKey, TypeKeys, type_key};
use ir_tree::nodes::{TypeId, TypeNode};
use ir_tree::table::Names;
use pv_base::list::List;
use pv_base::want::Memory;
use std::alloc::Global;

/// The class of a number, 0 where it has none.
pub fn class_at(classes: &[usize], number: u32) -> usize
    ensures { result ≡ class_at classes.now number }
{
    match classes.get(number as usize) {
        Some(class) => *class,
        None => 0,
    }
}

/// The keys before the first type: the one of `ptr`, which has the class 0.
fn first_keys(alloc: Global, names: &Names) -> Result<TypeKeys, Memory>
    ensures { IfOk result (Keyed names.now []) }
{
    let mut keys = TypeKeys::new(alloc);
    keys.number(TypeKey::Ptr)?;
    Ok(keys)
}

/// A class for the type behind those that have one: the number of its key.
fn class_of(
    alloc: Global,
    names: &Names,
    classes: &[usize],
    keys: &mut TypeKeys,
    node: &TypeNode,
) -> Result<usize, Memory>
    requires below { ClassesBelow names.now classes.now }
    requires keyed { Keyed names.now classes.now keys.old }
    requires node { slice_get names.now.types (length classes.now) ≡ Some node.now }
    ensures class { IfOk result (IsNextClass names.now classes.now (type_at names.now (length classes.now))) }
    ensures most { IfOk result (λ k. k ≤ length classes.now + 1) }
    ensures keyed { IfOk result (λ k. Keyed names.now (classes.now ++ k ∷ []) keys.new) }
{
    names.is_table();
    let key = type_key(alloc, classes, node)?;
    let class = keys.number(key)?;
    Ok(class)
}

/// The same, where the type is found by its number.
fn next_class(
    alloc: Global,
    names: &Names,
    classes: &[usize],
    keys: &mut TypeKeys,
) -> Result<usize, Memory>
    requires below { ClassesBelow names.now classes.now }
    requires keyed { Keyed names.now classes.now keys.old }
    requires more { length classes.now < length names.now.types }
    ensures class { IfOk result (IsNextClass names.now classes.now (type_at names.now (length classes.now))) }
    ensures most { IfOk result (λ k. k ≤ length classes.now + 1) }
    ensures keyed { IfOk result (λ k. Keyed names.now (classes.now ++ k ∷ []) keys.new) }
{
    names.is_table();
    match names.type_node(classes.len() as u32) {
        Some(node) => class_of(alloc, names, classes, keys, node),
        None => unreachable!(),
    }
}

/// The classes of all types.
pub fn type_classes(alloc: Global, names: &Names) -> Result<List<usize>, Memory>
    ensures { IfOk result (AreClasses names.now) }
{
    let mut keys = first_keys(alloc, names)?;
    let mut classes = List::new(alloc);
    for _number in 0..names.type_count() {
        let class = next_class(alloc, names, classes.as_slice(), &mut keys)?;
        classes.push(class)?;
    }
    Ok(classes)
}

/// Whether two numbers are of one type.
pub fn same_type(names: &Names, classes: &[usize], a: TypeId, b: TypeId) -> bool
    requires { AreClasses names.now classes.now }
    ensures { result ≡ same_type (type_at names.now a) (type_at names.now b) }
{
    class_at(classes, a) == class_at(classes, b)
}
