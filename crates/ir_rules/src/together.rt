//! Whether what stands in each constant of a table is of the types that are written before it.
ghost use Rattle.std.specs.Prelude.{◌≡◌, ◌&&◌, ℕ, length, map, Some, IfOk, option_copied};
ghost use Rattle.std.specs.List.{list_all};
ghost use Rattle.ir_tree.specs.Trees.{AddressC};
ghost use Rattle.ir_tree.specs.Naming.{type_at, constant_at, elements_by};
ghost use Rattle.ir_rules.specs.Seen.{seen};
ghost use Rattle.ir_rules.specs.Constants.{is_integer, written_types, all_integers, has_form, constant_bits, constant_index, indices_of, holds_together, all_together};
ghost use Rattle.ir_rules.specs.Indexing.{path, agrees};
ghost use Rattle.ir_rules.specs.Heads.{constant_below, node_constant, shown_walk, FlagsBelow, AreFlags};
ghost use Rattle.ir_rules.specs.Classes.{AreClasses};

use crate::constants::constant;
use crate::flags::{constant_before, flag_at, has_form, number_of};
use crate::given::{Given, Walk};
use crate::paths::path;
use crate::types::{has_width, is_integer};
use ir_tree::nodes::{ConstantId, ConstantNode, Element, TypeId};
use ir_tree::table::Names;
use ir_tree::whole::Module;
use pv_base::list::List;
use pv_base::want::Memory;
use std::alloc::Global;

/// The number that a constant integer is.
fn constant_bits(value: Option<&ConstantNode>) -> Option<u64>
    ensures { (t : _) (k : ℕ) → result ≡ constant_bits (node_constant t k (option_copied value.entry)) }
{
    match value {
        Some(ConstantNode::Integer(n)) => Some(n.bits()),
        Some(ConstantNode::Zero) => Some(0),
        _ => None,
    }
}

/// The number of an index that is a constant `i32`.
pub fn constant_index(names: &Names, of: TypeId, value: Option<&ConstantNode>) -> Option<u64>
    ensures { (t : _) (k : ℕ) → result ≡ constant_index (type_at names.now of) (node_constant t k (option_copied value.entry)) }
{
    if has_width(names, 32, of) {
        constant_bits(value)
    } else {
        None
    }
}

fn index_below(names: &Names, before: usize, element: Element) -> Option<u64>
    ensures { result ≡ constant_index (type_at names.now element.of) (constant_below names.now before element.value) }
{
    constant_index(
        names,
        element.of,
        constant_before(names, before, element.value),
    )
}

fn indices_below(
    alloc: Global,
    names: &Names,
    before: usize,
    elements: &[Element],
) -> Result<List<Option<u64>>, Memory>
    ensures { IfOk result (λ l. l ≡ map (λ e. constant_index (type_at names.now e.of) (constant_below names.now before e.value)) elements.now) }
{
    let mut indices = List::new(alloc);
    for element in elements {
        indices.push(index_below(names, before, *element))?;
    }
    Ok(indices)
}

fn all_integers(names: &Names, elements: &[Element]) -> bool
    ensures { result ≡ list_all (λ e. is_integer (type_at names.now e.of)) elements.now }
{
    elements.iter().all(|e| is_integer(names, e.of))
}

fn element_fits(tree: &Module, classes: &[usize], flags: &[bool], element: Element) -> bool
    requires classes { AreClasses tree.now.names classes.now }
    requires flags { FlagsBelow tree.now.names (holds_together (seen tree.now)) flags.now }
    ensures { result ≡ (has_form (seen tree.now) (type_at tree.now.names element.of) (constant_below tree.now.names (length flags.now) element.value) && holds_together (seen tree.now) (constant_below tree.now.names (length flags.now) element.value)) }
{
    let value = constant_before(tree.names(), flags.len(), element.value);
    has_form(tree, classes, Given::Written(element.of), value) && flag_at(flags, element.value)
}

fn all_fit(tree: &Module, classes: &[usize], flags: &[bool], elements: &[Element]) -> bool
    requires classes { AreClasses tree.now.names classes.now }
    requires flags { FlagsBelow tree.now.names (holds_together (seen tree.now)) flags.now }
    ensures { result ≡ list_all (λ e. has_form (seen tree.now) (type_at tree.now.names e.of) (constant_below tree.now.names (length flags.now) e.value) && holds_together (seen tree.now) (constant_below tree.now.names (length flags.now) e.value)) elements.now }
{
    elements
        .iter()
        .all(|e| element_fits(tree, classes, flags, *e))
}

/// Whether indices do not lead into a type that has no such parts.
pub fn agrees(walk: Walk) -> bool
    ensures { (t : _) → result ≡ agrees (shown_walk t walk) }
{
    match walk {
        Walk::Differs => false,
        _ => true,
    }
}

/// Whether what stands in an array or a struct is of the types that are written before it.
#[tactic(auto, using(crate::proofs::TogetherLemmas::elements_are))]
fn elements_hold(tree: &Module, classes: &[usize], flags: &[bool], elements: &[Element]) -> bool
    requires classes { AreClasses tree.now.names classes.now }
    requires flags { FlagsBelow tree.now.names (holds_together (seen tree.now)) flags.now }
    ensures { result ≡ all_together (seen tree.now) (elements_by (type_at tree.now.names) (constant_below tree.now.names (length flags.now)) elements.now) }
{
    all_fit(tree, classes, flags, elements)
}

#[tactic(auto, using(crate::proofs::TogetherLemmas::integers_at))]
fn integers_hold(names: &Names, before: usize, elements: &[Element]) -> bool
    ensures { result ≡ all_integers (written_types (elements_by (type_at names.now) (constant_below names.now before) elements.now)) }
{
    all_integers(names, elements)
}

#[tactic(auto, using(crate::proofs::TogetherLemmas::indices_are))]
fn indices_agree(
    alloc: Global,
    tree: &Module,
    of: TypeId,
    before: usize,
    elements: &[Element],
) -> Result<bool, Memory>
    ensures { IfOk result (λ b. b ≡ agrees (path (seen tree.now).types (type_at tree.now.names of) (indices_of (elements_by (type_at tree.now.names) (constant_below tree.now.names before) elements.now)))) }
{
    let names = tree.names();
    let indices = indices_below(alloc, names, before, elements)?;
    Ok(agrees(path(tree, of, indices.as_slice())))
}

/// Whether a constant address holds together.
#[tactic(auto, unfolding(crate::specs::Constants::holds_together))]
fn address_holds(
    alloc: Global,
    tree: &Module,
    classes: &[usize],
    flags: &[bool],
    of: TypeId,
    base: ConstantId,
    elements: &[Element],
) -> Result<bool, Memory>
    requires classes { AreClasses tree.now.names classes.now }
    requires flags { FlagsBelow tree.now.names (holds_together (seen tree.now)) flags.now }
    ensures { IfOk result (λ b. b ≡ holds_together (seen tree.now) (AddressC (type_at tree.now.names of) (constant_below tree.now.names (length flags.now) base) (elements_by (type_at tree.now.names) (constant_below tree.now.names (length flags.now)) elements.now))) }
{
    let before = flags.len();
    let names = tree.names();
    let value = constant_before(names, before, base);
    let agree = indices_agree(alloc, tree, of, before, elements)?;
    Ok(
        has_form(tree, classes, Given::Pointer, value)
            && flag_at(flags, base)
            && integers_hold(names, before, elements)
            && elements_hold(tree, classes, flags, elements)
            && agree,
    )
}

#[tactic(auto, unfolding(crate::specs::Constants::holds_together))]
fn node_holds(
    alloc: Global,
    tree: &Module,
    classes: &[usize],
    flags: &[bool],
    node: &ConstantNode,
) -> Result<bool, Memory>
    requires classes { AreClasses tree.now.names classes.now }
    requires flags { FlagsBelow tree.now.names (holds_together (seen tree.now)) flags.now }
    ensures { IfOk result (λ b. b ≡ holds_together (seen tree.now) (node_constant tree.now.names (length flags.now) (Some node.now))) }
{
    match node {
        ConstantNode::Array(elements) => {
            Ok(elements_hold(tree, classes, flags, elements.as_slice()))
        }
        ConstantNode::Struct { packed: _, fields } => {
            Ok(elements_hold(tree, classes, flags, fields.as_slice()))
        }
        ConstantNode::Address { of, base, indices } => {
            address_holds(alloc, tree, classes, flags, *of, *base, indices.as_slice())
        }
        _ => Ok(true),
    }
}

/// Whether the constant behind those that have a flag holds together.
fn next_holds(
    alloc: Global,
    tree: &Module,
    classes: &[usize],
    flags: &[bool],
) -> Result<bool, Memory>
    requires classes { AreClasses tree.now.names classes.now }
    requires flags { FlagsBelow tree.now.names (holds_together (seen tree.now)) flags.now }
    ensures { IfOk result (λ b. b ≡ holds_together (seen tree.now) (constant_at tree.now.names (length flags.now))) }
{
    let number = number_of(flags.len())?;
    match constant(tree.names(), number) {
        Some(node) => node_holds(alloc, tree, classes, flags, node),
        None => Ok(true),
    }
}

/// Whether each constant holds together.
pub fn together_flags(alloc: Global, tree: &Module, classes: &[usize]) -> Result<List<bool>, Memory>
    requires { AreClasses tree.now.names classes.now }
    ensures { IfOk result (AreFlags tree.now.names (holds_together (seen tree.now))) }
{
    let mut flags = List::new(alloc);
    for _number in 0..tree.names().constant_count() {
        let flag = next_holds(alloc, tree, classes, flags.as_slice())?;
        flags.push(flag)?;
    }
    Ok(flags)
}
