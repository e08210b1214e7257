//! Whether the types, the constants and the names of a table are those of a module that is read from text.
ghost use Rattle.std.specs.Prelude.{◌≡◌, ◌&&◌, not, is_some, map, IfOk};
ghost use Rattle.std.specs.List.{list_all};
ghost use Rattle.ir_tree.specs.Naming.{name_at, type_at, constant_at, elements_by};
ghost use Rattle.ir_tree.specs.Layouts.{opened};
ghost use Rattle.ir_tree.specs.Modules.{types_of};
ghost use Rattle.ir_rules.specs.Constants.{constant_index, indices_of};
ghost use Rattle.ir_rules.specs.Indexing.{path, is_inside};
ghost use Rattle.ir_rules.specs.Heads.{name_or, constant_below, node_constant, shown_walk};
ghost use Rattle.ir_rules.specs.Reading.{is_void, none_void, level_stands, has_layout, address_stands, name_stands};

use ir_rules::constants::constant;
use ir_rules::flags::constant_before;
use ir_rules::given::Walk;
use ir_rules::paths::path;
use ir_rules::together::constant_index;
use ir_rules::types::{Head, head_of, is_void};
use ir_rules::whole::name;
use ir_tree::nodes::{ConstantId, ConstantNode, Element, NameId, TypeId};
use ir_tree::table::Names;
use ir_tree::whole::{Module, layout_at, opened};
use pv_base::list::List;
use pv_base::name::Name;
use pv_base::want::Memory;
use std::alloc::Global;

/// Whether a type has a layout.
pub fn has_layout(tree: &Module, of: TypeId) -> bool
    ensures { result ≡ has_layout (types_of tree.now) (type_at tree.now.names of) }
{
    layout_at(tree, of).is_some()
}

/// Whether a type that is a name is the name of a type.
fn is_known_type(tree: &Module, of: TypeId) -> bool
    ensures { result ≡ is_some (opened (types_of tree.now) (type_at tree.now.names of)) }
{
    opened(tree, of).is_some()
}

fn none_void(names: &Names, fields: &[TypeId]) -> bool
    ensures { result ≡ list_all (λ k. not (is_void (type_at names.now k))) fields.now }
{
    fields.iter().all(|k| !is_void(names, *k))
}

/// Whether a type stands so in a module, at its outermost level.
#[tactic(auto, using(crate::proofs::ReadingLemmas::none_void_is, crate::proofs::ReadingLemmas::known_is))]
pub fn level_stands(tree: &Module, of: TypeId) -> bool
    ensures { result ≡ level_stands (types_of tree.now) (type_at tree.now.names of) }
{
    let names = tree.names();
    match head_of(names, of) {
        Head::Int(width) => 0 < width && width <= 64,
        Head::Array { count: _, of } => !is_void(names, of),
        Head::Struct { packed: _, fields } => none_void(names, fields),
        Head::Named(_) => is_known_type(tree, of),
        _ => true,
    }
}

/// The numbers of indices, where they are constant integers, from the constants before a number.
fn indices_before(
    alloc: Global,
    names: &Names,
    before: usize,
    elements: &[Element],
) -> Result<List<Option<u64>>, Memory>
    ensures { IfOk result (λ l. l ≡ map (λ e. constant_index (type_at names.now e.of) (constant_below names.now before e.value)) elements.now) }
{
    let mut indices = List::new(alloc);
    for element in elements {
        let value = constant_before(names, before, element.value);
        indices.push(constant_index(names, element.of, value))?;
    }
    Ok(indices)
}

/// Whether indices stay inside of structs.
pub fn is_inside(walk: Walk) -> bool
    ensures { (t : _) → result ≡ is_inside (shown_walk t walk) }
{
    match walk {
        Walk::Outside => false,
        _ => true,
    }
}

/// Whether a constant address stands so in a module.
#[tactic(auto, using(ir_rules::proofs::TogetherLemmas::indices_are))]
fn address_stands(
    alloc: Global,
    tree: &Module,
    before: ConstantId,
    of: TypeId,
    indices: &[Element],
) -> Result<bool, Memory>
    ensures { IfOk result (λ b. b ≡ (has_layout (types_of tree.now) (type_at tree.now.names of) && is_inside (path (types_of tree.now) (type_at tree.now.names of) (indices_of (elements_by (type_at tree.now.names) (constant_below tree.now.names before) indices.now))))) }
{
    let names = tree.names();
    let indices = indices_before(alloc, names, before as usize, indices)?;
    let inside = is_inside(path(tree, of, indices.as_slice()));
    Ok(has_layout(tree, of) && inside)
}

/// Whether the constant of a number stands so in a module, at its outermost level.
pub fn constant_stands(alloc: Global, tree: &Module, number: ConstantId) -> Result<bool, Memory>
    ensures { IfOk result (λ b. b ≡ address_stands (types_of tree.now) (constant_at tree.now.names number)) }
{
    match constant(tree.names(), number) {
        Some(
            ConstantNode::Address {
                of,
                base: _,
                indices,
            },
        ) => address_stands(alloc, tree, number, *of, indices.as_slice()),
        _ => Ok(true),
    }
}

/// Whether the name of a number stands so in a module.
pub fn name_stands(names: &Names, number: NameId) -> bool
    ensures { result ≡ name_stands (name_at names.now number) }
{
    match name(names, number) {
        Some(Name::Numbered(number)) => *number < 9223372036854775808,
        _ => true,
    }
}
