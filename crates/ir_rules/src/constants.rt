//! Constants at their types, by their numbers in a table.
ghost use Rattle.std.specs.Prelude.{◌≡◌, ℕ, option_copied};
ghost use Rattle.std.specs.List.{list_all};
ghost use Rattle.ir_tree.specs.Naming.{type_at, types_at, constant_at};
ghost use Rattle.ir_rules.specs.Seen.{seen};
ghost use Rattle.ir_rules.specs.Same.{same_type, same_types};
ghost use Rattle.ir_rules.specs.Constants.{elements_fit, text_fits, fields_fit, has_form};
ghost use Rattle.ir_rules.specs.Heads.{node_constant, shown_fields, element_types};
ghost use Rattle.ir_rules.specs.Classes.{AreClasses};

use crate::classes::same_type;
use crate::paths::{Fields, fields_of};
use crate::types::{Head, has_width, head_of, is_pointer};
use ir_tree::nodes::{ConstantId, ConstantNode, Element, TypeId};
use ir_tree::table::Names;
use ir_tree::whole::Module;

/// The constant of a number.
pub fn constant<'a>(names: &'a Names, number: ConstantId) -> Option<&'a ConstantNode>
    ensures { constant_at names.now number ≡ node_constant names.now number (option_copied result) }
{
    names.constant_node(number)
}

fn text_fits(names: &Names, bytes: usize, of: TypeId) -> bool
    ensures { result ≡ text_fits bytes (type_at names.now of) }
{
    match head_of(names, of) {
        Head::Array { count, of } => count == bytes as u128 && has_width(names, 8, of),
        _ => false,
    }
}

fn are_all(names: &Names, classes: &[usize], of: TypeId, elements: &[Element]) -> bool
    requires { AreClasses names.now classes.now }
    ensures { result ≡ list_all (λ e. same_type (type_at names.now of) (type_at names.now e.of)) elements.now }
{
    elements.iter().all(|e| same_type(names, classes, of, e.of))
}

#[tactic(auto, using(crate::proofs::ConstantLemmas::array_fits))]
fn elements_fit(names: &Names, classes: &[usize], of: TypeId, elements: &[Element]) -> bool
    requires { AreClasses names.now classes.now }
    ensures { result ≡ elements_fit (type_at names.now of) (types_at names.now (element_types elements.now)) }
{
    match head_of(names, of) {
        Head::Array { count, of } => {
            count == elements.len() as u128 && are_all(names, classes, of, elements)
        }
        _ => false,
    }
}

fn same_written(names: &Names, classes: &[usize], fields: &[TypeId], elements: &[Element]) -> bool
    requires { AreClasses names.now classes.now }
    ensures { result ≡ same_types (types_at names.now fields.now) (types_at names.now (element_types elements.now)) }
{
    if fields.len() != elements.len() {
        return false;
    }
    for i in 0..fields.len() {
        if !same_type(names, classes, fields[i], elements[i].of) {
            return false;
        }
    }
    true
}

fn fields_fit(
    names: &Names,
    classes: &[usize],
    packed: bool,
    fields: Option<Fields>,
    elements: &[Element],
) -> bool
    requires { AreClasses names.now classes.now }
    ensures { result ≡ fields_fit packed (shown_fields names.now fields.entry) (types_at names.now (element_types elements.now)) }
{
    match fields {
        Some(fields) => {
            packed == fields.packed && same_written(names, classes, fields.fields, elements)
        }
        None => false,
    }
}

/// Whether a constant is one of a written type, but for what stands in it.
#[tactic(auto, using(crate::proofs::ConstantLemmas::written_is))]
pub fn form_written(
    tree: &Module,
    classes: &[usize],
    of: TypeId,
    value: Option<&ConstantNode>,
) -> bool
    requires { AreClasses tree.now.names classes.now }
    ensures { (k : ℕ) → result ≡ has_form (seen tree.now) (type_at tree.now.names of) (node_constant tree.now.names k (option_copied value.entry)) }
{
    let names = tree.names();
    match value {
        None => is_pointer(names, of),
        Some(ConstantNode::Null) => is_pointer(names, of),
        Some(ConstantNode::Integer(n)) => has_width(names, n.width(), of),
        Some(ConstantNode::Zero) => true,
        Some(ConstantNode::Text(bytes)) => text_fits(names, bytes.len(), of),
        Some(ConstantNode::Array(elements)) => {
            elements_fit(names, classes, of, elements.as_slice())
        }
        Some(ConstantNode::Struct { packed, fields }) => fields_fit(
            names,
            classes,
            *packed,
            fields_of(tree, of),
            fields.as_slice(),
        ),
        Some(ConstantNode::Name(_)) => is_pointer(names, of),
        Some(
            ConstantNode::Address {
                of: _,
                base: _,
                indices: _,
            },
        ) => is_pointer(names, of),
    }
}
