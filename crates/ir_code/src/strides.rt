//! The indices of `getelementptr`, as strides and offsets.
ghost use Rattle.std.specs.Prelude.{◌≡◌, ◌++◌, slice_get, option_map, option_and_then, IfOk};
ghost use Rattle.ir_tree.specs.Naming.{name_at, type_at, types_at, type_of_node};
ghost use Rattle.ir_tree.specs.Modules.{types_of};
ghost use Rattle.ir_code.specs.Strides.{integer_index, fixed_index, field_index, stride_in, field_stride, scaled, stride, inner_strides, strides};
ghost use Rattle.ir_code.specs.Leading.{LeadsTo};

use crate::op::{Fixed, Index, Operand};
use int_num::int::Int;
use ir_tree::nodes::{TypeId, TypeNode};
use ir_tree::whole::{Module, field_place, layout_at, opened};
use pv_base::list::List;
use pv_base::want::Memory;
use std::alloc::Global;

fn integer_index(number: Int) -> Option<u32>
    ensures { result ≡ integer_index number }
{
    if number.width() == 32 {
        Some(number.bits() as u32)
    } else {
        None
    }
}

fn fixed_index(value: Fixed) -> Option<u32>
    ensures { result ≡ fixed_index value }
{
    match value {
        Fixed::Int(number) => integer_index(number),
        _ => None,
    }
}

/// The field that an index names: a constant of 32 bits.
fn field_index(value: Operand) -> Option<u32>
    ensures { result ≡ field_index value }
{
    match value {
        Operand::Constant(value) => fixed_index(value),
        Operand::Register(_) => None,
    }
}

/// What an index adds, and the type in which the next one goes on.
#[derive(Clone, Copy)]
struct Step {
    index: Index,
    into: TypeId,
}

/// So many values of a type.
fn scaled(tree: &Module, of: TypeId, value: Operand) -> Option<Step>
    ensures { LeadsTo tree.now result (scaled (types_of tree.now) (type_at tree.now.names of) value) }
{
    let layout = layout_at(tree, of)?;
    let index = Index::Scaled {
        value,
        stride: layout.size,
    };
    Some(Step { index, into: of })
}

fn type_in(fields: &[TypeId], number: u32) -> Option<TypeId>
    ensures { result ≡ slice_get fields.now number }
{
    fields.get(number as usize).copied()
}

/// A field of a struct with fields of these types.
fn field(tree: &Module, of: TypeId, fields: &[TypeId], value: Operand) -> Option<Step>
    ensures { LeadsTo tree.now result (option_and_then (field_stride (types_of tree.now) (type_at tree.now.names of) (types_at tree.now.names fields.now)) (field_index value)) }
{
    let number = field_index(value)?;
    let offset = field_place(tree, of, number)?;
    match type_in(fields, number) {
        Some(into) => Some(Step {
            index: Index::Field(offset),
            into,
        }),
        None => None,
    }
}

/// An index into a type that is no name.
fn stride_in(tree: &Module, of: TypeId, node: &TypeNode, value: Operand) -> Option<Step>
    ensures { LeadsTo tree.now result (stride_in (types_of tree.now) (type_at tree.now.names of) value (type_of_node (name_at tree.now.names) (type_at tree.now.names) node.now)) }
{
    match node {
        TypeNode::Array {
            count: _,
            of: element,
        } => scaled(tree, *element, value),
        TypeNode::Struct { packed: _, fields } => field(tree, of, fields.as_slice(), value),
        _ => None,
    }
}

/// An index into a type, which may be named.
fn stride(tree: &Module, of: TypeId, value: Operand) -> Option<Step>
    ensures { LeadsTo tree.now result (stride (types_of tree.now) (type_at tree.now.names of) value) }
{
    tree.names().is_table();
    let body = opened(tree, of)?;
    match tree.names().type_node(body) {
        Some(node) => stride_in(tree, of, node, value),
        None => None,
    }
}

/// The indices of a front, and behind them those that go on in a type.
fn inner_strides(
    tree: &Module,
    of: TypeId,
    values: &[Operand],
    front: List<Index>,
) -> Result<Option<List<Index>>, Memory>
    ensures { IfOk result (λ r. r ≡ option_map (λ rest. front ++ rest) (inner_strides (types_of tree.now) (type_at tree.now.names of) values.now)) }
{
    let mut indices = front;
    let mut into = of;
    for value in values {
        let step = match stride(tree, into, *value) {
            Some(step) => step,
            None => return Ok(None),
        };
        indices.push(step.index)?;
        into = step.into;
    }
    Ok(Some(indices))
}

/// The indices of `getelementptr of, ..` with these values, in time linear in their number. `None` where an index has no type
/// to go into, where a size is missing, or where a struct has no such field.
pub fn strides(
    alloc: Global,
    tree: &Module,
    of: TypeId,
    values: &[Operand],
) -> Result<Option<List<Index>>, Memory>
    ensures { IfOk result (λ r. r ≡ strides (types_of tree.now) (type_at tree.now.names of) values.now) }
{
    let mut indices = List::new(alloc);
    let (first, rest) = match values {
        [] => return Ok(Some(indices)),
        [first, rest @ ..] => (first, rest),
    };
    match scaled(tree, of, *first) {
        Some(stride) => {
            indices.push(stride.index)?;
            inner_strides(tree, stride.into, rest, indices)
        }
        None => Ok(None),
    }
}
