//! The first bytes of a global, from its type and its initialiser, however deep they are nested.
ghost use Rattle.std.specs.Prelude.{◌≡◌, ◌<◌, ◌++◌, reverse, max, length, map, All, IfOk, OnOk};
ghost use Rattle.ir_tree.specs.Naming.{type_at};
ghost use Rattle.ir_code.specs.Fixed.{AreFixed};
ghost use Rattle.ir_bytes.specs.Initial.{bytes_at};
ghost use Rattle.ir_bytes.specs.Works.{value_works, field_works, greatest, struct_works, Lays, Advances, IsWork, AreAligned};

use crate::pieces::{alignment, gap, push_scalar, push_text, push_zeros, size};
use ir_code::fixed::Constants;
use ir_code::op::Fixed;
use ir_tree::nodes::{ConstantId, ConstantNode, Element, TypeId};
use ir_tree::whole::Module;
use mem_image::object::Byte;
use pv_base::list::List;
use pv_base::want::Memory;
use std::alloc::Global;

/// What is to come: a constant at a type, or zeros up to a multiple of an alignment, counted from where a struct starts.
#[derive(Clone, Copy)]
pub(crate) enum Work {
    Value(Element),
    Padding { start: usize, align: u64 },
}

/// Puts the elements of an array before what is to come.
fn push_values(work: &mut List<Work>, elements: &[Element]) -> Result<(), Memory>
    ensures { OnOk result (reverse work.new ≡ value_works elements.now ++ reverse work.old) }
{
    for i in (0..elements.len()).rev() {
        work.push(Work::Value(elements[i]))?;
    }
    Ok(())
}

/// The greatest alignment of fields.
fn greatest(tree: &Module, packed: bool, fields: &[Element]) -> u64
    ensures value { result ≡ greatest tree.now packed 1 fields.now }
    ensures some { 0 < result }
{
    let mut align = 1u64;
    for field in fields {
        align = align.max(alignment(tree, packed, field.of));
    }
    align
}

/// Puts the fields of a struct, each behind its padding, before what is to come.
fn push_fields(
    tree: &Module,
    packed: bool,
    start: usize,
    fields: &[Element],
    work: &mut List<Work>,
) -> Result<(), Memory>
    ensures put { OnOk result (reverse work.new ≡ field_works tree.now packed start fields.now ++ reverse work.old) }
    ensures aligned { OnOk result (AreAligned tree.now packed fields.now) }
{
    for i in (0..fields.len()).rev() {
        let field = fields[i];
        let align = alignment(tree, packed, field.of);
        work.push(Work::Value(field))?;
        work.push(Work::Padding { start, align })?;
    }
    Ok(())
}

/// Puts a struct that starts there before what is to come.
fn push_struct(
    tree: &Module,
    packed: bool,
    start: usize,
    fields: &[Element],
    work: &mut List<Work>,
) -> Result<(), Memory>
    ensures put { OnOk result (reverse work.new ≡ struct_works tree.now packed start fields.now ++ reverse work.old) }
    ensures aligned { OnOk result (AreAligned tree.now packed fields.now) }
{
    let align = greatest(tree, packed, fields);
    work.push(Work::Padding { start, align })?;
    push_fields(tree, packed, start, fields, work)
}

/// Lays the bytes of a constant of a type down, or puts its parts before what is to come.
fn lay_node(
    tree: &Module,
    of: TypeId,
    node: &ConstantNode,
    value: Option<Fixed>,
    work: &mut List<Work>,
    bytes: &mut List<Byte>,
) -> Result<(), Memory>
    ensures { OnOk result (Lays tree.now of value bytes.old (reverse work.old) bytes.new (reverse work.new) node.now) }
{
    match node {
        ConstantNode::Zero => push_zeros(bytes, size(tree, of)),
        ConstantNode::Text(text) => push_text(bytes, text.as_slice()),
        ConstantNode::Array(elements) => push_values(work, elements.as_slice()),
        ConstantNode::Struct { packed, fields } => {
            push_struct(tree, *packed, bytes.len(), fields.as_slice(), work)
        }
        _ => push_scalar(bytes, value),
    }
}

/// The same of a constant by its number.
fn lay_value(
    tree: &Module,
    constants: &Constants,
    next: Element,
    work: &mut List<Work>,
    bytes: &mut List<Byte>,
) -> Result<(), Memory>
    requires { AreFixed tree.now constants.now }
    ensures { OnOk result (Advances tree.now bytes.old (Work.Value next) (reverse work.old) bytes.new (reverse work.new)) }
{
    let names = tree.names();
    names.is_table();
    let value = constants.at(tree, next.of, next.value);
    match names.constant_node(next.value) {
        Some(node) => lay_node(tree, next.of, node, value, work, bytes),
        None => push_scalar(bytes, value),
    }
}

/// Lays the next piece down.
fn lay(
    tree: &Module,
    constants: &Constants,
    next: Work,
    work: &mut List<Work>,
    bytes: &mut List<Byte>,
) -> Result<(), Memory>
    requires fixed { AreFixed tree.now constants.now }
    requires within { IsWork next }
    ensures { OnOk result (Advances tree.now bytes.old next (reverse work.old) bytes.new (reverse work.new)) }
{
    match next {
        Work::Value(element) => lay_value(tree, constants, element, work, bytes),
        Work::Padding { start, align } => {
            push_zeros(bytes, gap(bytes.len().saturating_sub(start), align))
        }
    }
}

/// The first bytes of a constant at a type, in time and memory linear in them and in the constant as it is written out.
pub fn initial_bytes(
    alloc: Global,
    tree: &Module,
    constants: &Constants,
    of: TypeId,
    value: ConstantId,
) -> Result<List<Byte>, Memory>
    requires { AreFixed tree.now constants.now }
    ensures { IfOk result (λ b. b ≡ bytes_at tree.now of value) }
{
    let mut work = List::new(alloc);
    work.push(Work::Value(Element { of, value }))?;
    let mut bytes = List::new(alloc);
    'pieces: loop {
        match work.pop() {
            Some(next) => lay(tree, constants, next, &mut work, &mut bytes)?,
            None => return Ok(bytes),
        }
    }
}
