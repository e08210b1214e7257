//! The layouts of the types of a table, found as the table grows.

ghost use Rattle.std.specs.Prelude.{◌≡◌, ◌<◌, ◌≤◌, ◌+◌, ◌*◌, ◌^◌, [], length, map, is_some, IfOk, OnOk, IfSome};
ghost use Rattle.ir_tree.specs.Layouts.{sized, round_up, int_layout, array_layout, field_align, with_field, joined, struct_layout, layout_with};
ghost use Rattle.ir_tree.specs.Bounds.{IsLayout};
ghost use Rattle.ir_tree.specs.Table.{TypeWithin};
ghost use Rattle.ir_tree.specs.Naming.{name_at, type_at};
ghost use Rattle.ir_tree.specs.Filling.{answer_at, node_layout, AreBounded};
ghost use Rattle.ir_text.specs.Named.{layout_in};
ghost use Rattle.ir_text.specs.MemoryTypes.{AreLaid};

use crate::named::NamedTypes;
use ir_tree::layout::Layout;
use ir_tree::nodes::{NameId, TypeId, TypeNode};
use ir_tree::table::Names;
use pv_base::list::List;
use pv_base::want::Memory;
use std::alloc::Global;
use std::marker::Model;

/// A layout, where the size is below 2^63.
#[tactic(auto, unfolding(ir_tree::specs::Layouts::sized))]
fn sized(size: u128, align: u64) -> Option<Layout>
    ensures { result ≡ sized size align }
{
    if size < 1 << 63 {
        Some(Layout {
            size: size as u64,
            align,
        })
    } else {
        None
    }
}

/// The next multiple of an alignment.
#[tactic(auto, unfolding(ir_tree::specs::Layouts::round_up))]
fn round_up(at: u64, align: u64) -> u64
    requires at { at < 2 ^ 63 }
    requires least { 0 < align }
    requires most { align ≤ 8 }
    ensures { result ≡ round_up at align }
{
    (at + (align - 1)) / align * align
}

fn int_layout(width: u32) -> Option<Layout>
    ensures { result ≡ int_layout width }
{
    match width {
        1 | 8 => Some(Layout { size: 1, align: 1 }),
        16 => Some(Layout { size: 2, align: 2 }),
        32 => Some(Layout { size: 4, align: 4 }),
        64 => Some(Layout { size: 8, align: 8 }),
        _ => None,
    }
}

fn array_layout(count: u128, of: Option<Layout>) -> Option<Layout>
    ensures { result ≡ array_layout count of }
{
    match of {
        Some(of) => elements(count, of),
        None => None,
    }
}

/// So many elements, one behind the other.
fn elements(count: u128, of: Layout) -> Option<Layout>
    ensures { result ≡ sized (count * of.size) of.align }
{
    match count.checked_mul(of.size as u128) {
        Some(size) => sized(size, of.align),
        None => None,
    }
}

fn field_align(packed: bool, of: Layout) -> u64
    ensures { result ≡ field_align packed of }
{
    if packed { 1 } else { of.align }
}

/// What is laid out so far, with one more field.
fn with_field(packed: bool, so: Layout, of: Layout) -> Option<Layout>
    requires so { IsLayout so }
    requires of { IsLayout of }
    ensures { result ≡ with_field packed so of }
{
    let align = field_align(packed, of);
    let place = round_up(so.size, align);
    sized(place as u128 + of.size as u128, so.align.max(align))
}

/// The same where a layout may be missing.
fn joined(packed: bool, so: Option<Layout>, of: Option<Layout>) -> Option<Layout>
    requires so { IfSome so IsLayout }
    requires of { IfSome of IsLayout }
    ensures { result ≡ joined packed so of }
{
    match so {
        Some(so) => match of {
            Some(of) => with_field(packed, so, of),
            None => None,
        },
        None => None,
    }
}

/// A struct, once its fields are laid out.
fn padded(so: Layout) -> Option<Layout>
    requires { IsLayout so }
    ensures { result ≡ sized (round_up so.size so.align) so.align }
{
    sized(round_up(so.size, so.align) as u128, so.align)
}

/// What was found for a number.
fn answer_at(found: &[Option<Layout>], number: TypeId) -> Option<Layout>
    ensures { result ≡ answer_at found.now number }
{
    match found.get(number as usize) {
        Some(answer) => *answer,
        None => None,
    }
}

fn struct_layout(packed: bool, fields: &[TypeId], found: &[Option<Layout>]) -> Option<Layout>
    requires { AreBounded found.now }
    ensures { result ≡ struct_layout packed (map (answer_at found.now) fields.now) }
{
    let mut so = Some(Layout { size: 0, align: 1 });
    for field in fields {
        so = joined(packed, so, answer_at(found, *field));
    }
    match so {
        Some(so) => padded(so),
        None => None,
    }
}

/// The layout of a name's number.
fn named_layout(names: &Names, known: &NamedTypes, number: NameId) -> Option<Layout>
    requires { number < length names.now.names }
    ensures { result ≡ layout_in known.now (name_at names.now number) }
{
    match names.name(number) {
        Some(name) => known.layout(name),
        None => None,
    }
}

/// The layout of a node, from what was found for the types in it.
fn node_layout(
    node: &TypeNode,
    names: &Names,
    known: &NamedTypes,
    found: &[Option<Layout>],
) -> Option<Layout>
    requires within { TypeWithin (length names.now.names) (length found.now) node.now }
    requires bounded { AreBounded found.now }
    ensures { result ≡ node_layout (answer_at found.now) (λ x. layout_in known.now (name_at names.now x)) node.now }
{
    match node {
        TypeNode::Int(width) => int_layout(*width),
        TypeNode::Ptr => Some(Layout { size: 8, align: 8 }),
        TypeNode::Void => None,
        TypeNode::Array { count, of } => array_layout(*count, answer_at(found, *of)),
        TypeNode::Struct { packed, fields } => struct_layout(*packed, fields.as_slice(), found),
        TypeNode::Named(name) => named_layout(names, known, *name),
    }
}

/// The layouts of the first types of a table, by their numbers. Each type is laid out once, however often it is asked for,
/// so what a whole text costs is linear in its types.
#[derive(Drop)]
pub struct TypeLayouts {
    found: List<Option<Layout>>,
}

impl Model for TypeLayouts {
    ghost use Rattle.std.specs.Prelude.{List, Option};
    ghost use Rattle.ir_tree.specs.declared.layout.Layout.{Layout};

    ghost Value = { List (Option Layout) };

    ghost view = { λ l. l.found };
}

impl TypeLayouts {
    pub fn new(alloc: Global) -> TypeLayouts
        ensures { result ≡ [] }
    {
        TypeLayouts {
            found: List::new(alloc),
        }
    }

    /// Lays out one more type of the table.
    fn step(&mut self, names: &Names, known: &NamedTypes) -> Result<(), Memory>
        requires laid { AreLaid (layout_in known.now) names.now self.old }
        requires more { length self.old < length names.now.types }
        ensures laid { AreLaid (layout_in known.now) names.now self.new }
        ensures further { OnOk result (length self.new ≡ length self.old + 1) }
    {
        names.is_table();
        known.is_bounded();
        match names.type_node(self.found.len() as u32) {
            Some(node) => {
                let layout = node_layout(node, names, known, self.found.as_slice());
                self.found.push(layout)
            }
            None => Ok(()),
        }
    }

    /// Lays out all types of the table.
    fn extend(&mut self, names: &Names, known: &NamedTypes) -> Result<(), Memory>
        requires { AreLaid (layout_in known.now) names.now self.old }
        ensures laid { AreLaid (layout_in known.now) names.now self.new }
        ensures all { OnOk result (length self.new ≡ length names.now.types) }
    {
        for _ in self.found.len()..names.type_count() {
            self.step(names, known)?;
        }
        Ok(())
    }

    /// The layout of a type among the named types of the whole text. The layouts are of this table or an earlier one.
    pub fn of(
        &mut self,
        names: &Names,
        known: &NamedTypes,
        number: TypeId,
    ) -> Result<Option<Layout>, Memory>
        requires laid { AreLaid (layout_in known.now) names.now self.old }
        requires number { number < length names.now.types }
        ensures is { IfOk result (λ l. l ≡ layout_with (layout_in known.now) (type_at names.now number)) }
        ensures bounded { IfOk result (λ l. IfSome l IsLayout) }
        ensures laid { AreLaid (layout_in known.now) names.now self.new }
    {
        self.extend(names, known)?;
        Ok(answer_at(self.found.as_slice(), number))
    }
}
