//! Types and constants, which may be nested to any depth: a loop with a stack of its own, and no recursion.
ghost use Rattle.std.specs.Prelude.{◌≡◌, ◌<◌, ◌^◌, ◌+◌, ◌++◌, if◌then◌else◌, ◌∷◌, [], codes, decimal, pos, nat_lt, OnOk, Some, slice_get, true, false};
ghost use Rattle.ir_tree.specs.Naming.{type_at, constant_at, type_of_node, constant_of_node, name_at};
ghost use Rattle.ir_tree.specs.Table.{Table};
ghost use Rattle.ir_tree.specs.Trees.{ArrayV, TextC};
ghost use Rattle.ir_printer.specs.Pieces.{Blank, Mark, Number, Word, bytes_of, within};
ghost use Rattle.ir_printer.specs.Operands.{address_head, pointer_lead, opening, closing, type_pieces, constant_pieces};
ghost use Rattle.ir_printer.specs.Nesting.{lead, constant_below, show_pieces, fields_rest, elements_rest, stacked, Writes};

use crate::spelling::{put_count, put_decimal, put_global, put_integer, put_local, put_quoted};
use ir_tree::nodes::{ConstantId, ConstantNode, Element, TypeId, TypeNode};
use ir_tree::table::Names;
use pv_base::bytes::Bytes;
use pv_base::list::List;
use pv_base::want::Memory;
use std::alloc::Global;

/// What is still to be written. Of what stands in brackets it says from where on.
#[derive(Clone, Copy)]
pub(crate) enum Show {
    Type(TypeId),
    Constant(ConstantId),
    /// `null`
    Null,
    /// The fields of a struct from a place on, and its closing bracket.
    Fields { of: TypeId, from: usize },
    /// The elements of a constant from a place on, and its closing bracket.
    Elements { of: ConstantId, from: usize },
    /// `]`
    Bracket,
    /// A blank.
    Space,
    /// `, ptr `
    Base,
}

fn put_opening(to: &mut Bytes, packed: bool) -> Result<(), Memory>
    ensures { OnOk result (to.new ≡ to.old ++ bytes_of (opening packed)) }
{
    if packed {
        to.append(b"<{")
    } else {
        to.append(b"{")
    }
}

fn put_closing(to: &mut Bytes, packed: bool) -> Result<(), Memory>
    ensures { OnOk result (to.new ≡ to.old ++ bytes_of (closing packed)) }
{
    if packed {
        to.append(b"}>")
    } else {
        to.append(b"}")
    }
}

/// What stands in brackets before an item: a blank, and behind another item a comma.
fn put_lead(to: &mut Bytes, later: bool) -> Result<(), Memory>
    ensures { OnOk result (to.new ≡ to.old ++ bytes_of (lead later)) }
{
    if later {
        to.append(b", ")
    } else {
        to.append(b" ")
    }
}

/// What stands in brackets behind all items.
fn put_last(to: &mut Bytes, later: bool) -> Result<(), Memory>
    ensures { OnOk result (to.new ≡ to.old ++ bytes_of (within later [])) }
{
    if later { to.append(b" ") } else { Ok(()) }
}

/// `[n x `
fn put_array_head(to: &mut Bytes, count: u128) -> Result<(), Memory>
    ensures { OnOk result (to.new ≡ to.old ++ bytes_of (Mark 91 ∷ Number (pos count) ∷ Blank ∷ Word (codes "x") ∷ Blank ∷ [])) }
{
    to.append(b"[")?;
    put_count(to, count)?;
    to.append(b" x ")
}

/// `iN`
fn put_width(to: &mut Bytes, width: u32) -> Result<(), Memory>
    ensures { OnOk result (to.new ≡ to.old ++ bytes_of (Word (105 ∷ decimal width) ∷ [])) }
{
    to.append(b"i")?;
    put_decimal(to, u64::from(width))
}

/// The constant in a constant, as what is to be written.
#[tactic(auto, unfolding(crate::specs::Nesting::show_pieces))]
fn below(of: ConstantId, value: ConstantId) -> Show
    ensures { (t : Table) → show_pieces t result ≡ constant_pieces (constant_below t of value) }
{
    if value < of {
        Show::Constant(value)
    } else {
        Show::Null
    }
}

fn begin_array(
    to: &mut Bytes,
    stack: &mut List<Show>,
    count: u128,
    of: TypeId,
) -> Result<(), Memory>
    ensures { OnOk result ((t : Table) → Writes t to.old to.new stack.old stack.new (type_pieces (ArrayV count (type_at t of)))) }
{
    put_array_head(to, count)?;
    stack.push(Show::Bracket)?;
    stack.push(Show::Type(of))
}

fn begin_type(
    to: &mut Bytes,
    names: &Names,
    stack: &mut List<Show>,
    of: TypeId,
    node: &TypeNode,
) -> Result<(), Memory>
    requires { slice_get names.now.types of ≡ Some node.now }
    ensures { OnOk result (Writes names.now to.old to.new stack.old stack.new (type_pieces (type_of_node (name_at names.now) (type_at names.now) node.now))) }
{
    match node {
        TypeNode::Int(width) => put_width(to, *width),
        TypeNode::Ptr => to.append(b"ptr"),
        TypeNode::Void => to.append(b"void"),
        TypeNode::Array { count, of } => begin_array(to, stack, *count, *of),
        TypeNode::Struct { packed, fields: _ } => {
            put_opening(to, *packed)?;
            stack.push(Show::Fields { of, from: 0 })
        }
        TypeNode::Named(name) => put_local(to, names, *name),
    }
}

/// The type of a number; a number without a type is written as `ptr`.
fn show_type(
    to: &mut Bytes,
    names: &Names,
    stack: &mut List<Show>,
    of: TypeId,
) -> Result<(), Memory>
    ensures { OnOk result (Writes names.now to.old to.new stack.old stack.new (type_pieces (type_at names.now of))) }
{
    names.is_table();
    match names.type_node(of) {
        Some(node) => begin_type(to, names, stack, of, node),
        None => to.append(b"ptr"),
    }
}

fn end_fields(to: &mut Bytes, packed: bool, later: bool) -> Result<(), Memory>
    ensures { OnOk result (to.new ≡ to.old ++ bytes_of (within later [] ++ closing packed)) }
{
    put_last(to, later)?;
    put_closing(to, packed)
}

/// The next field of a struct, with what stands before it.
fn next_field(
    to: &mut Bytes,
    stack: &mut List<Show>,
    of: TypeId,
    from: usize,
    field: TypeId,
) -> Result<(), Memory>
    requires { from + 1 < 2 ^ 64 }
    ensures { OnOk result ((t : Table) → Writes t to.old to.new stack.old stack.new (lead (nat_lt 0 from) ++ type_pieces (type_at t field) ++ fields_rest t (slice_get t.types of) (from + 1))) }
{
    put_lead(to, from > 0)?;
    stack.push(Show::Fields { of, from: from + 1 })?;
    stack.push(Show::Type(field))
}

/// The fields of a struct of a number from a place on.
fn fields_from(
    to: &mut Bytes,
    names: &Names,
    stack: &mut List<Show>,
    of: TypeId,
    node: &TypeNode,
    from: usize,
) -> Result<(), Memory>
    requires { slice_get names.now.types of ≡ Some node.now }
    ensures { OnOk result (Writes names.now to.old to.new stack.old stack.new (fields_rest names.now (slice_get names.now.types of) from)) }
{
    let _ = names;
    match node {
        TypeNode::Struct { packed, fields } => {
            if from < fields.len() {
                next_field(to, stack, of, from, *fields.at(from))
            } else {
                end_fields(to, *packed, from > 0)
            }
        }
        _ => Ok(()),
    }
}

/// The fields of a type from a place on; no other type has any.
fn show_fields(
    to: &mut Bytes,
    names: &Names,
    stack: &mut List<Show>,
    of: TypeId,
    from: usize,
) -> Result<(), Memory>
    ensures { OnOk result (Writes names.now to.old to.new stack.old stack.new (fields_rest names.now (slice_get names.now.types of) from)) }
{
    match names.type_node(of) {
        Some(node) => fields_from(to, names, stack, of, node, from),
        None => Ok(()),
    }
}

fn end_array(to: &mut Bytes, later: bool) -> Result<(), Memory>
    ensures { OnOk result (to.new ≡ to.old ++ bytes_of (within later [] ++ Mark 93 ∷ [])) }
{
    put_last(to, later)?;
    to.append(b"]")
}

/// The next element of a constant, with what stands before it.
fn next_element(
    to: &mut Bytes,
    stack: &mut List<Show>,
    of: ConstantId,
    from: usize,
    later: bool,
    element: Element,
) -> Result<(), Memory>
    requires { from + 1 < 2 ^ 64 }
    ensures { OnOk result ((t : Table) → Writes t to.old to.new stack.old stack.new (lead later ++ (type_pieces (type_at t element.of) ++ Blank ∷ constant_pieces (constant_below t of element.value)) ++ elements_rest t of (slice_get t.constants of) (from + 1))) }
{
    put_lead(to, later)?;
    stack.push(Show::Elements { of, from: from + 1 })?;
    stack.push(below(of, element.value))?;
    stack.push(Show::Space)?;
    stack.push(Show::Type(element.of))
}

/// The elements of a constant of a number from a place on.
fn elements_from(
    to: &mut Bytes,
    names: &Names,
    stack: &mut List<Show>,
    of: ConstantId,
    node: &ConstantNode,
    from: usize,
) -> Result<(), Memory>
    requires { slice_get names.now.constants of ≡ Some node.now }
    ensures { OnOk result (Writes names.now to.old to.new stack.old stack.new (elements_rest names.now of (slice_get names.now.constants of) from)) }
{
    let _ = names;
    match node {
        ConstantNode::Array(elements) => {
            if from < elements.len() {
                next_element(to, stack, of, from, from > 0, *elements.at(from))
            } else {
                end_array(to, from > 0)
            }
        }
        ConstantNode::Struct { packed, fields } => {
            if from < fields.len() {
                next_element(to, stack, of, from, from > 0, *fields.at(from))
            } else {
                end_fields(to, *packed, from > 0)
            }
        }
        ConstantNode::Address {
            of: _,
            base: _,
            indices,
        } => {
            if from < indices.len() {
                next_element(to, stack, of, from, true, *indices.at(from))
            } else {
                to.append(b")")
            }
        }
        _ => Ok(()),
    }
}

/// The elements of a constant from a place on; a constant without brackets has none.
fn show_elements(
    to: &mut Bytes,
    names: &Names,
    stack: &mut List<Show>,
    of: ConstantId,
    from: usize,
) -> Result<(), Memory>
    ensures { OnOk result (Writes names.now to.old to.new stack.old stack.new (elements_rest names.now of (slice_get names.now.constants of) from)) }
{
    match names.constant_node(of) {
        Some(node) => elements_from(to, names, stack, of, node, from),
        None => Ok(()),
    }
}

/// `c".."`
fn put_text(to: &mut Bytes, bytes: &[u8]) -> Result<(), Memory>
    ensures { OnOk result (to.new ≡ to.old ++ bytes_of (constant_pieces (TextC bytes.now))) }
{
    to.append(b"c")?;
    put_quoted(to, bytes)
}

/// `getelementptr (T, ptr c` and what follows.
fn begin_address(
    to: &mut Bytes,
    stack: &mut List<Show>,
    of: ConstantId,
    typed: TypeId,
    base: ConstantId,
) -> Result<(), Memory>
    ensures { OnOk result ((t : Table) → Writes t to.old to.new stack.old stack.new (address_head ++ type_pieces (type_at t typed) ++ pointer_lead ++ constant_pieces (constant_below t of base) ++ elements_rest t of (slice_get t.constants of) 0)) }
{
    to.append(b"getelementptr (")?;
    stack.push(Show::Elements { of, from: 0 })?;
    stack.push(below(of, base))?;
    stack.push(Show::Base)?;
    stack.push(Show::Type(typed))
}

fn begin_constant(
    to: &mut Bytes,
    names: &Names,
    stack: &mut List<Show>,
    of: ConstantId,
    node: &ConstantNode,
) -> Result<(), Memory>
    requires { slice_get names.now.constants of ≡ Some node.now }
    ensures { OnOk result (Writes names.now to.old to.new stack.old stack.new (constant_pieces (constant_of_node (name_at names.now) (type_at names.now) (constant_below names.now of) node.now))) }
{
    match node {
        ConstantNode::Integer(value) => put_integer(to, *value),
        ConstantNode::Null => to.append(b"null"),
        ConstantNode::Zero => to.append(b"zeroinitializer"),
        ConstantNode::Text(bytes) => put_text(to, bytes.as_slice()),
        ConstantNode::Array(_) => {
            to.append(b"[")?;
            stack.push(Show::Elements { of, from: 0 })
        }
        ConstantNode::Struct { packed, fields: _ } => {
            put_opening(to, *packed)?;
            stack.push(Show::Elements { of, from: 0 })
        }
        ConstantNode::Name(name) => put_global(to, names, *name),
        ConstantNode::Address {
            of: typed,
            base,
            indices: _,
        } => begin_address(to, stack, of, *typed, *base),
    }
}

/// The constant of a number; a number without a constant is written as `null`.
fn show_constant(
    to: &mut Bytes,
    names: &Names,
    stack: &mut List<Show>,
    of: ConstantId,
) -> Result<(), Memory>
    ensures { OnOk result (Writes names.now to.old to.new stack.old stack.new (constant_pieces (constant_at names.now of))) }
{
    match names.constant_node(of) {
        Some(node) => begin_constant(to, names, stack, of, node),
        None => to.append(b"null"),
    }
}

/// Writes the beginning of an item, and lays the rest of it on the stack.
fn show_one(to: &mut Bytes, names: &Names, stack: &mut List<Show>, show: Show) -> Result<(), Memory>
    ensures { OnOk result (Writes names.now to.old to.new stack.old stack.new (show_pieces names.now show)) }
{
    match show {
        Show::Type(of) => show_type(to, names, stack, of),
        Show::Constant(of) => show_constant(to, names, stack, of),
        Show::Null => to.append(b"null"),
        Show::Fields { of, from } => show_fields(to, names, stack, of, from),
        Show::Elements { of, from } => show_elements(to, names, stack, of, from),
        Show::Bracket => to.append(b"]"),
        Show::Space => to.append(b" "),
        Show::Base => to.append(b", ptr "),
    }
}

/// Writes all items of a stack, from its top on.
fn show_all(to: &mut Bytes, names: &Names, stack: &mut List<Show>) -> Result<(), Memory>
    ensures { OnOk result (to.new ≡ to.old ++ stacked names.now stack.old) }
{
    'items: loop {
        match stack.pop() {
            Some(show) => show_one(to, names, stack, show)?,
            None => return Ok(()),
        }
    }
}

pub(crate) fn put_type(
    alloc: Global,
    to: &mut Bytes,
    names: &Names,
    of: TypeId,
) -> Result<(), Memory>
    ensures { OnOk result (to.new ≡ to.old ++ bytes_of (type_pieces (type_at names.now of))) }
{
    let mut stack = List::new(alloc);
    stack.push(Show::Type(of))?;
    show_all(to, names, &mut stack)
}

pub(crate) fn put_constant(
    alloc: Global,
    to: &mut Bytes,
    names: &Names,
    of: ConstantId,
) -> Result<(), Memory>
    ensures { OnOk result (to.new ≡ to.old ++ bytes_of (constant_pieces (constant_at names.now of))) }
{
    let mut stack = List::new(alloc);
    stack.push(Show::Constant(of))?;
    show_all(to, names, &mut stack)
}
