//! `getelementptr`, behind its word: each index goes into the type that the one before it leads to.

ghost use Rattle.std.specs.Prelude.{◌≡◌, ◌<◌, IfOk, IfSome, length, map, option_map, option_and_then, slice_get};
ghost use Rattle.ir_tree.specs.Table.{Table, TypeWithin};
ghost use Rattle.ir_tree.specs.Naming.{Grows, name_at, type_at, types_at, constant_at};
ghost use Rattle.ir_tree.specs.Shown.{shown, shown_argument, shown_operand};
ghost use Rattle.ir_text.specs.MemoryTypes.{AreLaid};
ghost use Rattle.ir_text.specs.Named.{body_in, known_of, layout_in};
ghost use Rattle.ir_text.specs.Reading.{Fails, Reads, token_by};
ghost use Rattle.ir_instr.specs.Addresses as spec;
ghost use Rattle.ir_instr.specs.Defined.{AreTypes};
ghost use Rattle.ir_instr.specs.Placing.{into_at, some_into_at, place_of, shown_further, PlaceWithin, fields_of, node_content, node_opened, IsContent, ContentWithin, node_field, further_at};
ghost use Rattle.ir_instr.specs.Results.{result_of};

use crate::flags::said;
use crate::memory::{pointer, sees_tail};
use crate::parts::{Scalar, fixed_type, integer_argument, number, scalar_of};
use ir_lex::token::Cause;
use ir_text::cursor::{Cursor, Lexeme};
use ir_text::fault::{Fault, ReadEnd};
use ir_text::layouts::TypeLayouts;
use ir_text::leaves::{bad, mark, sees};
use ir_text::memory_types::read_memory_type;
use ir_text::named::NamedTypes;
use ir_text::operands::{read_constant, sees_local};
use ir_text::tails::tail;
use ir_tree::instruction::{Argument, Instruction, Operand};
use ir_tree::nodes::{ConstantId, ConstantNode, NameId, TypeId, TypeNode};
use ir_tree::table::Names;
use pv_base::list::List;

/// Where an index stands.
#[derive(Clone, Copy)]
pub enum Place {
    /// It counts whole values of the type.
    Whole(TypeId),
    /// It goes into the type.
    Inside(TypeId),
    /// It goes into a named type with a fault in its body, which is met there.
    Faulty,
}

/// What an index goes into.
#[derive(Clone, Copy)]
pub enum Content {
    /// A named type with a fault in its body
    Faulty,
    /// `[count x of]`
    Elements { count: u128, of: TypeId },
    /// The fields of the struct with this number
    Fields(TypeId),
    /// No aggregate
    Nothing,
}

/// The body of a named type, by its name's number.
fn named_body(names: &Names, known: &NamedTypes, name: NameId) -> Option<TypeId>
    requires { name < length names.now.names }
    ensures { result ≡ option_and_then (λ b. b.of) (body_in known.now (name_at names.now name)) }
{
    let name = match names.name(name) {
        Some(name) => name,
        None => return None,
    };
    match known.body(name) {
        Some(body) => body.of,
        None => None,
    }
}

/// The type of a node with a number, or the body that the whole text gives it.
fn opened_node(node: &TypeNode, of: TypeId, names: &Names, known: &NamedTypes) -> Option<TypeId>
    requires { TypeWithin (length names.now.names) of node.now }
    ensures { result ≡ node_opened names.now known.now node.now of }
{
    match node {
        TypeNode::Named(name) => named_body(names, known, *name),
        _ => Some(of),
    }
}

/// A type, or the body that the whole text gives it.
fn opened(names: &Names, known: &NamedTypes, of: TypeId) -> Option<TypeId>
    requires within { of < length names.now.types }
    requires types { AreTypes names.now known.now }
    ensures is { (later : Table) → Grows names.now later → option_map (type_at later) result ≡ spec.opened (known_of later known.now) (type_at later of) }
    ensures within { IfSome result (λ k. k < length names.now.types) }
{
    names.is_table();
    match names.type_node(of) {
        Some(node) => opened_node(node, of, names, known),
        None => None,
    }
}

/// What an index into the type of a node with a number goes into, where the type is no name.
fn content_of_node(node: &TypeNode, of: TypeId) -> Content
    ensures { result ≡ node_content node.now of }
{
    match node {
        TypeNode::Array { count, of } => Content::Elements {
            count: *count,
            of: *of,
        },
        TypeNode::Struct { .. } => Content::Fields(of),
        _ => Content::Nothing,
    }
}

/// What an index into a type that is no name goes into.
fn content_of(names: &Names, of: TypeId) -> Content
    requires { of < length names.now.types }
    ensures is { (later : Table) → Grows names.now later → IsContent names.now later result (Some (type_at later of)) }
    ensures within { ContentWithin names.now result }
{
    names.is_table();
    match names.type_node(of) {
        Some(node) => content_of_node(node, of),
        None => Content::Nothing,
    }
}

/// What an index into a type goes into.
fn content_at(names: &Names, known: &NamedTypes, of: TypeId) -> Content
    requires within { of < length names.now.types }
    requires types { AreTypes names.now known.now }
    ensures is { (later : Table) → Grows names.now later → IsContent names.now later result (spec.opened (known_of later known.now) (type_at later of)) }
    ensures within { ContentWithin names.now result }
{
    match opened(names, known, of) {
        Some(of) => content_of(names, of),
        None => Content::Faulty,
    }
}

/// The number that a constant's node gives a field.
fn field_of_node(node: &ConstantNode) -> Option<u64>
    ensures { result ≡ node_field node.now }
{
    match node {
        ConstantNode::Integer(value) => {
            if value.width() == 32 {
                Some(value.bits())
            } else {
                None
            }
        }
        ConstantNode::Zero => Some(0),
        _ => None,
    }
}

/// The number that a constant gives a field.
fn field_number(names: &Names, value: ConstantId) -> Option<u64>
    requires { value < length names.now.constants }
    ensures { (later : Table) → Grows names.now later → result ≡ spec.constant_field (constant_at later value) }
{
    match names.constant_node(value) {
        Some(node) => field_of_node(node),
        None => None,
    }
}

/// A field of a node.
fn field_of_type(node: &TypeNode, field: u64) -> Option<TypeId>
    ensures { result ≡ slice_get (fields_of (Some node.now)) field }
{
    match node {
        TypeNode::Struct { fields, .. } => fields.get(field as usize).copied(),
        _ => None,
    }
}

/// The type of a field of the struct with a number.
fn field(names: &Names, of: TypeId, field: u64) -> Option<TypeId>
    ensures { result ≡ slice_get (fields_of (slice_get names.now.types of)) field }
{
    match names.type_node(of) {
        Some(node) => field_of_type(node, field),
        None => None,
    }
}

/// Reads the value of an index that names a field of the struct with a number, and the field's type.
fn field_value(
    cursor: &mut Cursor<'_>,
    names: &mut Names,
    known: &NamedTypes,
    of: TypeId,
) -> Result<(Operand, TypeId), ReadEnd>
    requires { of < length names.old.types }
    ensures reads { (later : Table) → Grows names.new later → Reads (λ x. shown_operand later x.0) cursor.new result (spec.field_value_at (known_of later known.now) (types_at later (fields_of (slice_get names.old.types of))) cursor.old) }
    ensures into { IfOk result (λ x. (later : Table) → Grows names.new later → spec.field_of (types_at later (fields_of (slice_get names.old.types of))) (shown_operand later x.0) ≡ Some (type_at later x.1)) }
    ensures within { IfOk result (λ x. x.1 < length names.new.types) }
    ensures grows { Grows names.old names.new }
{
    names.is_table();
    let first = match cursor.peek() {
        Some(first) => first,
        None => return Err(ReadEnd::Bad(Fault::Ended)),
    };
    if sees_local(cursor) {
        return Err(bad(cursor.alloc(), &first, Cause::Operand));
    }
    let value = read_constant(cursor, names, known, 32)?;
    let number = match field_number(names, value) {
        Some(number) => number,
        None => return Err(bad(cursor.alloc(), &first, Cause::Operand)),
    };
    match field(names, of, number) {
        Some(into) => Ok((Operand::Constant(value), into)),
        None => Err(bad(cursor.alloc(), &first, Cause::Number)),
    }
}

/// Reads an index that names a field of the struct with a number: `i32 c`, and the field's type.
#[tactic(auto, using(ir_text::proofs::Later::later))]
fn field_index(
    cursor: &mut Cursor<'_>,
    names: &mut Names,
    known: &NamedTypes,
    of: TypeId,
) -> Result<(Argument, TypeId), ReadEnd>
    requires { of < length names.old.types }
    ensures reads { (later : Table) → Grows names.new later → Reads (λ x. shown_argument later x.0) cursor.new result (spec.field_index_at (known_of later known.now) (types_at later (fields_of (slice_get names.old.types of))) cursor.old) }
    ensures into { IfOk result (λ x. (later : Table) → Grows names.new later → spec.field_of (types_at later (fields_of (slice_get names.old.types of))) (shown_operand later x.0.value) ≡ Some (type_at later x.1)) }
    ensures within { IfOk result (λ x. x.1 < length names.new.types) }
    ensures grows { Grows names.old names.new }
{
    fixed_type(cursor, Scalar::Int(32))?;
    let (value, into) = field_value(cursor, names, known, of)?;
    let of = number(names, Scalar::Int(32))?;
    Ok((Argument { of, value }, into))
}

/// Refuses an index into what is no aggregate, at its type.
#[tactic(auto, unfolding(ir_text::specs::Reading::token_by))]
fn no_index(cursor: &mut Cursor<'_>) -> ReadEnd
    ensures { Fails result (token_by spec.no_index cursor.old) }
{
    match cursor.next() {
        None => ReadEnd::Bad(Fault::Ended),
        Some(lexeme) => match scalar_of(&lexeme) {
            Ok(_) => bad(cursor.alloc(), &lexeme, Cause::Operand),
            Err(cause) => bad(cursor.alloc(), &lexeme, cause),
        },
    }
}

/// Reads an index that goes into a type, and where the next one stands.
fn inner_index(
    cursor: &mut Cursor<'_>,
    names: &mut Names,
    known: &NamedTypes,
    of: TypeId,
) -> Result<(Argument, Place), ReadEnd>
    requires within { of < length names.old.types }
    requires types { AreTypes names.old known.now }
    ensures reads { (later : Table) → Grows names.new later → Reads (λ x. shown_argument later x.0) cursor.new result (spec.index_into (known_of later known.now) (spec.opened (known_of later known.now) (type_at later of)) cursor.old) }
    ensures next { IfOk result (λ x. (later : Table) → Grows names.new later → into_at later x.1 ≡ spec.led_into (spec.opened (known_of later known.now) (type_at later of)) (shown_operand later x.0.value)) }
    ensures within { IfOk result (λ x. PlaceWithin names.new x.1) }
    ensures grows { Grows names.old names.new }
{
    match content_at(names, known, of) {
        Content::Faulty => Ok((integer_argument(cursor, names, known)?, Place::Faulty)),
        Content::Elements { of, .. } => {
            Ok((integer_argument(cursor, names, known)?, Place::Inside(of)))
        }
        Content::Fields(of) => {
            let (index, into) = field_index(cursor, names, known, of)?;
            Ok((index, Place::Inside(into)))
        }
        Content::Nothing => Err(no_index(cursor)),
    }
}

/// Reads an index, and where the next one stands.
fn index(
    cursor: &mut Cursor<'_>,
    names: &mut Names,
    known: &NamedTypes,
    place: Place,
) -> Result<(Argument, Place), ReadEnd>
    requires within { PlaceWithin names.old place }
    requires types { AreTypes names.old known.now }
    ensures reads { (later : Table) → Grows names.new later → Reads (λ x. shown_argument later x.0) cursor.new result (spec.index_at (known_of later known.now) (into_at later place) cursor.old) }
    ensures next { IfOk result (λ x. (later : Table) → Grows names.new later → into_at later x.1 ≡ spec.next_into (known_of later known.now) (into_at later place) (shown_argument later x.0)) }
    ensures within { IfOk result (λ x. PlaceWithin names.new x.1) }
    ensures grows { Grows names.old names.new }
{
    match place {
        Place::Whole(of) => Ok((integer_argument(cursor, names, known)?, Place::Inside(of))),
        Place::Inside(of) => inner_index(cursor, names, known, of),
        Place::Faulty => Ok((integer_argument(cursor, names, known)?, Place::Faulty)),
    }
}

/// Reads a further index behind a comma, and where the next one stands, or passes over what stands in its place: behind that
/// no index stands.
fn further_index(
    cursor: &mut Cursor<'_>,
    names: &mut Names,
    known: &NamedTypes,
    place: Option<Place>,
) -> Result<Option<(Argument, Place)>, ReadEnd>
    requires within { IfSome place (PlaceWithin names.old) }
    requires types { AreTypes names.old known.now }
    ensures reads { (later : Table) → Grows names.new later → Reads (shown_further later) cursor.new result (spec.behind_comma (known_of later known.now) (some_into_at later place) cursor.old) }
    ensures next { IfOk result (λ o. (later : Table) → Grows names.new later → some_into_at later (place_of o) ≡ spec.still_into (known_of later known.now) (some_into_at later place) (shown_further later o)) }
    ensures within { IfOk result (λ o. IfSome (place_of o) (PlaceWithin names.new)) }
    ensures grows { Grows names.old names.new }
{
    mark(cursor, b',')?;
    let place = match place {
        Some(place) => place,
        None => {
            tail(cursor)?;
            return Ok(None);
        }
    };
    if sees_tail(cursor) {
        tail(cursor)?;
        return Ok(None);
    }
    Ok(Some(index(cursor, names, known, place)?))
}

/// Reads the indices behind the first one, and what is passed over behind them.
fn further_indices(
    cursor: &mut Cursor<'_>,
    names: &mut Names,
    known: &NamedTypes,
    place: Place,
    first: List<Argument>,
) -> Result<List<Argument>, ReadEnd>
    requires within { PlaceWithin names.old place }
    requires types { AreTypes names.old known.now }
    ensures reads { (later : Table) → Grows names.new later → Reads (map (shown_argument later)) cursor.new result (further_at (known_of later known.now) (into_at later place) (map (shown_argument later) first) cursor.old) }
    ensures grows { Grows names.old names.new }
{
    let mut indices = first;
    let mut state = Some(place);
    'indices: while sees(cursor, b',') {
        state = match further_index(cursor, names, known, state)? {
            Some((index, next)) => {
                indices.push(index)?;
                Some(next)
            }
            None => None,
        };
    }
    Ok(indices)
}

/// Reads one index or more, and what is passed over behind them.
#[tactic(auto, using(ir_text::proofs::Later::later, crate::proofs::Kept::types_kept))]
fn indices(
    cursor: &mut Cursor<'_>,
    names: &mut Names,
    known: &NamedTypes,
    of: TypeId,
) -> Result<List<Argument>, ReadEnd>
    requires within { of < length names.old.types }
    requires types { AreTypes names.old known.now }
    ensures reads { (later : Table) → Grows names.new later → Reads (map (shown_argument later)) cursor.new result (spec.indices_at (known_of later known.now) (type_at later of) cursor.old) }
    ensures grows { Grows names.old names.new }
{
    mark(cursor, b',')?;
    let mut first = List::new(cursor.alloc());
    let index = integer_argument(cursor, names, known)?;
    first.push(index)?;
    further_indices(cursor, names, known, Place::Inside(of), first)
}

/// Reads `inbounds T, ptr P, iN I, ..`, behind `%r = getelementptr`.
#[tactic(auto, using(ir_text::proofs::Later::later, crate::proofs::Kept::types_kept), unfolding(ir_tree::specs::Shown::shown))]
pub fn address(
    cursor: &mut Cursor<'_>,
    names: &mut Names,
    known: &NamedTypes,
    layouts: &mut TypeLayouts,
    to: NameId,
) -> Result<Instruction, ReadEnd>
    requires laid { AreLaid (layout_in known.now) names.old layouts.old }
    requires types { AreTypes names.old known.now }
    ensures reads { (later : Table) → Grows names.new later → Reads (shown later) cursor.new result (spec.address_at (known_of later known.now) (name_at later to) cursor.old) }
    ensures result { IfOk result (λ i. result_of i ≡ Some to) }
    ensures grows { Grows names.old names.new }
    ensures laid { AreLaid (layout_in known.now) names.new layouts.new }
{
    let inbounds = said(cursor, &[b"inbounds", b"nuw", b"nusw"], b"inbounds");
    let of = read_memory_type(cursor, names, known, layouts)?;
    names.is_table();
    mark(cursor, b',')?;
    let base = pointer(cursor, names, known)?;
    let indices = indices(cursor, names, known, of)?;
    Ok(Instruction::Address {
        to,
        inbounds,
        of,
        base,
        indices,
    })
}
