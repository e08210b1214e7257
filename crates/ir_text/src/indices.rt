//! The indices of a constant address: what each may be, and where it leads.

ghost use Rattle.std.specs.Prelude.{◌≡◌, ◌<◌, ◌≤◌, length, option_map, option_and_then, IfOk, IfSome, OnOk, MatchOption};
ghost use Rattle.ir_tree.specs.Layouts.{field_type};
ghost use Rattle.ir_tree.specs.Naming.{Grows, constant_at, type_at};
ghost use Rattle.ir_text.specs.Reading.{Reads, Fails, meant, token_by};
ghost use Rattle.ir_text.specs.Types as types;
ghost use Rattle.ir_text.specs.Named.{known_of};
ghost use Rattle.ir_text.specs.Passed.{skipped};
ghost use Rattle.ir_text.specs.Indices as spec;
ghost use Rattle.ir_text.specs.IndexNodes.{node_number, node_field, node_name, node_wanted};
ghost use Rattle.ir_text.specs.NestedConstants.{Typed};
ghost use Rattle.ir_text.specs.OpenConstants.{TypeWithin, WantedWithin, shown_entry, fields_of};

use crate::constants::{simple_constant, width_of};
use crate::cursor::{Cursor, Lexeme};
use crate::fault::{Fault, ReadEnd};
use crate::leaves::{bad, is_word};
use crate::named::NamedTypes;
use crate::types::word_type;
use ir_lex::token::{Cause, TokenKind};
use ir_tree::nodes::{ConstantId, ConstantNode, NameId, TypeId, TypeNode};
use ir_tree::table::Names;
use pv_base::name::Name;
use pv_base::want::Memory;

/// What an index may be.
#[derive(Clone, Copy)]
pub enum Wanted {
    /// An integer, which leads to elements of the type, unless a faulty body was met.
    Counted(Option<TypeId>),
    /// The number of a field of this struct.
    Field(TypeId),
    /// Nothing: the type is no aggregate.
    Never,
}

/// Whether a word is passed over before the parenthesis.
fn is_address_word(lexeme: &Lexeme<'_>) -> bool
    ensures { result ≡ spec.is_address_word lexeme.now }
{
    is_word(lexeme, b"inbounds") || is_word(lexeme, b"nuw") || is_word(lexeme, b"nusw")
}

/// Passes over the words before the parenthesis.
pub fn address_words(cursor: &mut Cursor<'_>)
    ensures reads { skipped spec.is_address_word (token_by spec.address_word) cursor.old ≡ Ok (tt, cursor.new) }
    ensures no_longer { length cursor.new ≤ length cursor.old }
{
    while let Some(lexeme) = cursor.peek() {
        if !is_address_word(&lexeme) {
            return;
        }
        cursor.skip();
    }
}

/// The type of a register that a token is.
fn register_word(
    cursor: &Cursor<'_>,
    names: &mut Names,
    lexeme: &Lexeme<'_>,
) -> Result<TypeId, ReadEnd>
    ensures reads { (later : _) (rest : _) → Grows names.new later → Reads (type_at later) rest result (meant (types.register_type lexeme.now) lexeme.now rest) }
    ensures within { IfOk result (λ k. k < length names.new.types) }
    ensures grows { Grows names.old names.new }
{
    match lexeme.kind() {
        TokenKind::Word => word_type(cursor, names, lexeme),
        _ => Err(bad(cursor.alloc(), lexeme, Cause::BadType)),
    }
}

/// The fault where a token may be no type of a register.
fn no_type(cursor: &Cursor<'_>, names: &mut Names, lexeme: &Lexeme<'_>) -> ReadEnd
    ensures reads { (rest : _) → Fails result (meant (spec.no_type {A = Unit {0}} (types.register_type lexeme.now)) lexeme.now rest) }
    ensures grows { Grows names.old names.new }
{
    match register_word(cursor, names, lexeme) {
        Ok(_) => bad(cursor.alloc(), lexeme, Cause::Operand),
        Err(end) => end,
    }
}

/// Reads `ptr`.
#[tactic(auto, unfolding(crate::specs::Reading::token_by))]
pub fn pointer(cursor: &mut Cursor<'_>, names: &mut Names) -> Result<(), ReadEnd>
    ensures reads { Reads (λ x. x) cursor.new result (token_by spec.pointer_type cursor.old) }
    ensures grows { Grows names.old names.new }
    ensures shorter { OnOk result (length cursor.new < length cursor.old) }
{
    match cursor.next() {
        None => Err(ReadEnd::Bad(Fault::Ended)),
        Some(lexeme) => {
            if is_word(&lexeme, b"ptr") {
                return Ok(());
            }
            Err(no_type(cursor, names, &lexeme))
        }
    }
}

/// Reads the type of an integer.
#[tactic(auto, unfolding(crate::specs::Reading::token_by))]
pub fn integer_type(cursor: &mut Cursor<'_>, names: &mut Names) -> Result<TypeId, ReadEnd>
    ensures reads { (later : _) → Grows names.new later → Reads (type_at later) cursor.new result (token_by spec.integer_type cursor.old) }
    ensures within { IfOk result (λ k. k < length names.new.types) }
    ensures grows { Grows names.old names.new }
    ensures shorter { OnOk result (length cursor.new < length cursor.old) }
{
    match cursor.next() {
        None => Err(ReadEnd::Bad(Fault::Ended)),
        Some(lexeme) => {
            if is_word(&lexeme, b"ptr") {
                return Err(bad(cursor.alloc(), &lexeme, Cause::Operand));
            }
            register_word(cursor, names, &lexeme)
        }
    }
}

/// Reads what stands where no index may.
#[tactic(auto, unfolding(crate::specs::Reading::token_by))]
pub fn no_index(cursor: &mut Cursor<'_>, names: &mut Names) -> ReadEnd
    ensures reads { Fails result (token_by (λ t. spec.no_type {A = Typed} (types.register_type t)) cursor.old) }
    ensures grows { Grows names.old names.new }
{
    match cursor.next() {
        None => ReadEnd::Bad(Fault::Ended),
        Some(lexeme) => no_type(cursor, names, &lexeme),
    }
}

/// Reads `i32`.
#[tactic(auto, unfolding(crate::specs::Reading::token_by))]
pub fn word_of_32(cursor: &mut Cursor<'_>, names: &mut Names) -> Result<TypeId, ReadEnd>
    ensures reads { (later : _) → Grows names.new later → Reads (type_at later) cursor.new result (token_by spec.word_of_32 cursor.old) }
    ensures within { IfOk result (λ k. k < length names.new.types) }
    ensures grows { Grows names.old names.new }
    ensures shorter { OnOk result (length cursor.new < length cursor.old) }
{
    match cursor.next() {
        None => Err(ReadEnd::Bad(Fault::Ended)),
        Some(lexeme) => {
            let of = register_word(cursor, names, &lexeme)?;
            if width_of(names, of) == 32 {
                Ok(of)
            } else {
                Err(bad(cursor.alloc(), &lexeme, Cause::Operand))
            }
        }
    }
}

/// The number that a node gives of a field.
fn node_number(node: &ConstantNode) -> Option<u64>
    ensures { result ≡ node_number node.now }
{
    match node {
        ConstantNode::Integer(value) => {
            if value.width() == 32 {
                Some(value.bits())
            } else {
                None
            }
        }
        ConstantNode::Zero => Some(0),
        _ => None,
    }
}

/// The number that a constant gives of a field.
#[tactic(auto, using(crate::proofs::IndexLaws::number_later))]
fn field_number(names: &Names, constant: ConstantId) -> Option<u64>
    requires { constant < length names.now.constants }
    ensures { (later : _) → Grows names.now later → result ≡ spec.field_number (constant_at later constant) }
{
    match names.constant_node(constant) {
        Some(node) => node_number(node),
        None => None,
    }
}

/// The type of a field at a node.
fn node_field(node: &TypeNode, number: u64) -> Option<TypeId>
    ensures { result ≡ node_field number node.now }
{
    match node {
        TypeNode::Struct { fields, .. } => fields.as_slice().get(number as usize).copied(),
        _ => None,
    }
}

/// The type of a field of a struct.
#[tactic(auto, using(crate::proofs::IndexLaws::field_later))]
fn field_of(names: &Names, of: TypeId, number: u64) -> Option<TypeId>
    requires { of < length names.now.types }
    ensures is { (later : _) → Grows names.now later → option_map (type_at later) result ≡ field_type (fields_of (type_at later of)) number }
    ensures within { TypeWithin names.now result }
{
    names.is_table();
    match names.type_node(of) {
        Some(node) => node_field(node, number),
        None => None,
    }
}

/// Reads the number of a field of a struct, and says where it leads.
#[tactic(auto, unfolding(crate::specs::Reading::token_by))]
pub fn field(
    cursor: &mut Cursor<'_>,
    names: &mut Names,
    of: TypeId,
) -> Result<(ConstantId, Option<TypeId>), ReadEnd>
    requires { of < length names.old.types }
    ensures reads { (later : _) → Grows names.new later → Reads (λ x. constant_at later x.0) cursor.new result (token_by (spec.field (fields_of (type_at later of))) cursor.old) }
    ensures leads { (later : _) → Grows names.new later → IfOk result (λ x. option_map (type_at later) x.1 ≡ spec.led_to (spec.Field (fields_of (type_at later of))) (constant_at later x.0)) }
    ensures within { IfOk result (λ x. (x.0 < length names.new.constants) × TypeWithin names.new x.1) }
    ensures grows { Grows names.old names.new }
    ensures shorter { OnOk result (length cursor.new < length cursor.old) }
{
    match cursor.next() {
        None => Err(ReadEnd::Bad(Fault::Ended)),
        Some(lexeme) => {
            let constant = simple_constant(cursor, names, &lexeme, 32)?;
            match field_number(names, constant) {
                None => Err(bad(cursor.alloc(), &lexeme, Cause::Operand)),
                Some(number) => match field_of(names, of, number) {
                    None => Err(bad(cursor.alloc(), &lexeme, Cause::Number)),
                    Some(next) => Ok((constant, Some(next))),
                },
            }
        }
    }
}

/// The body that the whole text gives a name. Where it is no type of this table the answer is `Memory`.
fn body_in(names: &Names, known: &NamedTypes, name: &Name) -> Result<Option<TypeId>, Memory>
    ensures is { (later : _) → IfOk result (λ o. option_map (type_at later) o ≡ option_and_then (λ b. b.of) (known_of later known.now name.now)) }
    ensures within { IfOk result (TypeWithin names.now) }
{
    match known.body(name) {
        None => Ok(None),
        Some(body) => match body.of {
            None => Ok(None),
            Some(of) => {
                if (of as usize) < names.type_count() {
                    Ok(Some(of))
                } else {
                    Err(Memory)
                }
            }
        },
    }
}

/// The name that a node is.
fn node_name(node: &TypeNode) -> Option<NameId>
    ensures { result ≡ node_name node.now }
{
    match node {
        TypeNode::Named(name) => Some(*name),
        _ => None,
    }
}

/// A type, or the body that the whole text gives a named one, unless that is faulty.
fn body_of(names: &Names, known: &NamedTypes, of: TypeId) -> Result<Option<TypeId>, Memory>
    requires { of < length names.now.types }
    ensures is { (later : _) → Grows names.now later → IfOk result (λ o. option_map (type_at later) o ≡ spec.opened (known_of later known.now) (type_at later of)) }
    ensures within { IfOk result (TypeWithin names.now) }
{
    names.is_table();
    match names.type_node(of) {
        None => Err(Memory),
        Some(node) => match node_name(node) {
            None => Ok(Some(of)),
            Some(number) => match names.name(number) {
                Some(name) => body_in(names, known, name),
                None => Err(Memory),
            },
        },
    }
}

/// What an index into the type of a node may be.
fn node_wanted(node: &TypeNode, of: TypeId) -> Wanted
    ensures { result ≡ node_wanted of node.now }
{
    match node {
        TypeNode::Array { of, .. } => Wanted::Counted(Some(*of)),
        TypeNode::Struct { .. } => Wanted::Field(of),
        _ => Wanted::Never,
    }
}

/// What an index into a type may be.
#[tactic(auto, using(crate::proofs::IndexLaws::wanted_later))]
fn shape(names: &Names, of: TypeId) -> Wanted
    requires { of < length names.now.types }
    ensures is { (later : _) → Grows names.now later → shown_entry later result ≡ spec.entered (Some (type_at later of)) }
    ensures within { WantedWithin names.now result }
{
    names.is_table();
    match names.type_node(of) {
        Some(node) => node_wanted(node, of),
        None => Wanted::Never,
    }
}

/// What an index may be that goes into a type, or into a faulty body.
pub fn wanted_by(names: &Names, known: &NamedTypes, into: Option<TypeId>) -> Result<Wanted, Memory>
    requires { TypeWithin names.now into }
    ensures is { (later : _) → Grows names.now later → IfOk result (λ w. shown_entry later w ≡ spec.entry_of (known_of later known.now) (option_map (type_at later) into)) }
    ensures within { IfOk result (WantedWithin names.now) }
{
    match into {
        None => Ok(Wanted::Counted(None)),
        Some(of) => match body_of(names, known, of)? {
            None => Ok(Wanted::Counted(None)),
            Some(of) => Ok(shape(names, of)),
        },
    }
}
