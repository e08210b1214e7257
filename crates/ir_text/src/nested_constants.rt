//! Constants, however deep they nest: read by one loop with a stack of what is open.

ghost use Rattle.std.specs.Prelude.{◌≡◌, ◌<◌, ◌≤◌, ◌∷◌, length, map, option_map, IfOk, OnOk};
ghost use Rattle.int_num.specs.Integer.{IsWidth};
ghost use Rattle.ir_tree.specs.Table.{Table};
ghost use Rattle.ir_tree.specs.Naming.{Grows, ElementWithin, ElementsWithin, constant_at, type_at};
ghost use Rattle.ir_text.specs.Reading.{Reads};
ghost use Rattle.ir_text.specs.Named.{known_of};
ghost use Rattle.ir_text.specs.NestedConstants as spec;
ghost use Rattle.ir_text.specs.OpenConstants.{Steps, brackets, elements_end, elements_from, closing, address_close, address_end, counted_end, field_end, fields_of, shown_element, AddressWithin, TypeWithin, OpenWithin, ReachedWithin};

use crate::constants::{simple_constant, width_of};
use crate::cursor::{Cursor, Lexeme};
use crate::fault::{Fault, ReadEnd};
use crate::indices::{
    Wanted, address_words, field, integer_type, no_index, pointer, wanted_by, word_of_32,
};
use crate::leaves::{bad, eat, is_mark, is_word, mark, sees, take};
use crate::memory_types::read_lone_memory_type;
use crate::named::NamedTypes;
use crate::nested::read_type;
use ir_lex::token::{Cause, TokenKind};
use ir_tree::nodes::{ConstantId, Element, TypeId};
use ir_tree::table::Names;
use pv_base::list::List;

/// What stands round the elements of a constant.
#[derive(Clone, Copy)]
pub enum Bracket {
    /// `[ T c, .. ]`
    Array,
    /// `{ T c, .. }`
    Struct,
    /// `<{ T c, .. }>`
    Packed,
}

/// A constant address with the indices so far.
#[derive(Drop)]
pub struct Address {
    pub of: TypeId,
    pub base: ConstantId,
    pub indices: List<Element>,
}

/// What waits for a constant inside it.
#[derive(Drop)]
pub enum OpenConstant {
    /// An address of a type, before its pointer.
    Base(TypeId),
    /// An address before an index of this type, and the type into which the next goes, unless that is faulty.
    Index(Address, TypeId, Option<TypeId>),
    /// Brackets with the elements so far, behind the type of the next.
    Elements {
        bracket: Bracket,
        elements: List<Element>,
        of: TypeId,
    },
}

/// How far a step came.
#[derive(Drop)]
pub enum Reached {
    Done(ConstantId),
    /// The tokens go on with a constant inside, at a width.
    Opened(OpenConstant, u32),
    /// The tokens go on behind an index, and the next goes into this type.
    Going(Address, Option<TypeId>),
}

/// The mark that closes the elements.
fn closing_mark(bracket: Bracket) -> u8
    ensures { result ≡ spec.closing_mark bracket }
{
    match bracket {
        Bracket::Array => b']',
        Bracket::Struct | Bracket::Packed => b'}',
    }
}

/// The constant of these elements, behind the mark that closes them.
fn constant_of(
    cursor: &mut Cursor<'_>,
    names: &mut Names,
    bracket: Bracket,
    elements: List<Element>,
) -> Result<ConstantId, ReadEnd>
    requires { ElementsWithin names.old elements }
    ensures reads { (later : Table) → Grows names.new later → Reads (constant_at later) cursor.new result (spec.bracket_end bracket (spec.elements_of (map (shown_element later) elements)) cursor.old) }
    ensures within { IfOk result (λ k. k < length names.new.constants) }
    ensures grows { Grows names.old names.new }
    ensures no_longer { OnOk result (length cursor.new ≤ length cursor.old) }
{
    match bracket {
        Bracket::Array => Ok(names.array_of(elements)?),
        Bracket::Struct => Ok(names.structure_of(false, elements)?),
        Bracket::Packed => {
            mark(cursor, b'>')?;
            Ok(names.structure_of(true, elements)?)
        }
    }
}

/// The end of the elements.
fn closed(
    cursor: &mut Cursor<'_>,
    names: &mut Names,
    bracket: Bracket,
    elements: List<Element>,
) -> Result<ConstantId, ReadEnd>
    requires { ElementsWithin names.old elements }
    ensures reads { (later : Table) (known : _) → Grows names.new later → Reads (constant_at later) cursor.new result (brackets known bracket (map (shown_element later) elements) cursor.old) }
    ensures within { IfOk result (λ k. k < length names.new.constants) }
    ensures grows { Grows names.old names.new }
    ensures shorter { OnOk result (length cursor.new < length cursor.old) }
{
    mark(cursor, closing_mark(bracket))?;
    constant_of(cursor, names, bracket, elements)
}

/// The type of an element that follows these, up to its value.
fn element(
    cursor: &mut Cursor<'_>,
    names: &mut Names,
    known: &NamedTypes,
    bracket: Bracket,
    elements: List<Element>,
) -> Result<Reached, ReadEnd>
    requires { ElementsWithin names.old elements }
    ensures steps { (later : Table) → Grows names.new later → Steps (known_of later known.now) later cursor.new result (elements_from (known_of later known.now) bracket (map (shown_element later) elements) cursor.old) }
    ensures within { IfOk result (ReachedWithin names.new) }
    ensures grows { Grows names.old names.new }
    ensures no_longer { OnOk result (length cursor.new ≤ length cursor.old) }
{
    let of = read_type(cursor, names, known)?;
    let width = width_of(names, of);
    let open = OpenConstant::Elements {
        bracket,
        elements,
        of,
    };
    Ok(Reached::Opened(open, width))
}

/// Elements up to their end, or up to the value of the first, behind the bracket that opens them.
fn elements(
    cursor: &mut Cursor<'_>,
    names: &mut Names,
    known: &NamedTypes,
    bracket: Bracket,
) -> Result<Reached, ReadEnd>
    ensures steps { (later : Table) → Grows names.new later → Steps (known_of later known.now) later cursor.new result (spec.bracket_rule (known_of later known.now) (spec.constant_at (known_of later known.now)) bracket cursor.old) }
    ensures within { IfOk result (ReachedWithin names.new) }
    ensures grows { Grows names.old names.new }
    ensures no_longer { OnOk result (length cursor.new ≤ length cursor.old) }
{
    let none = List::new(cursor.alloc());
    if sees(cursor, closing_mark(bracket)) {
        return Ok(Reached::Done(closed(cursor, names, bracket, none)?));
    }
    element(cursor, names, known, bracket, none)
}

/// The string behind `c`.
#[tactic(auto, unfolding(crate::specs::Reading::token_by))]
fn text(cursor: &mut Cursor<'_>, names: &mut Names) -> Result<ConstantId, ReadEnd>
    ensures reads { (later : Table) → Grows names.new later → Reads (constant_at later) cursor.new result (spec.text_rule cursor.old) }
    ensures within { IfOk result (λ k. k < length names.new.constants) }
    ensures grows { Grows names.old names.new }
    ensures no_longer { OnOk result (length cursor.new ≤ length cursor.old) }
{
    match cursor.next() {
        None => Err(ReadEnd::Bad(Fault::Ended)),
        Some(lexeme) => match lexeme.kind() {
            TokenKind::Text => {
                let bytes = lexeme.string(cursor.alloc())?;
                Ok(names.text(bytes)?)
            }
            _ => Err(bad(cursor.alloc(), &lexeme, Cause::Operand)),
        },
    }
}

/// The type of an address up to its pointer: `WORDS (T, ptr`.
fn address_start(
    cursor: &mut Cursor<'_>,
    names: &mut Names,
    known: &NamedTypes,
) -> Result<TypeId, ReadEnd>
    ensures reads { (later : Table) → Grows names.new later → Reads (type_at later) cursor.new result (spec.address_start (known_of later known.now) cursor.old) }
    ensures within { IfOk result (λ k. k < length names.new.types) }
    ensures grows { Grows names.old names.new }
    ensures no_longer { OnOk result (length cursor.new ≤ length cursor.old) }
{
    address_words(cursor);
    mark(cursor, b'(')?;
    let of = read_lone_memory_type(cursor, names, known)?;
    mark(cursor, b',')?;
    pointer(cursor, names)?;
    Ok(of)
}

/// A constant up to its end, or up to the first constant inside it.
fn begin(
    cursor: &mut Cursor<'_>,
    names: &mut Names,
    known: &NamedTypes,
    width: u32,
) -> Result<Reached, ReadEnd>
    requires { IsWidth width }
    ensures steps { (later : Table) → Grows names.new later → Steps (known_of later known.now) later cursor.new result (spec.constant_at (known_of later known.now) width cursor.old) }
    ensures within { IfOk result (ReachedWithin names.new) }
    ensures grows { Grows names.old names.new }
    ensures shorter { OnOk result (length cursor.new < length cursor.old) }
{
    let lexeme = take(cursor)?;
    if is_mark(&lexeme, b'[') {
        return elements(cursor, names, known, Bracket::Array);
    }
    if is_mark(&lexeme, b'{') {
        return elements(cursor, names, known, Bracket::Struct);
    }
    if is_mark(&lexeme, b'<') {
        mark(cursor, b'{')?;
        return elements(cursor, names, known, Bracket::Packed);
    }
    if is_word(&lexeme, b"c") {
        return Ok(Reached::Done(text(cursor, names)?));
    }
    if is_word(&lexeme, b"getelementptr") {
        let of = address_start(cursor, names, known)?;
        return Ok(Reached::Opened(OpenConstant::Base(of), 64));
    }
    Ok(Reached::Done(simple_constant(cursor, names, &lexeme, width)?))
}

/// Goes on behind an element that follows these.
fn behind_element(
    cursor: &mut Cursor<'_>,
    names: &mut Names,
    known: &NamedTypes,
    bracket: Bracket,
    mut elements: List<Element>,
    last: Element,
) -> Result<Reached, ReadEnd>
    requires elements { ElementsWithin names.old elements }
    requires last { ElementWithin names.old last }
    ensures steps { (later : Table) → Grows names.new later → Steps (known_of later known.now) later cursor.new result (elements_end (known_of later known.now) bracket (map (shown_element later) elements) (type_at later last.of) (constant_at later last.value, cursor.old)) }
    ensures within { IfOk result (ReachedWithin names.new) }
    ensures grows { Grows names.old names.new }
    ensures shorter { OnOk result (length cursor.new < length cursor.old) }
{
    elements.push(last)?;
    if eat(cursor, b',') {
        return element(cursor, names, known, bracket, elements);
    }
    Ok(Reached::Done(closed(cursor, names, bracket, elements)?))
}

/// An index of any width up to its value. The next goes into this type.
fn counted(
    cursor: &mut Cursor<'_>,
    names: &mut Names,
    address: Address,
    next: Option<TypeId>,
) -> Result<Reached, ReadEnd>
    requires address { AddressWithin names.old address }
    requires next { TypeWithin names.old next }
    ensures steps { (later : Table) (known : _) → Grows names.new later → Steps known later cursor.new result (counted_end known (type_at later address.of) (constant_at later address.base) (map (shown_element later) address.indices) (option_map (type_at later) next) cursor.old) }
    ensures within { IfOk result (ReachedWithin names.new) }
    ensures grows { Grows names.old names.new }
    ensures shorter { OnOk result (length cursor.new < length cursor.old) }
{
    let of = integer_type(cursor, names)?;
    let width = width_of(names, of);
    Ok(Reached::Opened(OpenConstant::Index(address, of, next), width))
}

/// An index that names a field of a struct.
fn named_field(
    cursor: &mut Cursor<'_>,
    names: &mut Names,
    mut address: Address,
    of: TypeId,
) -> Result<Reached, ReadEnd>
    requires address { AddressWithin names.old address }
    requires of { of < length names.old.types }
    ensures steps { (later : Table) (known : _) → Grows names.new later → Steps known later cursor.new result (field_end known (type_at later address.of) (constant_at later address.base) (map (shown_element later) address.indices) (fields_of (type_at later of)) cursor.old) }
    ensures within { IfOk result (ReachedWithin names.new) }
    ensures grows { Grows names.old names.new }
    ensures shorter { OnOk result (length cursor.new < length cursor.old) }
{
    let word = word_of_32(cursor, names)?;
    let (value, next) = field(cursor, names, of)?;
    address.indices.push(Element { of: word, value })?;
    Ok(Reached::Going(address, next))
}

/// The end of an address.
fn address_closed(
    cursor: &mut Cursor<'_>,
    names: &mut Names,
    address: Address,
) -> Result<ConstantId, ReadEnd>
    requires { AddressWithin names.old address }
    ensures reads { (later : Table) → Grows names.new later → Reads (constant_at later) cursor.new result (address_close (type_at later address.of) (constant_at later address.base) (map (shown_element later) address.indices) cursor.old) }
    ensures within { IfOk result (λ k. k < length names.new.constants) }
    ensures grows { Grows names.old names.new }
    ensures shorter { OnOk result (length cursor.new < length cursor.old) }
{
    mark(cursor, b')')?;
    Ok(names.address(address.of, address.base, address.indices)?)
}

/// Goes on behind an index. The next goes into this type, unless it is faulty.
fn behind_index(
    cursor: &mut Cursor<'_>,
    names: &mut Names,
    known: &NamedTypes,
    address: Address,
    into: Option<TypeId>,
) -> Result<Reached, ReadEnd>
    requires address { AddressWithin names.old address }
    requires into { TypeWithin names.old into }
    ensures steps { (later : Table) → Grows names.new later → Steps (known_of later known.now) later cursor.new result (address_end (known_of later known.now) (type_at later address.of) (constant_at later address.base) (map (shown_element later) address.indices) (option_map (type_at later) into) cursor.old) }
    ensures within { IfOk result (ReachedWithin names.new) }
    ensures grows { Grows names.old names.new }
    ensures shorter { OnOk result (length cursor.new < length cursor.old) }
{
    if !eat(cursor, b',') {
        return Ok(Reached::Done(address_closed(cursor, names, address)?));
    }
    match wanted_by(names, known, into)? {
        Wanted::Counted(next) => counted(cursor, names, address, next),
        Wanted::Field(of) => named_field(cursor, names, address, of),
        Wanted::Never => Err(no_index(cursor, names)),
    }
}

/// Goes on behind a constant in what is open round it.
fn end(
    waits: OpenConstant,
    inside: ConstantId,
    cursor: &mut Cursor<'_>,
    names: &mut Names,
    known: &NamedTypes,
) -> Result<Reached, ReadEnd>
    requires waits { OpenWithin names.old waits }
    requires inside { inside < length names.old.constants }
    ensures steps { (later : Table) → Grows names.new later → Steps (known_of later known.now) later cursor.new result (closing (known_of later known.now) later waits (constant_at later inside, cursor.old)) }
    ensures within { IfOk result (ReachedWithin names.new) }
    ensures grows { Grows names.old names.new }
    ensures shorter { OnOk result (length cursor.new < length cursor.old) }
{
    match waits {
        OpenConstant::Base(of) => {
            mark(cursor, b',')?;
            let indices = List::new(cursor.alloc());
            let address = Address {
                of,
                base: inside,
                indices,
            };
            counted(cursor, names, address, Some(of))
        }
        OpenConstant::Index(mut address, of, next) => {
            address.indices.push(Element { of, value: inside })?;
            behind_index(cursor, names, known, address, next)
        }
        OpenConstant::Elements {
            bracket,
            elements,
            of,
        } => {
            let last = Element { of, value: inside };
            behind_element(cursor, names, known, bracket, elements, last)
        }
    }
}

/// Reads a constant at a width. `known` are the named types of the whole text.
pub fn read_constant(
    cursor: &mut Cursor<'_>,
    names: &mut Names,
    known: &NamedTypes,
    width: u32,
) -> Result<ConstantId, ReadEnd>
    requires { IsWidth width }
    ensures reads { (later : Table) → Grows names.new later → Reads (constant_at later) cursor.new result (spec.constant_at (known_of later known.now) width cursor.old) }
    ensures within { IfOk result (λ k. k < length names.new.constants) }
    ensures grows { Grows names.old names.new }
    ensures shorter { OnOk result (length cursor.new < length cursor.old) }
{
    let mut stack = Vec::new(cursor.alloc());
    let mut state = begin(cursor, names, known, width)?;
    'steps: loop {
        state = match state {
            Reached::Opened(open, inside) => {
                stack.push(open)?;
                begin(cursor, names, known, inside)?
            }
            Reached::Going(address, into) => behind_index(cursor, names, known, address, into)?,
            Reached::Done(k) => match stack.pop() {
                None => return Ok(k),
                Some(open) => end(open, k, cursor, names, known)?,
            },
        };
    }
}
