//! Types, however deep they nest: read by one loop with a stack of what is open.

ghost use Rattle.std.specs.Prelude.{◌≡◌, ◌<◌, ◌≤◌, true, false, length, map, All, OnOk, IfOk};
ghost use Rattle.ir_tree.specs.Table.{Table};
ghost use Rattle.ir_tree.specs.Naming.{Grows, type_at};
ghost use Rattle.ir_text.specs.Reading.{Reads, ReadsUnder, meant};
ghost use Rattle.ir_text.specs.Types as spec;
ghost use Rattle.ir_text.specs.Leaves.{spelled_name};
ghost use Rattle.ir_text.specs.Named.{known_of};
ghost use Rattle.ir_text.specs.Nested.{Steps, braces, fields_rule, closing, OpenWithin, BegunWithin};

use crate::cursor::{Cursor, Lexeme};
use crate::fault::{Fault, ReadEnd};
use crate::leaves::{bad, eat, is_mark, mark, sees, take};
use crate::named::NamedTypes;
use crate::types::{header, word_type};
use ir_lex::token::{Cause, TokenKind};
use ir_tree::nodes::TypeId;
use ir_tree::table::Names;
use pv_base::list::List;

/// What waits for a type inside it.
#[derive(Drop)]
pub enum Open {
    /// An array of so many.
    Array(u128),
    /// A struct with the fields so far.
    Struct { packed: bool, fields: List<TypeId> },
}

/// How far a step came.
#[derive(Drop)]
pub enum Begun {
    Done(TypeId),
    /// The tokens go on with a type inside.
    Opened(Open),
}

/// A type of one token.
fn simple(
    cursor: &Cursor<'_>,
    names: &mut Names,
    known: &NamedTypes,
    lexeme: &Lexeme<'_>,
) -> Result<TypeId, ReadEnd>
    ensures reads { (later : Table) (rest : _) → Grows names.new later → Reads (type_at later) rest result (meant (spec.simple (known_of later known.now) lexeme.now) lexeme.now rest) }
    ensures within { IfOk result (λ k. k < length names.new.types) }
    ensures grows { Grows names.old names.new }
{
    match lexeme.kind() {
        TokenKind::Word => word_type(cursor, names, lexeme),
        TokenKind::LocalName => named(cursor, names, known, lexeme),
        _ => Err(bad(cursor.alloc(), lexeme, Cause::BadType)),
    }
}

/// A named type that the text defines.
fn named(
    cursor: &Cursor<'_>,
    names: &mut Names,
    known: &NamedTypes,
    lexeme: &Lexeme<'_>,
) -> Result<TypeId, ReadEnd>
    requires { lexeme.now.kind ≡ TokenKind.LocalName }
    ensures reads { (later : Table) (rest : _) → Grows names.new later → Reads (type_at later) rest result (meant (spec.known_type (known_of later known.now) (spelled_name lexeme.now)) lexeme.now rest) }
    ensures within { IfOk result (λ k. k < length names.new.types) }
    ensures grows { Grows names.old names.new }
{
    let name = lexeme.name(cursor.alloc())?;
    if known.body(&name).is_none() {
        return Err(bad(cursor.alloc(), lexeme, Cause::BadType));
    }
    let number = names.number(name)?;
    Ok(names.named(number)?)
}

/// The end of a struct's fields.
fn plain(
    cursor: &mut Cursor<'_>,
    names: &mut Names,
    fields: List<TypeId>,
) -> Result<TypeId, ReadEnd>
    requires { All (λ k. k < length names.old.types) fields }
    ensures reads { (later : Table) (known : _) → Grows names.new later → Reads (type_at later) cursor.new result (braces known false (map (type_at later) fields) cursor.old) }
    ensures within { IfOk result (λ k. k < length names.new.types) }
    ensures grows { Grows names.old names.new }
    ensures shorter { OnOk result (length cursor.new < length cursor.old) }
{
    mark(cursor, b'}')?;
    Ok(names.structure(false, fields)?)
}

/// The end of a packed struct's fields.
fn packed(
    cursor: &mut Cursor<'_>,
    names: &mut Names,
    fields: List<TypeId>,
) -> Result<TypeId, ReadEnd>
    requires { All (λ k. k < length names.old.types) fields }
    ensures reads { (later : Table) (known : _) → Grows names.new later → Reads (type_at later) cursor.new result (braces known true (map (type_at later) fields) cursor.old) }
    ensures within { IfOk result (λ k. k < length names.new.types) }
    ensures grows { Grows names.old names.new }
    ensures shorter { OnOk result (length cursor.new < length cursor.old) }
{
    mark(cursor, b'}')?;
    mark(cursor, b'>')?;
    Ok(names.structure(true, fields)?)
}

/// The end of a struct of either kind.
fn closed(
    cursor: &mut Cursor<'_>,
    names: &mut Names,
    is_packed: bool,
    fields: List<TypeId>,
) -> Result<TypeId, ReadEnd>
    requires { All (λ k. k < length names.old.types) fields }
    ensures reads { (later : Table) (known : _) → Grows names.new later → Reads (type_at later) cursor.new result (braces known is_packed (map (type_at later) fields) cursor.old) }
    ensures within { IfOk result (λ k. k < length names.new.types) }
    ensures grows { Grows names.old names.new }
    ensures shorter { OnOk result (length cursor.new < length cursor.old) }
{
    match is_packed {
        true => packed(cursor, names, fields),
        false => plain(cursor, names, fields),
    }
}

/// A struct up to its end, or up to its first field, behind its brace.
fn fields(cursor: &mut Cursor<'_>, names: &mut Names, is_packed: bool) -> Result<Begun, ReadEnd>
    ensures steps { (later : Table) (known : _) → Grows names.new later → Steps known (type_at later) cursor.new result (fields_rule known is_packed cursor.old) }
    ensures within { IfOk result (BegunWithin (length names.new.types)) }
    ensures grows { Grows names.old names.new }
    ensures no_longer { OnOk result (length cursor.new ≤ length cursor.old) }
{
    let none = List::new(cursor.alloc());
    if sees(cursor, b'}') {
        return Ok(Begun::Done(closed(cursor, names, is_packed, none)?));
    }
    Ok(Begun::Opened(Open::Struct {
        packed: is_packed,
        fields: none,
    }))
}

/// A type up to its end, or up to the first type inside it.
fn begin(cursor: &mut Cursor<'_>, names: &mut Names, known: &NamedTypes) -> Result<Begun, ReadEnd>
    ensures steps { (later : Table) → Grows names.new later → Steps (known_of later known.now) (type_at later) cursor.new result (spec.type_at (known_of later known.now) cursor.old) }
    ensures within { IfOk result (BegunWithin (length names.new.types)) }
    ensures grows { Grows names.old names.new }
    ensures shorter { OnOk result (length cursor.new < length cursor.old) }
{
    let lexeme = take(cursor)?;
    if is_mark(&lexeme, b'[') {
        let many = header(cursor)?;
        return Ok(Begun::Opened(Open::Array(many)));
    }
    if is_mark(&lexeme, b'{') {
        return fields(cursor, names, false);
    }
    if is_mark(&lexeme, b'<') {
        mark(cursor, b'{')?;
        return fields(cursor, names, true);
    }
    Ok(Begun::Done(simple(cursor, names, known, &lexeme)?))
}

/// Goes on behind a type in what is open round it.
fn end(
    waits: Open,
    inside: TypeId,
    cursor: &mut Cursor<'_>,
    names: &mut Names,
) -> Result<Begun, ReadEnd>
    requires waits { OpenWithin (length names.old.types) waits }
    requires inside { inside < length names.old.types }
    ensures steps { (later : Table) (known : _) → Grows names.new later → Steps known (type_at later) cursor.new result (closing known (type_at later) waits (type_at later inside, cursor.old)) }
    ensures within { IfOk result (BegunWithin (length names.new.types)) }
    ensures grows { Grows names.old names.new }
    ensures shorter { OnOk result (length cursor.new < length cursor.old) }
{
    match waits {
        Open::Array(count) => {
            mark(cursor, b']')?;
            Ok(Begun::Done(names.array(count, inside)?))
        }
        Open::Struct { packed, mut fields } => {
            fields.push(inside)?;
            if eat(cursor, b',') {
                return Ok(Begun::Opened(Open::Struct { packed, fields }));
            }
            Ok(Begun::Done(closed(cursor, names, packed, fields)?))
        }
    }
}

/// Reads a type. `known` are the named types of the whole text.
pub fn read_type(
    cursor: &mut Cursor<'_>,
    names: &mut Names,
    known: &NamedTypes,
) -> Result<TypeId, ReadEnd>
    ensures reads { (later : Table) → Grows names.new later → Reads (type_at later) cursor.new result (spec.type_at (known_of later known.now) cursor.old) }
    ensures within { IfOk result (λ k. k < length names.new.types) }
    ensures grows { Grows names.old names.new }
{
    let mut stack = Vec::new(cursor.alloc());
    let mut state = begin(cursor, names, known)?;
    'steps: loop {
        state = match state {
            Begun::Opened(open) => {
                stack.push(open)?;
                begin(cursor, names, known)?
            }
            Begun::Done(k) => match stack.pop() {
                None => return Ok(k),
                Some(open) => end(open, k, cursor, names)?,
            },
        };
    }
}
