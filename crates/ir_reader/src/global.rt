//! Named types and globals.

ghost use Rattle.std.specs.Prelude.{◌≡◌, ◌<◌, ◌≤◌, ◌+◌, length, map, IfOk, OnOk, IfSome, ◌^◌};
ghost use Rattle.pv_base.specs.Limits.{live_limit};
ghost use Rattle.ir_tree.specs.Table.{Table};
ghost use Rattle.ir_tree.specs.Naming.{Grows, name_at, type_at};
ghost use Rattle.ir_tree.specs.Shown.{shown_named, shown_global};
ghost use Rattle.ir_tree.specs.Filling.{NamedWithin};
ghost use Rattle.ir_tree.specs.Bounds.{IsLayout};
ghost use Rattle.ir_text.specs.Reading.{Reads, token_by};
ghost use Rattle.ir_text.specs.Named.{known_of, layout_in};
ghost use Rattle.ir_text.specs.MemoryTypes.{AreLaid};
ghost use Rattle.ir_instr.specs.Defined.{AreNames, IsNew};
ghost use Rattle.ir_instr.specs.Words.{worded};
ghost use Rattle.ir_grammar.specs.Items as spec;
ghost use Rattle.ir_reader.specs.Placing.{type_of, global_of};

use crate::names::{new_global, new_local};
use ir_instr::defined::Defined;
use ir_instr::parts::scalar_of;
use ir_lex::token::{Cause, TokenKind};
use ir_text::constants::width_of;
use ir_text::cursor::{Cursor, Lexeme};
use ir_text::fault::{Fault, ReadEnd};
use ir_text::layouts::TypeLayouts;
use ir_text::leaves::{bad, is_mark, is_word, mark, word};
use ir_text::memory_types::read_memory_type;
use ir_text::named::NamedTypes;
use ir_text::nested::read_type;
use ir_text::operands::read_constant;
use ir_text::passed::{Stops, words};
use ir_text::tails::tails;
use ir_tree::items::{Global, NamedType};
use ir_tree::layout::Layout;
use ir_tree::nodes::TypeId;
use ir_tree::table::Names;
use pv_base::limits::LIVE_LIMIT;
use pv_base::want::Memory;
use std::alloc::Global as Allocator;

/// Why a token begins no body of a named type: another type is no operand here.
fn no_body(alloc: Allocator, lexeme: &Lexeme<'_>, known: &NamedTypes) -> Result<Cause, Memory>
    ensures { IfOk result (λ c. (later : Table) → c ≡ spec.no_body (known_of later known.now) lexeme.now) }
{
    if is_mark(lexeme, b'[') {
        return Ok(Cause::Operand);
    }
    match lexeme.kind() {
        TokenKind::Word => match scalar_of(lexeme) {
            Ok(_) => Ok(Cause::Operand),
            Err(cause) => Ok(cause),
        },
        TokenKind::LocalName => {
            let name = lexeme.name(alloc)?;
            match known.body(&name) {
                Some(_) => Ok(Cause::Operand),
                None => Ok(Cause::BadType),
            }
        }
        _ => Ok(Cause::BadType),
    }
}

/// Whether a token begins the body of a named type.
fn begins_body(lexeme: &Lexeme<'_>) -> bool
    ensures { result ≡ spec.begins_body lexeme.now }
{
    is_mark(lexeme, b'{') || is_mark(lexeme, b'<')
}

/// Reads `{ T, .. }` or `<{ T, .. }>`.
#[tactic(auto, using(ir_text::proofs::Later::later), unfolding(ir_grammar::specs::Items::named_body_at))]
pub fn named_body(
    cursor: &mut Cursor<'_>,
    names: &mut Names,
    known: &NamedTypes,
) -> Result<TypeId, ReadEnd>
    ensures reads { (later : Table) → Grows names.new later → Reads (type_at later) cursor.new result (spec.named_body_at (known_of later known.now) cursor.old) }
    ensures within { IfOk result (λ k. k < length names.new.types) }
    ensures grows { Grows names.old names.new }
{
    let first = match cursor.peek() {
        Some(first) => first,
        None => return Err(ReadEnd::Bad(Fault::Ended)),
    };
    if begins_body(&first) {
        return read_type(cursor, names, known);
    }
    let cause = no_body(cursor.alloc(), &first, known)?;
    Err(bad(cursor.alloc(), &first, cause))
}

/// Reads `%name = type BODY`, where these names of types were given before.
#[tactic(auto, using(ir_text::proofs::Later::later))]
pub fn named_type(
    cursor: &mut Cursor<'_>,
    names: &mut Names,
    known: &NamedTypes,
    types: &Defined,
) -> Result<NamedType, ReadEnd>
    requires { AreNames names.old types.now }
    ensures reads { (later : Table) → Grows names.new later → Reads (shown_named later) cursor.new result (spec.named_type_at (known_of later known.now) (map (name_at later) types.now) cursor.old) }
    ensures within { IfOk result (NamedWithin names.new) }
    ensures grows { Grows names.old names.new }
{
    let name = new_local(cursor, names, types)?;
    mark(cursor, b'=')?;
    word(cursor, b"type")?;
    let of = named_body(cursor, names, known)?;
    Ok(NamedType { name, of })
}

/// Reads `global` or `constant`. Answers whether it was the second.
#[tactic(auto, unfolding(ir_text::specs::Reading::token_by, ir_instr::specs::Words::meaning_of))]
fn global_word(cursor: &mut Cursor<'_>) -> Result<bool, ReadEnd>
    ensures { Reads (λ x. x) cursor.new result (token_by (worded spec.global_words) cursor.old) }
{
    match cursor.next() {
        None => Err(ReadEnd::Bad(Fault::Ended)),
        Some(lexeme) => {
            if is_word(&lexeme, b"global") {
                Ok(false)
            } else if is_word(&lexeme, b"constant") {
                Ok(true)
            } else {
                Err(bad(cursor.alloc(), &lexeme, Cause::Operand))
            }
        }
    }
}

/// The type of a global, and the bytes that it takes.
#[derive(Clone, Copy)]
pub struct Placed {
    pub of: TypeId,
    pub bytes: u64,
}

fn bytes_of(layout: Option<Layout>) -> u64
    requires { IfSome layout IsLayout }
    ensures bytes { result ≡ spec.bytes_of layout }
    ensures below { result < 2 ^ 63 }
{
    match layout {
        Some(layout) => layout.size,
        None => 0,
    }
}

/// Whether so many bytes more are not too many.
fn fits(size: u64, bytes: u64) -> bool
    requires size { size ≤ live_limit }
    requires bytes { bytes < 2 ^ 63 }
    ensures { result ≡ spec.fits_globals (size + bytes) }
{
    size + bytes <= LIVE_LIMIT
}

/// Reads a type with a layout, with which the globals, which take so many bytes without it, are not too many.
pub fn global_type(
    cursor: &mut Cursor<'_>,
    names: &mut Names,
    known: &NamedTypes,
    layouts: &mut TypeLayouts,
    size: u64,
) -> Result<Placed, ReadEnd>
    requires laid { AreLaid (layout_in known.now) names.old layouts.old }
    requires size { size ≤ live_limit }
    ensures reads { (later : Table) → Grows names.new later → Reads (type_of later) cursor.new result (spec.global_type_at (known_of later known.now) size cursor.old) }
    ensures bytes { IfOk result (λ p. (later : Table) → Grows names.new later → p.bytes ≡ spec.size_of (known_of later known.now) (type_at later p.of)) }
    ensures fits { IfOk result (λ p. size + p.bytes ≤ live_limit) }
    ensures within { IfOk result (λ p. p.of < length names.new.types) }
    ensures laid { AreLaid (layout_in known.now) names.new layouts.new }
    ensures grows { Grows names.old names.new }
{
    let first = match cursor.peek() {
        Some(first) => first,
        None => return Err(ReadEnd::Bad(Fault::Ended)),
    };
    let of = read_memory_type(cursor, names, known, layouts)?;
    names.is_table();
    let bytes = bytes_of(layouts.of(names, known, of)?);
    if fits(size, bytes) {
        return Ok(Placed { of, bytes });
    }
    Err(bad(cursor.alloc(), &first, Cause::Layout))
}

/// A global, and the bytes that it takes.
#[derive(Clone, Copy)]
pub struct PlacedGlobal {
    pub global: Global,
    pub bytes: u64,
}

/// Reads `@name = WORDS global|constant T INIT`, and what is passed over behind it. These names of globals and functions
/// were given before, and the globals take so many bytes without it.
#[tactic(auto, using(ir_text::proofs::Later::later))]
pub fn read_global(
    cursor: &mut Cursor<'_>,
    names: &mut Names,
    known: &NamedTypes,
    layouts: &mut TypeLayouts,
    values: &Defined,
    size: u64,
) -> Result<PlacedGlobal, ReadEnd>
    requires values { AreNames names.old values.now }
    requires laid { AreLaid (layout_in known.now) names.old layouts.old }
    requires size { size ≤ live_limit }
    ensures reads { (later : Table) → Grows names.new later → Reads (global_of later) cursor.new result (spec.global_at (known_of later known.now) (map (name_at later) values.now) size cursor.old) }
    ensures bytes { IfOk result (λ g. (later : Table) → Grows names.new later → g.bytes ≡ spec.size_of (known_of later known.now) (type_at later g.global.of)) }
    ensures fits { IfOk result (λ g. size + g.bytes ≤ live_limit) }
    ensures new { IfOk result (λ g. IsNew names.new values.now g.global.name) }
    ensures laid { OnOk result (AreLaid (layout_in known.now) names.new layouts.new) }
    ensures grows { Grows names.old names.new }
{
    names.is_table();
    let name = new_global(cursor, names, values)?;
    mark(cursor, b'=')?;
    let before = Stops {
        words: &[b"global", b"constant"],
        types: false,
    };
    words(cursor, &before)?;
    let constant = global_word(cursor)?;
    let placed = global_type(cursor, names, known, layouts, size)?;
    names.is_table();
    let width = width_of(names, placed.of);
    let init = read_constant(cursor, names, known, width)?;
    tails(cursor)?;
    Ok(PlacedGlobal {
        global: Global {
            name,
            of: placed.of,
            constant,
            init,
        },
        bytes: placed.bytes,
    })
}
