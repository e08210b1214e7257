//! The types of memory: those with a layout.

ghost use Rattle.std.specs.Prelude.{◌≡◌, ◌<◌, length, true, is_ok, IfOk, IfErr, OnOk};
ghost use Rattle.ir_tree.specs.Table.{Table};
ghost use Rattle.ir_tree.specs.Naming.{Grows, type_at};
ghost use Rattle.ir_text.specs.Reading.{Reads, Fails};
ghost use Rattle.ir_text.specs.Named.{known_of, layout_in};
ghost use Rattle.ir_text.specs.MemoryTypes.{memory_type_at, AreLaid};

use crate::cursor::Cursor;
use crate::fault::{Fault, ReadEnd};
use crate::layouts::TypeLayouts;
use crate::leaves::bad;
use crate::named::NamedTypes;
use crate::nested::read_type;
use ir_lex::token::Cause;
use ir_tree::nodes::TypeId;
use ir_tree::table::Names;

/// Reads a type with a layout. `known` are the named types of the whole text, and `layouts` those of the types read so far
/// or of some of them. Where the type has none, the cause is Layout at its first token, after any fault inside the type.
pub fn read_memory_type(
    cursor: &mut Cursor<'_>,
    names: &mut Names,
    known: &NamedTypes,
    layouts: &mut TypeLayouts,
) -> Result<TypeId, ReadEnd>
    requires { AreLaid (layout_in known.now) names.old layouts.old }
    ensures reads { (later : Table) → Grows names.new later → Reads (type_at later) cursor.new result (memory_type_at (known_of later known.now) cursor.old) }
    ensures within { IfOk result (λ k. k < length names.new.types) }
    ensures grows { Grows names.old names.new }
    ensures laid { AreLaid (layout_in known.now) names.new layouts.new }
{
    names.is_table();
    let first = match cursor.peek() {
        Some(first) => first,
        None => return Err(ReadEnd::Bad(Fault::Ended)),
    };
    let read = read_type(cursor, names, known);
    names.is_table();
    let of = match read {
        Ok(of) => of,
        Err(end) => return Err(end),
    };
    match layouts.of(names, known, of)? {
        Some(_) => Ok(of),
        None => Err(bad(cursor.alloc(), &first, Cause::Layout)),
    }
}

/// Whether a type with a layout comes next: its first fault where none does.
fn memory_type_comes(cursor: &Cursor<'_>, known: &NamedTypes) -> Result<(), ReadEnd>
    ensures ok { (later : Table) → OnOk result (is_ok (memory_type_at (known_of later known.now) cursor.now) ≡ true) }
    ensures err { (later : Table) → IfErr result (λ e. Fails e (memory_type_at (known_of later known.now) cursor.now)) }
{
    let mut apart = cursor.copy();
    let mut names = Names::new(cursor.alloc());
    let mut layouts = TypeLayouts::new(cursor.alloc());
    match read_memory_type(&mut apart, &mut names, known, &mut layouts) {
        Ok(_) => Ok(()),
        Err(end) => Err(end),
    }
}

/// Reads a type with a layout where the layouts of the types before it are not at hand. It is read into a table of its own
/// before, so that its layout costs what its text is long, and not what was read before it.
pub fn read_lone_memory_type(
    cursor: &mut Cursor<'_>,
    names: &mut Names,
    known: &NamedTypes,
) -> Result<TypeId, ReadEnd>
    ensures reads { (later : Table) → Grows names.new later → Reads (type_at later) cursor.new result (memory_type_at (known_of later known.now) cursor.old) }
    ensures within { IfOk result (λ k. k < length names.new.types) }
    ensures grows { Grows names.old names.new }
{
    memory_type_comes(cursor, known)?;
    read_type(cursor, names, known)
}
