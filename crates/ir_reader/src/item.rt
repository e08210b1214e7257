//! Items, one after the other.

ghost use Rattle.std.specs.Prelude.{◌≡◌, ◌<◌, length, map, IfOk, OnOk};
ghost use Rattle.ir_tree.specs.Table.{Table};
ghost use Rattle.ir_tree.specs.Naming.{Grows, name_at};
ghost use Rattle.ir_text.specs.Reading.{Reads, next_is};
ghost use Rattle.ir_text.specs.Named.{known_of, layout_in};
ghost use Rattle.ir_text.specs.MemoryTypes.{AreLaid};
ghost use Rattle.ir_text.specs.Types.{Known};
ghost use Rattle.ir_instr.specs.Defined.{AreNames, AreTypes};
ghost use Rattle.ir_grammar.specs.Items as spec;
ghost use Rattle.ir_grammar.specs.Modules.{nothing_so_far};
ghost use Rattle.ir_grammar.specs.PassedItems as passed;
ghost use Rattle.ir_reader.specs.Gathered.{item_of, so_far_at, gathered, passed_behind, with_next, ItemWithin, SoFarWithin};

use crate::function::{declaration, definition};
use crate::global::{named_type, read_global};
use crate::skipped::{attributes, comdat, metadata, to_string};
use crate::so_far::{Item, SoFar};
use ir_lex::token::{Cause, TokenKind};
use ir_text::cursor::{Cursor, Lexeme};
use ir_text::fault::{Fault, ReadEnd};
use ir_text::layouts::TypeLayouts;
use ir_text::leaves::{bad, is_word, sees};
use ir_text::named::NamedTypes;
use ir_text::operands::sees_local;
use ir_tree::table::Names;

/// Reads a named type.
fn type_item(
    cursor: &mut Cursor<'_>,
    names: &mut Names,
    known: &NamedTypes,
    so_far: &SoFar,
) -> Result<Item, ReadEnd>
    requires { SoFarWithin names.old so_far.now }
    ensures reads { (later : Table) → Grows names.new later → Reads (item_of later) cursor.new result (spec.type_item_at (known_of later known.now) (so_far_at later so_far.now) cursor.old) }
    ensures within { IfOk result (ItemWithin names.new so_far.now.size) }
    ensures grows { Grows names.old names.new }
{
    let named = named_type(cursor, names, known, &so_far.types)?;
    Ok(Item::NamedType(named))
}

/// Reads a global.
fn global_item(
    cursor: &mut Cursor<'_>,
    names: &mut Names,
    known: &NamedTypes,
    layouts: &mut TypeLayouts,
    so_far: &SoFar,
) -> Result<Item, ReadEnd>
    requires so_far { SoFarWithin names.old so_far.now }
    requires laid { AreLaid (layout_in known.now) names.old layouts.old }
    ensures reads { (later : Table) → Grows names.new later → Reads (item_of later) cursor.new result (spec.global_item_at (known_of later known.now) (so_far_at later so_far.now) cursor.old) }
    ensures within { IfOk result (ItemWithin names.new so_far.now.size) }
    ensures laid { OnOk result (AreLaid (layout_in known.now) names.new layouts.new) }
    ensures grows { Grows names.old names.new }
{
    let placed = read_global(cursor, names, known, layouts, &so_far.values, so_far.size)?;
    Ok(Item::Global(placed))
}

/// Reads a declaration, behind its first word.
fn declaration_item(
    cursor: &mut Cursor<'_>,
    names: &mut Names,
    so_far: &SoFar,
) -> Result<Item, ReadEnd>
    requires { SoFarWithin names.old so_far.now }
    ensures reads { (later : Table) (known : Known) → Grows names.new later → Reads (item_of later) cursor.new result (spec.declaration_item_at known (so_far_at later so_far.now) cursor.old) }
    ensures within { IfOk result (ItemWithin names.new so_far.now.size) }
    ensures grows { Grows names.old names.new }
{
    let function = declaration(cursor, names, &so_far.values)?;
    Ok(Item::Function(function))
}

/// Reads a definition, behind its first word.
fn definition_item(
    cursor: &mut Cursor<'_>,
    names: &mut Names,
    known: &NamedTypes,
    layouts: &mut TypeLayouts,
    so_far: &SoFar,
) -> Result<Item, ReadEnd>
    requires so_far { SoFarWithin names.old so_far.now }
    requires types { AreTypes names.old known.now }
    requires laid { AreLaid (layout_in known.now) names.old layouts.old }
    ensures reads { (later : Table) → Grows names.new later → Reads (item_of later) cursor.new result (spec.definition_item_at (known_of later known.now) (so_far_at later so_far.now) cursor.old) }
    ensures within { IfOk result (ItemWithin names.new so_far.now.size) }
    ensures laid { OnOk result (AreLaid (layout_in known.now) names.new layouts.new) }
    ensures grows { Grows names.old names.new }
{
    let function = definition(cursor, names, known, layouts, &so_far.values)?;
    Ok(Item::Function(function))
}

/// Passes over an item that begins with a word which names nothing, behind that word. Another word begins no item.
fn passed_item(cursor: &mut Cursor<'_>, first: &Lexeme<'_>) -> Result<(), ReadEnd>
    ensures { Reads (λ x. x) cursor.new result (passed_behind first.now cursor.old) }
{
    if is_word(first, b"source_filename") || is_word(first, b"target") {
        return to_string(cursor);
    }
    if is_word(first, b"attributes") {
        return attributes(cursor);
    }
    Err(bad(cursor.alloc(), first, Cause::Instruction))
}

/// Reads an item that begins with a word.
fn worded_item(
    cursor: &mut Cursor<'_>,
    names: &mut Names,
    known: &NamedTypes,
    layouts: &mut TypeLayouts,
    so_far: &SoFar,
) -> Result<Item, ReadEnd>
    requires so_far { SoFarWithin names.old so_far.now }
    requires types { AreTypes names.old known.now }
    requires laid { AreLaid (layout_in known.now) names.old layouts.old }
    ensures reads { (later : Table) → Grows names.new later → Reads (item_of later) cursor.new result (spec.worded_item_at (known_of later known.now) (so_far_at later so_far.now) cursor.old) }
    ensures within { IfOk result (ItemWithin names.new so_far.now.size) }
    ensures laid { OnOk result (AreLaid (layout_in known.now) names.new layouts.new) }
    ensures grows { Grows names.old names.new }
{
    names.is_table();
    let first = match cursor.next() {
        None => return Err(ReadEnd::Bad(Fault::Ended)),
        Some(first) => first,
    };
    if is_word(&first, b"define") {
        return definition_item(cursor, names, known, layouts, so_far);
    }
    if is_word(&first, b"declare") {
        return declaration_item(cursor, names, so_far);
    }
    passed_item(cursor, &first)?;
    Ok(Item::Passed)
}

/// Reads an item that begins with no name.
fn marked_item(
    cursor: &mut Cursor<'_>,
    names: &mut Names,
    known: &NamedTypes,
    layouts: &mut TypeLayouts,
    so_far: &SoFar,
) -> Result<Item, ReadEnd>
    requires so_far { SoFarWithin names.old so_far.now }
    requires types { AreTypes names.old known.now }
    requires laid { AreLaid (layout_in known.now) names.old layouts.old }
    ensures reads { (later : Table) → Grows names.new later → Reads (item_of later) cursor.new result (spec.marked_item_at (known_of later known.now) (so_far_at later so_far.now) cursor.old) }
    ensures within { IfOk result (ItemWithin names.new so_far.now.size) }
    ensures laid { OnOk result (AreLaid (layout_in known.now) names.new layouts.new) }
    ensures grows { Grows names.old names.new }
{
    if sees(cursor, b'!') {
        metadata(cursor)?;
        return Ok(Item::Passed);
    }
    if sees(cursor, b'$') {
        comdat(cursor)?;
        return Ok(Item::Passed);
    }
    worded_item(cursor, names, known, layouts, so_far)
}

/// Whether `@` and a name come next.
#[tactic(auto, unfolding(ir_text::specs::Reading::next_is))]
fn sees_global(cursor: &Cursor<'_>) -> bool
    ensures { result ≡ next_is spec.is_global cursor.now }
{
    match cursor.peek() {
        None => false,
        Some(lexeme) => match lexeme.kind() {
            TokenKind::GlobalName => true,
            _ => false,
        },
    }
}

/// Reads an item behind those so far.
fn read_item(
    cursor: &mut Cursor<'_>,
    names: &mut Names,
    known: &NamedTypes,
    layouts: &mut TypeLayouts,
    so_far: &SoFar,
) -> Result<Item, ReadEnd>
    requires so_far { SoFarWithin names.old so_far.now }
    requires types { AreTypes names.old known.now }
    requires laid { AreLaid (layout_in known.now) names.old layouts.old }
    ensures reads { (later : Table) → Grows names.new later → Reads (item_of later) cursor.new result (spec.item_at (known_of later known.now) (so_far_at later so_far.now) cursor.old) }
    ensures within { IfOk result (ItemWithin names.new so_far.now.size) }
    ensures laid { OnOk result (AreLaid (layout_in known.now) names.new layouts.new) }
    ensures grows { Grows names.old names.new }
{
    names.is_table();
    if sees_local(cursor) {
        return type_item(cursor, names, known, so_far);
    }
    if sees_global(cursor) {
        return global_item(cursor, names, known, layouts, so_far);
    }
    marked_item(cursor, names, known, layouts, so_far)
}

/// Reads an item, and adds it to those so far.
fn add_item(
    cursor: &mut Cursor<'_>,
    names: &mut Names,
    known: &NamedTypes,
    layouts: &mut TypeLayouts,
    so_far: &mut SoFar,
) -> Result<(), ReadEnd>
    requires so_far { SoFarWithin names.old so_far.old }
    requires types { AreTypes names.old known.now }
    requires laid { AreLaid (layout_in known.now) names.old layouts.old }
    ensures reads { (later : Table) → Grows names.new later → Reads (λ x. so_far_at later so_far.new) cursor.new result (with_next (spec.item_at (known_of later known.now)) (so_far_at later so_far.old) cursor.old) }
    ensures within { OnOk result (SoFarWithin names.new so_far.new) }
    ensures laid { OnOk result (AreLaid (layout_in known.now) names.new layouts.new) }
    ensures grows { Grows names.old names.new }
{
    let item = read_item(cursor, names, known, layouts, so_far)?;
    so_far.add(names, item)?;
    Ok(())
}

/// Reads all items, among these named types of the whole text.
pub fn read_items(
    cursor: &mut Cursor<'_>,
    names: &mut Names,
    known: &NamedTypes,
) -> Result<SoFar, ReadEnd>
    requires { AreTypes names.old known.now }
    ensures reads { (later : Table) → Grows names.new later → Reads (so_far_at later) cursor.new result (gathered nothing_so_far (spec.items_at (known_of later known.now) cursor.old)) }
    ensures within { IfOk result (SoFarWithin names.new) }
    ensures grows { Grows names.old names.new }
{
    let mut layouts = TypeLayouts::new(cursor.alloc());
    let mut so_far = SoFar::new(cursor.alloc());
    for turn in 0..cursor.len() {
        if cursor.len() == 0 {
            return Ok(so_far);
        }
        add_item(cursor, names, known, &mut layouts, &mut so_far)?;
    }
    Ok(so_far)
}
