//! The named types of a whole text, found before its items are read.
//!
//! A body is read from behind its own `= type`, under the knowledge of which names are types. It never passes an `=`, so no
//! token is read for two names.

ghost use Rattle.std.specs.Prelude.{◌≡◌, ◌<◌, length, map, option_map, All, Some, None, IfOk, OnOk, IfSome, if◌then◌else◌};
ghost use Rattle.std.specs.Map.{lookup};
ghost use Rattle.std.specs.Option.{option_or};
ghost use Rattle.pv_base.specs.declared.name.Name.{Name};
ghost use Rattle.ir_lex.specs.Lexing.{TokenIn};
ghost use Rattle.ir_tree.specs.Bounds.{IsLayout};
ghost use Rattle.ir_tree.specs.Filling.{AreBounded, NamedWithin, named_types};
ghost use Rattle.ir_tree.specs.Table.{Table, same_name};
ghost use Rattle.ir_tree.specs.Naming.{Grows, Shows, type_at};
ghost use Rattle.ir_text.specs.Tokens.{tokens_of};
ghost use Rattle.ir_text.specs.Named.{body_in, known_of};
ghost use Rattle.ir_text.specs.Types.{Known};
ghost use Rattle.ir_instr.specs.Defined.{AreTypes};
ghost use Rattle.ir_grammar.specs.Items.{named_body_at};
ghost use Rattle.ir_grammar.specs.NamedTypes as spec;
ghost use Rattle.ir_reader.specs.Knowing.{definition_at, read_bodies, fault_in, shown_defined, IsDefined, named_type, with_type, first_types, entry_of};

use crate::global::named_body;
use ir_instr::defined::Defined;
use ir_lex::token::{Token, TokenKind};
use ir_text::cursor::Cursor;
use ir_text::fault::{Fault, ReadEnd};
use ir_text::leaves::{is_mark, is_word};
use ir_text::named::{NamedBody, NamedTypes};
use ir_tree::items::NamedType;
use ir_tree::layouts::Layouts;
use ir_tree::nodes::{NameId, TypeId};
use ir_tree::table::Names;
use pv_base::list::List;
use pv_base::name::Name;
use pv_base::want::Memory;
use std::alloc::Global;

/// Passes over `%name = type`, if it comes next, and answers the name.
#[tactic(auto, unfolding(crate::specs::Knowing::definition_at))]
fn defined_name(cursor: &mut Cursor<'_>) -> Result<Option<Name>, Memory>
    ensures { IfOk result (λ name. option_map (λ n. (n, cursor.new)) name ≡ definition_at cursor.old) }
{
    let Some(name) = cursor.next() else {
        return Ok(None);
    };
    match name.kind() {
        TokenKind::LocalName => {}
        _ => return Ok(None),
    }
    let Some(equals) = cursor.next() else {
        return Ok(None);
    };
    let Some(word) = cursor.next() else {
        return Ok(None);
    };
    if is_mark(&equals, b'=') && is_word(&word, b"type") {
        return Ok(Some(name.name(cursor.alloc())?));
    }
    Ok(None)
}

/// Says what the text says of a name, unless something was said of it before.
fn insert_first(known: &mut NamedTypes, name: Name, body: NamedBody) -> Result<(), Memory>
    requires { IfSome body.layout IsLayout }
    ensures { OnOk result ((q : Name) → body_in known.new q ≡ option_or (body_in known.old q) (if same_name q name then Some body else None)) }
{
    if known.body(&name).is_some() {
        return Ok(());
    }
    known.insert(name, body)
}

/// The names that a text defines as types, each without its body.
fn names_only(alloc: Global, text: &[u8], tokens: &[Token]) -> Result<NamedTypes, Memory>
    requires { All (TokenIn text.now) tokens.now }
    ensures { IfOk result (λ k. (later : Table) → known_of later k ≡ spec.named_only (spec.definitions (tokens_of text.now tokens.now))) }
{
    let mut known = NamedTypes::new(alloc);
    let unread = NamedBody {
        of: None,
        layout: None,
    };
    let mut rest = tokens;
    while let [_, tail @ ..] = rest {
        let mut cursor = Cursor::new(alloc, text, rest);
        match defined_name(&mut cursor)? {
            Some(name) => insert_first(&mut known, name, unread)?,
            None => {}
        }
        rest = tail;
    }
    Ok(known)
}

/// Reads the body of a named type, and answers none where there is a fault in it.
fn body_unless_faulty(
    cursor: &mut Cursor<'_>,
    names: &mut Names,
    known: &NamedTypes,
) -> Result<Option<TypeId>, Memory>
    ensures body { IfOk result (λ of. (later : Table) → Grows names.new later → option_map (type_at later) of ≡ spec.unless_faulty (named_body_at (known_of later known.now) cursor.old)) }
    ensures within { IfOk result (λ of. IfSome of (λ k. k < length names.new.types)) }
    ensures grows { Grows names.old names.new }
{
    match named_body(cursor, names, known) {
        Ok(of) => Ok(Some(of)),
        Err(ReadEnd::Bad(_)) => Ok(None),
        Err(ReadEnd::Memory) => Err(Memory),
    }
}

/// The type whose bytes a named type takes: its body, or one of no bytes where there is a fault in it.
fn laid_body(alloc: Global, names: &mut Names, of: Option<TypeId>) -> Result<TypeId, Memory>
    requires { IfSome of (λ k. k < length names.old.types) }
    ensures shows { IfOk result (λ k. Shows names.new k (λ later. spec.laid_body (option_map (type_at later) of))) }
    ensures grows { Grows names.old names.new }
{
    match of {
        Some(of) => Ok(of),
        None => names.structure(true, List::new(alloc)),
    }
}

/// A type that a text defines: its name, its body unless there is a fault in it, the type whose bytes it takes, and the type
/// that is the name.
#[derive(Clone, Copy)]
pub struct DefinedType {
    pub name: NameId,
    pub of: Option<TypeId>,
    pub laid: TypeId,
    pub named: TypeId,
}

/// Reads the body of a type of this name.
fn defined_type(
    cursor: &mut Cursor<'_>,
    names: &mut Names,
    known: &NamedTypes,
    name: Name,
) -> Result<DefinedType, Memory>
    ensures is { IfOk result (IsDefined names.new) }
    ensures shows { IfOk result (λ d. (later : Table) → Grows names.new later → shown_defined later d ≡ (name, spec.unless_faulty (named_body_at (known_of later known.now) cursor.old))) }
    ensures grows { Grows names.old names.new }
{
    let name = names.number(name)?;
    let of = body_unless_faulty(cursor, names, known)?;
    let laid = laid_body(cursor.alloc(), names, of)?;
    let named = names.named(name)?;
    Ok(DefinedType {
        name,
        of,
        laid,
        named,
    })
}

/// Reads the bodies of all types that a text defines, in text order.
fn defined_types(
    alloc: Global,
    text: &[u8],
    tokens: &[Token],
    names: &mut Names,
    known: &NamedTypes,
) -> Result<List<DefinedType>, Memory>
    requires { All (TokenIn text.now) tokens.now }
    ensures are { IfOk result (All (IsDefined names.new)) }
    ensures shows { IfOk result (λ all. (later : Table) → Grows names.new later → map (shown_defined later) all ≡ read_bodies (known_of later known.now) (spec.definitions (tokens_of text.now tokens.now))) }
    ensures grows { Grows names.old names.new }
{
    let mut found = List::new(alloc);
    let mut rest = tokens;
    while let [_, tail @ ..] = rest {
        let mut cursor = Cursor::new(alloc, text, rest);
        match defined_name(&mut cursor)? {
            Some(name) => {
                let read = defined_type(&mut cursor, names, known, name)?;
                found.push(read)?;
            }
            None => {}
        }
        rest = tail;
    }
    Ok(found)
}

/// Adds the type that is laid out for one, unless one of its name stands among those so far, whose names are these.
fn add_type(
    types: &mut List<NamedType>,
    seen: &mut Defined,
    defined: DefinedType,
) -> Result<(), Memory>
    requires { seen.old ≡ map (λ t. t.name) types.old }
    ensures adds { OnOk result (types.new ≡ with_type types.old (named_type defined)) }
    ensures names { OnOk result (seen.new ≡ map (λ t. t.name) types.new) }
{
    if seen.contains(defined.name) {
        return Ok(());
    }
    types.push(NamedType {
        name: defined.name,
        of: defined.laid,
    })?;
    seen.push(defined.name)?;
    Ok(())
}

/// The types as the layouts take them, of each name the first.
fn named_types(alloc: Global, all: &[DefinedType]) -> Result<List<NamedType>, Memory>
    ensures { IfOk result (λ types. types ≡ first_types all.now) }
{
    let mut types = List::new(alloc);
    let mut seen = Defined::new(alloc);
    for defined in all {
        add_type(&mut types, &mut seen, *defined)?;
    }
    Ok(types)
}

/// Says what the text says of one name.
fn insert_defined(
    known: &mut NamedTypes,
    names: &Names,
    layouts: &Layouts,
    defined: DefinedType,
) -> Result<(), Memory>
    requires bounded { AreBounded layouts.now.layouts }
    requires is { IsDefined names.now defined }
    ensures { OnOk result ((q : Name) → body_in known.new q ≡ option_or (body_in known.old q) (if same_name q (entry_of names.now layouts.now.layouts defined).0 then Some (entry_of names.now layouts.now.layouts defined).1 else None)) }
{
    let body = NamedBody {
        of: defined.of,
        layout: layouts.of(defined.named),
    };
    match names.name(defined.name) {
        Some(name) => insert_first(known, name.copy()?, body),
        None => Ok(()),
    }
}

/// What the text says of all names, where the first of two types of one name counts.
fn with_layouts(
    alloc: Global,
    names: &Names,
    layouts: &Layouts,
    all: &[DefinedType],
) -> Result<NamedTypes, Memory>
    requires bounded { AreBounded layouts.now.layouts }
    requires are { All (IsDefined names.now) all.now }
    ensures { IfOk result (λ k. (q : Name) → body_in k q ≡ lookup (same_name q) (map (entry_of names.now layouts.now.layouts) all.now)) }
{
    let mut known = NamedTypes::new(alloc);
    for defined in all {
        insert_defined(&mut known, names, layouts, *defined)?;
    }
    Ok(known)
}

/// The first fault in the body of a type that a text defines.
pub fn body_fault(
    alloc: Global,
    text: &[u8],
    tokens: &[Token],
    known: &NamedTypes,
) -> Result<Option<Fault>, Memory>
    requires { All (TokenIn text.now) tokens.now }
    ensures { (all : Known) → ((later : Table) → known_of later known.now ≡ all) → IfOk result (λ fault. fault ≡ fault_in (spec.bodies_read all (spec.definitions (tokens_of text.now tokens.now)))) }
{
    let mut names = Names::new(alloc);
    let mut rest = tokens;
    while let [_, tail @ ..] = rest {
        let mut cursor = Cursor::new(alloc, text, rest);
        match defined_name(&mut cursor)? {
            Some(_) => match named_body(&mut cursor, &mut names, known) {
                Ok(_) => {}
                Err(ReadEnd::Bad(fault)) => return Ok(Some(fault)),
                Err(ReadEnd::Memory) => return Err(Memory),
            },
            None => {}
        }
        rest = tail;
    }
    Ok(None)
}

/// What a text says of its named types, what the names alone say, and the types themselves.
#[derive(Drop)]
pub struct TextTypes {
    pub known: NamedTypes,
    pub only: NamedTypes,
    pub types: List<NamedType>,
}

/// Finds what a text says of its named types, in time linear in the text. Only `Memory` ends it: where there is a fault in a
/// body, the name is known without one.
pub fn known_in(
    alloc: Global,
    text: &[u8],
    tokens: &[Token],
    names: &mut Names,
) -> Result<TextTypes, Memory>
    requires { All (TokenIn text.now) tokens.now }
    ensures known { IfOk result (λ k. (later : Table) → Grows names.new later → known_of later k.known ≡ spec.known_in (tokens_of text.now tokens.now)) }
    ensures only { IfOk result (λ k. (later : Table) → known_of later k.only ≡ spec.named_only (spec.definitions (tokens_of text.now tokens.now))) }
    ensures types { IfOk result (λ k. (later : Table) → Grows names.new later → named_types later k.types ≡ spec.types_in (tokens_of text.now tokens.now)) }
    ensures bodies { IfOk result (λ k. AreTypes names.new k.known) }
    ensures within { IfOk result (λ k. All (NamedWithin names.new) k.types) }
    ensures grows { Grows names.old names.new }
{
    let only = names_only(alloc, text, tokens)?;
    let all = defined_types(alloc, text, tokens, names, &only)?;
    let types = named_types(alloc, all.as_slice())?;
    names.is_table();
    let layouts = Layouts::new(alloc, names, types.as_slice())?;
    let known = with_layouts(alloc, names, &layouts, all.as_slice())?;
    Ok(TextTypes { known, only, types })
}
