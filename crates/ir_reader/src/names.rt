//! Names that are given: the first time, or else they are refused.

ghost use Rattle.std.specs.Prelude.{◌≡◌, ◌<◌, length, map, IfOk, OnOk};
ghost use Rattle.ir_lex.specs.Spelling.{IsNameKind};
ghost use Rattle.ir_tree.specs.Table.{Table};
ghost use Rattle.ir_tree.specs.Naming.{Grows, name_at};
ghost use Rattle.ir_text.specs.Leaves.{spelled_name};
ghost use Rattle.ir_text.specs.Reading.{Reads, meant, token_by};
ghost use Rattle.ir_instr.specs.Defined.{AreNames, IsNew};
ghost use Rattle.ir_instr.specs.Instructions.{is_counted, definable, defined_name};
ghost use Rattle.ir_grammar.specs.Headers.{unique, new_global, new_local};
ghost use Rattle.ir_grammar.specs.Bodies.{new_label};
ghost use Rattle.ir_reader.specs.Scoping.{scope_at};

use crate::scope::Scope;
use ir_instr::defined::Defined;
use ir_lex::token::{Cause, TokenKind};
use ir_text::cursor::{Cursor, Lexeme};
use ir_text::fault::{Fault, ReadEnd};
use ir_text::leaves::bad;
use ir_text::names::number_of;
use ir_tree::nodes::NameId;
use ir_tree::table::Names;
use pv_base::name::Name;

/// Numbers a name that is none of these.
fn unique(
    cursor: &Cursor<'_>,
    lexeme: &Lexeme<'_>,
    names: &mut Names,
    given: &Defined,
) -> Result<NameId, ReadEnd>
    requires kind { IsNameKind lexeme.now.kind }
    requires names { AreNames names.old given.now }
    ensures reads { (later : Table) (rest : _) → Grows names.new later → Reads (name_at later) rest result (meant (unique (map (name_at later) given.now) (spelled_name lexeme.now)) lexeme.now rest) }
    ensures new { IfOk result (IsNew names.new given.now) }
    ensures grows { Grows names.old names.new }
{
    let number = number_of(cursor, lexeme, names)?;
    names.is_table();
    if given.contains(number) {
        return Err(bad(cursor.alloc(), lexeme, Cause::Duplicate));
    }
    Ok(number)
}

/// Reads `@name`, where these names of globals and functions were given before.
#[tactic(auto, unfolding(ir_text::specs::Reading::token_by))]
pub fn new_global(
    cursor: &mut Cursor<'_>,
    names: &mut Names,
    given: &Defined,
) -> Result<NameId, ReadEnd>
    requires { AreNames names.old given.now }
    ensures reads { (later : Table) → Grows names.new later → Reads (name_at later) cursor.new result (token_by (new_global (map (name_at later) given.now)) cursor.old) }
    ensures new { IfOk result (IsNew names.new given.now) }
    ensures grows { Grows names.old names.new }
{
    match cursor.next() {
        None => Err(ReadEnd::Bad(Fault::Ended)),
        Some(lexeme) => match lexeme.kind() {
            TokenKind::GlobalName => unique(cursor, &lexeme, names, given),
            _ => Err(bad(cursor.alloc(), &lexeme, Cause::Name)),
        },
    }
}

/// Reads `%name`, where these names of types were given before.
#[tactic(auto, unfolding(ir_text::specs::Reading::token_by))]
pub fn new_local(
    cursor: &mut Cursor<'_>,
    names: &mut Names,
    given: &Defined,
) -> Result<NameId, ReadEnd>
    requires { AreNames names.old given.now }
    ensures reads { (later : Table) → Grows names.new later → Reads (name_at later) cursor.new result (token_by (new_local (map (name_at later) given.now)) cursor.old) }
    ensures new { IfOk result (IsNew names.new given.now) }
    ensures grows { Grows names.old names.new }
{
    match cursor.next() {
        None => Err(ReadEnd::Bad(Fault::Ended)),
        Some(lexeme) => match lexeme.kind() {
            TokenKind::LocalName => unique(cursor, &lexeme, names, given),
            _ => Err(bad(cursor.alloc(), &lexeme, Cause::Name)),
        },
    }
}

/// Whether a name is no number, or the one at which the counter stands.
fn is_counted(next: u64, name: &Name) -> bool
    ensures { result ≡ is_counted next name.now }
{
    match name {
        Name::Named(_) => true,
        Name::Numbered(number) => *number == next,
    }
}

/// Numbers a name that a function can define.
fn definable(
    cursor: &Cursor<'_>,
    lexeme: &Lexeme<'_>,
    names: &mut Names,
    scope: &Scope,
) -> Result<NameId, ReadEnd>
    requires kind { IsNameKind lexeme.now.kind }
    requires names { AreNames names.old scope.now.defined }
    ensures reads { (later : Table) (rest : _) → Grows names.new later → Reads (name_at later) rest result (meant (definable scope.now.next (map (name_at later) scope.now.defined) (spelled_name lexeme.now)) lexeme.now rest) }
    ensures new { IfOk result (IsNew names.new scope.now.defined) }
    ensures grows { Grows names.old names.new }
{
    let name = lexeme.name(cursor.alloc())?;
    if !is_counted(scope.next, &name) {
        return Err(bad(cursor.alloc(), lexeme, Cause::Name));
    }
    unique(cursor, lexeme, names, &scope.defined)
}

/// Reads `name:`, where a function has defined these names before.
#[tactic(auto, unfolding(ir_text::specs::Reading::token_by))]
pub fn new_label(
    cursor: &mut Cursor<'_>,
    names: &mut Names,
    scope: &Scope,
) -> Result<NameId, ReadEnd>
    requires { AreNames names.old scope.now.defined }
    ensures reads { (later : Table) → Grows names.new later → Reads (name_at later) cursor.new result (token_by (new_label (scope_at later scope.now)) cursor.old) }
    ensures new { IfOk result (IsNew names.new scope.now.defined) }
    ensures grows { Grows names.old names.new }
{
    match cursor.next() {
        None => Err(ReadEnd::Bad(Fault::Ended)),
        Some(lexeme) => match lexeme.kind() {
            TokenKind::Label => definable(cursor, &lexeme, names, scope),
            _ => Err(bad(cursor.alloc(), &lexeme, Cause::Name)),
        },
    }
}

/// Reads `%name`, where a function has defined these names before.
#[tactic(auto, unfolding(ir_text::specs::Reading::token_by))]
pub fn defined_name(
    cursor: &mut Cursor<'_>,
    names: &mut Names,
    scope: &Scope,
) -> Result<NameId, ReadEnd>
    requires { AreNames names.old scope.now.defined }
    ensures reads { (later : Table) → Grows names.new later → Reads (name_at later) cursor.new result (token_by (defined_name scope.now.next (map (name_at later) scope.now.defined)) cursor.old) }
    ensures new { IfOk result (IsNew names.new scope.now.defined) }
    ensures grows { Grows names.old names.new }
{
    match cursor.next() {
        None => Err(ReadEnd::Bad(Fault::Ended)),
        Some(lexeme) => match lexeme.kind() {
            TokenKind::LocalName => definable(cursor, &lexeme, names, scope),
            _ => Err(bad(cursor.alloc(), &lexeme, Cause::Name)),
        },
    }
}
