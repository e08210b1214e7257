//! The names of results.

ghost use Rattle.std.specs.Prelude.{◌≡◌, ◌<◌, IfOk, OnOk, length, map};
ghost use Rattle.ir_tree.specs.Table.{Table};
ghost use Rattle.ir_tree.specs.Naming.{Grows, name_at};
ghost use Rattle.ir_text.specs.Leaves.{spelled_name};
ghost use Rattle.ir_text.specs.Reading.{Reads, meant, token_by};
ghost use Rattle.ir_instr.specs.Defined.{AreNames, IsNew};
ghost use Rattle.ir_instr.specs.Instructions as spec;

use crate::defined::Defined;
use ir_lex::token::{Cause, TokenKind};
use ir_text::cursor::{Cursor, Lexeme};
use ir_text::fault::{Fault, ReadEnd};
use ir_text::leaves::bad;
use ir_tree::nodes::NameId;
use ir_tree::table::Names;
use pv_base::name::Name;

/// Whether a name may stand where the counter is at a number: a number that stands as a name is the counter's.
fn is_counted(next: u64, name: &Name) -> bool
    ensures { result ≡ spec.is_counted next name.now }
{
    match name {
        Name::Numbered(number) => *number == next,
        Name::Named(_) => true,
    }
}

/// The number of a name that the function can define: one that it has not defined before.
fn definable(
    cursor: &Cursor<'_>,
    names: &mut Names,
    lexeme: &Lexeme<'_>,
    next: u64,
    defined: &Defined,
) -> Result<NameId, ReadEnd>
    requires kind { lexeme.now.kind ≡ TokenKind.LocalName }
    requires names { AreNames names.old defined.now }
    ensures reads { (later : Table) (rest : _) → Grows names.new later → Reads (name_at later) rest result (meant (spec.definable next (map (name_at later) defined.now) (spelled_name lexeme.now)) lexeme.now rest) }
    ensures is_new { IfOk result (IsNew names.new defined.now) }
    ensures grows { Grows names.old names.new }
{
    let name = lexeme.name(cursor.alloc())?;
    if !is_counted(next, &name) {
        return Err(bad(cursor.alloc(), lexeme, Cause::Name));
    }
    let number = names.number(name)?;
    names.is_table();
    if defined.contains(number) {
        return Err(bad(cursor.alloc(), lexeme, Cause::Duplicate));
    }
    Ok(number)
}

/// Reads the name of a result, which the function has not defined before.
#[tactic(auto, unfolding(ir_text::specs::Reading::token_by))]
pub fn result_name(
    cursor: &mut Cursor<'_>,
    names: &mut Names,
    next: u64,
    defined: &Defined,
) -> Result<NameId, ReadEnd>
    requires { AreNames names.old defined.now }
    ensures reads { (later : Table) → Grows names.new later → Reads (name_at later) cursor.new result (token_by (spec.defined_name next (map (name_at later) defined.now)) cursor.old) }
    ensures is_new { IfOk result (IsNew names.new defined.now) }
    ensures grows { Grows names.old names.new }
    ensures shorter { OnOk result (length cursor.new < length cursor.old) }
{
    match cursor.next() {
        None => Err(ReadEnd::Bad(Fault::Ended)),
        Some(lexeme) => match lexeme.kind() {
            TokenKind::LocalName => definable(cursor, names, &lexeme, next, defined),
            _ => Err(bad(cursor.alloc(), &lexeme, Cause::Name)),
        },
    }
}
