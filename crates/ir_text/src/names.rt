//! Names in text.

ghost use Rattle.std.specs.Prelude.{◌≡◌, ◌<◌, length, IfOk, OnOk};
ghost use Rattle.ir_lex.specs.Spelling.{IsNameKind};
ghost use Rattle.ir_tree.specs.Table.{Table};
ghost use Rattle.ir_tree.specs.Naming.{Grows, name_at};
ghost use Rattle.ir_text.specs.Reading.{ReadsUnder};
ghost use Rattle.ir_text.specs.Leaves.{spelled_name, local_at, global_at, label_at};

use crate::cursor::{Cursor, Lexeme};
use crate::fault::{Fault, ReadEnd};
use crate::leaves::bad;
use ir_lex::token::{Cause, TokenKind};
use ir_tree::nodes::NameId;
use ir_tree::table::Names;
use pv_base::want::Memory;

/// Numbers the name that a token spells.
#[tactic(auto, using(crate::proofs::Later::named))]
pub fn number_of(
    cursor: &Cursor<'_>,
    lexeme: &Lexeme<'_>,
    names: &mut Names,
) -> Result<NameId, Memory>
    requires { IsNameKind lexeme.now.kind }
    ensures shows { IfOk result (λ k. (later : Table) → Grows names.new later → name_at later k ≡ spelled_name lexeme.now) }
    ensures within { IfOk result (λ k. k < length names.new.names) }
    ensures grows { Grows names.old names.new }
{
    let name = lexeme.name(cursor.alloc())?;
    Ok(names.number(name)?)
}

/// Reads `%name`.
#[tactic(auto, using(crate::proofs::Later::later), unfolding(crate::specs::Reading::token_by))]
pub fn local(cursor: &mut Cursor<'_>, names: &mut Names) -> Result<NameId, ReadEnd>
    ensures reads { ReadsUnder names.new name_at cursor.new result (local_at cursor.old) }
    ensures within { IfOk result (λ k. k < length names.new.names) }
    ensures grows { Grows names.old names.new }
    ensures shorter { OnOk result (length cursor.new < length cursor.old) }
{
    match cursor.next() {
        None => Err(ReadEnd::Bad(Fault::Ended)),
        Some(lexeme) => match lexeme.kind() {
            TokenKind::LocalName => Ok(number_of(cursor, &lexeme, names)?),
            _ => Err(bad(cursor.alloc(), &lexeme, Cause::Name)),
        },
    }
}

/// Reads `@name`.
#[tactic(auto, using(crate::proofs::Later::later), unfolding(crate::specs::Reading::token_by))]
pub fn global(cursor: &mut Cursor<'_>, names: &mut Names) -> Result<NameId, ReadEnd>
    ensures reads { ReadsUnder names.new name_at cursor.new result (global_at cursor.old) }
    ensures within { IfOk result (λ k. k < length names.new.names) }
    ensures grows { Grows names.old names.new }
    ensures shorter { OnOk result (length cursor.new < length cursor.old) }
{
    match cursor.next() {
        None => Err(ReadEnd::Bad(Fault::Ended)),
        Some(lexeme) => match lexeme.kind() {
            TokenKind::GlobalName => Ok(number_of(cursor, &lexeme, names)?),
            _ => Err(bad(cursor.alloc(), &lexeme, Cause::Name)),
        },
    }
}

/// Reads `name:`.
#[tactic(auto, using(crate::proofs::Later::later), unfolding(crate::specs::Reading::token_by))]
pub fn label(cursor: &mut Cursor<'_>, names: &mut Names) -> Result<NameId, ReadEnd>
    ensures reads { ReadsUnder names.new name_at cursor.new result (label_at cursor.old) }
    ensures within { IfOk result (λ k. k < length names.new.names) }
    ensures grows { Grows names.old names.new }
    ensures shorter { OnOk result (length cursor.new < length cursor.old) }
{
    match cursor.next() {
        None => Err(ReadEnd::Bad(Fault::Ended)),
        Some(lexeme) => match lexeme.kind() {
            TokenKind::Label => Ok(number_of(cursor, &lexeme, names)?),
            _ => Err(bad(cursor.alloc(), &lexeme, Cause::Name)),
        },
    }
}
