//! Operands at a type.

ghost use Rattle.std.specs.Prelude.{◌≡◌, ◌<◌, ◌≤◌, length, IfOk, OnOk};
ghost use Rattle.int_num.specs.Integer.{IsWidth};
ghost use Rattle.ir_tree.specs.Table.{Table};
ghost use Rattle.ir_tree.specs.Naming.{Grows, constant_at, type_at};
ghost use Rattle.ir_tree.specs.Shown.{shown_operand, shown_argument};
ghost use Rattle.ir_text.specs.Reading.{Reads, next_is, token_by};
ghost use Rattle.ir_text.specs.Named.{known_of};
ghost use Rattle.ir_text.specs.Operands as spec;

use crate::constants::width_of;
use crate::cursor::Cursor;
use crate::fault::{Fault, ReadEnd};
use crate::leaves::bad;
use crate::named::NamedTypes;
use crate::names::number_of;
pub use crate::nested_constants::read_constant;
use crate::types::register_type;
use ir_lex::token::{Cause, TokenKind};
use ir_tree::instruction::{Argument, Operand};
use ir_tree::nodes::{ConstantId, TypeId};
use ir_tree::table::Names;

/// Whether a register comes next.
#[tactic(auto, unfolding(crate::specs::Reading::next_is))]
pub fn sees_local(cursor: &Cursor<'_>) -> bool
    ensures { result ≡ next_is spec.is_local cursor.now }
{
    match cursor.peek() {
        None => false,
        Some(lexeme) => match lexeme.kind() {
            TokenKind::LocalName => true,
            _ => false,
        },
    }
}

/// Reads a register.
#[tactic(auto, using(crate::proofs::Later::later), unfolding(crate::specs::Reading::token_by))]
fn register(cursor: &mut Cursor<'_>, names: &mut Names) -> Result<Operand, ReadEnd>
    ensures reads { (later : Table) → Grows names.new later → Reads (shown_operand later) cursor.new result (token_by spec.register cursor.old) }
    ensures grows { Grows names.old names.new }
    ensures shorter { OnOk result (length cursor.new < length cursor.old) }
{
    match cursor.next() {
        None => Err(ReadEnd::Bad(Fault::Ended)),
        Some(lexeme) => match lexeme.kind() {
            TokenKind::LocalName => Ok(Operand::Register(number_of(cursor, &lexeme, names)?)),
            _ => Err(bad(cursor.alloc(), &lexeme, Cause::Operand)),
        },
    }
}

/// Reads an operand at a type: a register or a constant.
pub fn operand(
    cursor: &mut Cursor<'_>,
    names: &mut Names,
    known: &NamedTypes,
    of: TypeId,
) -> Result<Operand, ReadEnd>
    requires { of < length names.old.types }
    ensures reads { (later : Table) → Grows names.new later → Reads (shown_operand later) cursor.new result (spec.operand_at (known_of later known.now) (type_at later of) cursor.old) }
    ensures grows { Grows names.old names.new }
    ensures shorter { OnOk result (length cursor.new < length cursor.old) }
{
    if sees_local(cursor) {
        return register(cursor, names);
    }
    let width = width_of(names, of);
    Ok(Operand::Constant(read_constant(cursor, names, known, width)?))
}

/// Reads an operand behind its type, that of a register: `T A`.
#[tactic(auto, using(crate::proofs::Later::later))]
pub fn argument(
    cursor: &mut Cursor<'_>,
    names: &mut Names,
    known: &NamedTypes,
) -> Result<Argument, ReadEnd>
    ensures reads { (later : Table) → Grows names.new later → Reads (shown_argument later) cursor.new result (spec.argument_at (known_of later known.now) cursor.old) }
    ensures grows { Grows names.old names.new }
    ensures shorter { OnOk result (length cursor.new < length cursor.old) }
{
    let of = register_type(cursor, names)?;
    let value = operand(cursor, names, known, of)?;
    Ok(Argument { of, value })
}
