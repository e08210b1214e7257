//! `icmp`, behind its word.

ghost use Rattle.std.specs.Prelude.{◌≡◌, Some, IfOk};
ghost use Rattle.ir_tree.specs.Table.{Table};
ghost use Rattle.ir_tree.specs.Naming.{Grows, name_at};
ghost use Rattle.ir_tree.specs.Shown.{shown};
ghost use Rattle.ir_text.specs.Reading.{Reads, token_by};
ghost use Rattle.ir_text.specs.Named.{known_of};
ghost use Rattle.ir_instr.specs.Comparing as spec;
ghost use Rattle.ir_instr.specs.Words.{worded, predicates};
ghost use Rattle.ir_instr.specs.Results.{result_of};

use crate::flags::said;
use crate::parts::{number, register, typed_operand};
use crate::words::predicate;
use int_num::ops::Pred;
use ir_lex::token::{Cause, TokenKind};
use ir_text::cursor::{Cursor, Lexeme};
use ir_text::fault::{Fault, ReadEnd};
use ir_text::leaves::{bad, mark};
use ir_text::named::NamedTypes;
use ir_tree::instruction::Instruction;
use ir_tree::nodes::NameId;
use ir_tree::table::Names;

/// The comparison that a token says.
fn comparison_of(lexeme: &Lexeme<'_>) -> Result<Pred, Cause>
    ensures { result ≡ worded predicates lexeme.now }
{
    match lexeme.kind() {
        TokenKind::Word => match predicate(lexeme.bytes()) {
            Some(pred) => Ok(pred),
            None => Err(Cause::Operand),
        },
        _ => Err(Cause::Operand),
    }
}

/// Reads a comparison.
#[tactic(auto, unfolding(ir_text::specs::Reading::token_by))]
fn comparison(cursor: &mut Cursor<'_>) -> Result<Pred, ReadEnd>
    ensures { Reads (λ x. x) cursor.new result (token_by (worded predicates) cursor.old) }
{
    match cursor.next() {
        None => Err(ReadEnd::Bad(Fault::Ended)),
        Some(lexeme) => match comparison_of(&lexeme) {
            Ok(pred) => Ok(pred),
            Err(cause) => Err(bad(cursor.alloc(), &lexeme, cause)),
        },
    }
}

/// Reads `P T A, B`, behind `%r = icmp`.
#[tactic(auto, using(ir_text::proofs::Later::later), unfolding(ir_tree::specs::Shown::shown))]
pub fn compare(
    cursor: &mut Cursor<'_>,
    names: &mut Names,
    known: &NamedTypes,
    to: NameId,
) -> Result<Instruction, ReadEnd>
    ensures reads { (later : Table) → Grows names.new later → Reads (shown later) cursor.new result (spec.compare_at (known_of later known.now) (name_at later to) cursor.old) }
    ensures result { IfOk result (λ i. result_of i ≡ Some to) }
    ensures grows { Grows names.old names.new }
{
    said(cursor, &[b"samesign"], b"samesign");
    let pred = comparison(cursor)?;
    let scalar = register(cursor)?;
    let left = typed_operand(cursor, names, known, scalar)?;
    mark(cursor, b',')?;
    let right = typed_operand(cursor, names, known, scalar)?;
    let of = number(names, scalar)?;
    Ok(Instruction::Compare {
        to,
        pred,
        of,
        left,
        right,
    })
}
