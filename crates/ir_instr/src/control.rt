//! `ret` and `br`, behind their words.

ghost use Rattle.std.specs.Prelude.{◌≡◌, None, IfOk, option_map};
ghost use Rattle.ir_tree.specs.Table.{Table};
ghost use Rattle.ir_tree.specs.Naming.{Grows, name_at, type_at};
ghost use Rattle.ir_tree.specs.Shown.{shown};
ghost use Rattle.ir_text.specs.Reading.{Reads};
ghost use Rattle.ir_text.specs.Named.{known_of};
ghost use Rattle.ir_text.specs.Reading.{token_by};
ghost use Rattle.ir_tree.specs.Shown.{shown_argument};
ghost use Rattle.ir_text.specs.Types.{result_type};
ghost use Rattle.ir_instr.specs.Scalars.{result_of_type, returned};
ghost use Rattle.ir_instr.specs.Control as spec;
ghost use Rattle.ir_instr.specs.Results.{result_of};

use crate::parts::{Scalar, fixed_scalar, number, scalar_of, target, typed_operand};
use ir_lex::token::{Cause, TokenKind};
use ir_text::cursor::{Cursor, Lexeme};
use ir_text::fault::{Fault, ReadEnd};
use ir_text::leaves::{bad, is_mark, mark, sees_word};
use ir_text::named::NamedTypes;
use ir_text::passed::is_type_word;
use ir_tree::instruction::{Argument, Instruction};
use ir_tree::table::Names;

/// Whether a token begins a type.
pub fn begins_type(lexeme: &Lexeme<'_>) -> bool
    ensures { result ≡ spec.begins_type lexeme.now }
{
    match lexeme.kind() {
        TokenKind::Word => is_type_word(lexeme.bytes()),
        TokenKind::LocalName => true,
        _ => is_mark(lexeme, b'[') || is_mark(lexeme, b'{') || is_mark(lexeme, b'<'),
    }
}

/// Reads the type of a condition, in the place of which a label may stand.
#[tactic(auto, unfolding(ir_text::specs::Reading::token_by))]
fn condition_type(cursor: &mut Cursor<'_>) -> Result<(), ReadEnd>
    ensures { Reads (λ x. x) cursor.new result (token_by spec.condition_type cursor.old) }
{
    match cursor.next() {
        None => Err(ReadEnd::Bad(Fault::Ended)),
        Some(lexeme) => {
            if !begins_type(&lexeme) {
                return Err(bad(cursor.alloc(), &lexeme, Cause::Operand));
            }
            match fixed_scalar(&lexeme, Scalar::Int(1)) {
                Ok(()) => Ok(()),
                Err(cause) => Err(bad(cursor.alloc(), &lexeme, cause)),
            }
        }
    }
}

/// Reads `label %to`, behind `br`.
#[tactic(auto, using(ir_text::proofs::Later::later), unfolding(ir_tree::specs::Shown::shown))]
fn jump(cursor: &mut Cursor<'_>, names: &mut Names) -> Result<Instruction, ReadEnd>
    ensures reads { (later : Table) → Grows names.new later → Reads (shown later) cursor.new result (spec.jump_at cursor.old) }
    ensures result { IfOk result (λ i. result_of i ≡ None) }
    ensures grows { Grows names.old names.new }
{
    let target = target(cursor, names)?;
    Ok(Instruction::Jump { target })
}

/// Reads `i1 C, label %a, label %b`, behind `br`.
#[tactic(auto, using(ir_text::proofs::Later::later), unfolding(ir_tree::specs::Shown::shown))]
fn branch(
    cursor: &mut Cursor<'_>,
    names: &mut Names,
    known: &NamedTypes,
) -> Result<Instruction, ReadEnd>
    ensures reads { (later : Table) → Grows names.new later → Reads (shown later) cursor.new result (spec.branch_at (known_of later known.now) cursor.old) }
    ensures result { IfOk result (λ i. result_of i ≡ None) }
    ensures grows { Grows names.old names.new }
{
    condition_type(cursor)?;
    let condition = typed_operand(cursor, names, known, Scalar::Int(1))?;
    mark(cursor, b',')?;
    let on_true = target(cursor, names)?;
    mark(cursor, b',')?;
    let on_false = target(cursor, names)?;
    Ok(Instruction::Branch {
        condition,
        on_true,
        on_false,
    })
}

/// Reads what stands behind `br`.
pub fn jump_or_branch(
    cursor: &mut Cursor<'_>,
    names: &mut Names,
    known: &NamedTypes,
) -> Result<Instruction, ReadEnd>
    ensures reads { (later : Table) → Grows names.new later → Reads (shown later) cursor.new result (spec.jump_or_branch_at (known_of later known.now) cursor.old) }
    ensures result { IfOk result (λ i. result_of i ≡ None) }
    ensures grows { Grows names.old names.new }
{
    match sees_word(cursor, b"label") {
        true => jump(cursor, names),
        false => branch(cursor, names, known),
    }
}

/// The type of a result that a token is, or why it is none; `None` is `void`.
fn result_scalar(lexeme: &Lexeme<'_>) -> Result<Option<Scalar>, Cause>
    ensures { returned result ≡ result_type lexeme.now }
{
    match lexeme.kind() {
        TokenKind::Word if lexeme.bytes() == b"void".as_slice() => Ok(None),
        _ => match scalar_of(lexeme) {
            Ok(of) => Ok(Some(of)),
            Err(cause) => Err(cause),
        },
    }
}

/// Reads the type of a result; `None` is `void`.
#[tactic(auto, unfolding(ir_text::specs::Reading::token_by))]
pub fn result_type(cursor: &mut Cursor<'_>) -> Result<Option<Scalar>, ReadEnd>
    ensures { Reads result_of_type cursor.new result (token_by result_type cursor.old) }
{
    match cursor.next() {
        None => Err(ReadEnd::Bad(Fault::Ended)),
        Some(lexeme) => match result_scalar(&lexeme) {
            Ok(of) => Ok(of),
            Err(cause) => Err(bad(cursor.alloc(), &lexeme, cause)),
        },
    }
}

/// Reads what is returned at a type.
#[tactic(auto, using(ir_text::proofs::Later::later))]
fn returned(
    cursor: &mut Cursor<'_>,
    names: &mut Names,
    known: &NamedTypes,
    of: Option<Scalar>,
) -> Result<Option<Argument>, ReadEnd>
    ensures reads { (later : Table) → Grows names.new later → Reads (option_map (shown_argument later)) cursor.new result (spec.returned_at (known_of later known.now) (result_of_type of) cursor.old) }
    ensures grows { Grows names.old names.new }
{
    let scalar = match of {
        Some(scalar) => scalar,
        None => return Ok(None),
    };
    let value = typed_operand(cursor, names, known, scalar)?;
    let of = number(names, scalar)?;
    Ok(Some(Argument { of, value }))
}

/// Reads `void`, or `T A`, behind `ret`.
#[tactic(auto, using(ir_text::proofs::Later::later), unfolding(ir_tree::specs::Shown::shown))]
pub fn return_behind(
    cursor: &mut Cursor<'_>,
    names: &mut Names,
    known: &NamedTypes,
) -> Result<Instruction, ReadEnd>
    ensures reads { (later : Table) → Grows names.new later → Reads (shown later) cursor.new result (spec.return_at (known_of later known.now) cursor.old) }
    ensures result { IfOk result (λ i. result_of i ≡ None) }
    ensures grows { Grows names.old names.new }
{
    let of = result_type(cursor)?;
    let value = returned(cursor, names, known, of)?;
    Ok(Instruction::Return { value })
}
