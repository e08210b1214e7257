//! The types of registers, and what is written in more than one instruction.

ghost use Rattle.std.specs.Prelude.{◌≡◌, ◌<◌, length, IfOk, OnOk, Ok, Err, if◌then◌else◌};
ghost use Rattle.ir_tree.specs.Table.{Table};
ghost use Rattle.ir_tree.specs.Naming.{Grows, type_at};
ghost use Rattle.ir_text.specs.Reading.{Reads, ReadsUnder, token_by};
ghost use Rattle.ir_text.specs.Named.{known_of};
ghost use Rattle.ir_text.specs.Operands.{operand_at};
ghost use Rattle.ir_lex.specs.declared.token.Cause.TheVariants.{Layout};
ghost use Rattle.ir_text.specs.Types.{register_type, word_type, int_type};
ghost use Rattle.ir_tree.specs.Naming.{name_at};
ghost use Rattle.ir_tree.specs.Shown.{shown_operand, shown_argument};
ghost use Rattle.ir_tree.specs.Trees.{IntV, PtrV};
ghost use Rattle.ir_instr.specs.Parts as spec;
ghost use Rattle.ir_instr.specs.Scalars.{type_of, typed};

use ir_lex::forms::behind;
use ir_lex::spelled::magnitude;
use ir_lex::token::{Cause, TokenKind};
use ir_text::cursor::{Cursor, Lexeme};
use ir_text::fault::{Fault, ReadEnd};
use ir_text::leaves::{bad, word};
use ir_text::named::NamedTypes;
use ir_text::names::local;
use ir_text::operands::operand;
use ir_text::passed::is_int_word;
use ir_tree::instruction::{Argument, Operand};
use ir_tree::nodes::{NameId, TypeId};
use ir_tree::table::Names;
use pv_base::want::Memory;

/// The type of a register.
#[derive(Clone, Copy)]
pub enum Scalar {
    /// `iN`, by its width
    Int(u32),
    /// `ptr`
    Pointer,
}

/// The integer type with these digits as its width.
#[tactic(auto, unfolding(ir_text::specs::Types::int_type))]
fn int_scalar(digits: &[u8]) -> Result<Scalar, Cause>
    ensures { typed result ≡ int_type digits.now }
{
    match magnitude(digits) {
        Some(width) if width >= 1 && width <= 64 => Ok(Scalar::Int(width as u32)),
        _ => Err(Cause::Width),
    }
}

/// The type of a register that a word is.
#[tactic(auto, unfolding(ir_text::specs::Types::word_type))]
fn word_scalar(text: &[u8]) -> Result<Scalar, Cause>
    ensures { typed result ≡ word_type text.now }
{
    if text == b"ptr".as_slice() {
        return Ok(Scalar::Pointer);
    }
    if is_int_word(text) {
        return int_scalar(behind(text));
    }
    Err(Cause::BadType)
}

/// The type of a register that a token is, or why it is none.
pub fn scalar_of(lexeme: &Lexeme<'_>) -> Result<Scalar, Cause>
    ensures { typed result ≡ register_type lexeme.now }
{
    match lexeme.kind() {
        TokenKind::Word => word_scalar(lexeme.bytes()),
        _ => Err(Cause::BadType),
    }
}

/// Whether two types of registers are the same.
fn is_same(a: Scalar, b: Scalar) -> bool
    ensures { result ≡ spec.same_register (type_of a) (type_of b) }
{
    match (a, b) {
        (Scalar::Int(v), Scalar::Int(w)) => v == w,
        (Scalar::Pointer, Scalar::Pointer) => true,
        _ => false,
    }
}

/// Whether memory can hold the type.
fn is_stored(of: Scalar) -> bool
    ensures { spec.with_layout (Ok (type_of of)) ≡ (if result then Ok (type_of of) else Err Layout) }
{
    match of {
        Scalar::Int(width) => width == 1 || width == 8 || width == 16 || width == 32 || width == 64,
        Scalar::Pointer => true,
    }
}

/// The number of a type of a register.
pub fn number(names: &mut Names, of: Scalar) -> Result<TypeId, Memory>
    ensures shows { IfOk result (λ k. (later : Table) → Grows names.new later → type_at later k ≡ type_of of) }
    ensures within { IfOk result (λ k. k < length names.new.types) }
    ensures grows { Grows names.old names.new }
{
    match of {
        Scalar::Int(width) => names.int(width),
        Scalar::Pointer => names.pointer(),
    }
}

/// Reads the type of a register.
#[tactic(auto, unfolding(ir_text::specs::Reading::token_by))]
pub fn register(cursor: &mut Cursor<'_>) -> Result<Scalar, ReadEnd>
    ensures reads { Reads type_of cursor.new result (token_by register_type cursor.old) }
    ensures shorter { OnOk result (length cursor.new < length cursor.old) }
{
    match cursor.next() {
        None => Err(ReadEnd::Bad(Fault::Ended)),
        Some(lexeme) => match scalar_of(&lexeme) {
            Ok(of) => Ok(of),
            Err(cause) => Err(bad(cursor.alloc(), &lexeme, cause)),
        },
    }
}

/// Reads the type of an integer.
#[tactic(auto, unfolding(ir_text::specs::Reading::token_by))]
pub fn integer_type(cursor: &mut Cursor<'_>) -> Result<Scalar, ReadEnd>
    ensures reads { Reads type_of cursor.new result (token_by spec.integer_type cursor.old) }
    ensures shorter { OnOk result (length cursor.new < length cursor.old) }
{
    match cursor.next() {
        None => Err(ReadEnd::Bad(Fault::Ended)),
        Some(lexeme) => match scalar_of(&lexeme) {
            Ok(Scalar::Int(width)) => Ok(Scalar::Int(width)),
            Ok(Scalar::Pointer) => Err(bad(cursor.alloc(), &lexeme, Cause::Operand)),
            Err(cause) => Err(bad(cursor.alloc(), &lexeme, cause)),
        },
    }
}

/// Whether a token is this type, or why it is not.
pub fn fixed_scalar(lexeme: &Lexeme<'_>, of: Scalar) -> Result<(), Cause>
    ensures { result ≡ spec.fixed_type (type_of of) lexeme.now }
{
    match scalar_of(lexeme) {
        Ok(found) => {
            if is_same(of, found) {
                Ok(())
            } else {
                Err(Cause::Operand)
            }
        }
        Err(cause) => Err(cause),
    }
}

/// Reads this type, which the form or an earlier type fixes.
#[tactic(auto, unfolding(ir_text::specs::Reading::token_by))]
pub fn fixed_type(cursor: &mut Cursor<'_>, of: Scalar) -> Result<(), ReadEnd>
    ensures reads { Reads (λ x. x) cursor.new result (token_by (spec.fixed_type (type_of of)) cursor.old) }
    ensures shorter { OnOk result (length cursor.new < length cursor.old) }
{
    match cursor.next() {
        None => Err(ReadEnd::Bad(Fault::Ended)),
        Some(lexeme) => match fixed_scalar(&lexeme, of) {
            Ok(()) => Ok(()),
            Err(cause) => Err(bad(cursor.alloc(), &lexeme, cause)),
        },
    }
}

/// Reads the type of a register that memory can hold.
#[tactic(auto, unfolding(ir_text::specs::Reading::token_by))]
pub fn stored_type(cursor: &mut Cursor<'_>) -> Result<Scalar, ReadEnd>
    ensures reads { Reads type_of cursor.new result (token_by spec.stored_type cursor.old) }
    ensures shorter { OnOk result (length cursor.new < length cursor.old) }
{
    match cursor.next() {
        None => Err(ReadEnd::Bad(Fault::Ended)),
        Some(lexeme) => match scalar_of(&lexeme) {
            Ok(of) => {
                if is_stored(of) {
                    Ok(of)
                } else {
                    Err(bad(cursor.alloc(), &lexeme, Cause::Layout))
                }
            }
            Err(cause) => Err(bad(cursor.alloc(), &lexeme, cause)),
        },
    }
}

/// Reads `label %name`.
pub fn target(cursor: &mut Cursor<'_>, names: &mut Names) -> Result<NameId, ReadEnd>
    ensures reads { ReadsUnder names.new name_at cursor.new result (spec.target_at cursor.old) }
    ensures grows { Grows names.old names.new }
    ensures shorter { OnOk result (length cursor.new < length cursor.old) }
{
    word(cursor, b"label")?;
    local(cursor, names)
}

/// Reads an operand at the type of a register.
#[tactic(auto, using(ir_text::proofs::Later::later))]
pub fn typed_operand(
    cursor: &mut Cursor<'_>,
    names: &mut Names,
    known: &NamedTypes,
    of: Scalar,
) -> Result<Operand, ReadEnd>
    ensures reads { (later : Table) → Grows names.new later → Reads (shown_operand later) cursor.new result (operand_at (known_of later known.now) (type_of of) cursor.old) }
    ensures grows { Grows names.old names.new }
    ensures shorter { OnOk result (length cursor.new < length cursor.old) }
{
    let of = number(names, of)?;
    operand(cursor, names, known, of)
}

/// Reads an integer with its type: `iN A`.
#[tactic(auto, using(ir_text::proofs::Later::later))]
pub fn integer_argument(
    cursor: &mut Cursor<'_>,
    names: &mut Names,
    known: &NamedTypes,
) -> Result<Argument, ReadEnd>
    ensures reads { (later : Table) → Grows names.new later → Reads (shown_argument later) cursor.new result (spec.integer_argument_at (known_of later known.now) cursor.old) }
    ensures grows { Grows names.old names.new }
{
    let scalar = integer_type(cursor)?;
    let value = typed_operand(cursor, names, known, scalar)?;
    let of = number(names, scalar)?;
    Ok(Argument { of, value })
}
