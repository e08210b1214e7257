//! Types of one token, and what stands in a bracket before a type.

ghost use Rattle.std.specs.Prelude.{◌≡◌, ◌<◌, [], ◌∷◌, length, drop, IfOk, OnOk};
ghost use Rattle.ir_lex.specs.declared.token.Integer.{Integer as WrittenInteger};
ghost use Rattle.ir_tree.specs.Table.{Table};
ghost use Rattle.ir_tree.specs.Naming.{Grows, type_at};
ghost use Rattle.ir_text.specs.Tokens.{TokenV};
ghost use Rattle.ir_text.specs.Reading.{Reads, ReadsUnder, meant, token_by};
ghost use Rattle.ir_text.specs.Types as spec;

use crate::cursor::{Cursor, Lexeme};
use crate::fault::{Fault, ReadEnd};
use crate::leaves::{bad, word};
use crate::passed::is_int_word;
use ir_lex::forms::behind;
use ir_lex::spelled::magnitude;
use ir_lex::token::{Cause, TokenKind};
use ir_tree::nodes::TypeId;
use ir_tree::table::Names;

/// `iN`, with these digits as N.
#[tactic(auto, unfolding(crate::specs::Types::int_type))]
fn int_type(
    cursor: &Cursor<'_>,
    names: &mut Names,
    lexeme: &Lexeme<'_>,
    digits: &[u8],
) -> Result<TypeId, ReadEnd>
    ensures reads { (later : Table) (rest : _) → Grows names.new later → Reads (type_at later) rest result (meant (spec.int_type digits.now) lexeme.now rest) }
    ensures within { IfOk result (λ k. k < length names.new.types) }
    ensures grows { Grows names.old names.new }
{
    match magnitude(digits) {
        Some(width) if width >= 1 && width <= 64 => Ok(names.int(width as u32)?),
        _ => Err(bad(cursor.alloc(), lexeme, Cause::Width)),
    }
}

/// `ptr`, or `iN`.
#[tactic(auto, unfolding(crate::specs::Types::word_type))]
pub fn word_type(
    cursor: &Cursor<'_>,
    names: &mut Names,
    lexeme: &Lexeme<'_>,
) -> Result<TypeId, ReadEnd>
    ensures reads { (later : Table) (rest : _) → Grows names.new later → Reads (type_at later) rest result (meant (spec.word_type lexeme.now.text) lexeme.now rest) }
    ensures within { IfOk result (λ k. k < length names.new.types) }
    ensures grows { Grows names.old names.new }
{
    let text = lexeme.bytes();
    if text == b"ptr".as_slice() {
        return Ok(names.pointer()?);
    }
    if is_int_word(text) {
        return int_type(cursor, names, lexeme, behind(text));
    }
    Err(bad(cursor.alloc(), lexeme, Cause::BadType))
}

/// Reads the type of a register: an integer or a pointer. Every other is refused at its first token.
#[tactic(auto, unfolding(crate::specs::Reading::token_by))]
pub fn register_type(cursor: &mut Cursor<'_>, names: &mut Names) -> Result<TypeId, ReadEnd>
    ensures reads { ReadsUnder names.new type_at cursor.new result (token_by spec.register_type cursor.old) }
    ensures within { IfOk result (λ k. k < length names.new.types) }
    ensures grows { Grows names.old names.new }
    ensures shorter { OnOk result (length cursor.new < length cursor.old) }
{
    match cursor.next() {
        None => Err(ReadEnd::Bad(Fault::Ended)),
        Some(lexeme) => match lexeme.kind() {
            TokenKind::Word => word_type(cursor, names, &lexeme),
            _ => Err(bad(cursor.alloc(), &lexeme, Cause::BadType)),
        },
    }
}

/// Reads the type of a result: that of a register, or `void`.
#[tactic(auto, unfolding(crate::specs::Reading::token_by))]
pub fn result_type(cursor: &mut Cursor<'_>, names: &mut Names) -> Result<TypeId, ReadEnd>
    ensures reads { ReadsUnder names.new type_at cursor.new result (token_by spec.result_type cursor.old) }
    ensures within { IfOk result (λ k. k < length names.new.types) }
    ensures grows { Grows names.old names.new }
    ensures shorter { OnOk result (length cursor.new < length cursor.old) }
{
    match cursor.next() {
        None => Err(ReadEnd::Bad(Fault::Ended)),
        Some(lexeme) => match lexeme.kind() {
            TokenKind::Word => {
                if lexeme.bytes() == b"void".as_slice() {
                    return Ok(names.void()?);
                }
                word_type(cursor, names, &lexeme)
            }
            _ => Err(bad(cursor.alloc(), &lexeme, Cause::BadType)),
        },
    }
}

/// Reads how many elements an array has.
#[tactic(auto, unfolding(crate::specs::Reading::token_by))]
pub fn count(cursor: &mut Cursor<'_>) -> Result<u128, ReadEnd>
    ensures reads { Reads (λ x. x) cursor.new result (token_by spec.count cursor.old) }
    ensures shorter { OnOk result (length cursor.new < length cursor.old) }
{
    match cursor.next() {
        None => Err(ReadEnd::Bad(Fault::Ended)),
        Some(lexeme) => match lexeme.kind() {
            TokenKind::Integer => {
                let written = lexeme.integer();
                if written.negative && written.magnitude != 0 {
                    return Err(bad(cursor.alloc(), &lexeme, Cause::Number));
                }
                Ok(written.magnitude)
            }
            _ => Err(bad(cursor.alloc(), &lexeme, Cause::Operand)),
        },
    }
}

/// Reads an array's count, up to its element.
pub fn header(cursor: &mut Cursor<'_>) -> Result<u128, ReadEnd>
    ensures reads { Reads (λ x. x) cursor.new result (spec.header_at cursor.old) }
    ensures shorter { OnOk result (length cursor.new < length cursor.old) }
{
    let many = count(cursor)?;
    word(cursor, b"x")?;
    Ok(many)
}
