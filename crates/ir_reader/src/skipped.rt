//! The items that are passed over whole.

ghost use Rattle.std.specs.Prelude.{◌≡◌, ◌<◌, length, OnOk, ◌&&◌};
ghost use Rattle.ir_text.specs.Reading.{Reads, token_by};
ghost use Rattle.ir_text.specs.Passed.{is_string};
ghost use Rattle.ir_grammar.specs.PassedItems as spec;

use ir_lex::token::{Cause, TokenKind};
use ir_text::cursor::{Cursor, Lexeme};
use ir_text::fault::{Fault, ReadEnd};
use ir_text::leaves::{bad, mark, sees, word};
use ir_text::passed::{group, opens, some_integer, some_word};

/// Whether a token is a string.
fn is_string(lexeme: &Lexeme<'_>) -> bool
    ensures { result ≡ is_string lexeme.now }
{
    match lexeme.kind() {
        TokenKind::Text => true,
        _ => false,
    }
}

/// Passes over all tokens up to the next string, and the string.
pub fn to_string(cursor: &mut Cursor<'_>) -> Result<(), ReadEnd>
    ensures { Reads (λ x. x) cursor.new result (spec.to_string cursor.old) }
{
    while let Some(lexeme) = cursor.next() {
        if is_string(&lexeme) {
            return Ok(());
        }
    }
    Err(ReadEnd::Bad(Fault::Ended))
}

/// Passes over all tokens up to the next bracket that opens, and the group that it opens.
fn to_group(cursor: &mut Cursor<'_>) -> Result<(), ReadEnd>
    ensures { Reads (λ x. x) cursor.new result (spec.to_group cursor.old) }
{
    while let Some(lexeme) = cursor.next() {
        if opens(&lexeme) {
            return group(cursor);
        }
    }
    Err(ReadEnd::Bad(Fault::Ended))
}

fn equals_group(cursor: &mut Cursor<'_>) -> Result<(), ReadEnd>
    ensures { Reads (λ x. x) cursor.new result (spec.equals_group cursor.old) }
{
    mark(cursor, b'=')?;
    to_group(cursor)
}

/// Passes over `#N = { .. }`, behind `attributes`.
pub fn attributes(cursor: &mut Cursor<'_>) -> Result<(), ReadEnd>
    ensures { Reads (λ x. x) cursor.new result (spec.attributes_at cursor.old) }
{
    mark(cursor, b'#')?;
    some_integer(cursor)?;
    equals_group(cursor)
}

/// Reads what metadata is called. Answers whether it is a word, and no number.
#[tactic(auto, unfolding(ir_text::specs::Reading::token_by))]
fn word_or_number(cursor: &mut Cursor<'_>) -> Result<bool, ReadEnd>
    ensures { Reads (λ x. x) cursor.new result (token_by spec.word_or_number cursor.old) }
{
    match cursor.next() {
        None => Err(ReadEnd::Bad(Fault::Ended)),
        Some(lexeme) => match lexeme.kind() {
            TokenKind::Word => Ok(true),
            TokenKind::Integer => Ok(false),
            _ => Err(bad(cursor.alloc(), &lexeme, Cause::Operand)),
        },
    }
}

/// Passes over `!name = ..` or `!N = ..`.
pub fn metadata(cursor: &mut Cursor<'_>) -> Result<(), ReadEnd>
    ensures { Reads (λ x. x) cursor.new result (spec.metadata_at cursor.old) }
{
    mark(cursor, b'!')?;
    word_or_number(cursor)?;
    equals_group(cursor)
}

#[tactic(auto, unfolding(ir_text::specs::Reading::token_by))]
fn comdat_name(cursor: &mut Cursor<'_>) -> Result<(), ReadEnd>
    ensures { Reads (λ x. x) cursor.new result (token_by spec.comdat_name cursor.old) }
{
    match cursor.next() {
        None => Err(ReadEnd::Bad(Fault::Ended)),
        Some(lexeme) => match lexeme.kind() {
            TokenKind::Word | TokenKind::Text | TokenKind::Integer => Ok(()),
            _ => Err(bad(cursor.alloc(), &lexeme, Cause::Operand)),
        },
    }
}

/// Passes over `$name = comdat WORD`.
pub fn comdat(cursor: &mut Cursor<'_>) -> Result<(), ReadEnd>
    ensures { Reads (λ x. x) cursor.new result (spec.comdat_at cursor.old) }
{
    mark(cursor, b'$')?;
    comdat_name(cursor)?;
    mark(cursor, b'=')?;
    word(cursor, b"comdat")?;
    some_word(cursor)
}

/// Passes over the rest of an item that begins like `!word !N`, behind which the declaration is over.
fn item_end(cursor: &mut Cursor<'_>) -> Result<bool, ReadEnd>
    ensures { Reads (λ x. x) cursor.new result (spec.item_end cursor.old) }
{
    equals_group(cursor)?;
    Ok(false)
}

fn note_end(cursor: &mut Cursor<'_>) -> Result<bool, ReadEnd>
    ensures { Reads (λ x. x) cursor.new result (spec.note_end cursor.old) }
{
    mark(cursor, b'!')?;
    some_integer(cursor)?;
    Ok(true)
}

/// Passes over the rest of `!word !N`, or of an item that begins so. Answers whether more may follow.
fn attached_end(cursor: &mut Cursor<'_>, named: bool) -> Result<bool, ReadEnd>
    ensures { Reads (λ x. x) cursor.new result (spec.attached_end named cursor.old) }
{
    match named {
        true => {
            if sees(cursor, b'!') {
                return note_end(cursor);
            }
            item_end(cursor)
        }
        false => item_end(cursor),
    }
}

fn attached_one(cursor: &mut Cursor<'_>) -> Result<bool, ReadEnd>
    ensures { Reads (λ x. x) cursor.new result (spec.attached_one cursor.old) }
{
    mark(cursor, b'!')?;
    let named = word_or_number(cursor)?;
    attached_end(cursor, named)
}

/// Passes over any number of `!word !N` behind a declaration, and over an item that begins like one.
pub fn attached(cursor: &mut Cursor<'_>) -> Result<(), ReadEnd>
    ensures { Reads (λ x. x) cursor.new result (spec.attached_at cursor.old) }
{
    for turn in 0..cursor.len() {
        if !sees(cursor, b'!') {
            return Ok(());
        }
        if !attached_one(cursor)? {
            return Ok(());
        }
    }
    Ok(())
}
