//! What stands behind an instruction or a global and is passed over.

ghost use Rattle.std.specs.Prelude.{◌≡◌, ◌<◌, ◌≤◌, [], ◌∷◌, length, drop, OnOk};
ghost use Rattle.ir_text.specs.Reading.{Reads, next_is, sees};
ghost use Rattle.ir_text.specs.Lists.{after_comma};
ghost use Rattle.ir_text.specs.Tails as spec;

use crate::cursor::Cursor;
use crate::fault::{Fault, ReadEnd};
use crate::leaves::{bad, is_mark, is_word, mark, sees};
use crate::passed::{some_integer, some_string, some_word};
use ir_lex::token::Cause;

/// Passes over `word !N`, behind `!`.
pub fn note_behind(cursor: &mut Cursor<'_>) -> Result<(), ReadEnd>
    ensures reads { Reads (λ x. x) cursor.new result (spec.note_behind cursor.old) }
    ensures shorter { OnOk result (length cursor.new < length cursor.old) }
{
    some_word(cursor)?;
    mark(cursor, b'!')?;
    some_integer(cursor)
}

/// Passes over `!word !N`.
pub fn note(cursor: &mut Cursor<'_>) -> Result<(), ReadEnd>
    ensures reads { Reads (λ x. x) cursor.new result (spec.note_at cursor.old) }
    ensures shorter { OnOk result (length cursor.new < length cursor.old) }
{
    mark(cursor, b'!')?;
    note_behind(cursor)
}

/// Passes over `align N`, `section ".."`, `comdat` or `!word !N`.
#[tactic(auto, unfolding(crate::specs::Tails::tail_at))]
pub fn tail(cursor: &mut Cursor<'_>) -> Result<(), ReadEnd>
    ensures reads { Reads (λ x. x) cursor.new result (spec.tail_at cursor.old) }
    ensures shorter { OnOk result (length cursor.new < length cursor.old) }
{
    match cursor.next() {
        None => Err(ReadEnd::Bad(Fault::Ended)),
        Some(lexeme) => {
            if is_word(&lexeme, b"align") {
                some_integer(cursor)
            } else if is_word(&lexeme, b"section") {
                some_string(cursor)
            } else if is_word(&lexeme, b"comdat") {
                Ok(())
            } else if is_mark(&lexeme, b'!') {
                note_behind(cursor)
            } else {
                Err(bad(cursor.alloc(), &lexeme, Cause::Operand))
            }
        }
    }
}

/// Passes over any number of `!word !N`.
pub fn notes(cursor: &mut Cursor<'_>) -> Result<(), ReadEnd>
    ensures { Reads (λ x. x) cursor.new result (spec.notes_at cursor.old) }
{
    while sees(cursor, b'!') {
        note(cursor)?;
    }
    Ok(())
}

/// Passes over one of what stands behind an instruction, behind its comma.
fn comma_tail(cursor: &mut Cursor<'_>) -> Result<(), ReadEnd>
    ensures reads { Reads (λ x. x) cursor.new result (after_comma spec.tail_at cursor.old) }
    ensures shorter { OnOk result (length cursor.new < length cursor.old) }
{
    mark(cursor, b',')?;
    tail(cursor)
}

/// Passes over any number of what stands behind an instruction, each behind a comma.
pub fn tails(cursor: &mut Cursor<'_>) -> Result<(), ReadEnd>
    ensures { Reads (λ x. x) cursor.new result (spec.tails_at cursor.old) }
{
    while sees(cursor, b',') {
        comma_tail(cursor)?;
    }
    Ok(())
}
