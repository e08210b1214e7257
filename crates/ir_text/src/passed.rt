//! What is passed over: groups in brackets, and words with what belongs to them.

ghost use Rattle.std.specs.Prelude.{◌≡◌, ◌<◌, ◌≤◌, [], ◌∷◌, length, drop, map, OnOk, IsTrue};
ghost use Rattle.ir_lex.specs.declared.token.Cause.TheVariants.{Operand};
ghost use Rattle.ir_text.specs.Reading.{Reads, next_is, token_by};
ghost use Rattle.ir_text.specs.Passed as spec;
ghost use Rattle.ir_text.specs.Stopping.{stops_of};

use crate::cursor::{Cursor, Lexeme};
use crate::fault::{Fault, ReadEnd};
use crate::leaves::{bad, eat, is_among, is_mark, is_refused, take};
use ir_lex::forms::digit_run;
use ir_lex::token::{Cause, TokenKind};

/// Whether a token is `(`, `[` or `{`.
pub fn opens(lexeme: &Lexeme<'_>) -> bool
    ensures { result ≡ spec.is_opening lexeme.now }
{
    is_mark(lexeme, b'(') || is_mark(lexeme, b'[') || is_mark(lexeme, b'{')
}

/// Whether a token is `)`, `]` or `}`.
pub fn closes(lexeme: &Lexeme<'_>) -> bool
    ensures { result ≡ spec.is_closing lexeme.now }
{
    is_mark(lexeme, b')') || is_mark(lexeme, b']') || is_mark(lexeme, b'}')
}

/// Passes over a group, from behind the bracket that opens it up to the one that closes it. Brackets of the three kinds are
/// counted together.
pub fn group(cursor: &mut Cursor<'_>) -> Result<(), ReadEnd>
    ensures { Reads (λ x. x) cursor.new result (spec.group_from 1 cursor.old) }
{
    let mut inner: usize = 0;
    for turn in 0..cursor.len() {
        let lexeme = take(cursor)?;
        if opens(&lexeme) {
            inner += 1;
        } else if closes(&lexeme) {
            if inner == 0 {
                return Ok(());
            }
            inner -= 1;
        }
    }
    Err(ReadEnd::Bad(Fault::Ended))
}

/// Whether the next token is an integer.
#[tactic(auto, unfolding(crate::specs::Reading::next_is))]
pub fn sees_integer(cursor: &Cursor<'_>) -> bool
    ensures { result ≡ next_is spec.is_integer cursor.now }
{
    match cursor.peek() {
        None => false,
        Some(lexeme) => match lexeme.kind() {
            TokenKind::Integer => true,
            _ => false,
        },
    }
}

/// Passes over an integer, whatever its value.
#[tactic(auto, unfolding(crate::specs::Reading::token_by))]
pub fn some_integer(cursor: &mut Cursor<'_>) -> Result<(), ReadEnd>
    ensures reads { Reads (λ x. x) cursor.new result (token_by spec.some_integer cursor.old) }
    ensures shorter { OnOk result (length cursor.new < length cursor.old) }
{
    match cursor.next() {
        None => Err(ReadEnd::Bad(Fault::Ended)),
        Some(lexeme) => match lexeme.kind() {
            TokenKind::Integer => Ok(()),
            _ => Err(bad(cursor.alloc(), &lexeme, Cause::Operand)),
        },
    }
}

/// Passes over a string, whatever its bytes.
#[tactic(auto, unfolding(crate::specs::Reading::token_by))]
pub fn some_string(cursor: &mut Cursor<'_>) -> Result<(), ReadEnd>
    ensures reads { Reads (λ x. x) cursor.new result (token_by spec.some_string cursor.old) }
    ensures shorter { OnOk result (length cursor.new < length cursor.old) }
{
    match cursor.next() {
        None => Err(ReadEnd::Bad(Fault::Ended)),
        Some(lexeme) => match lexeme.kind() {
            TokenKind::Text => Ok(()),
            _ => Err(bad(cursor.alloc(), &lexeme, Cause::Operand)),
        },
    }
}

/// Passes over a word, whatever it is.
#[tactic(auto, unfolding(crate::specs::Reading::token_by))]
pub fn some_word(cursor: &mut Cursor<'_>) -> Result<(), ReadEnd>
    ensures reads { Reads (λ x. x) cursor.new result (token_by spec.some_word cursor.old) }
    ensures shorter { OnOk result (length cursor.new < length cursor.old) }
{
    match cursor.next() {
        None => Err(ReadEnd::Bad(Fault::Ended)),
        Some(lexeme) => match lexeme.kind() {
            TokenKind::Word => Ok(()),
            _ => Err(bad(cursor.alloc(), &lexeme, Cause::Operand)),
        },
    }
}

/// What belongs to a word: a group in parentheses, or a number.
pub fn after_word(cursor: &mut Cursor<'_>) -> Result<(), ReadEnd>
    ensures { Reads (λ x. x) cursor.new result (spec.after_word cursor.old) }
{
    if eat(cursor, b'(') {
        return group(cursor);
    }
    if sees_integer(cursor) {
        return some_integer(cursor);
    }
    Ok(())
}

/// What belongs to a string: `=` and another one.
pub fn after_string(cursor: &mut Cursor<'_>) -> Result<(), ReadEnd>
    ensures { Reads (λ x. x) cursor.new result (spec.after_string cursor.old) }
{
    if eat(cursor, b'=') {
        return some_string(cursor);
    }
    Ok(())
}

/// Whether the digits are those of an integer type's width.
#[tactic(auto, unfolding(crate::specs::Passed::is_int_word))]
pub fn is_int_word(text: &[u8]) -> bool
    ensures { result ≡ spec.is_int_word text.now }
{
    match text {
        [] => false,
        [b, digits @ ..] => *b == b'i' && !digits.is_empty() && digit_run(digits) == digits.len(),
    }
}

/// Whether a word begins a type.
pub fn is_type_word(text: &[u8]) -> bool
    ensures { result ≡ spec.is_type_word text.now }
{
    text == b"ptr".as_slice() || text == b"void".as_slice() || is_int_word(text)
}

/// The words at which passing over ends: these, and those that begin a type where `types` says so.
#[derive(Clone, Copy)]
pub struct Stops<'a> {
    pub words: &'a [&'a [u8]],
    pub types: bool,
}

/// Whether passing over ends at a word.
#[tactic(auto, using(crate::proofs::Among::any_among), unfolding(crate::specs::Passed::stops_at))]
fn ends_at(at: &Stops<'_>, text: &[u8]) -> bool
    ensures { result ≡ spec.stops_at (map (λ w. w.now) at.now.words.now) at.now.types text.now }
{
    is_among(at.words, text) || (at.types && is_type_word(text))
}

/// Whether a token is passed over.
#[tactic(auto, unfolding(crate::specs::Passed::may_pass))]
pub fn may_pass(at: &Stops<'_>, lexeme: &Lexeme<'_>) -> bool
    ensures { result ≡ spec.may_pass (stops_of at.now) lexeme.now }
{
    match lexeme.kind() {
        TokenKind::Word => !ends_at(at, lexeme.bytes()),
        TokenKind::Text => true,
        _ => is_mark(lexeme, b'#'),
    }
}

/// Passes over what belongs to a token that is passed over.
fn passed(cursor: &mut Cursor<'_>, lexeme: &Lexeme<'_>) -> Result<(), ReadEnd>
    ensures { Reads (λ x. x) cursor.new result (spec.passed_by lexeme.now.kind lexeme.now cursor.old) }
{
    match lexeme.kind() {
        TokenKind::Word => {
            if is_refused(lexeme) {
                Err(bad(cursor.alloc(), lexeme, Cause::Operand))
            } else {
                after_word(cursor)
            }
        }
        TokenKind::Text => after_string(cursor),
        _ => {
            if is_mark(lexeme, b'#') {
                some_integer(cursor)
            } else {
                Err(bad(cursor.alloc(), lexeme, Cause::Operand))
            }
        }
    }
}

/// Passes over attributes and markers: words with a group in parentheses or a number, strings, `#N`. A word outside the
/// language that is read is refused.
pub fn words(cursor: &mut Cursor<'_>, at: &Stops<'_>) -> Result<(), ReadEnd>
    ensures { Reads (λ x. x) cursor.new result (spec.words_at (stops_of at.now) cursor.old) }
{
    while let Some(lexeme) = cursor.peek() {
        if !may_pass(at, &lexeme) {
            return Ok(());
        }
        cursor.skip();
        passed(cursor, &lexeme)?;
    }
    Ok(())
}
