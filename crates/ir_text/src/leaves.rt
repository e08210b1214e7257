//! Single tokens.

ghost use Rattle.std.specs.Prelude.{◌≡◌, ◌<◌, ◌≤◌, [], ◌∷◌, length, drop, map, OnOk, MatchResult, IsTrue, if◌then◌else◌};
ghost use Rattle.std.specs.List.{list_any};
ghost use Rattle.ir_text.specs.Tokens as spec;
ghost use Rattle.ir_text.specs.Reading.{Reads, sees, next_is};
ghost use Rattle.ir_text.specs.Leaves.{mark_at, word_at};

use crate::cursor::{Cursor, Lexeme};
use crate::fault::{Fault, ReadEnd};
use ir_lex::token::{Cause, TokenKind};
use pv_base::bytes::Bytes;
use std::alloc::Global;

/// Whether the bytes are one of these words.
pub fn is_among(words: &[&[u8]], text: &[u8]) -> bool
    ensures { result ≡ list_any (λ w. spec.same text.now w.now) words.now }
{
    words.iter().any(|word| text == *word)
}

/// Whether the bytes are a word outside the language that is read.
#[tactic(auto, unfolding(crate::specs::Tokens::among))]
fn refused(text: &[u8]) -> bool
    ensures { result ≡ spec.among spec.refused_words text.now }
{
    is_among(
        &[
            b"ptrtoint",
            b"inttoptr",
            b"bitcast",
            b"addrspacecast",
            b"module",
            b"indirectbr",
            b"callbr",
            b"invoke",
            b"va_arg",
            b"undef",
            b"poison",
            b"extractvalue",
            b"insertvalue",
            b"byval",
            b"byref",
            b"inalloca",
            b"addrspace",
            b"thread_local",
            b"volatile",
            b"atomic",
            b"musttail",
            b"personality",
            b"asm",
            b"metadata",
            b"gc",
            b"prefix",
            b"prologue",
            b"alias",
            b"ifunc",
        ],
        text,
    )
}

/// Whether a token is a word outside the language that is read, wherever it is met.
#[tactic(auto, unfolding(crate::specs::Tokens::is_refused))]
pub fn is_refused(lexeme: &Lexeme<'_>) -> bool
    ensures { result ≡ spec.is_refused lexeme.now }
{
    let word = lexeme.bytes();
    match lexeme.kind() {
        TokenKind::Word => refused(word),
        _ => false,
    }
}

/// The fault at a token that does not stand where it must: of this cause, unless the token is a word outside the language.
#[tactic(auto, unfolding(crate::specs::Tokens::blamed))]
pub fn bad(alloc: Global, lexeme: &Lexeme<'_>, cause: Cause) -> ReadEnd
    ensures { spec.IsBlamed lexeme.now cause result }
{
    if !is_refused(lexeme) {
        return ReadEnd::Bad(Fault::At(lexeme.line(), cause));
    }
    match Bytes::from_slice(alloc, lexeme.bytes()) {
        Ok(word) => ReadEnd::Bad(Fault::At(lexeme.line(), Cause::OutOfProfile(word))),
        Err(_) => ReadEnd::Memory,
    }
}

/// Whether a token is this mark.
pub fn is_mark(lexeme: &Lexeme<'_>, byte: u8) -> bool
    ensures { result ≡ spec.is_mark byte lexeme.now }
{
    match lexeme.kind() {
        TokenKind::Punct => lexeme.bytes() == &[byte][..],
        _ => false,
    }
}

/// Whether a token is this word.
pub fn is_word(lexeme: &Lexeme<'_>, word: &[u8]) -> bool
    ensures { result ≡ spec.is_word word.now lexeme.now }
{
    match lexeme.kind() {
        TokenKind::Word => lexeme.bytes() == word,
        _ => false,
    }
}

/// Takes the next token, whatever it is.
pub fn take<'a>(cursor: &mut Cursor<'a>) -> Result<Lexeme<'a>, ReadEnd>
    ensures { MatchResult result (λ l. cursor.old ≡ l ∷ cursor.new) (λ e. (cursor.old ≡ []) × (e ≡ ReadEnd.Bad Fault.Ended)) }
{
    match cursor.next() {
        Some(lexeme) => Ok(lexeme),
        None => Err(ReadEnd::Bad(Fault::Ended)),
    }
}

/// Reads a mark.
#[tactic(auto, unfolding(crate::specs::Reading::token_by))]
pub fn mark(cursor: &mut Cursor<'_>, byte: u8) -> Result<(), ReadEnd>
    ensures reads { Reads (λ x. x) cursor.new result (mark_at byte cursor.old) }
    ensures shorter { OnOk result (length cursor.new < length cursor.old) }
{
    match cursor.next() {
        None => Err(ReadEnd::Bad(Fault::Ended)),
        Some(lexeme) => {
            if is_mark(&lexeme, byte) {
                Ok(())
            } else {
                Err(bad(cursor.alloc(), &lexeme, Cause::Operand))
            }
        }
    }
}

/// Reads a word.
#[tactic(auto, unfolding(crate::specs::Reading::token_by))]
pub fn word(cursor: &mut Cursor<'_>, word: &[u8]) -> Result<(), ReadEnd>
    ensures reads { Reads (λ x. x) cursor.new result (word_at word.now cursor.old) }
    ensures shorter { OnOk result (length cursor.new < length cursor.old) }
{
    match cursor.next() {
        None => Err(ReadEnd::Bad(Fault::Ended)),
        Some(lexeme) => {
            if is_word(&lexeme, word) {
                Ok(())
            } else {
                Err(bad(cursor.alloc(), &lexeme, Cause::Operand))
            }
        }
    }
}

/// Whether this mark comes next.
#[tactic(auto, unfolding(crate::specs::Reading::next_is))]
pub fn sees(cursor: &Cursor<'_>, byte: u8) -> bool
    ensures { result ≡ sees byte cursor.now }
{
    match cursor.peek() {
        None => false,
        Some(lexeme) => is_mark(&lexeme, byte),
    }
}

/// Whether this word comes next.
#[tactic(auto, unfolding(crate::specs::Reading::next_is))]
pub fn sees_word(cursor: &Cursor<'_>, word: &[u8]) -> bool
    ensures { result ≡ next_is (spec.is_word word.now) cursor.now }
{
    match cursor.peek() {
        None => false,
        Some(lexeme) => is_word(&lexeme, word),
    }
}

/// Takes a mark if it comes next, and says whether it did.
#[tactic(auto, unfolding(crate::specs::Reading::next_is))]
pub fn eat(cursor: &mut Cursor<'_>, byte: u8) -> bool
    ensures sees { result ≡ sees byte cursor.old }
    ensures new { cursor.new ≡ (if result then drop 1 cursor.old else cursor.old) }
    ensures no_longer { length cursor.new ≤ length cursor.old }
    ensures shorter { IsTrue result → length cursor.new < length cursor.old }
{
    match cursor.peek() {
        None => false,
        Some(lexeme) => {
            if is_mark(&lexeme, byte) {
                cursor.skip();
                true
            } else {
                false
            }
        }
    }
}
