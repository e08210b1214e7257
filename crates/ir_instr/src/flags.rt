//! Words behind the word of an operation, in any order, each as often as it pleases.

ghost use Rattle.std.specs.Prelude.{◌≡◌, ◌||◌, Ok, map};
ghost use Rattle.ir_text.specs.Tokens.{same};
ghost use Rattle.ir_instr.specs.Words.{is_among};
ghost use Rattle.ir_instr.specs.Flags as spec;
ghost use Rattle.ir_instr.specs.Noting.{noted, Says};

use int_num::ops::{BinOp, CastOp, Flags};
use ir_lex::token::TokenKind;
use ir_text::cursor::{Cursor, Lexeme};
use ir_text::leaves::is_among;

/// Whether a token is one of these words.
#[tactic(auto, using(ir_text::proofs::Among::any_among))]
fn is_one(lexeme: &Lexeme<'_>, words: &[&[u8]]) -> bool
    ensures { result ≡ is_among (map (λ w. w.now) words.now) lexeme.now }
{
    match lexeme.kind() {
        TokenKind::Word => is_among(words, lexeme.bytes()),
        _ => false,
    }
}

/// The flags with the one of a word, where it is one.
fn with_flag(flags: Flags, word: &[u8]) -> Flags
    ensures { result ≡ noted flags word.now }
{
    Flags {
        nsw: flags.nsw || b"nsw".as_slice() == word,
        nuw: flags.nuw || b"nuw".as_slice() == word,
        exact: flags.exact || b"exact".as_slice() == word,
        disjoint: flags.disjoint || b"disjoint".as_slice() == word,
        nneg: flags.nneg || b"nneg".as_slice() == word,
    }
}

/// Reads flags among these words.
fn flags(cursor: &mut Cursor<'_>, words: &[&[u8]]) -> Flags
    ensures { spec.flags_at (map (λ w. w.now) words.now) cursor.old ≡ Ok (result, cursor.new) }
{
    let mut flags = Flags {
        nsw: false,
        nuw: false,
        exact: false,
        disjoint: false,
        nneg: false,
    };
    while let Some(lexeme) = cursor.peek() {
        if !is_one(&lexeme, words) {
            return flags;
        }
        cursor.skip();
        flags = with_flag(flags, lexeme.bytes());
    }
    flags
}

/// Reads the flags that an operation may have.
pub fn binary_flags(cursor: &mut Cursor<'_>, operation: BinOp) -> Flags
    ensures { spec.flags_at (spec.flags_for operation) cursor.old ≡ Ok (result, cursor.new) }
{
    match operation {
        BinOp::Add | BinOp::Sub | BinOp::Mul | BinOp::Shl => flags(cursor, &[b"nuw", b"nsw"]),
        BinOp::Udiv | BinOp::Sdiv | BinOp::Lshr | BinOp::Ashr => flags(cursor, &[b"exact"]),
        BinOp::Or => flags(cursor, &[b"disjoint"]),
        BinOp::Urem | BinOp::Srem | BinOp::And | BinOp::Xor => flags(cursor, &[]),
    }
}

/// Reads the flags that a change of width may have.
pub fn cast_flags(cursor: &mut Cursor<'_>, operation: CastOp) -> Flags
    ensures { spec.flags_at (spec.cast_flags_for operation) cursor.old ≡ Ok (result, cursor.new) }
{
    match operation {
        CastOp::Trunc => flags(cursor, &[b"nuw", b"nsw"]),
        CastOp::Zext => flags(cursor, &[b"nneg"]),
        CastOp::Sext => flags(cursor, &[]),
    }
}

/// Whether it was said before, or is said by a word.
fn is_either(before: bool, word: &[u8], sought: &[u8]) -> bool
    ensures { result ≡ (before || same sought.now word.now) }
{
    before || sought == word
}

/// Reads these words, and says whether one of them is among what was read.
pub fn said(cursor: &mut Cursor<'_>, words: &[&[u8]], sought: &[u8]) -> bool
    ensures { Says (map (λ w. w.now) words.now) sought.now cursor.old result cursor.new }
{
    let mut is_said = false;
    while let Some(lexeme) = cursor.peek() {
        if !is_one(&lexeme, words) {
            return is_said;
        }
        cursor.skip();
        is_said = is_either(is_said, lexeme.bytes(), sought);
    }
    is_said
}
