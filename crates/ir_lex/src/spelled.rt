//! What tokens spell.

ghost use Rattle.std.specs.Prelude.{◌≡◌, ◌≤◌, ◌<◌, ◌+◌, ◌-◌, ◌*◌, ◌^◌, length, IfOk, MatchOption, None};
ghost use Rattle.std.specs.Prelude.{slice_range};
ghost use Rattle.std.specs.Option.{SomeIff};
ghost use Rattle.ir_lex.specs.Spelling as spec;
ghost use Rattle.ir_lex.specs.Lexing.{TokenIn};

use crate::class;
use crate::forms::{behind, byte_at, from, front};
use crate::token::{Cause, Form, Integer, Token, TokenKind};
use pv_base::bytes::Bytes;
use pv_base::name::Name;
use pv_base::want::Memory;
use std::alloc::Global;

/// A name has at most so many bytes.
pub const NAME_LIMIT: usize = 4096;

/// The number with one more digit, if it is below 2^128.
fn with_digit(n: u128, digit: u8) -> Option<u128>
    ensures { SomeIff result (n * 10 + (digit - 48) < 2 ^ 128) (n * 10 + (digit - 48)) }
{
    match n.checked_mul(10) {
        Some(tens) => tens.checked_add(u128::from(digit.saturating_sub(b'0'))),
        None => None,
    }
}

/// The number that decimal digits spell, if it is below 2^128.
pub fn magnitude(digits: &[u8]) -> Option<u128>
    ensures { MatchOption result (2 ^ 128 ≤ spec.number digits.now) (λ n. n ≡ spec.number digits.now) }
{
    let mut n: u128 = 0;
    for b in digits {
        match with_digit(n, *b) {
            Some(next) => n = next,
            None => return None,
        }
    }
    Some(n)
}

/// The number that decimal digits spell, if it is below 2^63.
pub fn small(digits: &[u8]) -> Option<u64>
    ensures { SomeIff result (spec.number digits.now < 2 ^ 63) (spec.number digits.now) }
{
    match magnitude(digits) {
        Some(n) => {
            if n < 0x8000_0000_0000_0000 {
                Some(n as u64)
            } else {
                None
            }
        }
        None => None,
    }
}

/// How many bytes of a string are written for its first byte.
#[tactic(auto, unfolding(crate::specs::Spelling::written))]
fn written(text: &[u8]) -> usize
    requires { 0 < length text.now }
    ensures value { result ≡ spec.written text.now }
    ensures some { 0 < result }
    ensures bound { result ≤ length text.now }
{
    if byte_at(text, 0) != b'\\' {
        return 1;
    }
    if byte_at(text, 1) == b'\\' {
        return 2;
    }
    if class::hex(byte_at(text, 1)) && class::hex(byte_at(text, 2)) {
        3
    } else {
        1
    }
}

/// The byte that they stand for.
#[tactic(auto, unfolding(crate::specs::Spelling::written, crate::specs::Spelling::meant))]
fn meant(text: &[u8]) -> u8
    requires { 0 < length text.now }
    ensures { result ≡ spec.meant text.now }
{
    if written(text) == 3 {
        16 * class::hex_digit(byte_at(text, 1)) + class::hex_digit(byte_at(text, 2))
    } else {
        byte_at(text, 0)
    }
}

/// How many bytes a string stands for.
pub fn decoded_len(text: &[u8]) -> usize
    ensures { result ≡ length (spec.decoded text.now) }
{
    let mut at = 0;
    let mut count = 0;
    while at < text.len() {
        at += written(from(text, at));
        count += 1;
    }
    count
}

/// The bytes that a string stands for.
pub fn decode(alloc: Global, text: &[u8]) -> Result<Bytes, Memory>
    ensures { IfOk result (λ b. b ≡ spec.decoded text.now) }
{
    let mut bytes = Bytes::new(alloc);
    let mut at = 0;
    while at < text.len() {
        let rest = from(text, at);
        bytes.push(meant(rest))?;
        at += written(rest);
    }
    Ok(bytes)
}

/// What stands between the quotes.
fn unquoted(text: &[u8]) -> &[u8]
    ensures { result.now ≡ spec.unquoted text.now }
{
    front(behind(text), text.len().saturating_sub(2))
}

/// The bytes of a name's token without its sign or its colon.
fn name_part(kind: TokenKind, text: &[u8]) -> &[u8]
    ensures { result.now ≡ spec.name_part kind text.now }
{
    match kind {
        TokenKind::Label => front(text, text.len().saturating_sub(1)),
        _ => behind(text),
    }
}

/// The digits of an integer.
fn digits_of(text: &[u8]) -> &[u8]
    ensures { result.now ≡ spec.digits_of text.now }
{
    if byte_at(text, 0) == b'-' {
        behind(text)
    } else {
        text
    }
}

fn longer(n: usize) -> Option<Cause>
    ensures { result ≡ spec.longer n }
{
    if n > NAME_LIMIT {
        Some(Cause::TooLong)
    } else {
        None
    }
}

/// The limit that a name passes.
#[tactic(auto, unfolding(crate::specs::Spelling::name_limit))]
fn name_limit(text: &[u8]) -> Option<Cause>
    ensures { result ≡ spec.name_limit text.now }
{
    let first = byte_at(text, 0);
    if class::digit(first) {
        match small(text) {
            Some(_) => longer(text.len()),
            None => Some(Cause::Number),
        }
    } else if first == b'"' {
        longer(decoded_len(unquoted(text)))
    } else {
        longer(text.len())
    }
}

/// The limit that an integer passes.
fn integer_limit(text: &[u8]) -> Option<Cause>
    ensures { result ≡ spec.integer_limit text.now }
{
    match magnitude(digits_of(text)) {
        Some(_) => None,
        None => Some(Cause::Number),
    }
}

/// The limit that a piece passes.
#[tactic(auto, unfolding(crate::specs::Spelling::limit_of))]
pub fn limit_of(form: Form, text: &[u8]) -> Option<Cause>
    ensures { result ≡ spec.limit_of form text.now }
{
    match form {
        Form::Token(TokenKind::GlobalName) => name_limit(name_part(TokenKind::GlobalName, text)),
        Form::Token(TokenKind::LocalName) => name_limit(name_part(TokenKind::LocalName, text)),
        Form::Token(TokenKind::Label) => name_limit(name_part(TokenKind::Label, text)),
        Form::Token(TokenKind::Integer) => integer_limit(text),
        _ => None,
    }
}

/// The name that these bytes spell.
#[tactic(auto, unfolding(crate::specs::Spelling::name_limit, crate::specs::Spelling::name_of))]
fn name(alloc: Global, text: &[u8]) -> Result<Name, Memory>
    requires { spec.name_limit text.now ≡ None }
    ensures { IfOk result (λ n. n ≡ spec.name_of text.now) }
{
    let first = byte_at(text, 0);
    if class::digit(first) {
        return Ok(Name::Numbered(small(text).unwrap()));
    }
    if first == b'"' {
        return Ok(Name::Named(decode(alloc, unquoted(text))?));
    }
    Ok(Name::Named(Bytes::from_slice(alloc, text)?))
}

/// The bytes of a token.
pub fn bytes_of(text: &[u8], token: Token) -> &[u8]
    requires { TokenIn text.now token }
    ensures { result.now ≡ slice_range text.now token.from token.to }
{
    &text[token.from as usize..token.to as usize]
}

/// The name that a token spells. Digits are the number of a value without a name, so `%7` is another name than `%"7"`.
#[tactic(auto, unfolding(crate::specs::Spelling::limit_of))]
pub fn spelled(alloc: Global, text: &[u8], token: Token) -> Result<Name, Memory>
    requires token { TokenIn text.now token }
    requires name { spec.IsNameKind token.kind }
    ensures { IfOk result (λ n. n ≡ spec.name_of (spec.name_part token.kind (slice_range text.now token.from token.to))) }
{
    name(alloc, name_part(token.kind, bytes_of(text, token)))
}

/// The integer that a token spells.
#[tactic(auto, unfolding(crate::specs::Spelling::limit_of))]
pub fn integer(text: &[u8], token: Token) -> Integer
    requires token { TokenIn text.now token }
    requires integer { token.kind ≡ TokenKind.Integer }
    ensures { result ≡ spec.integer_of (slice_range text.now token.from token.to) }
{
    let bytes = bytes_of(text, token);
    Integer {
        negative: byte_at(bytes, 0) == b'-',
        magnitude: magnitude(digits_of(bytes)).unwrap(),
    }
}

/// The bytes that a string's token stands for.
pub fn string(alloc: Global, text: &[u8], token: Token) -> Result<Bytes, Memory>
    requires { TokenIn text.now token }
    ensures { IfOk result (λ b. b ≡ spec.decoded (spec.unquoted (slice_range text.now token.from token.to))) }
{
    decode(alloc, unquoted(bytes_of(text, token)))
}
