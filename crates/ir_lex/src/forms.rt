//! How far a piece of each form goes at the front of a text.

ghost use Rattle.std.specs.Prelude.{◌≡◌, ◌≤◌, ◌<◌, ◌+◌, ◌-◌, length, take, drop, slice_index, Some, None};
ghost use Rattle.std.specs.List.{prefix_len};
ghost use Rattle.ir_lex.specs.Classes.{is_digit, is_name_byte, is_word_byte, in_line, in_string};
ghost use Rattle.ir_lex.specs.Forms as spec;

use crate::class;
use crate::token::{Form, TokenKind};

/// The byte at a place, 0 past the end.
pub fn byte_at(text: &[u8], at: usize) -> u8
    ensures value { result ≡ slice_index text.now at }
    ensures within { 0 < result → at < length text.now }
{
    match text.get(at) {
        Some(b) => *b,
        None => 0,
    }
}

/// What stands behind the first byte.
pub fn behind(text: &[u8]) -> &[u8]
    ensures value { result.now ≡ drop 1 text.now }
    ensures len { length result.now ≡ length text.now - 1 }
{
    match text {
        [] => text,
        [_, rest @ ..] => rest,
    }
}

/// What stands from a place on.
pub fn from(text: &[u8], at: usize) -> &[u8]
    requires { at ≤ length text.now }
    ensures value { result.now ≡ drop at text.now }
    ensures len { length result.now ≡ length text.now - at }
{
    let (_, rest) = text.split_at(at);
    rest
}

/// What stands before a place.
pub fn front(text: &[u8], at: usize) -> &[u8]
    requires { at ≤ length text.now }
    ensures { result.now ≡ take at text.now }
{
    let (front, _) = text.split_at(at);
    front
}

/// How many bytes at the front may stand in a name.
pub fn name_run(text: &[u8]) -> usize
    ensures value { result ≡ prefix_len is_name_byte text.now }
    ensures bound { result ≤ length text.now }
{
    text.iter().take_while(|b| class::name_byte(**b)).count()
}

pub fn word_run(text: &[u8]) -> usize
    ensures value { result ≡ prefix_len is_word_byte text.now }
    ensures bound { result ≤ length text.now }
{
    text.iter().take_while(|b| class::word_byte(**b)).count()
}

pub fn digit_run(text: &[u8]) -> usize
    ensures value { result ≡ prefix_len is_digit text.now }
    ensures bound { result ≤ length text.now }
{
    text.iter().take_while(|b| class::digit(**b)).count()
}

/// How many bytes at the front stand before the line's end.
pub fn line_run(text: &[u8]) -> usize
    ensures value { result ≡ prefix_len in_line text.now }
    ensures bound { result ≤ length text.now }
{
    text.iter().take_while(|b| class::line_byte(**b)).count()
}

/// How many bytes at the front stand before a quote and the line's end.
pub fn string_run(text: &[u8]) -> usize
    ensures value { result ≡ prefix_len in_string text.now }
    ensures bound { result ≤ length text.now }
{
    text.iter().take_while(|b| class::string_byte(**b)).count()
}

/// A string at the front, with its quotes, or 0.
#[tactic(auto, unfolding(crate::specs::Forms::quoted_len))]
pub fn quoted_len(text: &[u8]) -> usize
    ensures value { result ≡ spec.quoted_len text.now }
    ensures bound { result ≤ length text.now }
{
    if byte_at(text, 0) != b'"' {
        return 0;
    }
    let n = string_run(behind(text));
    if byte_at(text, n + 1) == b'"' {
        n + 2
    } else {
        0
    }
}

/// A name without its sign, where so many bytes at the front may stand in one.
#[tactic(auto, unfolding(crate::specs::Forms::name_len))]
pub fn name_len(text: &[u8], run: usize) -> usize
    requires { run ≡ prefix_len is_name_byte text.now }
    ensures value { result ≡ spec.name_len text.now }
    ensures bound { result ≤ length text.now }
{
    let first = byte_at(text, 0);
    if class::name_start(first) {
        run
    } else if class::digit(first) {
        digit_run(text)
    } else {
        quoted_len(text)
    }
}

/// A name with the colon after it.
#[tactic(auto, unfolding(crate::specs::Forms::label_len))]
pub fn label_len(text: &[u8], run: usize) -> usize
    requires { run ≡ prefix_len is_name_byte text.now }
    ensures value { result ≡ spec.label_len text.now }
    ensures bound { result ≤ length text.now }
{
    let n = name_len(text, run);
    if n == 0 {
        return 0;
    }
    if byte_at(text, n) == b':' { n + 1 } else { 0 }
}

/// A name behind its sign.
#[tactic(auto, unfolding(crate::specs::Forms::signed_len))]
pub fn signed_len(text: &[u8]) -> usize
    requires { 0 < length text.now }
    ensures value { result ≡ spec.signed_len text.now }
    ensures bound { result ≤ length text.now }
{
    let rest = behind(text);
    let n = name_len(rest, name_run(rest));
    if n == 0 { 0 } else { n + 1 }
}

/// Digits, or digits behind a minus.
#[tactic(auto, unfolding(crate::specs::Forms::integer_len))]
pub fn integer_len(text: &[u8]) -> usize
    requires { 0 < length text.now }
    ensures value { result ≡ spec.integer_len text.now }
    ensures bound { result ≤ length text.now }
{
    if byte_at(text, 0) != b'-' {
        return digit_run(text);
    }
    let n = digit_run(behind(text));
    if n == 0 { 0 } else { n + 1 }
}

/// A mark, or three points.
#[tactic(auto, unfolding(crate::specs::Forms::punct_len))]
pub fn punct_len(text: &[u8]) -> usize
    requires { 0 < length text.now }
    ensures value { result ≡ spec.punct_len text.now }
    ensures bound { result ≤ length text.now }
{
    if class::mark(byte_at(text, 0)) {
        1
    } else if byte_at(text, 1) == b'.' && byte_at(text, 2) == b'.' {
        3
    } else {
        0
    }
}

/// A blank, or a comment up to the line's end.
#[tactic(auto, unfolding(crate::specs::Forms::gap_len))]
pub fn gap_len(text: &[u8]) -> usize
    requires { 0 < length text.now }
    ensures value { result ≡ spec.gap_len text.now }
    ensures bound { result ≤ length text.now }
{
    if byte_at(text, 0) == b';' {
        1 + line_run(behind(text))
    } else {
        1
    }
}

/// The only form but a label that may begin with this byte.
#[tactic(auto, unfolding(crate::specs::Forms::form_of))]
pub fn form_of(b: u8) -> Option<Form>
    ensures { result ≡ spec.form_of b }
{
    if class::blank(b) || b == b';' {
        Some(Form::Gap)
    } else if b == b'@' {
        Some(Form::Token(TokenKind::GlobalName))
    } else if b == b'%' {
        Some(Form::Token(TokenKind::LocalName))
    } else if class::digit(b) || b == b'-' {
        Some(Form::Token(TokenKind::Integer))
    } else if class::word_start(b) {
        Some(Form::Token(TokenKind::Word))
    } else if b == b'"' {
        Some(Form::Token(TokenKind::Text))
    } else if class::mark(b) || b == b'.' {
        Some(Form::Token(TokenKind::Punct))
    } else {
        None
    }
}

/// The longest piece of a form, where so many bytes at the front may stand in a name.
#[tactic(auto, unfolding(crate::specs::Forms::form_len))]
pub fn form_len(form: Form, text: &[u8], run: usize) -> usize
    requires some { 0 < length text.now }
    requires run { run ≡ prefix_len is_name_byte text.now }
    ensures value { result ≡ spec.form_len form text.now }
    ensures bound { result ≤ length text.now }
{
    match form {
        Form::Gap => gap_len(text),
        Form::Token(TokenKind::GlobalName) => signed_len(text),
        Form::Token(TokenKind::LocalName) => signed_len(text),
        Form::Token(TokenKind::Label) => label_len(text, run),
        Form::Token(TokenKind::Integer) => integer_len(text),
        Form::Token(TokenKind::Word) => word_run(text),
        Form::Token(TokenKind::Text) => quoted_len(text),
        Form::Token(TokenKind::Punct) => punct_len(text),
    }
}
