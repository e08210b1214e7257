//! The longest piece at the front of a text.

ghost use Rattle.std.specs.Prelude.{◌≡◌, ◌≤◌, ◌<◌, length, drop};
ghost use Rattle.std.specs.List.{prefix_len};
ghost use Rattle.ir_lex.specs.Classes.{is_name_byte, in_string};
ghost use Rattle.ir_lex.specs.Lexing as spec;

use crate::forms::{behind, byte_at, form_len, form_of, front, label_len, name_run, string_run};
use crate::spelled::limit_of;
use crate::token::{Cause, Form, Piece, TokenKind};

/// No quote and no line's end stands in it.
fn all_string(text: &[u8]) -> bool
    ensures { result ≡ spec.all_pass in_string text.now }
{
    string_run(text) == text.len()
}

/// A token begins at the front, and the text ends before the token does.
#[tactic(auto, unfolding(crate::specs::Lexing::ends_inside))]
fn ends_inside(text: &[u8]) -> bool
    ensures { result ≡ spec.ends_inside text.now }
{
    let first = byte_at(text, 0);
    if first == b'"' {
        return all_string(behind(text));
    }
    if first == b'@' || first == b'%' {
        return text.len() == 1 || (byte_at(text, 1) == b'"' && all_string(behind(behind(text))));
    }
    (first == b'-' || first == b'.') && name_run(text) == text.len()
}

/// Why no token can be read at the front.
#[tactic(auto, unfolding(crate::specs::Lexing::fault_of))]
fn fault_of(text: &[u8]) -> Cause
    ensures { result ≡ spec.fault_of text.now }
{
    if ends_inside(text) {
        Cause::End
    } else {
        Cause::Token
    }
}

/// The piece of this form.
fn piece_as(form: Option<Form>, text: &[u8], run: usize) -> Piece
    requires some { 0 < length text.now }
    requires run { run ≡ prefix_len is_name_byte text.now }
    ensures value { result ≡ spec.piece_as form text.now }
    ensures fits { spec.Fits result (length text.now) }
{
    match form {
        None => Piece::Bad(fault_of(text)),
        Some(form) => {
            let n = form_len(form, text, run);
            if n == 0 {
                return Piece::Bad(fault_of(text));
            }
            match limit_of(form, front(text, n)) {
                None => Piece::Found(form, n),
                Some(cause) => Piece::Bad(cause),
            }
        }
    }
}

/// The longest piece at the front, where so many bytes there may stand in a name.
#[tactic(auto, unfolding(crate::specs::Lexing::piece_of))]
pub fn piece(text: &[u8], run: usize) -> Piece
    requires some { 0 < length text.now }
    requires run { run ≡ prefix_len is_name_byte text.now }
    ensures value { result ≡ spec.piece_of text.now }
    ensures fits { spec.Fits result (length text.now) }
{
    if label_len(text, run) == 0 {
        piece_as(form_of(byte_at(text, 0)), text, run)
    } else {
        piece_as(Some(Form::Token(TokenKind::Label)), text, run)
    }
}
