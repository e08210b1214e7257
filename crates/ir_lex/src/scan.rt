//! The tokens of a whole text.

ghost use Rattle.std.specs.Prelude.{◌≡◌, ◌<◌, ◌≤◌, ◌+◌, ◌^◌, length, drop, All, IfOk};
ghost use Rattle.std.specs.List.{prefix_len};
ghost use Rattle.ir_lex.specs.Classes.{is_name_byte};
ghost use Rattle.ir_lex.specs.Lexing as spec;

use crate::forms::{from, name_run};
use crate::piece::piece;
use crate::token::{Cause, Form, Lexed, Piece, ReadError, Token};
use pv_base::list::List;
use pv_base::want::Memory;
use std::alloc::Global;

/// The line after a byte.
fn next_line(line: usize, byte: u8) -> usize
    requires { line < 2 ^ 33 }
    ensures { result ≡ spec.line_after line byte }
{
    if byte == b'\n' { line + 1 } else { line }
}

/// Where the bytes end that may stand in a name, from a place on. They are looked through once: `known` is where those
/// that were seen last end.
fn run_end(text: &[u8], at: usize, known: usize) -> usize
    requires at { at ≤ length text.now }
    requires known { at < known → known ≡ at + prefix_len is_name_byte (drop at text.now) }
    ensures { result ≡ at + prefix_len is_name_byte (drop at text.now) }
{
    if at < known {
        known
    } else {
        at + name_run(from(text, at))
    }
}

/// The answer at a fault.
fn stopped(tokens: List<Token>, line: u32, cause: Cause) -> Lexed
    ensures { result ≡ spec.faulty tokens line cause }
{
    Lexed {
        tokens,
        fault: Some(ReadError { line, cause }),
    }
}

/// The tokens before the first lexical fault and that fault, or all tokens.
pub fn tokens(alloc: Global, text: &[u8]) -> Result<Lexed, Memory>
    requires { length text.now < 2 ^ 32 }
    ensures lexed { IfOk result (λ x. x ≡ spec.lexed text.now) }
    ensures within { IfOk result (λ x. All (spec.TokenIn text.now) x.tokens) }
{
    let mut found = List::new(alloc);
    let mut at: usize = 0;
    let mut line: usize = 1;
    let mut known: usize = 0;
    while at < text.len() {
        known = run_end(text, at, known);
        match piece(from(text, at), known - at) {
            Piece::Found(Form::Gap, n) => {
                line = next_line(line, text[at]);
                at += n;
            }
            Piece::Found(Form::Token(kind), n) => {
                found.push(Token {
                    kind,
                    from: at as u32,
                    to: (at + n) as u32,
                    line: line as u32,
                })?;
                at += n;
            }
            Piece::Bad(cause) => return Ok(stopped(found, line as u32, cause)),
        }
    }
    Ok(Lexed {
        tokens: found,
        fault: None,
    })
}
