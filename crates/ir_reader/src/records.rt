//! Lines that are passed over: those that begin with `#dbg_`.

ghost use Rattle.std.specs.Prelude.{◌≡◌, ◌++◌, ◌∷◌, [], All, IfOk, OnOk, take, if◌then◌else◌};
ghost use Rattle.ir_lex.specs.Lexing.{TokenIn};
ghost use Rattle.ir_text.specs.Tokens.{is_mark, token_of};
ghost use Rattle.ir_grammar.specs.Texts as spec;

use ir_lex::spelled::bytes_of;
use ir_lex::token::{Token, TokenKind};
use pv_base::list::List;
use pv_base::want::Memory;
use std::alloc::Global;

/// Whether a token is `#`.
fn is_hash(text: &[u8], token: Token) -> bool
    requires { TokenIn text.now token }
    ensures { result ≡ is_mark 35 (token_of text.now token) }
{
    match token.kind {
        TokenKind::Punct => bytes_of(text, token) == b"#".as_slice(),
        _ => false,
    }
}

/// The first four bytes, or all of fewer.
fn front(word: &[u8]) -> &[u8]
    ensures { result.now ≡ take 4 word.now }
{
    if word.len() < 4 { word } else { &word[..4] }
}

/// Whether a token is a word that begins with `dbg_`.
fn is_record_word(text: &[u8], token: Token) -> bool
    requires { TokenIn text.now token }
    ensures { result ≡ spec.is_record_word (token_of text.now token) }
{
    match token.kind {
        TokenKind::Word => front(bytes_of(text, token)) == b"dbg_".as_slice(),
        _ => false,
    }
}

/// Whether the tokens begin with `#`, and at once such a word.
fn begins_record(text: &[u8], tokens: &[Token]) -> bool
    requires { All (TokenIn text.now) tokens.now }
    ensures { result ≡ spec.begins_record text.now tokens.now }
{
    match tokens {
        [hash, word, ..] => {
            is_hash(text, *hash) && word.from == hash.to && is_record_word(text, *word)
        }
        _ => false,
    }
}

/// Whether the line of the first token is passed over, behind a token of this line, which was or was not.
fn is_over(text: &[u8], line: u32, passed: bool, tokens: &[Token]) -> bool
    requires { All (TokenIn text.now) tokens.now }
    ensures { result ≡ spec.is_over text.now line passed tokens.now }
{
    match tokens {
        [] => passed,
        [token, ..] => {
            if token.line == line {
                passed
            } else {
                begins_record(text, tokens)
            }
        }
    }
}

/// Appends a token, unless its line is passed over.
fn keep(kept: &mut List<Token>, token: Token, passed: bool) -> Result<(), Memory>
    ensures { OnOk result (kept.new ≡ (if passed then kept.old else kept.old ++ token ∷ [])) }
{
    if passed {
        return Ok(());
    }
    kept.push(token)
}

/// The tokens of lines that do not begin with `#dbg_`.
pub fn without_records(alloc: Global, text: &[u8], tokens: &[Token]) -> Result<List<Token>, Memory>
    requires { All (TokenIn text.now) tokens.now }
    ensures kept { IfOk result (λ all. all ≡ spec.without_records text.now tokens.now) }
    ensures tokens { IfOk result (All (TokenIn text.now)) }
{
    let mut kept = List::new(alloc);
    let mut line = 0;
    let mut passed = false;
    let mut rest = tokens;
    while let [token, tail @ ..] = rest {
        passed = is_over(text, line, passed, rest);
        line = token.line;
        keep(&mut kept, *token, passed)?;
        rest = tail;
    }
    Ok(kept)
}
