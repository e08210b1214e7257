//! The tokens that are left, with their texts.

ghost use Rattle.std.specs.Prelude.{◌≡◌, ◌<◌, [], ◌∷◌, drop, length, slice_range, All, MatchOption, IfOk};
ghost use Rattle.ir_lex.specs.Lexing.{TokenIn};
ghost use Rattle.ir_lex.specs.Spelling.{IsNameKind, decoded, unquoted, integer_of};
ghost use Rattle.ir_text.specs.Tokens.{tokens_of};
ghost use Rattle.ir_text.specs.Leaves.{spelled_name};

use ir_lex::spelled::{bytes_of, integer, spelled, string};
use ir_lex::token::{Integer, Token, TokenKind};
use pv_base::bytes::Bytes;
use pv_base::name::Name;
use pv_base::want::Memory;
use std::alloc::Global;
use std::marker::Model;

/// A token of a text.
#[derive(Drop)]
pub struct Lexeme<'a> {
    text: &'a [u8],
    token: Token,
}

impl<'a> Model for Lexeme<'a> {
    ghost use Rattle.ir_lex.specs.Lexing.{TokenIn};
    ghost use Rattle.ir_text.specs.Tokens.{TokenV, token_of};

    ghost Value = { TokenV };

    ghost view = { λ l. token_of l.text.now l.token };

    ghost invariant = { λ l. TokenIn l.text.now l.token };
}

impl<'a> Lexeme<'a> {
    pub fn kind(&self) -> TokenKind
        ensures { result ≡ self.now.kind }
    {
        self.token.kind
    }

    /// The bytes of the text that the token is.
    pub fn bytes(&self) -> &'a [u8]
        ensures { result.now ≡ self.now.text }
    {
        bytes_of(self.text, self.token)
    }

    /// The name that the token of a name or a label spells.
    pub fn name(&self, alloc: Global) -> Result<Name, Memory>
        requires { IsNameKind self.now.kind }
        ensures { IfOk result (λ n. n ≡ spelled_name self.now) }
    {
        spelled(alloc, self.text, self.token)
    }

    /// The bytes that a string stands for.
    pub fn string(&self, alloc: Global) -> Result<Bytes, Memory>
        ensures { IfOk result (λ b. b ≡ decoded (unquoted self.now.text)) }
    {
        string(alloc, self.text, self.token)
    }

    /// The integer that an integer's token spells.
    pub fn integer(&self) -> Integer
        requires { self.now.kind ≡ TokenKind.Integer }
        ensures { result ≡ integer_of self.now.text }
    {
        integer(self.text, self.token)
    }

    /// Its line, counted from 1.
    pub fn line(&self) -> u32
        ensures { result ≡ self.now.line }
    {
        self.token.line
    }
}

/// The tokens of a text from one on, and the allocator for what is read of them.
#[derive(Drop)]
pub struct Cursor<'a> {
    alloc: Global,
    text: &'a [u8],
    tokens: &'a [Token],
}

impl<'a> Model for Cursor<'a> {
    ghost use Rattle.std.specs.Prelude.{List, All};
    ghost use Rattle.ir_lex.specs.Lexing.{TokenIn};
    ghost use Rattle.ir_text.specs.Tokens.{TokenV, tokens_of};

    ghost Value = { List TokenV };

    ghost view = { λ c. tokens_of c.text.now c.tokens.now };

    ghost invariant = { λ c. All (TokenIn c.text.now) c.tokens.now };
}

impl<'a> Cursor<'a> {
    /// The tokens are of that text, as `ir_lex::scan::tokens` answers them.
    pub fn new(alloc: Global, text: &'a [u8], tokens: &'a [Token]) -> Cursor<'a>
        requires { All (TokenIn text.now) tokens.now }
        ensures { result ≡ tokens_of text.now tokens.now }
    {
        Cursor {
            alloc,
            text,
            tokens,
        }
    }

    pub fn alloc(&self) -> Global {
        self.alloc
    }

    /// The same tokens, for a reading apart.
    pub fn copy(&self) -> Cursor<'a>
        ensures { result ≡ self.now }
    {
        Cursor {
            alloc: self.alloc,
            text: self.text,
            tokens: self.tokens,
        }
    }

    /// Takes the next token.
    pub fn next(&mut self) -> Option<Lexeme<'a>>
        ensures { MatchOption result ((self.old ≡ []) × (self.new ≡ [])) (λ l. self.old ≡ l ∷ self.new) }
    {
        match self.tokens {
            [] => None,
            [token, rest @ ..] => {
                self.tokens = rest;
                Some(Lexeme {
                    text: self.text,
                    token: *token,
                })
            }
        }
    }

    /// The next token, which stays.
    pub fn peek(&self) -> Option<Lexeme<'a>>
        ensures { MatchOption result (self.now ≡ []) (λ l. self.now ≡ l ∷ drop 1 self.now) }
    {
        match self.tokens {
            [] => None,
            [token, ..] => Some(Lexeme {
                text: self.text,
                token: *token,
            }),
        }
    }

    /// The token behind the next one, where there are two; both stay.
    pub fn peek_second(&self) -> Option<Lexeme<'a>>
        ensures { MatchOption result (length self.now < 2) (λ l. drop 1 self.now ≡ l ∷ drop 2 self.now) }
    {
        match self.tokens {
            [_, token, ..] => Some(Lexeme {
                text: self.text,
                token: *token,
            }),
            _ => None,
        }
    }

    /// Goes past the next token.
    pub fn skip(&mut self)
        requires { 0 < length self.old }
        ensures { self.new ≡ drop 1 self.old }
    {
        self.tokens = &self.tokens[1..];
    }

    /// How many tokens are left.
    pub fn len(&self) -> usize
        ensures { result ≡ length self.now }
    {
        self.tokens.len()
    }
}
