//! What a module's text is cut into.

use pv_base::bytes::Bytes;
use pv_base::list::List;
use thiserror::Error;

/// The kind of a token. The forms follow the LLVM Language Reference; a number with a point is no token.
#[derive(Clone, Copy, Debug, PartialEq, Eq)]
pub enum TokenKind {
    /// `@` and a name.
    GlobalName,
    /// `%` and a name.
    LocalName,
    /// A name or a decimal number, and `:` at once after it.
    Label,
    /// Decimal digits, with `-` before them or not.
    Integer,
    /// A letter or `_`, and then letters, digits, `-`, `_` and `.`.
    Word,
    /// A quoted string that belongs to no name or label.
    Text,
    /// One of `= , ( ) [ ] { } < > ! # $ * |`, or `...`.
    Punct,
}

/// Why a module's text is refused. The lexical ones are `Token`, `End`, `Number` and `TooLong`.
#[derive(Debug, Drop, Error)]
pub enum Cause {
    #[error("no token can be read here")]
    Token,
    #[error("a name does not stand here as it must")]
    Name,
    #[error("no such type")]
    BadType,
    #[error("an integer's width is not 1 to 64")]
    Width,
    #[error("not what must stand here")]
    Operand,
    #[error("no instruction or item begins here")]
    Instruction,
    #[error("given a second time")]
    Duplicate,
    /// With the word that is not part of the language read here.
    #[error("outside the language that is read")]
    OutOfProfile(Bytes),
    #[error("no layout, or globals above the limit")]
    Layout,
    #[error("the text ends too early")]
    End,
    #[error("a number is outside its range")]
    Number,
    #[error("a name is longer than 4096 bytes")]
    TooLong,
}

/// The cause, and its line, counted from 1.
#[derive(Debug, Drop, Error)]
#[error("line {line}: {cause}")]
pub struct ReadError {
    pub line: u32,
    pub cause: Cause,
}

/// A token, as the bytes of the text from `from` on and before `to`, and its line, counted from 1.
#[derive(Clone, Copy, Debug)]
pub struct Token {
    pub kind: TokenKind,
    pub from: u32,
    pub to: u32,
    pub line: u32,
}

/// The tokens before the first lexical fault and that fault, or all tokens.
#[derive(Drop)]
pub struct Lexed {
    pub tokens: List<Token>,
    pub fault: Option<ReadError>,
}

/// What an integer spells. Zero may have either sign.
#[derive(Clone, Copy, Debug)]
pub struct Integer {
    pub negative: bool,
    pub magnitude: u128,
}

/// What a text is cut into: tokens, and the blanks and comments between them.
#[derive(Clone, Copy)]
pub enum Form {
    Gap,
    Token(TokenKind),
}

/// What stands at the front of a text: a form over so many bytes, or a fault.
#[derive(Drop)]
pub enum Piece {
    Found(Form, usize),
    Bad(Cause),
}
