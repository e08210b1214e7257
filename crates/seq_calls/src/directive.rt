//! The pieces of a format of `printf`.
ghost use Rattle.std.specs.Prelude.{◌≡◌, ◌≤◌, ◌<◌, ◌+◌, length};
ghost use Rattle.seq_calls.specs.Format.{letter, long_letter, longest_letter, spanning, longest_of, long_of, directive_of, front_of};

/// What a directive prints of the argument that it takes, with the argument's number of bits.
#[derive(Clone, Copy, Debug, PartialEq, Eq)]
pub enum Directive {
    /// `%d` and `%i`, `%ld`, `%lld`: the signed number, in decimal digits.
    Signed(u32),
    /// `%u`, `%lu`, `%llu`: the unsigned number, in decimal digits.
    Unsigned(u32),
    /// `%x`, `%lx`: the unsigned number, in hexadecimal digits of lower case.
    Hexadecimal(u32),
    /// `%c`: the low byte of 32 bits.
    Character,
    /// `%s`: the text that a pointer points to.
    Text,
}

/// A piece of a format.
#[derive(Clone, Copy, Debug, PartialEq, Eq)]
pub enum Piece {
    /// A byte that is printed as it is, and `%` for `%%`.
    Byte(u8),
    Directive(Directive),
    /// A `%` that begins no directive.
    Wrong,
}

/// A piece, and how many bytes of the format it takes.
#[derive(Clone, Copy, Debug, PartialEq, Eq)]
pub struct Front {
    pub piece: Piece,
    pub length: usize,
}

fn letter(byte: u8) -> Option<Piece>
    ensures { result ≡ letter byte }
{
    match byte {
        b'd' | b'i' => Some(Piece::Directive(Directive::Signed(32))),
        b'u' => Some(Piece::Directive(Directive::Unsigned(32))),
        b'x' => Some(Piece::Directive(Directive::Hexadecimal(32))),
        b'c' => Some(Piece::Directive(Directive::Character)),
        b's' => Some(Piece::Directive(Directive::Text)),
        b'%' => Some(Piece::Byte(b'%')),
        _ => None,
    }
}

fn long_letter(byte: u8) -> Option<Piece>
    ensures { result ≡ long_letter byte }
{
    match byte {
        b'd' => Some(Piece::Directive(Directive::Signed(64))),
        b'u' => Some(Piece::Directive(Directive::Unsigned(64))),
        b'x' => Some(Piece::Directive(Directive::Hexadecimal(64))),
        _ => None,
    }
}

fn longest_letter(byte: u8) -> Option<Piece>
    ensures { result ≡ longest_letter byte }
{
    match byte {
        b'd' => Some(Piece::Directive(Directive::Signed(64))),
        b'u' => Some(Piece::Directive(Directive::Unsigned(64))),
        _ => None,
    }
}

/// The piece, if there is one, and else a wrong `%`.
fn spanning(length: usize, piece: Option<Piece>) -> Front
    requires { 1 ≤ length }
    ensures value { result ≡ spanning length piece }
    ensures least { 1 ≤ result.length }
    ensures most { result.length ≤ length }
{
    match piece {
        Some(piece) => Front { piece, length },
        None => Front {
            piece: Piece::Wrong,
            length: 1,
        },
    }
}

/// The directive whose `%ll` stands before this.
fn behind_longest(text: &[u8]) -> Front
    ensures value { result ≡ longest_of text.now }
    ensures least { 1 ≤ result.length }
    ensures most { result.length ≤ length text.now + 3 }
{
    match text {
        [] => spanning(1, None),
        [byte, ..] => spanning(4, longest_letter(*byte)),
    }
}

/// The directive whose `%l` stands before this.
fn behind_long(text: &[u8]) -> Front
    ensures value { result ≡ long_of text.now }
    ensures least { 1 ≤ result.length }
    ensures most { result.length ≤ length text.now + 2 }
{
    match text {
        [] => spanning(1, None),
        [b'l', rest @ ..] => behind_longest(rest),
        [byte, ..] => spanning(3, long_letter(*byte)),
    }
}

/// The directive whose `%` stands before this.
#[tactic(auto, unfolding(crate::specs::Format::directive_of))]
fn behind_percent(text: &[u8]) -> Front
    ensures value { result ≡ directive_of text.now }
    ensures least { 1 ≤ result.length }
    ensures most { result.length ≤ length text.now + 1 }
{
    match text {
        [] => spanning(1, None),
        [b'l', rest @ ..] => behind_long(rest),
        [byte, ..] => spanning(2, letter(*byte)),
    }
}

/// The first piece.
#[tactic(auto, unfolding(crate::specs::Format::front_of))]
pub(crate) fn first_piece(text: &[u8]) -> Front
    requires { 0 < length text.now }
    ensures value { result ≡ front_of text.now }
    ensures least { 1 ≤ result.length }
    ensures most { result.length ≤ length text.now }
{
    match text {
        [] => spanning(1, None),
        [b'%', rest @ ..] => behind_percent(rest),
        [byte, ..] => spanning(1, Some(Piece::Byte(*byte))),
    }
}
