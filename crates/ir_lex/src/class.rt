//! Classes of bytes.

ghost use Rattle.std.specs.Prelude.{◌≡◌, ◌<◌, ℕ, IsTrue};
ghost use Rattle.ir_lex.specs.Classes as is;

#[tactic(auto, unfolding(crate::specs::Classes::is_blank))]
pub fn blank(b: u8) -> bool
    ensures { result ≡ is.is_blank b }
{
    b == b' ' || b == b'\t' || b == b'\r' || b == b'\n'
}

#[tactic(auto, unfolding(crate::specs::Classes::is_digit))]
pub fn digit(b: u8) -> bool
    ensures { result ≡ is.is_digit b }
{
    b >= b'0' && b <= b'9'
}

#[tactic(auto, unfolding(crate::specs::Classes::is_letter))]
pub fn letter(b: u8) -> bool
    ensures { result ≡ is.is_letter b }
{
    (b >= b'a' && b <= b'z') || (b >= b'A' && b <= b'Z')
}

#[tactic(auto, unfolding(crate::specs::Classes::is_hex, crate::specs::Classes::is_digit))]
pub fn hex(b: u8) -> bool
    ensures value { result ≡ is.is_hex b }
    ensures some { IsTrue result → 0 < b }
{
    digit(b) || (b >= b'a' && b <= b'f') || (b >= b'A' && b <= b'F')
}

/// The value of a hexadecimal digit, in either case.
#[tactic(auto, unfolding(crate::specs::Classes::is_hex, crate::specs::Classes::is_digit, crate::specs::Classes::hex_value))]
pub fn hex_digit(b: u8) -> u8
    requires { IsTrue (is.is_hex b) }
    ensures value { result ≡ is.hex_value b }
    ensures range { result < 16 }
{
    if b <= b'9' {
        b - b'0'
    } else if b >= b'a' {
        b - (b'a' - 10)
    } else {
        b - (b'A' - 10)
    }
}

#[tactic(auto, unfolding(crate::specs::Classes::is_name_start))]
pub fn name_start(b: u8) -> bool
    ensures { result ≡ is.is_name_start b }
{
    letter(b) || b == b'$' || b == b'.' || b == b'_' || b == b'-'
}

#[tactic(auto, unfolding(crate::specs::Classes::is_name_byte))]
pub fn name_byte(b: u8) -> bool
    ensures { result ≡ is.is_name_byte b }
{
    name_start(b) || digit(b)
}

#[tactic(auto, unfolding(crate::specs::Classes::is_word_start))]
pub fn word_start(b: u8) -> bool
    ensures { result ≡ is.is_word_start b }
{
    letter(b) || b == b'_'
}

#[tactic(auto, unfolding(crate::specs::Classes::is_word_byte))]
pub fn word_byte(b: u8) -> bool
    ensures { result ≡ is.is_word_byte b }
{
    word_start(b) || digit(b) || b == b'-' || b == b'.'
}

/// The marks of one byte.
#[tactic(auto, unfolding(crate::specs::Classes::is_mark))]
pub fn mark(b: u8) -> bool
    ensures { result ≡ is.is_mark b }
{
    b == b'='
        || b == b','
        || b == b'('
        || b == b')'
        || b == b'['
        || b == b']'
        || b == b'{'
        || b == b'}'
        || b == b'<'
        || b == b'>'
        || b == b'!'
        || b == b'#'
        || b == b'$'
        || b == b'*'
        || b == b'|'
}

#[tactic(auto, unfolding(crate::specs::Classes::in_line))]
pub fn line_byte(b: u8) -> bool
    ensures { result ≡ is.in_line b }
{
    b != b'\n'
}

#[tactic(auto, unfolding(crate::specs::Classes::in_string))]
pub fn string_byte(b: u8) -> bool
    ensures { result ≡ is.in_string b }
{
    b != b'\n' && b != b'"'
}
