//! The lines of a text.
ghost use Rattle.std.specs.Prelude.{◌≡◌, ◌<◌, ◌∷◌, length};
ghost use Rattle.profile_reader.specs.Texts.{lines_of};

use profile_lines::cut::cut;

/// The first line of a text that is not empty, without its newline, and what stands after it.
pub fn first_line(text: &[u8]) -> (&[u8], &[u8])
    requires { 0 < length text.now }
    ensures lines { lines_of text.now ≡ result.0.now ∷ lines_of result.1.now }
    ensures shorter { length result.1.now < length text.now }
{
    match cut(b'\n', text) {
        Some((line, rest)) => (line, rest),
        None => (text, &text[text.len()..]),
    }
}
