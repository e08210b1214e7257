//! Parts of a text.
ghost use Rattle.std.specs.Prelude.{◌≡◌, option_map};
ghost use Rattle.pv_base.specs.Outside.{Text};
ghost use Rattle.profile_lines.specs.Cuts.{both as both_of, cut as cut_of};

use crate::profile::ProfileCause;
use memchr::memchr;

/// What stands before the first such byte, and what stands after it.
pub fn cut(byte: u8, text: &[u8]) -> Option<(&[u8], &[u8])>
    ensures { option_map (λ p. (p.0.now, p.1.now)) result ≡ cut_of byte text.now }
{
    match memchr(byte, text) {
        Some(at) => Some((&text[..at], &text[at + 1..])),
        None => None,
    }
}

/// Two parts of one line: a fault of shape in either goes before a number out of range in the other.
pub fn both<A: Drop, B: Drop>(
    first: Result<A, ProfileCause>,
    second: Result<B, ProfileCause>,
) -> Result<(A, B), ProfileCause>
    ensures { result ≡ both_of first second }
{
    match first {
        Ok(a) => match second {
            Ok(b) => Ok((a, b)),
            Err(cause) => Err(cause),
        },
        Err(ProfileCause::Number) => match second {
            Ok(_) => Err(ProfileCause::Number),
            Err(cause) => Err(cause),
        },
        Err(cause) => Err(cause),
    }
}
