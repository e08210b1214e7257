//! An access to private bytes, and its refusal.

use shadow_codes::codes::Code;

/// What a turn does to a byte.
#[derive(Clone, Copy, Debug, PartialEq, Eq)]
pub enum Access {
    Read,
    Write,
}

/// The first byte that an access may not pass: its offset in its object, and its code, which is kept.
#[derive(Clone, Copy, Debug, PartialEq, Eq)]
pub struct BadCode {
    pub offset: u64,
    pub code: Code,
}
