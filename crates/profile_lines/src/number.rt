//! Numbers in decimal digits.
ghost use Rattle.std.specs.Prelude.{◌≡◌, ◌-◌, ◌^◌, min};
ghost use Rattle.profile_lines.specs.Numbers.{is_digits as is_digits_of, decimal, number_of, period_of, negative_of, signed_of};

use crate::profile::ProfileCause;

/// One decimal digit or more.
pub fn is_digits(text: &[u8]) -> bool
    ensures { result ≡ is_digits_of text.now }
{
    for byte in text {
        if !byte.is_ascii_digit() {
            return false;
        }
    }
    !text.is_empty()
}

/// The number that the digits write, or 2^64-1 where it is greater.
fn magnitude(digits: &[u8]) -> u64
    ensures { result ≡ min (decimal digits.now) (2 ^ 64 - 1) }
{
    let mut value = 0u64;
    for digit in digits {
        value = value
            .saturating_mul(10)
            .saturating_add(u64::from(digit.saturating_sub(b'0')));
    }
    value
}

/// A number of at most 2^63-1.
pub fn number(text: &[u8]) -> Result<u64, ProfileCause>
    ensures { result ≡ number_of text.now }
{
    if !is_digits(text) {
        return Err(ProfileCause::Word);
    }
    let value = magnitude(text);
    if value < 1 << 63 {
        Ok(value)
    } else {
        Err(ProfileCause::Number)
    }
}

/// A number from 1 to 65,533.
pub fn period(text: &[u8]) -> Result<u32, ProfileCause>
    ensures { result ≡ period_of text.now }
{
    match number(text) {
        Ok(value) if (1..=65_533).contains(&value) => Ok(value as u32),
        Ok(_) => Err(ProfileCause::Number),
        Err(cause) => Err(cause),
    }
}

/// The negative of a number of at most 2^63.
fn negative(text: &[u8]) -> Result<i64, ProfileCause>
    ensures { result ≡ negative_of text.now }
{
    if !is_digits(text) {
        return Err(ProfileCause::Word);
    }
    let value = magnitude(text);
    if value == 0 {
        return Ok(0);
    }
    if value > 1 << 63 {
        return Err(ProfileCause::Number);
    }
    Ok(-((value - 1) as i64) - 1)
}

/// A number from -2^63 to 2^63-1, with a minus where it is negative.
pub fn signed(text: &[u8]) -> Result<i64, ProfileCause>
    ensures { result ≡ signed_of text.now }
{
    match text {
        [] => Err(ProfileCause::Word),
        [b'-', digits @ ..] => negative(digits),
        _ => match number(text) {
            Ok(value) => Ok(value as i64),
            Err(cause) => Err(cause),
        },
    }
}
