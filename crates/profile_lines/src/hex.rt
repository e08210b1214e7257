//! Bytes in hexadecimal digits.
ghost use Rattle.std.specs.Prelude.{◌≡◌, IfOk, OnOk, option_map, ◌++◌, length};
ghost use Rattle.profile_lines.specs.Numbers.{lower_digit as lower_digit_of, hex_digit as hex_digit_of, byte_of, hex_bytes as hex_bytes_of, value_of};

use crate::profile::ProfileCause;
use pv_base::bytes::Bytes;
use pv_base::want::Memory;
use std::alloc::Global;

/// The value of a lower-case digit.
fn lower_digit(digit: u8) -> Option<u8>
    ensures { result ≡ lower_digit_of digit }
{
    match digit {
        b'0'..=b'9' => Some(digit - b'0'),
        b'a'..=b'f' => Some(digit - b'a' + 10),
        _ => None,
    }
}

/// The value of a digit of either case.
fn hex_digit(digit: u8) -> Option<u8>
    ensures { result ≡ hex_digit_of digit }
{
    match digit {
        b'A'..=b'F' => Some(digit - b'A' + 10),
        _ => lower_digit(digit),
    }
}

/// The byte of two digits of either case.
pub fn hex_byte(high: u8, low: u8) -> Option<u8>
    ensures { result ≡ byte_of (hex_digit_of high) (hex_digit_of low) }
{
    let high = hex_digit(high)?;
    let low = hex_digit(low)?;
    Some(high * 16 + low)
}

/// The byte of two lower-case digits.
fn lower_byte(high: u8, low: u8) -> Option<u8>
    ensures { result ≡ byte_of (lower_digit_of high) (lower_digit_of low) }
{
    let high = lower_digit(high)?;
    let low = lower_digit(low)?;
    Some(high * 16 + low)
}

/// The bytes of pairs of lower-case digits.
fn hex_bytes(alloc: Global, text: &[u8]) -> Result<Option<Bytes>, Memory>
    ensures { IfOk result (λ bytes. bytes ≡ hex_bytes_of text.now) }
{
    let mut bytes = Bytes::new(alloc);
    let mut rest = text;
    while let [high, low, tail @ ..] = rest {
        let Some(byte) = lower_byte(*high, *low) else {
            return Ok(None);
        };
        bytes.push(byte)?;
        rest = tail;
    }
    if rest.is_empty() {
        Ok(Some(bytes))
    } else {
        Ok(None)
    }
}

/// One byte or more, at most 1,024.
pub fn value(alloc: Global, text: &[u8]) -> Result<Result<Bytes, ProfileCause>, Memory>
    ensures { IfOk result (λ bytes. bytes ≡ value_of text.now) }
{
    match hex_bytes(alloc, text)? {
        None => Ok(Err(ProfileCause::Word)),
        Some(bytes) => {
            let length = bytes.len();
            if length == 0 {
                Ok(Err(ProfileCause::Word))
            } else if length <= 1024 {
                Ok(Ok(bytes))
            } else {
                Ok(Err(ProfileCause::Number))
            }
        }
    }
}
