//! A number as bytes, the least first, and back.
ghost use Rattle.std.specs.Prelude.{◌≡◌, ◌+◌, ◌*◌, ◌<◌, ◌^◌};
ghost use Rattle.int_num.specs.Bytes.{low_bytes};

use crate::int::Int;

/// The eight bytes of the bits, the least first.
pub fn low_bytes(a: Int) -> [u8; 8]
    ensures { result ≡ low_bytes 8 a.bits }
{
    a.bits().to_le_bytes()
}

/// A number with one more byte below it.
pub fn with_low_byte(high: u64, low: u8) -> u64
    requires { high < 2 ^ 56 }
    ensures { result ≡ high * 256 + low }
{
    high * 256 + u64::from(low)
}
