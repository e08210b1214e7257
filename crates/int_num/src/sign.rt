//! The signed number of an integer, the numbers at a width's bounds, and what is left of a number at a width.
ghost use Rattle.std.specs.Prelude.{◌≡◌, ◌-◌, ◌%◌, ◌^◌, pos};
ghost use Rattle.int_num.specs.Integer.{IsWidth, signed, low_byte};
ghost use Rattle.int_num.specs.Operations.{of_bits, modulo, fits_unsigned, fits_signed};

use crate::int::Int;

/// All ones: 2^width - 1.
pub(crate) fn ones(width: u32) -> u64
    requires { IsWidth width }
    ensures { result ≡ 2 ^ width - 1 }
{
    u64::MAX >> (64 - width)
}

/// The sign bit alone: 2^(width - 1).
pub(crate) fn top(width: u32) -> u64
    requires { IsWidth width }
    ensures { result ≡ 2 ^ (width - 1) }
{
    1 << (width - 1)
}

/// The number that the bits stand for in two's complement.
pub fn signed(a: Int) -> i64
    ensures { result ≡ signed a }
{
    if a.bits() < top(a.width()) {
        a.bits() as i64
    } else {
        -1 - (ones(a.width()) - a.bits()) as i64
    }
}

/// The low eight bits.
pub fn low_byte(a: Int) -> u8
    ensures value { result ≡ low_byte a }
    ensures whole { a.width ≡ 8 → result ≡ a.bits }
{
    (a.bits() % 256) as u8
}

/// The low bits.
pub(crate) fn low(width: u32, bits: u64) -> Int
    requires { IsWidth width }
    ensures { result ≡ of_bits width (bits % 2 ^ width) }
{
    Int::new(width, bits & ones(width))
}

/// A signed number modulo 2^width.
pub(crate) fn modulo(width: u32, number: i64) -> Int
    requires { IsWidth width }
    ensures { result ≡ modulo width number }
{
    low(width, number.cast_unsigned())
}

/// Whether an unsigned number fits the width.
pub(crate) fn fits_unsigned(width: u32, number: u128) -> bool
    requires { IsWidth width }
    ensures { result ≡ fits_unsigned width (pos number) }
{
    number <= ones(width) as u128
}

/// Whether a signed number fits the width.
pub(crate) fn fits_signed(width: u32, number: i128) -> bool
    requires { IsWidth width }
    ensures { result ≡ fits_signed width number }
{
    let half = top(width) as i128;
    -half <= number && number < half
}
