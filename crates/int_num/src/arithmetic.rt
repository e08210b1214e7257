//! The sum, the difference and the product, modulo 2^width.
ghost use Rattle.std.specs.Prelude.{◌≡◌, pos, ◌-ℤ◌};
ghost use Rattle.int_num.specs.Operations.{add, sub, mul, modulo};

use crate::int::Int;
use crate::ops::{Flags, Poison};
use crate::promise::keeps;
use crate::sign::{fits_signed, fits_unsigned, low, ones, signed};

pub(crate) fn add(flags: Flags, a: Int, b: Int) -> Result<Int, Poison>
    requires { a.width ≡ b.width }
    ensures { result ≡ add flags a b }
{
    let width = a.width();
    let unsigned = fits_unsigned(width, a.bits() as u128 + b.bits() as u128);
    let signed = fits_signed(width, signed(a) as i128 + signed(b) as i128);
    keeps(
        Poison::Overflow,
        flags,
        unsigned,
        signed,
        low(width, a.bits().wrapping_add(b.bits())),
    )
}

/// The difference of the bits, modulo 2^width.
fn difference(a: Int, b: Int) -> Int
    requires { a.width ≡ b.width }
    ensures { result ≡ modulo a.width (pos a.bits -ℤ pos b.bits) }
{
    if b.bits() <= a.bits() {
        Int::new(a.width(), a.bits() - b.bits())
    } else {
        Int::new(a.width(), ones(a.width()) - (b.bits() - a.bits() - 1))
    }
}

pub(crate) fn sub(flags: Flags, a: Int, b: Int) -> Result<Int, Poison>
    requires { a.width ≡ b.width }
    ensures { result ≡ sub flags a b }
{
    let width = a.width();
    let unsigned = b.bits() <= a.bits();
    let signed = fits_signed(width, signed(a) as i128 - signed(b) as i128);
    keeps(Poison::Overflow, flags, unsigned, signed, difference(a, b))
}

pub(crate) fn mul(flags: Flags, a: Int, b: Int) -> Result<Int, Poison>
    requires { a.width ≡ b.width }
    ensures { result ≡ mul flags a b }
{
    let width = a.width();
    let unsigned = fits_unsigned(width, a.bits() as u128 * b.bits() as u128);
    let signed = fits_signed(width, signed(a) as i128 * signed(b) as i128);
    keeps(
        Poison::Overflow,
        flags,
        unsigned,
        signed,
        low(width, a.bits().wrapping_mul(b.bits())),
    )
}
