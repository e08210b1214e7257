//! Shifts to the left and to the right, by less than the width.
ghost use Rattle.std.specs.Prelude.{◌≡◌, ◌<◌, ◌%◌, ◌^◌};
ghost use Rattle.int_num.specs.Operations.{shl, lshr, ashr};

use crate::int::Int;
use crate::ops::{Flags, Poison};
use crate::promise::{keeps, without_rest};
use crate::sign::{fits_signed, fits_unsigned, low, modulo, signed};

pub(crate) fn shl(flags: Flags, a: Int, b: Int) -> Result<Int, Poison>
    requires { a.width ≡ b.width }
    ensures { result ≡ shl flags a b }
{
    let width = a.width();
    if width as u64 <= b.bits() {
        return Err(Poison::Shift);
    }
    let count = b.bits() as u32;
    let unsigned = fits_unsigned(width - count, a.bits() as u128);
    let signed = fits_signed(width - count, signed(a) as i128);
    keeps(
        Poison::Overflow,
        flags,
        unsigned,
        signed,
        low(width, a.bits() << count),
    )
}

pub(crate) fn lshr(flags: Flags, a: Int, b: Int) -> Result<Int, Poison>
    requires { a.width ≡ b.width }
    ensures { result ≡ lshr flags a b }
{
    if a.width() as u64 <= b.bits() {
        return Err(Poison::Shift);
    }
    let count = b.bits() as u32;
    let value = Int::new(a.width(), a.bits() >> count);
    without_rest(flags, lost(a, count), value)
}

pub(crate) fn ashr(flags: Flags, a: Int, b: Int) -> Result<Int, Poison>
    requires { a.width ≡ b.width }
    ensures { result ≡ ashr flags a b }
{
    if a.width() as u64 <= b.bits() {
        return Err(Poison::Shift);
    }
    let count = b.bits() as u32;
    let value = modulo(a.width(), signed(a) >> count);
    without_rest(flags, lost(a, count), value)
}

/// The low bits that a shift to the right loses.
fn lost(a: Int, count: u32) -> u64
    requires { count < a.width }
    ensures { result ≡ a.bits % 2 ^ count }
{
    a.bits() & ((1 << count) - 1)
}
