//! Quotients and rests, unsigned and signed.
ghost use Rattle.std.specs.Prelude.{◌≡◌, IsTrue};
ghost use Rattle.std.specs.Int.{w64, CanDivide};
ghost use Rattle.int_num.specs.Integer.{signed};
ghost use Rattle.int_num.specs.Operations.{udiv, urem, sdiv, srem, divides};

use crate::int::Int;
use crate::ops::{Flags, Poison};
use crate::promise::without_rest;
use crate::sign::{modulo, ones, signed, top};

pub(crate) fn udiv(flags: Flags, a: Int, b: Int) -> Result<Int, Poison>
    requires { a.width ≡ b.width }
    ensures { result ≡ udiv flags a b }
{
    if b.bits() == 0 {
        return Err(Poison::Divide);
    }
    let quotient = Int::new(a.width(), a.bits() / b.bits());
    without_rest(flags, a.bits() % b.bits(), quotient)
}

pub(crate) fn urem(a: Int, b: Int) -> Result<Int, Poison>
    requires { a.width ≡ b.width }
    ensures { result ≡ urem a b }
{
    if b.bits() == 0 {
        return Err(Poison::Divide);
    }
    Ok(Int::new(a.width(), a.bits() % b.bits()))
}

/// Whether there is a signed quotient: not by 0, and not of the least number by -1.
fn divides(a: Int, b: Int) -> bool
    requires { a.width ≡ b.width }
    ensures value { result ≡ divides a b }
    ensures fits { IsTrue result → CanDivide w64 (signed a) (signed b) }
{
    b.bits() != 0 && !(a.bits() == top(a.width()) && b.bits() == ones(a.width()))
}

pub(crate) fn sdiv(flags: Flags, a: Int, b: Int) -> Result<Int, Poison>
    requires { a.width ≡ b.width }
    ensures { result ≡ sdiv flags a b }
{
    if !divides(a, b) {
        return Err(Poison::Divide);
    }
    let dividend = signed(a);
    let divisor = signed(b);
    let quotient = modulo(a.width(), dividend / divisor);
    without_rest(flags, (dividend % divisor).unsigned_abs(), quotient)
}

pub(crate) fn srem(a: Int, b: Int) -> Result<Int, Poison>
    requires { a.width ≡ b.width }
    ensures { result ≡ srem a b }
{
    if !divides(a, b) {
        return Err(Poison::Divide);
    }
    Ok(modulo(a.width(), signed(a) % signed(b)))
}
