//! Operations bit by bit.
ghost use Rattle.std.specs.Prelude.{◌≡◌};
ghost use Rattle.int_num.specs.Operations.{conjunction, disjunction, difference, or_of};

use crate::int::Int;
use crate::ops::{Flags, Poison};

pub(crate) fn and(a: Int, b: Int) -> Int
    requires { a.width ≡ b.width }
    ensures { result ≡ conjunction a b }
{
    Int::new(a.width(), a.bits() & b.bits())
}

pub(crate) fn or(a: Int, b: Int) -> Int
    requires { a.width ≡ b.width }
    ensures { result ≡ disjunction a b }
{
    Int::new(a.width(), a.bits() | b.bits())
}

pub(crate) fn xor(a: Int, b: Int) -> Int
    requires { a.width ≡ b.width }
    ensures { result ≡ difference a b }
{
    Int::new(a.width(), a.bits() ^ b.bits())
}

pub(crate) fn or_of(flags: Flags, a: Int, b: Int) -> Result<Int, Poison>
    requires { a.width ≡ b.width }
    ensures { result ≡ or_of flags a b }
{
    if flags.disjoint && a.bits() & b.bits() != 0 {
        return Err(Poison::Flag);
    }
    Ok(or(a, b))
}
