//! Operations that join many integers into one.
ghost use Rattle.std.specs.Prelude.{◌≡◌};
ghost use Rattle.int_num.specs.Integer.{IsWidth};
ghost use Rattle.int_num.specs.Reductions.{identity, reduce};

use crate::bits::{and, or, xor};
use crate::int::Int;
use crate::ops::RedOp;
use crate::sign::{low, ones, signed, top};

/// The integer that changes nothing where it is joined with another.
pub fn identity(op: RedOp, width: u32) -> Int
    requires { IsWidth width }
    ensures { result ≡ identity op width }
{
    match op {
        RedOp::Add | RedOp::Or | RedOp::Xor | RedOp::Umax => Int::new(width, 0),
        RedOp::Mul => Int::new(width, 1),
        RedOp::And | RedOp::Umin => Int::new(width, ones(width)),
        RedOp::Smax => Int::new(width, top(width)),
        RedOp::Smin => Int::new(width, top(width) - 1),
    }
}

/// Two integers of one width joined into one: the operation without flags.
#[tactic(auto, unfolding(crate::specs::Reductions::reduce))]
pub fn reduce(op: RedOp, a: Int, b: Int) -> Int
    requires { a.width ≡ b.width }
    ensures { result ≡ reduce op a b }
{
    match op {
        RedOp::Add => low(a.width(), a.bits().wrapping_add(b.bits())),
        RedOp::Mul => low(a.width(), a.bits().wrapping_mul(b.bits())),
        RedOp::And => and(a, b),
        RedOp::Or => or(a, b),
        RedOp::Xor => xor(a, b),
        RedOp::Smax => if signed(a) < signed(b) { b } else { a },
        RedOp::Smin => if signed(b) < signed(a) { b } else { a },
        RedOp::Umax => if a.bits() < b.bits() { b } else { a },
        RedOp::Umin => if b.bits() < a.bits() { b } else { a },
    }
}
