//! Operations on two integers of one width.
ghost use Rattle.std.specs.Prelude.{◌≡◌};
ghost use Rattle.int_num.specs.Operations.{binary};

use crate::arithmetic::{add, mul, sub};
use crate::bits::{and, or_of, xor};
use crate::division::{sdiv, srem, udiv, urem};
use crate::int::Int;
use crate::ops::{BinOp, Flags, Poison};
use crate::shifts::{ashr, lshr, shl};

/// The result, of the same width, or the cause for which there is none.
#[tactic(auto, unfolding(crate::specs::Operations::binary))]
pub fn binary(op: BinOp, flags: Flags, a: Int, b: Int) -> Result<Int, Poison>
    requires { a.width ≡ b.width }
    ensures { result ≡ binary op flags a b }
{
    match op {
        BinOp::Add => add(flags, a, b),
        BinOp::Sub => sub(flags, a, b),
        BinOp::Mul => mul(flags, a, b),
        BinOp::Udiv => udiv(flags, a, b),
        BinOp::Sdiv => sdiv(flags, a, b),
        BinOp::Urem => urem(a, b),
        BinOp::Srem => srem(a, b),
        BinOp::Shl => shl(flags, a, b),
        BinOp::Lshr => lshr(flags, a, b),
        BinOp::Ashr => ashr(flags, a, b),
        BinOp::And => Ok(and(a, b)),
        BinOp::Or => or_of(flags, a, b),
        BinOp::Xor => Ok(xor(a, b)),
    }
}
