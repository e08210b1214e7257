//! The values that a predicate holds of, as one stretch of the circle of all values of a width: after the greatest comes 0.
ghost use Rattle.std.specs.Prelude.{◌≡◌, ◌≤◌, ◌<◌, ◌^◌};
ghost use Rattle.int_num.specs.Integer.{IsWidth, IsInteger};
ghost use Rattle.turn_count.specs.Arcs.{half, signed_place, arc_of, holding};

use int_num::int::Int;
use int_num::ops::Pred;

/// So many values from the first on.
#[derive(Clone, Copy)]
pub(crate) struct Arc {
    pub(crate) first: u128,
    pub(crate) length: u128,
}

impl Arc {
    fn new(first: u128, length: u128) -> Arc
        ensures { result ≡ arc_of first length }
    {
        Arc { first, length }
    }
}

/// How many values there are: 2^width.
pub(crate) fn whole(width: u32) -> u128
    requires { IsWidth width }
    ensures value { result ≡ 2 ^ width }
    ensures most { result ≤ 2 ^ 64 }
{
    1 << width
}

/// The bits of the least signed number.
fn half(n: Int) -> u128
    ensures value { result ≡ half n }
    ensures most { result ≤ 2 ^ 64 }
{
    1 << (n.width() - 1)
}

/// The place among the signed numbers, counted from the least.
fn signed_place(n: Int) -> u128
    ensures value { result ≡ signed_place n }
    ensures range { result < 2 ^ n.width }
{
    (u128::from(n.bits()) + half(n)) % whole(n.width())
}

/// The values of which the predicate holds with the bound as its right operand.
#[tactic(auto, unfolding(crate::specs::Arcs::holding))]
pub(crate) fn holding(pred: Pred, bound: Int) -> Arc
    ensures value { result ≡ holding pred bound }
    ensures range { IsInteger bound }
{
    let bits = u128::from(bound.bits());
    let whole = whole(bound.width());
    let place = signed_place(bound);
    match pred {
        Pred::Eq => Arc::new(bits, 1),
        Pred::Ne => Arc::new(bits + 1, whole - 1),
        Pred::Ugt => Arc::new(bits + 1, whole - 1 - bits),
        Pred::Uge => Arc::new(bits, whole - bits),
        Pred::Ult => Arc::new(0, bits),
        Pred::Ule => Arc::new(0, bits + 1),
        Pred::Sgt => Arc::new(bits + 1, whole - 1 - place),
        Pred::Sge => Arc::new(bits, whole - place),
        Pred::Slt => Arc::new(half(bound), place),
        Pred::Sle => Arc::new(half(bound), place + 1),
    }
}
