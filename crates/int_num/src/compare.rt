//! Comparisons.
ghost use Rattle.std.specs.Prelude.{◌≡◌};
ghost use Rattle.int_num.specs.Operations.{compare};

use crate::int::Int;
use crate::ops::Pred;
use crate::sign::signed;

/// Whether the predicate holds of two integers of one width.
#[tactic(auto, unfolding(crate::specs::Operations::compare))]
pub fn compare(pred: Pred, a: Int, b: Int) -> bool
    requires { a.width ≡ b.width }
    ensures { result ≡ compare pred a b }
{
    match pred {
        Pred::Eq => a.bits() == b.bits(),
        Pred::Ne => a.bits() != b.bits(),
        Pred::Ugt => a.bits() > b.bits(),
        Pred::Uge => a.bits() >= b.bits(),
        Pred::Ult => a.bits() < b.bits(),
        Pred::Ule => a.bits() <= b.bits(),
        Pred::Sgt => signed(a) > signed(b),
        Pred::Sge => signed(a) >= signed(b),
        Pred::Slt => signed(a) < signed(b),
        Pred::Sle => signed(a) <= signed(b),
    }
}
