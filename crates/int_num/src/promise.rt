//! What the flags of an instruction promise, and the cause where a promise is broken.
ghost use Rattle.std.specs.Prelude.{◌≡◌};
ghost use Rattle.int_num.specs.Operations.{keeps, without_rest};

use crate::int::Int;
use crate::ops::{Flags, Poison};

/// The value, or the cause where a range was promised and left: `nuw` that of unsigned numbers, `nsw` that of signed ones.
#[tactic(auto, unfolding(crate::specs::Operations::keeps))]
pub(crate) fn keeps(
    cause: Poison,
    flags: Flags,
    fits_unsigned: bool,
    fits_signed: bool,
    value: Int,
) -> Result<Int, Poison>
    ensures { result ≡ keeps cause flags fits_unsigned fits_signed value }
{
    if flags.nuw && !fits_unsigned {
        return Err(cause);
    }
    if flags.nsw && !fits_signed {
        return Err(cause);
    }
    Ok(value)
}

/// The value, or `Flag` where `exact` was promised and there is a rest.
#[tactic(auto, unfolding(crate::specs::Operations::without_rest))]
pub(crate) fn without_rest(flags: Flags, rest: u64, value: Int) -> Result<Int, Poison>
    ensures { result ≡ without_rest flags rest value }
{
    if flags.exact && rest != 0 {
        Err(Poison::Flag)
    } else {
        Ok(value)
    }
}
