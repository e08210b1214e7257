//! Changes of width.
ghost use Rattle.std.specs.Prelude.{◌≡◌, ◌<◌};
ghost use Rattle.int_num.specs.Integer.{IsWidth};
ghost use Rattle.int_num.specs.Operations.{trunc, zext, sext, cast, FitsCast};

use crate::int::Int;
use crate::ops::{CastOp, Flags, Poison};
use crate::promise::keeps;
use crate::sign::{fits_signed, fits_unsigned, low, modulo, signed};

fn trunc(flags: Flags, a: Int, width: u32) -> Result<Int, Poison>
    requires { IsWidth width }
    ensures { result ≡ trunc flags a width }
{
    let unsigned = fits_unsigned(width, a.bits() as u128);
    let signed = fits_signed(width, signed(a) as i128);
    keeps(Poison::Flag, flags, unsigned, signed, low(width, a.bits()))
}

fn zext(flags: Flags, a: Int, width: u32) -> Result<Int, Poison>
    requires range { IsWidth width }
    requires larger { a.width < width }
    ensures { result ≡ zext flags a width }
{
    if flags.nneg && signed(a) < 0 {
        return Err(Poison::Flag);
    }
    Ok(Int::new(width, a.bits()))
}

/// The integer in another width, where the width fits the operation. `Flag` where a promise of the flags is broken: `nuw` or
/// `nsw` of `trunc` where the number does not fit, `nneg` of `zext` where it is negative.
#[tactic(auto, unfolding(crate::specs::Operations::cast))]
pub fn cast(op: CastOp, flags: Flags, a: Int, width: u32) -> Result<Int, Poison>
    requires range { IsWidth width }
    requires fits { FitsCast op a.width width }
    ensures { result ≡ cast op flags a width }
{
    match op {
        CastOp::Trunc => trunc(flags, a, width),
        CastOp::Zext => zext(flags, a, width),
        CastOp::Sext => Ok(modulo(width, signed(a))),
    }
}
