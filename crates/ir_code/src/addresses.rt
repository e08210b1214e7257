//! Addresses with their names resolved.
ghost use Rattle.std.specs.Prelude.{◌≡◌, IfOk, length};
ghost use Rattle.ir_code.specs.Addresses.{address};

use crate::families::{arguments, operand};
use crate::lookups::Lookups;
use crate::op::{Fixed, Op, Scalar};
use crate::places::Places;
use crate::strides::strides;
use ir_tree::instruction::{Argument, Operand as Named};
use ir_tree::nodes::{NameId, TypeId};
use ir_tree::whole::Module;
use pv_base::want::Memory;
use std::alloc::Global;

#[tactic(auto, using(crate::proofs::Looking::found_within))]
pub(crate) fn address(
    alloc: Global,
    module: &Module,
    lookups: &Lookups,
    registers: &Places,
    to: NameId,
    inbounds: bool,
    of: TypeId,
    base: Named,
    indices: &[Argument],
) -> Result<Option<Op>, Memory>
    requires { length lookups.now.sizes ≡ length «module».now.names.types }
    ensures { IfOk result (λ r. r ≡ address «module».now lookups.now registers.now to inbounds of base indices.now) }
{
    let to = match registers.place(to) {
        Some(to) => to,
        None => return Ok(None),
    };
    if lookups.size(of).is_none() {
        return Ok(None);
    }
    let base = match operand(lookups, registers, Scalar::Pointer, base) {
        Some(base) => base,
        None => return Ok(None),
    };
    let values = match arguments(alloc, lookups, registers, indices)? {
        Some(values) => values,
        None => return Ok(None),
    };
    match strides(alloc, module, of, values.as_slice())? {
        Some(indices) => Ok(Some(Op::Address {
            to,
            inbounds,
            base,
            indices,
        })),
        None => Ok(None),
    }
}
