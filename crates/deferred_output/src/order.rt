//! Output in the order of turns.
ghost use Rattle.std.specs.Prelude.{◌≡◌, IfOk, map};
ghost use Rattle.deferred_output.specs.Order.{IsInTurnOrder, joined};

use crate::output::TurnOutput;
use pv_base::bytes::Bytes;
use pv_base::list::List;
use pv_base::want::Memory;
use std::alloc::Global;

/// The bytes of all parts, those of an earlier turn first. Where a turn has one part at most, this is its only
/// order. Of n parts it costs n log n comparisons.
pub fn in_turn_order(alloc: Global, parts: &List<TurnOutput>) -> Result<Bytes, Memory>
    ensures { IfOk result (λ bytes. IsInTurnOrder parts.now bytes) }
{
    let mut order = references(alloc, parts.as_slice())?;
    order.sort_unstable_by_key(|part| part.turn);
    join(alloc, order.as_slice())
}

// References to the parts.
fn references(alloc: Global, parts: &[TurnOutput]) -> Result<Vec<&TurnOutput>, Memory>
    ensures { IfOk result (λ v. map (λ part. part.now) v.items ≡ parts.now) }
{
    let order = parts.iter().collect(alloc)?;
    Ok(order)
}

// The bytes of these parts, one after another.
#[tactic(auto, using(crate::proofs::Join::joined_more))]
fn join(alloc: Global, parts: &[&TurnOutput]) -> Result<Bytes, Memory>
    ensures { IfOk result (λ bytes. bytes ≡ joined (map (λ part. part.now) parts.now)) }
{
    let mut bytes = Bytes::new(alloc);
    for part in parts {
        bytes.append(part.bytes.as_slice())?;
    }
    Ok(bytes)
}
