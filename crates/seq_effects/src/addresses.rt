//! The addresses that `getelementptr` gives.
ghost use Rattle.std.specs.Prelude.{◌≡◌, ◌&&◌, ◌^◌, ◌≤ℤ◌, ◌<ℤ◌, ◌+ℤ◌, ◌⊎◌, neg_ℤ, pos, IfOk, Ok, MatchOption};
ghost use Rattle.seq_effects.specs.Script.{Follows};
ghost use Rattle.seq_effects.specs.Values.{Sets, then_};
ghost use Rattle.seq_effects.specs.Accesses.{exact, term, distance, wrapped, moved, inside, move, address};

use crate::state::{Effect, Frame, Value};
use crate::values::give;
use int_num::sign::signed;
use ir_code::op::{Index, Operand, Scalar};
use mem_image::fault::{Fault, Trap};
use mem_image::memory::Mem;
use mem_image::object::Pointer;
use pv_base::list::List;

/// A sum of distances, which may leave 128 bits: `low`, and 2^128 so many times.
#[derive(Clone, Copy)]
pub(crate) struct Total {
    low: i128,
    turns: i128,
}

/// How far an index moves.
fn term(frame: &Frame, index: Index) -> Result<i128, Trap>
    ensures { result ≡ term frame.now index }
{
    match index {
        Index::Scaled { value, stride } => {
            let count = signed(frame.number(value)?);
            Ok(i128::from(count) * i128::from(stride))
        }
        Index::Field(offset) => Ok(i128::from(offset)),
    }
}

/// The sum of two numbers above 127 bits, less 2^128.
fn past_top(low: i128, more: i128) -> i128
    requires { pos (2 ^ 127) ≤ℤ (low +ℤ more) }
    ensures { result +ℤ pos (2 ^ 128) ≡ low +ℤ more }
{
    (low + i128::MIN) + (more + i128::MIN)
}

/// The sum of two numbers below -2^127, and 2^128.
fn past_bottom(low: i128, more: i128) -> i128
    requires { (low +ℤ more) <ℤ neg_ℤ (pos (2 ^ 127)) }
    ensures { result ≡ low +ℤ more +ℤ pos (2 ^ 128) }
{
    (low - i128::MIN) + (more - i128::MIN)
}

/// The sum with one more number.
#[tactic(auto, using(crate::proofs::Totals::totals))]
fn add(sum: Total, more: i128) -> Total
    requires least { neg_ℤ (pos (2 ^ 64)) ≤ℤ sum.turns }
    requires most { sum.turns ≤ℤ pos (2 ^ 64) }
    ensures value { exact result ≡ exact sum +ℤ more }
    ensures up { result.turns ≤ℤ (sum.turns +ℤ pos 1) }
    ensures down { sum.turns ≤ℤ (result.turns +ℤ pos 1) }
{
    match sum.low.checked_add(more) {
        Some(low) => Total {
            low,
            turns: sum.turns,
        },
        None if more > 0 => Total {
            low: past_top(sum.low, more),
            turns: sum.turns + 1,
        },
        None => Total {
            low: past_bottom(sum.low, more),
            turns: sum.turns - 1,
        },
    }
}

/// How far the indices move, from left to right.
fn distance(frame: &Frame, indices: &List<Index>) -> Result<Total, Trap>
    ensures { then_ result (λ d. Ok (exact d)) ≡ distance frame.now indices.now }
{
    let mut sum = Total { low: 0, turns: 0 };
    for index in indices.as_slice() {
        let more = match term(frame, *index) {
            Ok(more) => more,
            Err(trap) => return Err(trap),
        };
        sum = add(sum, more);
    }
    Ok(sum)
}

/// The sum modulo 2^64, as a signed number.
fn wrapped(sum: Total) -> i64
    ensures { result ≡ wrapped (exact sum) }
{
    let low = sum.low.rem_euclid(1 << 64);
    (low as u64).cast_signed()
}

/// The sum where it is within 2^64 of 0.
fn near(sum: Total) -> Option<i128>
    ensures { MatchOption result ((exact sum <ℤ neg_ℤ (pos (2 ^ 64))) ⊎ (pos (2 ^ 64) <ℤ exact sum)) (λ z. (z ≡ exact sum) × (neg_ℤ (pos (2 ^ 64)) ≤ℤ z) × (z ≤ℤ pos (2 ^ 64))) }
{
    let bound = 1i128 << 64;
    if sum.turns == 0 && -bound <= sum.low && sum.low <= bound {
        Some(sum.low)
    } else {
        None
    }
}

/// Whether the offset, and where it is moved to, are in an object of this size.
fn is_inside(offset: i64, by: Total, size: u64) -> bool
    ensures { result ≡ (inside offset size && inside (offset +ℤ exact by) size) }
{
    if offset < 0 || i128::from(offset) > i128::from(size) {
        return false;
    }
    match near(by) {
        Some(by) => {
            let to = i128::from(offset) + by;
            0 <= to && to <= i128::from(size)
        }
        None => false,
    }
}

/// The address that is moved so far.
fn moved(pointer: Pointer, by: Total) -> Result<Pointer, Trap>
    ensures { result ≡ moved pointer (exact by) }
{
    let by = wrapped(by);
    match pointer {
        Pointer::Obj { name, offset } => Ok(Pointer::Obj {
            name,
            offset: offset.wrapping_add(by),
        }),
        _ => {
            if by == 0 {
                Ok(pointer)
            } else {
                Err(Trap::Null)
            }
        }
    }
}

/// The address that is moved so far, and within its object where that is promised.
fn shift<M: Mem>(memory: &M, inbounds: bool, pointer: Pointer, by: Total) -> Result<Pointer, Fault>
    requires ready { M.ready memory.now }
    ensures { Follows M.image M.relation (move inbounds pointer (exact by)) memory.now result memory.now }
{
    if inbounds {
        if let Pointer::Obj { name: _, offset } = pointer {
            let size = match memory.size_of(pointer) {
                Some(size) => size,
                None => return Err(Fault::Trap(Trap::Dead)),
            };
            if !is_inside(offset, by, size) {
                return Err(Fault::Trap(Trap::Inbounds));
            }
        }
    }
    match moved(pointer, by) {
        Ok(pointer) => Ok(pointer),
        Err(trap) => Err(Fault::Trap(trap)),
    }
}

/// Gives the register an address.
pub fn address<M: Mem>(
    types: &List<Scalar>,
    frame: &Frame,
    memory: &M,
    to: u32,
    inbounds: bool,
    base: Operand,
    indices: &List<Index>,
) -> Result<Effect, Fault>
    requires ready { M.ready memory.now }
    ensures follows { Follows M.image M.relation (address types.now frame.now to inbounds base indices.now) memory.now result memory.now }
    ensures sets { IfOk result (Sets types.now) }
{
    let pointer = frame.pointer(base)?;
    let by = distance(frame, indices)?;
    let pointer = match shift(memory, inbounds, pointer, by) {
        Ok(pointer) => pointer,
        Err(fault) => return Err(fault),
    };
    match give(types, to, Value::Pointer(pointer)) {
        Ok(effect) => Ok(effect),
        Err(trap) => Err(Fault::Trap(trap)),
    }
}
