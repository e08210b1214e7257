//! Partials of few operands of width 8, and what parts cross threads.
ghost use Rattle.std.specs.Prelude.{◌≡◌, ◌<◌, pos, neg_ℤ, ◌≤ℤ◌};

use deferred_output::output::TurnOutput;
use int_num::int::Int;
use int_num::ops::{Flags, RedOp};
use privacy_check::access::BadCode;
use privacy_check::shadow::Shadow;
use profile_lines::profile::Profile;
use pv_base::list::List;
use reduction_merge::partial::Partial;
use std::process::Abort;

fn crosses_threads<T: Send + Sync>() {}

#[test]
fn leaves_cross_threads() {
    crosses_threads::<Partial>();
    crosses_threads::<Shadow>();
    crosses_threads::<BadCode>();
    crosses_threads::<List<TurnOutput>>();
    crosses_threads::<Profile>();
}

const PLAIN: Flags = Flags {
    nsw: false,
    nuw: false,
    exact: false,
    disjoint: false,
    nneg: false,
};

const SIGNED: Flags = Flags {
    nsw: true,
    nuw: false,
    exact: false,
    disjoint: false,
    nneg: false,
};

/// An integer of width 8.
fn byte(bits: u8) -> Int
    ensures { result.width ≡ 8 }
{
    Int::new(8, u64::from(bits))
}

/// Stops where a partial has another width than 8, or no room for many operands more.
fn keep_room(rt: &impl Abort, partial: &Partial)
    ensures width { partial.now.width ≡ 8 }
    ensures count { partial.now.count < 1000 }
    ensures unsigned { partial.now.unsigned < 1000000 }
    ensures positive { partial.now.positive ≤ℤ pos 1000000 }
    ensures negative { neg_ℤ (pos 1000000) ≤ℤ partial.now.negative }
{
    assert!(rt; partial.width() == 8);
    assert!(rt; partial.count() < 1000);
    assert!(rt; partial.unsigned() < 1_000_000);
    assert!(rt; partial.positive() < 1_000_000);
    assert!(rt; partial.negative() > -1_000_000);
}

/// One operand more.
fn with(rt: &impl Abort, partial: Partial, bits: u8) -> Partial {
    keep_room(rt, &partial);
    let mut more = partial;
    more.add(byte(bits));
    more
}

/// The operands of both.
fn joined(rt: &impl Abort, one: Partial, other: Partial) -> Partial {
    keep_room(rt, &one);
    keep_room(rt, &other);
    assert!(rt; one.op() == other.op() && one.flags() == other.flags());
    let mut both = one;
    both.join(&other);
    both
}

/// The partial of these operands.
fn partial_of(rt: &impl Abort, op: RedOp, flags: Flags, operands: &[u8]) -> Partial {
    let mut partial = Partial::start(op, flags, 8);
    for bits in operands {
        partial = with(rt, partial, *bits);
    }
    partial
}

/// The bits of what is finished of a partial with a first value.
fn finished(rt: &impl Abort, partial: &Partial, first: u8) -> Option<u64> {
    assert!(rt; partial.width() == 8);
    match partial.finish(byte(first)) {
        Some(number) => Some(number.bits()),
        None => None,
    }
}

/// The bits of the fold of no operand.
const IDENTITIES: &[(RedOp, u64)] = &[
    (RedOp::Add, 0),
    (RedOp::Mul, 1),
    (RedOp::And, 255),
    (RedOp::Or, 0),
    (RedOp::Xor, 0),
    (RedOp::Smax, 128),
    (RedOp::Smin, 127),
    (RedOp::Umax, 0),
    (RedOp::Umin, 255),
];

/// The first operation whose fold of no operand is another, or does not leave a first value as it is.
fn first_other_identity(rt: &impl Abort, rows: &[(RedOp, u64)]) -> Option<RedOp> {
    for (op, wanted) in rows {
        let none = Partial::start(*op, PLAIN, 8);
        if none.folded().bits() != *wanted || finished(rt, &none, 77) != Some(77) {
            return Some(*op);
        }
    }
    None
}

#[test]
fn no_operand_leaves_the_first_value(rt: HostRuntime) {
    assert_eq!(rt; first_other_identity(&rt, IDENTITIES), None);
}

/// The operation; 247 with 221, and 247 with 221, 187 and 126, by another tool.
const FOLDS: &[(RedOp, u64, u64)] = &[
    (RedOp::Add, 212, 13),
    (RedOp::Mul, 59, 78),
    (RedOp::And, 213, 16),
    (RedOp::Or, 255, 255),
    (RedOp::Xor, 42, 239),
    (RedOp::Smax, 247, 126),
    (RedOp::Smin, 221, 187),
    (RedOp::Umax, 247, 247),
    (RedOp::Umin, 221, 126),
];

const ORDERS: &[[u8; 3]] = &[
    [221, 187, 126],
    [221, 126, 187],
    [187, 221, 126],
    [187, 126, 221],
    [126, 221, 187],
    [126, 187, 221],
];

/// Whether a partial of these operands finishes as this with 247.
fn folds_to(rt: &impl Abort, op: RedOp, operands: &[u8], wanted: u64) -> bool {
    let partial = partial_of(rt, op, PLAIN, operands);
    finished(rt, &partial, 247) == Some(wanted)
}

/// The first operation by which 221 alone, or all operands in one of these orders, give something else.
fn first_other_fold(
    rt: &impl Abort,
    rows: &[(RedOp, u64, u64)],
    orders: &[[u8; 3]],
) -> Option<RedOp> {
    for (op, one, all) in rows {
        if !folds_to(rt, *op, &[221], *one) {
            return Some(*op);
        }
        for order in orders {
            if !folds_to(rt, *op, order.as_slice(), *all) {
                return Some(*op);
            }
        }
    }
    None
}

#[test]
fn every_order_gives_one_fold(rt: HostRuntime) {
    assert_eq!(rt; first_other_fold(&rt, FOLDS, ORDERS), None);
}

/// The flags of a sum, its operands, those of another that joins it where there are any, the first value, and what is finished.
type Sum<'a> = (Flags, &'a [u8], &'a [u8], u8, Option<u64>);

const SUMS: &[Sum] = &[
    (SIGNED, &[100, 20, 156], &[], 0, Some(20)),
    (SIGNED, &[100, 20, 156], &[], 228, Some(248)),
    (SIGNED, &[100, 20, 156], &[], 8, None),
    (SIGNED, &[100, 20, 156], &[], 227, None),
    (PLAIN, &[100, 20, 156], &[], 8, Some(28)),
    (PLAIN, &[100, 20], &[156], 0, Some(20)),
];

/// The partial of a sum of these operands, joined by that of others where there are any.
fn summed(rt: &impl Abort, flags: Flags, operands: &[u8], others: &[u8]) -> Partial {
    let sum = partial_of(rt, RedOp::Add, flags, operands);
    if others.is_empty() {
        sum
    } else {
        joined(rt, sum, partial_of(rt, RedOp::Add, flags, others))
    }
}

/// The first row whose sum finishes otherwise.
fn first_other_sum(rt: &impl Abort, rows: &[Sum]) -> Option<usize> {
    for row in 0..rows.len() {
        let (flags, operands, others, first, wanted) = rows[row];
        let sum = summed(rt, flags, operands, others);
        if finished(rt, &sum, first) != wanted {
            return Some(row);
        }
    }
    None
}

#[test]
fn sums_stay_in_range_only_where_flags_say_so(rt: HostRuntime) {
    assert_eq!(rt; first_other_sum(&rt, SUMS), None);
}
