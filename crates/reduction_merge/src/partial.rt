//! What a worker keeps of the operands of one reduction.
ghost use Rattle.std.specs.Prelude.{◌≡◌, ◌<◌, ◌≤◌, ◌+◌, ◌^◌, ℤ};
ghost use Rattle.int_num.specs.Integer.{IsWidth};
ghost use Rattle.reduction_merge.specs.Partials.{PartialOf, IsPartial, SumsFit, SameKind, started, added, joined, finished, stays_in_range};

use crate::sums::{above, below, promises_kept, signed_stays, sum, unsigned_stays};
use int_num::int::Int;
use int_num::ops::{Flags, RedOp};
use int_num::reduce::{identity, reduce};
use int_num::sign::signed;
use std::marker::Model;

/// The count of some operands of one reduction, the sums of their signed values above 0 and below 0 and of their
/// unsigned values, and their fold by the operation without its flags. The sums say whether the operands, in any order,
/// can leave the range that a flag promises.
#[derive(Clone, Copy, Debug)]
pub struct Partial {
    op: RedOp,
    flags: Flags,
    width: u32,
    count: u64,
    positive: i128,
    negative: i128,
    unsigned: u128,
    folded: Int,
}

impl Model for Partial {
    ghost use Rattle.reduction_merge.specs.Partials.{PartialOf, IsPartial};

    ghost Value = { PartialOf };

    ghost view = { λ p. record { op = p.op; flags = p.flags; width = p.width; count = p.count; positive = p.positive; negative = p.negative; unsigned = p.unsigned; folded = p.folded } };

    ghost invariant = { λ p. IsPartial (record { op = p.op; flags = p.flags; width = p.width; count = p.count; positive = p.positive; negative = p.negative; unsigned = p.unsigned; folded = p.folded }) };

    ghost inverse = { λ p. record { op = p.op; flags = p.flags; width = p.width; count = p.count; positive = p.positive; negative = p.negative; unsigned = p.unsigned; folded = p.folded } };
}

impl Partial {
    /// No operand yet.
    pub fn start(op: RedOp, flags: Flags, width: u32) -> Partial
        requires { IsWidth width }
        ensures { result ≡ started op flags width }
    {
        Partial {
            op,
            flags,
            width,
            count: 0,
            positive: 0,
            negative: 0,
            unsigned: 0,
            folded: identity(op, width),
        }
    }

    /// One operand more.
    pub fn add(&mut self, x: Int)
        requires width { x.width ≡ self.old.width }
        requires count { self.old.count < 2 ^ 60 }
        requires sums { SumsFit (added self.old x) }
        ensures { self.new ≡ added self.old x }
    {
        let value = signed(x);
        *self = Partial {
            op: self.op,
            flags: self.flags,
            width: self.width,
            count: self.count + 1,
            positive: sum(self.positive, above(value)),
            negative: sum(self.negative, below(value)),
            unsigned: self.unsigned + x.bits() as u128,
            folded: reduce(self.op, self.folded, x),
        };
    }

    /// The operands of both, which are of one reduction.
    pub fn join(&mut self, other: &Partial)
        requires kind { SameKind self.old other.now }
        requires count { self.old.count + other.now.count ≤ 2 ^ 60 }
        requires sums { SumsFit (joined self.old other.now) }
        ensures { self.new ≡ joined self.old other.now }
    {
        *self = Partial {
            op: self.op,
            flags: self.flags,
            width: self.width,
            count: self.count + other.count,
            positive: sum(self.positive, other.positive),
            negative: sum(self.negative, other.negative),
            unsigned: self.unsigned + other.unsigned,
            folded: reduce(self.op, self.folded, other.folded),
        };
    }

    /// The first value with all operands; None where some order of them could leave a promised range, `nsw` or `nuw`.
    pub fn finish(&self, first: Int) -> Option<Int>
        requires { first.width ≡ self.now.width }
        ensures { result ≡ finished self.now first }
    {
        if self.stays_in_range(first) {
            Some(reduce(self.op, first, self.folded))
        } else {
            None
        }
    }

    // The range test.
    fn stays_in_range(&self, first: Int) -> bool
        requires { first.width ≡ self.now.width }
        ensures { result ≡ stays_in_range self.now first }
    {
        let unsigned = unsigned_stays(self.width, first.bits(), self.unsigned);
        let signed = signed_stays(self.width, signed(first), self.positive, self.negative);
        promises_kept(self.flags, unsigned, signed)
    }

    pub fn op(&self) -> RedOp
        ensures { result ≡ self.now.op }
    {
        self.op
    }

    pub fn flags(&self) -> Flags
        ensures { result ≡ self.now.flags }
    {
        self.flags
    }

    /// The width of each operand, 1 to 64.
    pub fn width(&self) -> u32
        ensures { result ≡ self.now.width }
    {
        self.width
    }

    /// How many operands there are.
    pub fn count(&self) -> u64
        ensures { result ≡ self.now.count }
    {
        self.count
    }

    /// The sum of the signed values above 0.
    pub fn positive(&self) -> i128
        ensures { result ≡ self.now.positive }
    {
        self.positive
    }

    /// The sum of the signed values below 0.
    pub fn negative(&self) -> i128
        ensures { result ≡ self.now.negative }
    {
        self.negative
    }

    /// The sum of the unsigned values.
    pub fn unsigned(&self) -> u128
        ensures { result ≡ self.now.unsigned }
    {
        self.unsigned
    }

    /// The fold of the operands from the operation's identity.
    pub fn folded(&self) -> Int
        ensures { result ≡ self.now.folded }
    {
        self.folded
    }
}
