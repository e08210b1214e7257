//! Sums of signed and of unsigned values, and the ranges that they may not leave.
ghost use Rattle.std.specs.Prelude.{◌≡◌, ◌≤◌, ◌<◌, ◌-◌, ◌^◌, pos, int_lt, int_le, neg_ℤ, ◌+ℤ◌, ◌≤ℤ◌};
ghost use Rattle.int_num.specs.Integer.{IsWidth};
ghost use Rattle.reduction_merge.specs.Partials.{above, below, unsigned_stays, signed_stays, promises_kept};

use int_num::ops::Flags;

/// The sum of two numbers that stays within 2^125.
pub fn sum(a: i128, b: i128) -> i128
    requires most { (a +ℤ b) ≤ℤ pos (2 ^ 125) }
    requires least { neg_ℤ (pos (2 ^ 125)) ≤ℤ (a +ℤ b) }
    ensures { result ≡ a +ℤ b }
{
    a + b
}

/// The part of a number that is above 0.
pub fn above(value: i64) -> i128
    ensures value { result ≡ above value }
    ensures sign { pos 0 ≤ℤ result }
{
    if value > 0 { value as i128 } else { 0 }
}

/// The part of a number that is below 0.
pub fn below(value: i64) -> i128
    ensures value { result ≡ below value }
    ensures sign { result ≤ℤ pos 0 }
{
    if value < 0 { value as i128 } else { 0 }
}

/// Whether a number with an unsigned sum is below 2^width.
pub fn unsigned_stays(width: u32, first: u64, sum: u128) -> bool
    requires width { IsWidth width }
    requires sum { sum ≤ 2 ^ 124 }
    ensures { result ≡ unsigned_stays width first sum }
{
    first as u128 + sum < 1u128 << width
}

/// Whether a signed number stays in the width's signed range with all positive operands, and with all negative ones.
pub fn signed_stays(width: u32, first: i64, positive: i128, negative: i128) -> bool
    requires width { IsWidth width }
    requires above { pos 0 ≤ℤ positive }
    requires most { positive ≤ℤ pos (2 ^ 124) }
    requires below { negative ≤ℤ pos 0 }
    requires least { neg_ℤ (pos (2 ^ 124)) ≤ℤ negative }
    ensures { result ≡ signed_stays width first positive negative }
{
    let half = half_of(width);
    let most = is_below(sum(first as i128, positive), half);
    let least = is_at_least(sum(first as i128, negative), half);
    most && least
}

fn is_below(number: i128, half: i128) -> bool
    ensures { result ≡ int_lt number half }
{
    number < half
}

// Whether a number is no less than the opposite of half.
fn is_at_least(number: i128, half: i128) -> bool
    requires positive { pos 0 ≤ℤ half }
    requires most { half ≤ℤ pos (2 ^ 64) }
    ensures { result ≡ int_le (neg_ℤ half) number }
{
    -half <= number
}

// Half of 2^width.
fn half_of(width: u32) -> i128
    requires { IsWidth width }
    ensures value { result ≡ pos (2 ^ (width - 1)) }
    ensures positive { pos 0 ≤ℤ result }
    ensures most { result ≤ℤ pos (2 ^ 64) }
{
    (1u64 << (width - 1)) as i128
}

/// Whether each range that is promised stays.
pub fn promises_kept(flags: Flags, unsigned: bool, signed: bool) -> bool
    ensures { result ≡ promises_kept flags unsigned signed }
{
    (!flags.nuw || unsigned) && (!flags.nsw || signed)
}
