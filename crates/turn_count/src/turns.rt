//! The turn count of a loop.
ghost use Rattle.std.specs.Prelude.{◌≡◌, ◌≤◌, ◌^◌, if◌then◌else◌};
ghost use Rattle.turn_count.specs.Turns.{turns};

use crate::arc::{holding, whole};
use crate::test::{Test, leading};
use crate::walk::{Walk, steps_inside};
use int_num::int::Int;

/// How far the tested value of a turn is ahead of the counter.
fn ahead(test: &Test) -> u128
    ensures value { result ≡ (if test.now.latch_value then test.now.step.bits else 0) }
    ensures most { result ≤ 2 ^ 64 }
{
    if test.latch_value {
        u128::from(test.step.bits())
    } else {
        0
    }
}

/// How many turns, up to a cap, the test leads into the loop before the first that it does not. `first` is the counter's
/// value at the start. A test that the counter cannot jump over within one lap round its width costs the same for each
/// cap: where its step is no longer than the stretch of values that lead out, where the test is for one value and a
/// multiple of the step away, or where the cap comes first. Any other costs as many operations as there are turns.
pub fn turns(test: &Test, first: Int, bound: Int, cap: u32) -> u32
    requires bound { bound.width ≡ first.width }
    requires step { test.now.step.width ≡ first.width }
    ensures { result ≡ turns test.now first bound cap }
{
    let whole = whole(first.width());
    let leading = holding(leading(test), bound);
    let tested = u128::from(first.bits()) + ahead(test);
    let walk = Walk {
        whole,
        inside: leading.length,
        place: (tested + (whole - leading.first)) % whole,
        step: u128::from(test.step.bits()),
    };
    steps_inside(walk, cap)
}
