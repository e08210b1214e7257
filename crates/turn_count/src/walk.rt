//! Walks round a circle, and how long they stay on a stretch of it.
ghost use Rattle.std.specs.Prelude.{◌≡◌, ◌<◌, ◌+◌, None, IfSome, nat_lt, if◌then◌else◌};
ghost use Rattle.turn_count.specs.Walks.{IsWalk, steps_inside};

/// A walk of equal steps round a circle of numbered places: after the last comes 0. The first places are inside, so many.
#[derive(Clone, Copy)]
pub(crate) struct Walk {
    pub(crate) whole: u128,
    pub(crate) inside: u128,
    pub(crate) place: u128,
    pub(crate) step: u128,
}

/// The less of a number of steps and the cap.
fn capped(steps: u128, cap: u32) -> u32
    ensures { result ≡ (if nat_lt steps cap then steps else cap) }
{
    if steps < u128::from(cap) {
        steps as u32
    } else {
        cap
    }
}

/// The steps inside, where the walk, going onward, does not pass over all that is outside. None where it does.
fn onward(walk: Walk, cap: u32) -> Option<u32>
    requires walk { IsWalk walk }
    requires moves { 0 < walk.step }
    requires inside { walk.place < walk.inside }
    ensures steps { IfSome result (λ steps. steps ≡ steps_inside walk cap) }
    ensures passes { result ≡ None → walk.whole < walk.inside + walk.step }
{
    let steps = (walk.inside - 1 - walk.place) / walk.step + 1;
    if steps < u128::from(cap) && walk.whole <= walk.place + steps * walk.step {
        return None;
    }
    Some(capped(steps, cap))
}

/// The same where the walk, going back by what its step is short of the whole circle, does not pass over all that is outside.
fn backward(walk: Walk, cap: u32) -> Option<u32>
    requires walk { IsWalk walk }
    requires inside { walk.place < walk.inside }
    ensures steps { IfSome result (λ steps. steps ≡ steps_inside walk cap) }
    ensures passes { result ≡ None → walk.step < walk.inside }
{
    let back = walk.whole - walk.step;
    let steps = walk.place / back + 1;
    if steps < u128::from(cap) && walk.place + walk.whole < walk.inside + steps * back {
        return None;
    }
    Some(capped(steps, cap))
}

/// The steps inside, one by one. A walk whose step, onward or back, is no longer than what is outside has no need of it.
fn one_by_one(walk: Walk, cap: u32) -> u32
    requires walk { IsWalk walk }
    requires onward { walk.whole < walk.inside + walk.step }
    requires back { walk.step < walk.inside }
    ensures { result ≡ steps_inside walk cap }
{
    let mut place = walk.place;
    for steps in 0..cap {
        if walk.inside <= place {
            return steps;
        }
        place = (place + walk.step) % walk.whole;
    }
    cap
}

/// How many steps, up to a cap, begin inside before the first that does not. Where one lap brings the walk outside this
/// takes a few operations, and else so many as it answers.
pub(crate) fn steps_inside(walk: Walk, cap: u32) -> u32
    requires { IsWalk walk }
    ensures { result ≡ steps_inside walk cap }
{
    if walk.inside <= walk.place {
        return 0;
    }
    if walk.step == 0 || walk.inside == walk.whole {
        return cap;
    }
    if let Some(steps) = onward(walk, cap) {
        return steps;
    }
    if let Some(steps) = backward(walk, cap) {
        return steps;
    }
    one_by_one(walk, cap)
}
