//! Runs of the machine on an image.
ghost use Rattle.std.specs.Prelude.{◌≡◌, ◌+◌, ◌-◌, ◌<◌, ◌≤◌, ◌^◌, length, slice_get, IfOk, OnErr, Some};
ghost use Rattle.seq_machine.specs.Frames.{CodeOk};
ghost use Rattle.seq_machine.specs.Step.{IsAhead, StateOf, steps_from, stands};

use crate::machine::step;
use crate::state::{End, State, Step};
use ir_code::code::Code;
use mem_image::image::Image;
use pv_base::want::Memory;

/// Takes steps until one ends or traps, or `n` were taken. Want of memory leaves the state after those that were taken.
pub fn run_from(code: &Code, state: &mut State<Image>, input: &[u8], n: u64) -> Result<End, Memory>
    requires code { CodeOk code.now }
    requires state { StateOf code.now state.old }
    requires steps { state.old.steps + n < 2 ^ 64 }
    ensures kept { StateOf code.now state.new }
    ensures run { IfOk result (λ end. steps_from code.now input.now state.old n ≡ (end, state.new)) }
    ensures ahead { OnErr result (IsAhead code.now input.now state.old n state.new) }
    ensures bounded { state.new.steps ≤ state.old.steps + n }
{
    for _ in 0..n {
        match step(code, state, input)? {
            Step::Next => {}
            Step::Ended(value) => return Ok(End::Ended(value)),
            Step::Trap(trap, site) => return Ok(End::Trapped(trap, site)),
            Step::Failed(_, _) => unreachable!(),
        }
    }
    Ok(End::Spent)
}
