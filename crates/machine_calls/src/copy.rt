//! Copies of frames and states.
ghost use Rattle.std.specs.Prelude.{◌≡◌, IfOk};

use mem_image::image::Image;
use pv_base::list::List;
use pv_base::want::Memory;
use seq_effects::state::Frame;
use seq_machine::state::State;
use std::alloc::Global;

/// An equal frame.
pub fn copy_frame(frame: &Frame) -> Result<Frame, Memory>
    ensures { IfOk result (λ f. f ≡ frame.now) }
{
    let registers = List::from_slice(frame.registers.alloc(), frame.registers.as_slice())?;
    let own = List::from_slice(frame.own.alloc(), frame.own.as_slice())?;
    Ok(Frame {
        function: frame.function,
        block: frame.block,
        place: frame.place,
        registers,
        own,
    })
}

/// An equal list of frames.
fn copy_frames(alloc: Global, frames: &[Frame]) -> Result<List<Frame>, Memory>
    ensures { IfOk result (λ all. all ≡ frames.now) }
{
    let mut all = List::new(alloc);
    for number in 0..frames.len() {
        all.push(copy_frame(&frames[number])?)?;
    }
    Ok(all)
}

/// An equal state, in time and memory linear in the state.
pub fn copy_state(state: &State<Image>) -> Result<State<Image>, Memory>
    ensures { IfOk result (λ s. s ≡ state.now) }
{
    let frames = copy_frames(state.frames.alloc(), state.frames.as_slice())?;
    let memory = state.memory.copy()?;
    let output = state.output.copy()?;
    Ok(State {
        frames,
        memory,
        input_place: state.input_place,
        output,
        steps: state.steps,
    })
}
