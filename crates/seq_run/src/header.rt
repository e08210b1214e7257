//! Runs to a header.
ghost use Rattle.std.specs.Prelude.{◌≡◌, ◌-◌, IfOk, OnErr};
ghost use Rattle.ir_code.specs.Coding.{code_of};
ghost use Rattle.seq_machine.specs.Frames.{CodeOk, FramesOf};
ghost use Rattle.seq_machine.specs.Step.{IsAhead, StateOf};
ghost use Rattle.seq_run.specs.Headers.{header_of, to_header};

use crate::headers::Headers;
use checked_code::program::Program;
use ir_code::code::Code;
use mem_image::image::Image;
use pv_base::list::List;
use pv_base::want::Memory;
use seq_effects::state::Frame;
use seq_machine::machine::step;
use seq_machine::state::{State, Step, Stop};

/// The least place in the list of the header at which the top frame stands, right after the phis of its block.
pub fn header_of(code: &Code, headers: &Headers, frames: &List<Frame>) -> Option<u32>
    requires { FramesOf code.now frames.now }
    ensures { result ≡ header_of code.now headers.now frames.now }
{
    let frame = frames.at(frames.len() - 1);
    let function = code.functions.at(frame.function as usize);
    let block = function.blocks.at(frame.block as usize);
    if frame.place == block.phis {
        headers.place(frame.function, frame.block)
    } else {
        None
    }
}

/// Takes steps until one ends or traps, or leads to a header of the list, or the state has taken `n`.
fn run_on(
    code: &Code,
    state: &mut State<Image>,
    input: &[u8],
    n: u64,
    headers: &Headers,
) -> Result<Stop, Memory>
    requires code { CodeOk code.now }
    requires state { StateOf code.now state.old }
    ensures kept { StateOf code.now state.new }
    ensures ahead { OnErr result (IsAhead code.now input.now state.old (n - state.old.steps) state.new) }
    ensures rest { OnErr result (to_header code.now input.now headers.now state.new (n - state.new.steps) ≡ to_header code.now input.now headers.now state.old (n - state.old.steps)) }
    ensures run { IfOk result (λ stop. to_header code.now input.now headers.now state.old (n - state.old.steps) ≡ (stop, state.new)) }
{
    while state.steps < n {
        match step(code, state, input)? {
            Step::Next => {}
            Step::Ended(value) => return Ok(Stop::Ended(value)),
            Step::Trap(trap, site) => return Ok(Stop::Trapped(trap, site)),
            Step::Failed(_, _) => unreachable!(),
        }
        if let Some(place) = header_of(code, headers, &state.frames) {
            return Ok(Stop::AtHeader(place));
        }
    }
    Ok(Stop::Spent)
}

/// Goes on with a run from a state of the program, by at least one step where the state has taken fewer than `n`, to the first
/// state whose top frame stands right after the phis of a listed header. The answer is the least place of that header in the
/// list, or how the run ended or trapped before, or that the state has taken `n` steps. Want of memory leaves the state after
/// the steps that were taken; to go on from there answers what the whole run answers.
pub fn run_to_header(
    program: &Program,
    state: &mut State<Image>,
    input: &[u8],
    n: u64,
    headers: &Headers,
) -> Result<Stop, Memory>
    requires state { StateOf (code_of program.now) state.old }
    ensures kept { StateOf (code_of program.now) state.new }
    ensures ahead { OnErr result (IsAhead (code_of program.now) input.now state.old (n - state.old.steps) state.new) }
    ensures rest { OnErr result (to_header (code_of program.now) input.now headers.now state.new (n - state.new.steps) ≡ to_header (code_of program.now) input.now headers.now state.old (n - state.old.steps)) }
    ensures run { IfOk result (λ stop. to_header (code_of program.now) input.now headers.now state.old (n - state.old.steps) ≡ (stop, state.new)) }
{
    run_on(program.code(), state, input, n, headers)
}
