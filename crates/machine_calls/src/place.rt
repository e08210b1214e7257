//! Where a state stands.
ghost use Rattle.std.specs.Prelude.{◌≡◌, ◌↔◌, IsTrue, Some};
ghost use Rattle.machine_calls.specs.Calls.{op_of, MoreIn};
ghost use Rattle.seq_machine.specs.Acts.{top, block_at};
ghost use Rattle.seq_machine.specs.Frames.{CodeOk, FramesOf};
ghost use Rattle.seq_machine.specs.Step.{site_of};
ghost use Rattle.seq_run.specs.Headers.{header_of};

use ir_code::code::{BlockCode, Code};
use ir_code::op::Op;
use pv_base::list::List;
use pv_base::place::Site;
use seq_effects::state::Frame;
use seq_machine::machine::site;
use seq_machine::state::State;
use seq_run::header::header_of;
use seq_run::headers::Headers;

/// The site of the instruction at which the top frame stands.
pub fn here<M>(code: &Code, state: &State<M>) -> Site
    requires code { CodeOk code.now }
    requires frames { FramesOf code.now state.now.frames }
    ensures { result ≡ site_of code.now (top state.now.frames) }
{
    site(code, &state.frames)
}

/// The instruction at which the top one of these frames stands.
fn op_of_top<'a>(code: &'a Code, frames: &List<Frame>) -> &'a Op
    requires { FramesOf code.now frames.now }
    ensures { op_of code.now (top frames.now) ≡ Some result.now }
{
    let frame = frames.at(frames.len() - 1);
    let function = code.functions.at(frame.function as usize);
    let block = function.blocks.at(frame.block as usize);
    block.ops.at(frame.place as usize)
}

/// The instruction at which the top frame stands.
pub fn op_here<'a, M>(code: &'a Code, state: &State<M>) -> &'a Op
    requires { FramesOf code.now state.now.frames }
    ensures { op_of code.now (top state.now.frames) ≡ Some result.now }
{
    op_of_top(code, &state.frames)
}

/// The block in which the top one of these frames stands.
pub(crate) fn block_of_top<'a>(code: &'a Code, frames: &List<Frame>) -> &'a BlockCode
    requires { FramesOf code.now frames.now }
    ensures { (f : _) → top frames.now ≡ Some f → block_at code.now f ≡ Some result.now }
{
    let frame = frames.at(frames.len() - 1);
    let function = code.functions.at(frame.function as usize);
    function.blocks.at(frame.block as usize)
}

/// Whether another instruction follows in the block in which the top one of these frames stands.
fn has_more_on_top(code: &Code, frames: &List<Frame>) -> bool
    requires { FramesOf code.now frames.now }
    ensures { IsTrue result ↔ MoreIn code.now frames.now }
{
    let block = block_of_top(code, frames);
    (frames.at(frames.len() - 1).place as usize) + 1 < block.ops.len()
}

/// Whether another instruction follows in the block in which the top frame stands.
pub fn has_more<M>(code: &Code, state: &State<M>) -> bool
    requires { FramesOf code.now state.now.frames }
    ensures { IsTrue result ↔ MoreIn code.now state.now.frames }
{
    has_more_on_top(code, &state.frames)
}

/// The least place in the list of the header at which the top frame stands, right after the phis of its block.
pub fn header_here<M>(code: &Code, headers: &Headers, state: &State<M>) -> Option<u32>
    requires { FramesOf code.now state.now.frames }
    ensures { result ≡ header_of code.now headers.now state.now.frames }
{
    header_of(code, headers, &state.frames)
}
