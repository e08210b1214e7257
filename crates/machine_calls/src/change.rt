//! Single changes of the top frame of a state.
ghost use Rattle.std.specs.Prelude.{◌≡◌, ◌+◌, ◌<◌, ◌^◌, Some, None};
ghost use Rattle.ir_code.specs.declared.code.Code.{Code as ACode};
ghost use Rattle.machine_calls.specs.Calls.{with_changed, passed_over, with_register, register_set, MayHold, MoreIn};
ghost use Rattle.seq_machine.specs.Frames.{CodeOk};
ghost use Rattle.seq_machine.specs.Step.{StateOf, stands};

use ir_code::code::Code;
use mem_image::memory::Mem;
use pv_base::list::List;
use seq_effects::state::{Frame, Value};
use seq_machine::acts::{next, put_top, take_top};
use seq_machine::state::State;

/// The instruction at which the top frame stands is passed over, and its step is counted. Another one follows in its block.
pub fn skip<M: Mem>(code: &Code, state: &mut State<M>)
    requires code { CodeOk code.now }
    requires state { StateOf code.now (stands M.image state.old) }
    requires more { MoreIn code.now state.old.frames }
    requires steps { state.old.steps + 1 < 2 ^ 64 }
    ensures skipped { state.new ≡ passed_over state.old }
    ensures kept { StateOf code.now (stands M.image state.new) }
{
    next(&mut state.frames);
    state.steps += 1;
}

/// A register of the top frame holds the value, or none; where there is no such register, nothing changes.
fn put_register(frames: &mut List<Frame>, to: u32, value: Option<Value>)
    ensures { frames.new ≡ with_changed (with_register to value) frames.old }
{
    if frames.len() == 0 {
        return;
    }
    let mut frame = take_top(frames);
    if (to as usize) < frame.registers.len() {
        frame.registers.set(to as usize, value);
    }
    put_top(frames, frame);
}

/// A register of the top frame holds the value. A state of a module stays one where the register may hold it.
pub fn set_register<M: Mem>(state: &mut State<M>, to: u32, value: Value)
    ensures set { state.new ≡ register_set to (Some value) state.old }
    ensures kept { (code : ACode) → StateOf code (stands M.image state.old) → MayHold code state.old.frames to value → StateOf code (stands M.image state.new) }
{
    put_register(&mut state.frames, to, Some(value));
}

/// A register of the top frame holds no value.
pub fn unset_register<M: Mem>(state: &mut State<M>, to: u32)
    ensures set { state.new ≡ register_set to None state.old }
    ensures kept { (code : ACode) → StateOf code (stands M.image state.old) → StateOf code (stands M.image state.new) }
{
    put_register(&mut state.frames, to, None);
}
