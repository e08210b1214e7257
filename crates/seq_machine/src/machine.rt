//! One step over any memory.
ghost use Rattle.std.specs.Prelude.{◌≡◌, ◌+◌, ◌<◌, ◌^◌, nat_lt, not, ◌||◌, length, slice_get, OnErr, Some, true};
ghost use Rattle.mem_image.specs.Picture.{IsPicture};
ghost use Rattle.seq_machine.specs.Owned.{OwnOf};
ghost use Rattle.seq_effects.specs.Script.{Follows, chain, tell, sent};
ghost use Rattle.seq_machine.specs.Acts.{top, acted, acted_of, control_of, function_at, block_at, op_at, ops_of};
ghost use Rattle.seq_machine.specs.Frames.{CodeOk, FramesOf, FrameOf, HasMore};
ghost use Rattle.seq_machine.specs.Meaning.{meaning, is_inner};
ghost use Rattle.seq_machine.specs.Step.{settled, counted, here, script, site_of, site_at, has_next, StateOf, StepsTo, control, stands, shown};

use crate::acts::{act, make_slot, slot_made};
use crate::execute::execute;
use crate::state::{State, Step};
use int_num::int::Int;
use ir_code::code::{BlockCode, Code, FunctionCode};
use ir_code::op::Op;
use mem_image::fault::{Fault, Trap};
use mem_image::memory::Mem;
use pv_base::bytes::Bytes;
use pv_base::list::List;
use pv_base::place::Site;
use pv_base::want::Memory;
use seq_effects::state::Frame;

/// The answer of a step, which is counted.
fn settle(done: Result<Option<Int>, Fault>, site: Site, steps: &mut u64) -> Result<Step, Memory>
    requires { steps.old + 1 < 2 ^ 64 }
    ensures answer { result ≡ settled site done }
    ensures steps { steps.new ≡ counted done steps.old }
{
    match done {
        Ok(None) => {
            *steps += 1;
            Ok(Step::Next)
        }
        Ok(Some(n)) => {
            *steps += 1;
            Ok(Step::Ended(n))
        }
        Err(Fault::Trap(trap)) => {
            *steps += 1;
            Ok(Step::Trap(trap, site))
        }
        Err(Fault::Check(fault)) => Ok(Step::Failed(fault, site)),
        Err(Fault::Memory) => Err(Memory),
    }
}

/// Whether the block goes on after the instruction.
fn is_inner(op: &Op) -> bool
    ensures { result ≡ is_inner op.now }
{
    match op {
        Op::Return { .. } => false,
        Op::Jump { .. } => false,
        Op::Branch { .. } => false,
        Op::Switch { .. } => false,
        Op::Unreachable => false,
        Op::Stuck => false,
        _ => true,
    }
}

/// An instruction of the top frame, and what its effect does. A fault changes nothing.
fn perform<M: Mem>(
    code: &Code,
    function: &FunctionCode,
    op: &Op,
    site: Site,
    frames: &mut List<Frame>,
    memory: &mut M,
    input: &[u8],
    input_place: &mut u64,
    output: &mut Bytes,
) -> Result<Option<Int>, Fault>
    requires code { CodeOk code.now }
    requires frames { FramesOf code.now frames.old }
    requires picture { IsPicture (M.image memory.old) }
    requires own { OwnOf frames.old (M.image memory.old) }
    requires function { (f : _) → top frames.old ≡ Some f → function_at code.now f ≡ Some function.now }
    requires op { (f : _) → top frames.old ≡ Some f → op_at code.now f ≡ Some op.now }
    requires more { (f : _) → top frames.old ≡ Some f → is_inner op.now ≡ true → HasMore code.now f }
    requires site { (f : _) → top frames.old ≡ Some f → site ≡ site_at code.now f }
    requires ready { M.ready memory.old }
    ensures ready { M.ready memory.new }
    ensures follows { (f : _) → top frames.old ≡ Some f → Follows M.image M.relation (chain (meaning (here code.now function.now f input.now input_place.old) op.now) (λ e. tell (acted code.now function.now f (control_of frames.old input_place.old output.old) e))) memory.old (sent (acted_of frames.new input_place.new output.new) result) memory.new }
    ensures err { OnErr result ((frames.new ≡ frames.old) × (input_place.new ≡ input_place.old) × (output.new ≡ output.old)) }
    ensures image { OnErr result (M.image memory.new ≡ M.image memory.old) }
    ensures kept { FramesOf code.now frames.new }
    ensures picture { IsPicture (M.image memory.new) }
    ensures own { OwnOf frames.new (M.image memory.new) }
{
    match op {
        Op::Alloca { to, size } => slot_made(make_slot(
            &function.registers,
            frames,
            memory,
            site,
            *to,
            *size,
        )),
        _ => {
            let frame = frames.at(frames.len() - 1);
            match execute(code, function, frame, memory, site, input, *input_place, op) {
                Ok(effect) => act(code, function, frames, input_place, output, effect),
                Err(fault) => Err(fault),
            }
        }
    }
}

/// Whether the block, of so many instructions, goes on after the one at that place, or the instruction ends it.
fn has_next(op: &Op, place: u32, count: usize) -> bool
    ensures { result ≡ (not (is_inner op.now) || nat_lt (place + 1) count) }
{
    !is_inner(op) || (place as usize) + 1 < count
}

/// The instruction at which the top frame stands.
fn advance<M: Mem>(
    code: &Code,
    site: Site,
    frames: &mut List<Frame>,
    memory: &mut M,
    input: &[u8],
    input_place: &mut u64,
    output: &mut Bytes,
) -> Result<Option<Int>, Fault>
    requires code { CodeOk code.now }
    requires frames { FramesOf code.now frames.old }
    requires picture { IsPicture (M.image memory.old) }
    requires own { OwnOf frames.old (M.image memory.old) }
    requires site { site ≡ site_of code.now (top frames.old) }
    requires ready { M.ready memory.old }
    ensures ready { M.ready memory.new }
    ensures follows { Follows M.image M.relation (script code.now input.now (control_of frames.old input_place.old output.old)) memory.old (sent (acted_of frames.new input_place.new output.new) result) memory.new }
    ensures err { OnErr result ((frames.new ≡ frames.old) × (input_place.new ≡ input_place.old) × (output.new ≡ output.old)) }
    ensures image { OnErr result (M.image memory.new ≡ M.image memory.old) }
    ensures kept { FramesOf code.now frames.new }
    ensures picture { IsPicture (M.image memory.new) }
    ensures own { OwnOf frames.new (M.image memory.new) }
{
    let frame = frames.at(frames.len() - 1);
    let function = code.functions.at(frame.function as usize);
    let block = function.blocks.at(frame.block as usize);
    let op = block.ops.at(frame.place as usize);
    if !has_next(op, frame.place, block.ops.len()) {
        return Err(Fault::Trap(Trap::Unreachable));
    }
    perform(
        code,
        function,
        op,
        site,
        frames,
        memory,
        input,
        input_place,
        output,
    )
}

/// The site of the instruction at which the top frame stands.
pub fn site(code: &Code, frames: &List<Frame>) -> Site
    requires code { CodeOk code.now }
    requires frames { FramesOf code.now frames.now }
    ensures { result ≡ site_of code.now (top frames.now) }
{
    let frame = frames.at(frames.len() - 1);
    let function = code.functions.at(frame.function as usize);
    let block = function.blocks.at(frame.block as usize);
    Site {
        function: frame.function,
        place: block.first + frame.place,
    }
}

/// Takes one step. A trap changes nothing but the count of steps; a failed check or want of memory changes nothing.
pub fn step<M: Mem>(code: &Code, state: &mut State<M>, input: &[u8]) -> Result<Step, Memory>
    requires code { CodeOk code.now }
    requires state { StateOf code.now (stands M.image state.old) }
    requires steps { state.old.steps + 1 < 2 ^ 64 }
    requires ready { M.ready state.old.memory }
    ensures ready { M.ready state.new.memory }
    ensures kept { StateOf code.now (stands M.image state.new) }
    ensures follows { Follows M.image M.relation (script code.now input.now (control state.old)) state.old.memory (shown state.new result) state.new.memory }
    ensures step { StepsTo code.now input.now (stands M.image state.old) result (stands M.image state.new) }
    ensures unmoved { OnErr result (stands M.image state.new ≡ stands M.image state.old) }
{
    let site = site(code, &state.frames);
    let done = advance(
        code,
        site,
        &mut state.frames,
        &mut state.memory,
        input,
        &mut state.input_place,
        &mut state.output,
    );
    settle(done, site, &mut state.steps)
}
