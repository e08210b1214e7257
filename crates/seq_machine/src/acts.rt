//! What an effect does to the frames, to the place in the input and to the output.
ghost use Rattle.std.specs.Prelude.{◌≡◌, ◌+◌, ◌-◌, ◌<◌, ◌≤◌, ◌^◌, ◌++◌, ◌∷◌, nat_lt, if◌then◌else◌, ℕ, true, length, slice_get, slice_set, IfOk, IfErr, IfSome, OnErr, OnOk, Ok, Err, Some, None, []};
ghost use Rattle.mem_image.specs.declared.fault.Fault.TheVariants.{Memory as NoMemory};
ghost use Rattle.mem_image.specs.declared.fault.Trap.TheVariants.{Depth as DepthTrap, Output as OutputTrap};
ghost use Rattle.seq_effects.specs.Script.{Follows, Tells, sent, ends};
ghost use Rattle.seq_effects.specs.Accesses.{alloca};
ghost use Rattle.seq_effects.specs.Values.{AreOf, Holds, SetsOwn, then_};
ghost use Rattle.seq_machine.specs.Acts.{slotted, top, with_top, next, put, keep, put_if, move_value, move_values, set_moves, arrived, taken, types_of, function_at, MovesHold, Stands, blocks_of, phis_of, entered, exit_number, result_register, op_at, back, bare_top, resumed_top, without_top, put_result, acted, control_of, acted_of, frame_limit, output_limit};
ghost use Rattle.seq_machine.specs.Frames.{CodeOk, FrameOf, FramesOf, HasMore, HoldsResult, EffectOf, result_of};
ghost use Rattle.seq_effects.specs.Flow.{IsResult};
ghost use Rattle.seq_effects.specs.Effects.{StopsAt};

use int_num::int::Int;
use ir_code::code::{Code, Edge, FunctionCode, Move};
use ir_code::op::{Op, Scalar};
use mem_image::fault::{Fault, Trap};
use mem_image::memory::Mem;
use mem_image::object::Pointer;
use pv_base::bytes::Bytes;
use pv_base::list::List;
use pv_base::place::Site;
use seq_effects::accesses::alloca;
use seq_effects::flow::may_stand;
use seq_effects::state::{Effect, Frame, Value};
use seq_effects::values::may_hold;
use std::alloc::Global;

/// A frame without registers, which stands where the top one is taken out.
fn nothing(alloc: Global) -> Frame {
    Frame {
        function: 0,
        block: 0,
        place: 0,
        registers: List::new(alloc),
        own: List::new(alloc),
    }
}

/// Takes the top frame out.
pub fn take_top(frames: &mut List<Frame>) -> Frame
    requires { 0 < length frames.old }
    ensures top { top frames.old ≡ Some result }
    ensures put { (f : _) → with_top frames.new f ≡ with_top frames.old f }
    ensures length { length frames.new ≡ length frames.old }
{
    let last = frames.len() - 1;
    let alloc = frames.alloc();
    frames.replace(last, nothing(alloc))
}

/// Puts the top frame back.
pub fn put_top(frames: &mut List<Frame>, frame: Frame)
    requires { 0 < length frames.old }
    ensures { frames.new ≡ with_top frames.old frame }
{
    let last = frames.len() - 1;
    frames.set(last, frame);
}

/// The top frame goes to the next instruction.
pub fn next(frames: &mut List<Frame>)
    requires filled { 0 < length frames.old }
    requires place { (f : _) → top frames.old ≡ Some f → f.place + 1 < 2 ^ 32 }
    ensures { (f : _) → top frames.old ≡ Some f → frames.new ≡ with_top frames.old (next f) }
{
    let mut frame = take_top(frames);
    frame.place += 1;
    put_top(frames, frame);
}

/// A register of the frame is set, and it goes to the next instruction.
fn give(frame: &mut Frame, to: u32, value: Value)
    requires place { frame.old.place + 1 < 2 ^ 32 }
    requires to { to < length frame.old.registers }
    ensures { frame.new ≡ put frame.old to value }
{
    frame.registers.set(to as usize, Some(value));
    frame.place += 1;
}

/// Sets a register of the top frame, which goes to the next instruction.
fn put(frames: &mut List<Frame>, to: u32, value: Value)
    requires filled { 0 < length frames.old }
    requires place { (f : _) → top frames.old ≡ Some f → f.place + 1 < 2 ^ 32 }
    requires to { (f : _) → top frames.old ≡ Some f → to < length f.registers }
    ensures { (f : _) → top frames.old ≡ Some f → frames.new ≡ with_top frames.old (put f to value) }
{
    let mut frame = take_top(frames);
    give(&mut frame, to, value);
    put_top(frames, frame);
}

/// Sets a register of the top frame where one is named, which goes to the next instruction.
fn put_if(frames: &mut List<Frame>, to: Option<u32>, value: Value)
    requires filled { 0 < length frames.old }
    requires place { (f : _) → top frames.old ≡ Some f → f.place + 1 < 2 ^ 32 }
    requires to { (f : _) → top frames.old ≡ Some f → IfSome to (λ r. r < length f.registers) }
    ensures { (f : _) → top frames.old ≡ Some f → frames.new ≡ with_top frames.old (put_if f to value) }
{
    match to {
        Some(to) => put(frames, to, value),
        None => next(frames),
    }
}

/// What a phi takes.
fn move_value(function: &FunctionCode, frame: &Frame, from: Move) -> Result<Value, Trap>
    ensures value { result ≡ move_value function.now frame.now from }
    ensures holds { IfOk result (Holds function.now.registers from.register) }
{
    let value = frame.operand(from.value)?;
    if may_hold(&function.registers, from.register, &value) {
        Ok(value)
    } else {
        Err(Trap::Unreachable)
    }
}

/// What the phis of an edge take.
fn move_values(
    function: &FunctionCode,
    frame: &Frame,
    moves: &List<Move>,
) -> Result<Vec<Value>, Fault>
    ensures values { Tells (move_values function.now frame.now moves.now) (sent (λ v. v.items) result) }
    ensures hold { IfOk result (λ v. MovesHold function.now.registers moves.now v.items) }
{
    let mut values = match Vec::with_capacity(moves.alloc(), moves.len()) {
        Ok(values) => values,
        Err(_) => return Err(Fault::Memory),
    };
    for from in moves.as_slice() {
        let value = match move_value(function, frame, *from) {
            Ok(value) => value,
            Err(trap) => return Err(Fault::Trap(trap)),
        };
        match values.push(value) {
            Ok(()) => {}
            Err(_) => return Err(Fault::Memory),
        }
    }
    Ok(values)
}

/// The phis take their values, all at once.
fn set_moves(
    types: &List<Scalar>,
    moves: &List<Move>,
    values: &[Value],
    registers: &mut List<Option<Value>>,
)
    requires hold { MovesHold types.now moves.now values.now }
    requires registers { AreOf types.now registers.old }
    ensures set { registers.new ≡ set_moves moves.now values.now registers.old }
    ensures registers { AreOf types.now registers.new }
{
    let mut i = 0;
    for to in moves.as_slice() {
        registers.set(to.register as usize, Some(values[i]));
        i += 1;
    }
}

/// The top frame takes an edge.
fn take_edge(function: &FunctionCode, frames: &mut List<Frame>, edge: u32) -> Result<(), Fault>
    requires filled { 0 < length frames.old }
    requires registers { (f : _) → top frames.old ≡ Some f → AreOf function.now.registers f.registers }
    ensures taken { (f : _) → top frames.old ≡ Some f → Tells (then_ (taken function.now f (slice_get function.now.edges edge)) (λ f'. Ok (with_top frames.old f'))) (ends frames.new result) }
    ensures err { OnErr result (frames.new ≡ frames.old) }
    ensures stands { OnOk result ((f : _) → top frames.old ≡ Some f → Stands function.now f frames.old frames.new) }
{
    let edge = match function.edges.get(edge as usize) {
        Some(edge) => edge,
        None => return Err(Fault::Trap(Trap::Unreachable)),
    };
    let block = match function.blocks.get(edge.to as usize) {
        Some(block) => block,
        None => return Err(Fault::Trap(Trap::Unreachable)),
    };
    if block.phis as usize >= block.ops.len() {
        return Err(Fault::Trap(Trap::Unreachable));
    }
    let top = frames.at(frames.len() - 1);
    let values = match move_values(function, top, &edge.moves) {
        Ok(values) => values,
        Err(fault) => return Err(fault),
    };
    let mut frame = take_top(frames);
    set_moves(
        &function.registers,
        &edge.moves,
        values.as_slice(),
        &mut frame.registers,
    );
    frame.block = edge.to;
    frame.place = block.phis;
    put_top(frames, frame);
    Ok(())
}

/// No more frames may stand.
const FRAME_LIMIT: usize = 4096;

/// No more bytes are printed.
const OUTPUT_LIMIT: usize = 16_777_216;

/// The place after the phis of a function's first block.
fn first_place(code: &Code, function: u32) -> u32
    ensures { result ≡ phis_of (slice_get (blocks_of (slice_get code.now.functions function)) 0) }
{
    match code.functions.get(function as usize) {
        Some(function) => match function.blocks.get(0) {
            Some(block) => block.phis,
            None => 0,
        },
        None => 0,
    }
}

/// A new frame at the start of a function.
#[tactic(auto, unfolding(crate::specs::Acts::frame_limit))]
fn enter(
    code: &Code,
    frames: &mut List<Frame>,
    function: u32,
    registers: List<Option<Value>>,
) -> Result<(), Fault>
    ensures entered { Tells (if nat_lt (length frames.old) frame_limit then Ok (frames.old ++ entered code.now function registers ∷ []) else Err DepthTrap) (ends frames.new result) }
    ensures err { OnErr result (frames.new ≡ frames.old) }
{
    if frames.len() >= FRAME_LIMIT {
        return Err(Fault::Trap(Trap::Depth));
    }
    let place = first_place(code, function);
    let own = List::new(frames.alloc());
    let frame = Frame {
        function,
        block: 0,
        place,
        registers,
        own,
    };
    match frames.push(frame) {
        Ok(()) => Ok(()),
        Err(_) => Err(Fault::Memory),
    }
}

fn number_or_zero(value: Value) -> Int
    ensures { result ≡ exit_number (Some value) }
{
    match value {
        Value::Int(n) => n,
        Value::Pointer(_) => Int::new(32, 0),
    }
}

/// The number that ends a run.
fn exit_number(value: Option<Value>) -> Int
    ensures { result ≡ exit_number value }
{
    match value {
        Some(value) => number_or_zero(value),
        None => Int::new(32, 0),
    }
}

/// The register that a call gives its result to.
fn result_register(op: &Op) -> Option<u32>
    ensures { result ≡ result_register (Some op.now) }
{
    match op {
        Op::Call { to, .. } => *to,
        Op::CallPointer { to, .. } => *to,
        _ => None,
    }
}

/// The instruction at which the frame stands.
fn fetch<'a>(code: &'a Code, frame: &Frame) -> &'a Op
    requires { FrameOf code.now frame.now }
    ensures { op_at code.now frame.now ≡ Some result.now }
{
    let function = code.functions.at(frame.function as usize);
    let block = function.blocks.at(frame.block as usize);
    block.ops.at(frame.place as usize)
}

/// The register that the call at which the top frame stands gives its result to.
fn call_register(code: &Code, frames: &List<Frame>) -> Option<u32>
    requires { FramesOf code.now frames.now }
    ensures { (f : _) → top frames.now ≡ Some f → result ≡ result_register (op_at code.now f) }
{
    result_register(fetch(code, frames.at(frames.len() - 1)))
}

/// The top frame is gone.
fn drop_top(frames: &mut List<Frame>)
    requires { 0 < length frames.old }
    ensures { frames.new ≡ without_top frames.old }
{
    let _top = frames.pop();
}

/// Gives the result of a call to the top frame, where both have one.
fn put_result(frames: &mut List<Frame>, to: Option<u32>, value: Option<Value>)
    requires filled { 0 < length frames.old }
    requires place { (f : _) → top frames.old ≡ Some f → f.place + 1 < 2 ^ 32 }
    requires to { (f : _) → top frames.old ≡ Some f → IfSome to (λ r. IfSome value (λ v. r < length f.registers)) }
    ensures { (f : _) → top frames.old ≡ Some f → frames.new ≡ with_top frames.old (put_result f to value) }
{
    match to {
        None => next(frames),
        Some(to) => match value {
            None => next(frames),
            Some(value) => put(frames, to, value),
        },
    }
}

/// The caller goes on after the call at which it stands.
fn resume(code: &Code, frames: &mut List<Frame>, value: Option<Value>)
    requires code { CodeOk code.now }
    requires frames { FramesOf code.now frames.old }
    requires waits { (f : _) → top frames.old ≡ Some f → HasMore code.now f × HoldsResult (types_of (function_at code.now f)) (result_register (op_at code.now f)) value }
    ensures frames { frames.new ≡ resumed_top code.now frames.old value (top frames.old) }
    ensures kept { FramesOf code.now frames.new }
{
    let to = call_register(code, frames);
    put_result(frames, to, value);
}

/// The top frame owns nothing more.
fn bare_top(frames: &mut List<Frame>)
    requires { 0 < length frames.old }
    ensures { frames.new ≡ bare_top frames.old (top frames.old) }
{
    let mut frame = take_top(frames);
    frame.own.clear();
    put_top(frames, frame);
}

/// The top frame is gone, and the one below goes on; from the first frame a number ends the run.
fn back(code: &Code, frames: &mut List<Frame>, value: Option<Value>) -> Option<Int>
    requires code { CodeOk code.now }
    requires frames { FramesOf code.now frames.old }
    requires value { (f : _) → top frames.old ≡ Some f → IsResult (result_of (function_at code.now f)) value }
    ensures back { (place : ℕ) (output : _) → back code.now (record { frames = frames.old; input_place = place; output = output }) value ≡ record { control = record { frames = frames.new; input_place = place; output = output }; ended = result } }
    ensures kept { FramesOf code.now frames.new }
{
    if frames.len() == 1 {
        bare_top(frames);
        return Some(exit_number(value));
    }
    drop_top(frames);
    resume(code, frames, value);
    None
}

/// Appends a text to the output.
#[tactic(auto, unfolding(crate::specs::Acts::output_limit))]
fn print(output: &mut Bytes, text: &Bytes) -> Result<(), Fault>
    ensures printed { Tells (if nat_lt output_limit (length output.old + length text.now) then Err OutputTrap else Ok (output.old ++ text.now)) (ends output.new result) }
    ensures err { OnErr result (output.new ≡ output.old) }
{
    if output.len() > OUTPUT_LIMIT || text.len() > OUTPUT_LIMIT - output.len() {
        return Err(Fault::Trap(Trap::Output));
    }
    match output.append(text.as_slice()) {
        Ok(()) => Ok(()),
        Err(_) => Err(Fault::Memory),
    }
}

/// A new stack object is the frame's own, and a register holds it.
fn keep(frames: &mut List<Frame>, to: u32, name: u32) -> Result<Option<Int>, Fault>
    requires filled { 0 < length frames.old }
    requires place { (f : _) → top frames.old ≡ Some f → f.place + 1 < 2 ^ 32 }
    requires to { (f : _) → top frames.old ≡ Some f → to < length f.registers }
    ensures kept { OnOk result ((f : _) → top frames.old ≡ Some f → frames.new ≡ with_top frames.old (keep f to name)) }
    ensures none { IfOk result (λ o. o ≡ None) }
    ensures err { OnErr result (frames.new ≡ frames.old) }
    ensures memory { IfErr result (λ e. e ≡ NoMemory) }
{
    let mut frame = take_top(frames);
    match frame.own.push(name) {
        Ok(()) => {}
        Err(_) => {
            put_top(frames, frame);
            return Err(Fault::Memory);
        }
    }
    let pointer = Pointer::Obj { name, offset: 0 };
    give(&mut frame, to, Value::Pointer(pointer));
    put_top(frames, frame);
    Ok(None)
}

/// Makes a stack object of the frame. The place of its name is taken before the memory is asked.
fn fill_slot<M: Mem>(
    types: &List<Scalar>,
    frame: &mut Frame,
    memory: &mut M,
    at: Site,
    to: u32,
    size: u64,
) -> Result<Effect, Fault>
    requires place { frame.old.place + 1 < 2 ^ 32 }
    requires registers { AreOf types.now frame.old.registers }
    requires ready { M.ready memory.old }
    ensures ready { M.ready memory.new }
    ensures follows { Follows M.image M.relation (alloca types.now at to size) memory.old result memory.new }
    ensures image { OnErr result (M.image memory.new ≡ M.image memory.old) }
    ensures sets { IfOk result (SetsOwn types.now) }
    ensures slotted { IfOk result (λ e. frame.new ≡ slotted frame.old e) }
    ensures err { OnErr result (frame.new ≡ frame.old) }
{
    let count = frame.own.len();
    match frame.own.push(0) {
        Ok(()) => {}
        Err(_) => return Err(Fault::Memory),
    }
    let done = alloca(types, memory, at, to, size);
    match &done {
        Ok(Effect::Keep { to, name }) => {
            frame.own.set(count, *name);
            let pointer = Pointer::Obj {
                name: *name,
                offset: 0,
            };
            give(frame, *to, Value::Pointer(pointer));
        }
        Ok(Effect::Give { to, value }) => {
            frame.own.truncate(count);
            give(frame, *to, *value);
        }
        _ => frame.own.truncate(count),
    }
    done
}

/// Makes a stack object of the top frame, and does the effect. A fault changes nothing.
pub fn make_slot<M: Mem>(
    types: &List<Scalar>,
    frames: &mut List<Frame>,
    memory: &mut M,
    at: Site,
    to: u32,
    size: u64,
) -> Result<Effect, Fault>
    requires filled { 0 < length frames.old }
    requires place { (f : _) → top frames.old ≡ Some f → f.place + 1 < 2 ^ 32 }
    requires registers { (f : _) → top frames.old ≡ Some f → AreOf types.now f.registers }
    requires ready { M.ready memory.old }
    ensures ready { M.ready memory.new }
    ensures follows { Follows M.image M.relation (alloca types.now at to size) memory.old result memory.new }
    ensures image { OnErr result (M.image memory.new ≡ M.image memory.old) }
    ensures sets { IfOk result (SetsOwn types.now) }
    ensures slotted { IfOk result (λ e. (f : _) → top frames.old ≡ Some f → frames.new ≡ with_top frames.old (slotted f e)) }
    ensures err { OnErr result (frames.new ≡ frames.old) }
{
    let mut frame = take_top(frames);
    let done = fill_slot(types, &mut frame, memory, at, to, size);
    put_top(frames, frame);
    done
}

/// The run goes on after a stack object was made.
pub fn slot_made(done: Result<Effect, Fault>) -> Result<Option<Int>, Fault>
    ensures { result ≡ sent (λ _. None) done }
{
    match done {
        Ok(_) => Ok(None),
        Err(fault) => Err(fault),
    }
}

/// The run goes on.
fn going_on(done: Result<(), Fault>) -> Result<Option<Int>, Fault>
    ensures { result ≡ sent (λ _. None) done }
{
    match done {
        Ok(()) => Ok(None),
        Err(fault) => Err(fault),
    }
}

/// What an effect does, where `function` is that of the top frame: a number where it ends the run. A trap or want of memory
/// changes nothing.
pub fn act(
    code: &Code,
    function: &FunctionCode,
    frames: &mut List<Frame>,
    input_place: &mut u64,
    output: &mut Bytes,
    effect: Effect,
) -> Result<Option<Int>, Fault>
    requires code { CodeOk code.now }
    requires frames { FramesOf code.now frames.old }
    requires function { (f : _) → top frames.old ≡ Some f → function_at code.now f ≡ Some function.now }
    requires effect { (f : _) → top frames.old ≡ Some f → EffectOf code.now f effect }
    ensures acted { (f : _) → top frames.old ≡ Some f → Tells (acted code.now function.now f (control_of frames.old input_place.old output.old) effect) (sent (acted_of frames.new input_place.new output.new) result) }
    ensures err { OnErr result ((frames.new ≡ frames.old) × (input_place.new ≡ input_place.old) × (output.new ≡ output.old)) }
    ensures stops { IfErr result (StopsAt effect) }
    ensures kept { FramesOf code.now frames.new }
{
    match effect {
        Effect::Next => {
            next(frames);
            Ok(None)
        }
        Effect::Give { to, value } => {
            put(frames, to, value);
            Ok(None)
        }
        Effect::Keep { to, name } => keep(frames, to, name),
        Effect::Edge { edge } => going_on(take_edge(function, frames, edge)),
        Effect::Enter {
            function: callee,
            registers,
        } => going_on(enter(code, frames, callee, registers)),
        Effect::Back { value } => Ok(back(code, frames, value)),
        Effect::Exit { code: number } => Ok(Some(number)),
        Effect::Print { text, to, value } => {
            print(output, &text)?;
            put_if(frames, to, value);
            Ok(None)
        }
        Effect::Take { place, to, value } => {
            *input_place = place;
            put_if(frames, to, value);
            Ok(None)
        }
    }
}
