//! The first state of a program.
ghost use Rattle.std.specs.Prelude.{◌≡◌, ◌<◌, ◌≤◌, ◌^◌, length, slice_get, Some, IfOk, OnOk};
ghost use Rattle.ir_code.specs.Coding.{code_of};
ghost use Rattle.ir_bytes.specs.Initial.{first_picture};
ghost use Rattle.seq_effects.specs.Flow.{entry_registers};
ghost use Rattle.seq_machine.specs.Acts.{entered};
ghost use Rattle.seq_machine.specs.Step.{StateOf};
ghost use Rattle.seq_run.specs.First.{main_arguments, main_registers, first_frames, first_state};

use checked_code::laws::globals_fit;
use checked_code::program::Program;
use int_num::int::Int;
use ir_bytes::image::first_image;
use ir_code::code::{Code, FunctionCode};
use ir_code::fixed::Constants;
use mem_image::image::Image;
use mem_image::object::Pointer;
use pv_base::bytes::Bytes;
use pv_base::list::List;
use pv_base::want::Memory;
use seq_effects::state::{Frame, Value};
use seq_machine::state::State;
use std::alloc::Global;

/// There are so many names.
const NAMES: usize = 2_147_483_648;

/// The memory in which the program starts.
fn first_memory(program: &Program) -> Result<Image, Memory>
    ensures { IfOk result (λ image. image ≡ first_picture program.now) }
{
    let module = program.module();
    if module.globals().len() > NAMES {
        return Err(Memory);
    }
    globals_fit();
    let constants = Constants::new(program.alloc(), module)?;
    first_image(program.alloc(), module, &constants)
}

/// The registers of `main`: its arguments, where it has any, and others that are not set.
#[tactic(auto, using(crate::proofs::Firsts::registers_none, crate::proofs::Firsts::registers_two))]
fn main_registers(alloc: Global, function: &FunctionCode) -> Result<List<Option<Value>>, Memory>
    requires { length (main_arguments function.now.parameters) ≤ length function.now.registers }
    ensures { IfOk result (λ registers. registers ≡ main_registers (Some function.now)) }
{
    let mut registers = List::repeat(alloc, None, function.registers.len())?;
    if function.parameters.len() == 0 {
        return Ok(registers);
    }
    registers.set(0, Some(Value::Int(Int::new(32, 0))));
    registers.set(1, Some(Value::Pointer(Pointer::Null)));
    Ok(registers)
}

/// The frame of `main` at its first instruction behind the phis of its entry block.
fn main_frame(
    alloc: Global,
    code: &Code,
    number: u32,
    function: &FunctionCode,
) -> Result<Frame, Memory>
    requires found { slice_get code.now.functions number ≡ Some function.now }
    requires block { 0 < length function.now.blocks }
    requires room { length (main_arguments function.now.parameters) ≤ length function.now.registers }
    ensures { IfOk result (λ f. f ≡ entered code.now number (main_registers (Some function.now))) }
{
    Ok(Frame {
        function: number,
        block: 0,
        place: function.blocks.at(0).phis,
        registers: main_registers(alloc, function)?,
        own: List::new(alloc),
    })
}

/// One frame, of `main`.
fn first_frames(program: &Program) -> Result<List<Frame>, Memory>
    ensures { IfOk result (λ frames. frames ≡ first_frames (code_of program.now) (code_of program.now).main) }
{
    program.starts();
    let code = program.code();
    let mut frames = List::new(program.alloc());
    if let Some(number) = code.main {
        let function = code.functions.at(number as usize);
        frames.push(main_frame(program.alloc(), code, number, function)?)?;
    }
    Ok(frames)
}

/// The state in which a program starts: its globals are named by their numbers, and one frame stands at the first instruction of
/// `main` behind phis, with the arguments 0 and null where it takes two.
pub fn start(program: &Program) -> Result<State<Image>, Memory>
    ensures state { IfOk result (λ s. s ≡ first_state program.now) }
    ensures module { IfOk result (StateOf (code_of program.now)) }
{
    program.starts();
    let frames = first_frames(program)?;
    let memory = first_memory(program)?;
    memory.next();
    Ok(State {
        frames,
        memory,
        input_place: 0,
        output: Bytes::new(program.alloc()),
        steps: 0,
    })
}
