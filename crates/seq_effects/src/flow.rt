//! Branches, calls and returns.
ghost use Rattle.std.specs.Prelude.{◌≡◌, ◌≤◌, ℕ, true, length, slice_get, IfOk, OnErr, Some, None};
ghost use Rattle.std.specs.Option.{option_copied};
ghost use Rattle.seq_effects.specs.Script.{Follows, Tells, sent};
ghost use Rattle.seq_effects.specs.Values.{operands, may_hold, Holds, HaveTypes};
ghost use Rattle.seq_effects.specs.Flow.{branched, switched, may_stand, fit, receives, entry_registers, may_enter, enter, called, same_types, same_result, has_type, callee, called_through, result_value, is_result, returned, IsResult, IsEntry, IsEntryOf, IsReturn};
ghost use Rattle.seq_effects.specs.declared.state.Effect.TheVariants as effect;

use crate::state::{Effect, Frame, Value};
use crate::values::{is_of, is_type};
use ir_code::cases::Cases;
use ir_code::code::{Code, FunctionCode};
use ir_code::op::{Operand, Scalar};
use mem_image::fault::{Fault, Trap};
use mem_image::memory::Mem;
use mem_image::object::Pointer;
use pv_base::list::List;
use pv_base::want::Memory;
use std::alloc::Global;

/// Takes one of two edges.
pub fn branch(
    frame: &Frame,
    condition: Operand,
    on_true: u32,
    on_false: u32,
) -> Result<Effect, Trap>
    ensures { result ≡ branched frame.now condition on_true on_false }
{
    if frame.condition(condition)? {
        Ok(Effect::Edge { edge: on_true })
    } else {
        Ok(Effect::Edge { edge: on_false })
    }
}

impl Frame {
    /// The values of operands, from left to right.
    pub fn values(&self, alloc: Global, from: &[Operand]) -> Result<Vec<Value>, Fault>
        ensures { Tells (operands self.now from.now) (sent (λ v. v.items) result) }
    {
        let mut values = match Vec::with_capacity(alloc, from.len()) {
            Ok(values) => values,
            Err(_) => return Err(Fault::Memory),
        };
        for operand in from {
            let value = match self.operand(*operand) {
                Ok(value) => value,
                Err(trap) => return Err(Fault::Trap(trap)),
            };
            match values.push(value) {
                Ok(()) => {}
                Err(_) => return Err(Fault::Memory),
            }
        }
        Ok(values)
    }

    /// The values of a list of operands.
    pub fn operands(&self, from: &List<Operand>) -> Result<Vec<Value>, Fault>
        ensures { Tells (operands self.now from.now) (sent (λ v. v.items) result) }
    {
        self.values(from.alloc(), from.as_slice())
    }
}

/// Whether a frame may stand in the block of that number.
pub fn may_stand(function: &FunctionCode, block: u32) -> bool
    ensures { result ≡ may_stand (slice_get function.now.blocks block) }
{
    match function.blocks.get(block as usize) {
        Some(block) => (block.phis as usize) < block.ops.len(),
        None => false,
    }
}

/// Whether there is such a type and the value is of it.
fn fits_at(types: &List<Scalar>, place: usize, value: &Value) -> bool
    ensures same { result ≡ may_hold (slice_get types.now place) value.now }
    ensures holds { result ≡ true → Holds types.now place value.now }
{
    match types.get(place) {
        Some(of) => is_of(value, *of),
        None => false,
    }
}

/// Whether the values are of the first of these types.
fn fit(types: &List<Scalar>, values: &[Value]) -> bool
    ensures same { result ≡ fit types.now values.now }
    ensures holds { result ≡ true → HaveTypes types.now values.now }
{
    for i in 0..values.len() {
        if !fits_at(types, i, &values[i]) {
            return false;
        }
    }
    true
}

/// Whether a register, where one is named, may hold the result of a function.
fn receives(types: &List<Scalar>, to: Option<u32>, result_type: Option<Scalar>) -> bool
    ensures { result ≡ receives types.now to result_type }
{
    match to {
        None => true,
        Some(to) => match result_type {
            None => false,
            Some(of) => match types.get(to as usize) {
                Some(held) => is_type(*held, of),
                None => false,
            },
        },
    }
}

/// The registers of a new frame.
fn entry_registers(function: &FunctionCode, values: &[Value]) -> Result<List<Option<Value>>, Memory>
    requires { length values.now ≤ length function.now.registers }
    ensures { IfOk result (λ registers. registers ≡ entry_registers function.now values.now) }
{
    let alloc = function.registers.alloc();
    let mut registers = List::repeat(alloc, None, function.registers.len())?;
    for i in 0..values.len() {
        registers.set(i, Some(values[i]));
    }
    Ok(registers)
}

/// Enters the function of that number.
fn enter(
    code: &Code,
    types: &List<Scalar>,
    to: Option<u32>,
    function: u32,
    values: &[Value],
) -> Result<Effect, Fault>
    ensures effect { Tells (enter code.now types.now to function values.now) result }
    ensures entry { IfOk result (IsEntry code.now types.now to function) }
{
    let callee = match code.functions.get(function as usize) {
        Some(callee) => callee,
        None => return Err(Fault::Trap(Trap::Unreachable)),
    };
    if values.len() != callee.parameters.len()
        || !fit(&callee.registers, values)
        || !may_stand(callee, 0)
        || !receives(types, to, callee.result)
    {
        return Err(Fault::Trap(Trap::Unreachable));
    }
    match entry_registers(callee, values) {
        Ok(registers) => Ok(Effect::Enter {
            function,
            registers,
        }),
        Err(_) => Err(Fault::Memory),
    }
}

/// A call of a function that the module defines.
pub fn call(
    code: &Code,
    types: &List<Scalar>,
    frame: &Frame,
    to: Option<u32>,
    function: u32,
    arguments: &List<Operand>,
) -> Result<Effect, Fault>
    ensures effect { Tells (called code.now types.now frame.now to function arguments.now) result }
    ensures entry { IfOk result (IsEntry code.now types.now to function) }
{
    match frame.operands(arguments) {
        Ok(values) => enter(code, types, to, function, values.as_slice()),
        Err(fault) => Err(fault),
    }
}

/// Whether the lists of types are one.
fn same_types(one: &[Scalar], other: &[Scalar]) -> bool
    ensures { result ≡ same_types one.now other.now }
{
    if one.len() != other.len() {
        return false;
    }
    for i in 0..one.len() {
        if !is_type(one[i], other[i]) {
            return false;
        }
    }
    true
}

fn same_result(one: Option<Scalar>, other: Option<Scalar>) -> bool
    ensures { result ≡ same_result one other }
{
    match one {
        None => match other {
            None => true,
            Some(_) => false,
        },
        Some(one) => match other {
            None => false,
            Some(other) => is_type(one, other),
        },
    }
}

/// Whether the function is defined and has this type.
fn has_type(function: &FunctionCode, result_type: Option<Scalar>, parameters: &List<Scalar>) -> bool
    ensures { result ≡ has_type result_type parameters.now (Some function.now) }
{
    !function.declared
        && same_result(function.result, result_type)
        && same_types(function.parameters.as_slice(), parameters.as_slice())
}

/// The function that a pointer names.
fn callee(
    code: &Code,
    pointer: Pointer,
    result_type: Option<Scalar>,
    parameters: &List<Scalar>,
) -> Result<u32, Trap>
    ensures function { result ≡ callee code.now pointer result_type parameters.now }
    ensures typed { IfOk result (λ k. has_type result_type parameters.now (slice_get code.now.functions k) ≡ true) }
{
    match pointer {
        Pointer::Fun { index } => match code.functions.get(index as usize) {
            Some(function) => {
                if has_type(function, result_type, parameters) {
                    Ok(index)
                } else {
                    Err(Trap::Callee)
                }
            }
            None => Err(Trap::Callee),
        },
        _ => Err(Trap::Callee),
    }
}

/// A call through a pointer.
pub fn call_pointer(
    code: &Code,
    types: &List<Scalar>,
    frame: &Frame,
    to: Option<u32>,
    through: Operand,
    result_type: Option<Scalar>,
    parameters: &List<Scalar>,
    arguments: &List<Operand>,
) -> Result<Effect, Fault>
    ensures effect { Tells (called_through code.now types.now frame.now to through result_type parameters.now arguments.now) result }
    ensures entry { IfOk result (IsEntryOf code.now types.now to result_type parameters.now) }
{
    let pointer = match frame.pointer(through) {
        Ok(pointer) => pointer,
        Err(trap) => return Err(Fault::Trap(trap)),
    };
    let values = match frame.operands(arguments) {
        Ok(values) => values,
        Err(fault) => return Err(fault),
    };
    match callee(code, pointer, result_type, parameters) {
        Ok(function) => enter(code, types, to, function, values.as_slice()),
        Err(trap) => Err(Fault::Trap(trap)),
    }
}

/// The value that is returned.
fn result_value(frame: &Frame, value: Option<Operand>) -> Result<Option<Value>, Trap>
    ensures { result ≡ result_value frame.now value }
{
    match value {
        Some(value) => {
            let value = frame.operand(value)?;
            Ok(Some(value))
        }
        None => Ok(None),
    }
}

/// Whether the value is one of a result of that type.
fn is_result(result_type: Option<Scalar>, value: &Option<Value>) -> bool
    ensures same { result ≡ is_result result_type value.now }
    ensures holds { result ≡ true → IsResult result_type value.now }
{
    match value {
        None => match result_type {
            None => true,
            Some(_) => false,
        },
        Some(value) => match result_type {
            None => false,
            Some(of) => is_of(value, of),
        },
    }
}

/// Ends the frame, and the objects that are its own.
pub fn end<M: Mem>(
    function: &FunctionCode,
    frame: &Frame,
    memory: &mut M,
    value: Option<Operand>,
) -> Result<Effect, Fault>
    requires ready { M.ready memory.old }
    ensures ready { M.ready memory.new }
    ensures follows { Follows M.image M.relation (returned function.now frame.now value) memory.old result memory.new }
    ensures image { OnErr result (M.image memory.new ≡ M.image memory.old) }
    ensures back { IfOk result (IsReturn function.now.result) }
{
    let value = result_value(frame, value)?;
    if !is_result(function.result, &value) {
        return Err(Fault::Trap(Trap::Unreachable));
    }
    memory.end_frame(&frame.own);
    Ok(Effect::Back { value })
}

/// Takes the edge of a value, or the default.
pub fn switch(frame: &Frame, value: Operand, default: u32, cases: &Cases) -> Result<Effect, Trap>
    ensures { result ≡ switched frame.now value default cases.now }
{
    let value = frame.number(value)?;
    let edge = cases.edge(value.bits()).unwrap_or(default);
    Ok(Effect::Edge { edge })
}
