//! What an operand gives in a frame, and what a register may hold.
ghost use Rattle.std.specs.Prelude.{◌≡◌, true, IfOk, length, slice_get, Some, Ok};
ghost use Rattle.seq_effects.specs.Values.{operand, number, pointer, operands, as_number, as_pointer, constant, is_of, is_type, may_hold, IsOf, Holds, Sets, then_, given, trapping, bit};
ghost use Rattle.seq_effects.specs.declared.state.Value.TheVariants.{Int as IntValue};

use crate::state::{Effect, Frame, Value};
use int_num::int::Int;
use int_num::ops::Poison;
use ir_code::op::{Fixed, Operand, Scalar};
use mem_image::fault::{Fault, Trap};
use mem_image::object::Pointer;
use pv_base::list::List;

fn constant(fixed: Fixed) -> Result<Value, Trap>
    ensures { result ≡ constant fixed }
{
    match fixed {
        Fixed::Int(n) => Ok(Value::Int(n)),
        Fixed::Null => Ok(Value::Pointer(Pointer::Null)),
        Fixed::Global { index, offset } => Ok(Value::Pointer(Pointer::Obj {
            name: index,
            offset,
        })),
        Fixed::Function(index) => Ok(Value::Pointer(Pointer::Fun { index })),
        Fixed::Nowhere => Err(Trap::Null),
    }
}

fn as_number(value: Value) -> Result<Int, Trap>
    ensures { result ≡ as_number value }
{
    match value {
        Value::Int(n) => Ok(n),
        Value::Pointer(_) => Err(Trap::Unreachable),
    }
}

fn as_pointer(value: Value) -> Result<Pointer, Trap>
    ensures { result ≡ as_pointer value }
{
    match value {
        Value::Int(_) => Err(Trap::Unreachable),
        Value::Pointer(p) => Ok(p),
    }
}

impl Frame {
    /// The value of an operand.
    pub fn operand(&self, from: Operand) -> Result<Value, Trap>
        ensures { result ≡ operand self.now from }
    {
        match from {
            Operand::Register(register) => match self.registers.get(register as usize) {
                Some(Some(value)) => Ok(*value),
                _ => Err(Trap::UnsetRegister),
            },
            Operand::Constant(fixed) => constant(fixed),
        }
    }

    /// The value of an operand that is an integer.
    pub fn number(&self, from: Operand) -> Result<Int, Trap>
        ensures { result ≡ number self.now from }
    {
        as_number(self.operand(from)?)
    }

    /// The value of an operand that is a pointer.
    pub fn pointer(&self, from: Operand) -> Result<Pointer, Trap>
        ensures { result ≡ pointer self.now from }
    {
        as_pointer(self.operand(from)?)
    }
}

/// Whether the integer is of the type.
fn is_number_of(n: Int, of: Scalar) -> bool
    ensures same { result ≡ is_of (IntValue n) of }
    ensures holds { result ≡ true → IsOf of (IntValue n) }
{
    match of {
        Scalar::Int(width) => n.width() == width,
        Scalar::Pointer => false,
    }
}

/// Whether the value is of the type.
pub fn is_of(value: &Value, of: Scalar) -> bool
    ensures same { result ≡ is_of value.now of }
    ensures holds { result ≡ true → IsOf of value.now }
{
    match value {
        Value::Int(n) => is_number_of(*n, of),
        Value::Pointer(_) => match of {
            Scalar::Int(_) => false,
            Scalar::Pointer => true,
        },
    }
}

/// Whether the types are one.
pub fn is_type(one: Scalar, other: Scalar) -> bool
    ensures same { result ≡ is_type one other }
    ensures holds { result ≡ true → one ≡ other }
{
    match one {
        Scalar::Int(width) => match other {
            Scalar::Int(other) => width == other,
            Scalar::Pointer => false,
        },
        Scalar::Pointer => match other {
            Scalar::Int(_) => false,
            Scalar::Pointer => true,
        },
    }
}

/// Whether the register is one that may hold the value.
pub fn may_hold(types: &List<Scalar>, to: u32, value: &Value) -> bool
    ensures same { result ≡ may_hold (slice_get types.now to) value.now }
    ensures holds { result ≡ true → Holds types.now to value.now }
{
    match types.get(to as usize) {
        Some(of) => is_of(value, *of),
        None => false,
    }
}

/// Gives the register a value of its type.
pub fn give(types: &List<Scalar>, to: u32, value: Value) -> Result<Effect, Trap>
    ensures effect { result ≡ given types.now to value }
    ensures sets { IfOk result (Sets types.now) }
{
    if may_hold(types, to, &value) {
        Ok(Effect::Give { to, value })
    } else {
        Err(Trap::Unreachable)
    }
}

/// Gives the register an integer, or the trap of a result that is none.
pub fn give_number(types: &List<Scalar>, to: u32, of: Result<Int, Poison>) -> Result<Effect, Trap>
    ensures effect { result ≡ then_ (trapping of) (λ n. given types.now to (IntValue n)) }
    ensures sets { IfOk result (Sets types.now) }
{
    match of {
        Ok(n) => give(types, to, Value::Int(n)),
        Err(Poison::Overflow) => Err(Trap::Overflow),
        Err(Poison::Shift) => Err(Trap::Shift),
        Err(Poison::Divide) => Err(Trap::Divide),
        Err(Poison::Flag) => Err(Trap::Flag),
    }
}

/// Gives the register a truth.
pub fn give_bit(types: &List<Scalar>, to: u32, truth: bool) -> Result<Effect, Trap>
    ensures effect { result ≡ given types.now to (IntValue (bit truth)) }
    ensures sets { IfOk result (Sets types.now) }
{
    let bits = if truth { 1 } else { 0 };
    give(types, to, Value::Int(Int::new(1, bits)))
}
