//! The instructions on integers, and the comparisons of pointers.
ghost use Rattle.std.specs.Prelude.{◌≡◌, IfOk, true};
ghost use Rattle.int_num.specs.Integer.{IsWidth};
ghost use Rattle.int_num.specs.Operations.{FitsCast};
ghost use Rattle.seq_effects.specs.Values.{Sets};
ghost use Rattle.seq_effects.specs.Numbers.{calculated, converted, frozen, compared, selected, fits_cast, same_pointer, offsets_ordered, ordered, compare_pointers, compare_numbers, compare_values, truth, condition};

use crate::state::{Effect, Frame, Value};
use crate::values::{give, give_bit, give_number};
use int_num::binary::binary;
use int_num::cast::cast;
use int_num::compare::compare;
use int_num::int::Int;
use int_num::ops::{BinOp, CastOp, Flags, Pred};
use ir_code::op::{Operand, Scalar};
use mem_image::fault::Trap;
use mem_image::object::Pointer;
use pv_base::list::List;

/// An operation on two integers.
pub fn calculate(
    types: &List<Scalar>,
    frame: &Frame,
    to: u32,
    op: BinOp,
    flags: Flags,
    left: Operand,
    right: Operand,
) -> Result<Effect, Trap>
    ensures effect { result ≡ calculated types.now frame.now to op flags left right }
    ensures sets { IfOk result (Sets types.now) }
{
    let a = frame.number(left)?;
    let b = frame.number(right)?;
    if a.width() != b.width() {
        return Err(Trap::Unreachable);
    }
    give_number(types, to, binary(op, flags, a, b))
}

/// Whether it is a width, and fits the operation.
fn fits_cast(op: CastOp, old: u32, new: u32) -> bool
    requires { IsWidth old }
    ensures same { result ≡ fits_cast op old new }
    ensures fits { result ≡ true → FitsCast op old new }
    ensures range { result ≡ true → IsWidth new }
{
    match op {
        CastOp::Trunc => 0 < new && new < old,
        CastOp::Zext => old < new && new <= 64,
        CastOp::Sext => old < new && new <= 64,
    }
}

/// A change of an integer's width.
pub fn convert(
    types: &List<Scalar>,
    frame: &Frame,
    to: u32,
    op: CastOp,
    flags: Flags,
    value: Operand,
    width: u32,
) -> Result<Effect, Trap>
    ensures effect { result ≡ converted types.now frame.now to op flags value width }
    ensures sets { IfOk result (Sets types.now) }
{
    let a = frame.number(value)?;
    if !fits_cast(op, a.width(), width) {
        return Err(Trap::Unreachable);
    }
    give_number(types, to, cast(op, flags, a, width))
}

/// The operand as it is.
pub fn freeze(types: &List<Scalar>, frame: &Frame, to: u32, value: Operand) -> Result<Effect, Trap>
    ensures effect { result ≡ frozen types.now frame.now to value }
    ensures sets { IfOk result (Sets types.now) }
{
    give(types, to, frame.operand(value)?)
}

/// Whether the pointers are one.
pub fn same_pointer(p: Pointer, q: Pointer) -> bool
    ensures { result ≡ same_pointer p q }
{
    match p {
        Pointer::Null => match q {
            Pointer::Null => true,
            _ => false,
        },
        Pointer::Obj { name, offset } => match q {
            Pointer::Obj {
                name: other,
                offset: there,
            } => name == other && offset == there,
            _ => false,
        },
        Pointer::Fun { index } => match q {
            Pointer::Fun { index: other } => index == other,
            _ => false,
        },
    }
}

/// Whether the predicate holds of two offsets in one object, which are signed numbers.
fn offsets_ordered(pred: Pred, a: i64, b: i64) -> bool
    ensures { result ≡ offsets_ordered pred a b }
{
    match pred {
        Pred::Eq => a == b,
        Pred::Ne => a != b,
        Pred::Ugt => a > b,
        Pred::Uge => a >= b,
        Pred::Ult => a < b,
        Pred::Ule => a <= b,
        Pred::Sgt => a > b,
        Pred::Sge => a >= b,
        Pred::Slt => a < b,
        Pred::Sle => a <= b,
    }
}

/// Whether the predicate holds of two pointers of one object.
fn ordered(pred: Pred, p: Pointer, q: Pointer) -> Result<bool, Trap>
    ensures { result ≡ ordered pred p q }
{
    match p {
        Pointer::Obj { name, offset } => match q {
            Pointer::Obj {
                name: other,
                offset: there,
            } => {
                if name == other {
                    Ok(offsets_ordered(pred, offset, there))
                } else {
                    Err(Trap::PointerOrder)
                }
            }
            _ => Err(Trap::PointerOrder),
        },
        _ => Err(Trap::PointerOrder),
    }
}

/// Whether the predicate holds of two pointers.
fn compare_pointers(pred: Pred, p: Pointer, q: Pointer) -> Result<bool, Trap>
    ensures { result ≡ compare_pointers pred p q }
{
    match pred {
        Pred::Eq => Ok(same_pointer(p, q)),
        Pred::Ne => Ok(!same_pointer(p, q)),
        _ => ordered(pred, p, q),
    }
}

/// Whether the predicate holds of two integers.
fn compare_numbers(pred: Pred, a: Int, b: Int) -> Result<bool, Trap>
    ensures { result ≡ compare_numbers pred a b }
{
    if a.width() == b.width() {
        Ok(compare(pred, a, b))
    } else {
        Err(Trap::Unreachable)
    }
}

/// Whether the predicate holds of two values.
fn compare_values(pred: Pred, v: Value, w: Value) -> Result<bool, Trap>
    ensures { result ≡ compare_values pred v w }
{
    match v {
        Value::Int(a) => match w {
            Value::Int(b) => compare_numbers(pred, a, b),
            Value::Pointer(_) => Err(Trap::Unreachable),
        },
        Value::Pointer(p) => match w {
            Value::Int(_) => Err(Trap::Unreachable),
            Value::Pointer(q) => compare_pointers(pred, p, q),
        },
    }
}

/// A comparison.
pub fn compare_operands(
    types: &List<Scalar>,
    frame: &Frame,
    to: u32,
    pred: Pred,
    left: Operand,
    right: Operand,
) -> Result<Effect, Trap>
    ensures effect { result ≡ compared types.now frame.now to pred left right }
    ensures sets { IfOk result (Sets types.now) }
{
    let v = frame.operand(left)?;
    let w = frame.operand(right)?;
    give_bit(types, to, compare_values(pred, v, w)?)
}

/// The truth that an integer of one bit stands for.
fn truth(n: Int) -> Result<bool, Trap>
    ensures { result ≡ truth n }
{
    if n.width() == 1 {
        Ok(n.bits() == 1)
    } else {
        Err(Trap::Unreachable)
    }
}

impl Frame {
    /// The truth of an operand of one bit.
    pub fn condition(&self, from: Operand) -> Result<bool, Trap>
        ensures { result ≡ condition self.now from }
    {
        truth(self.number(from)?)
    }
}

/// One of two operands, both of which are read.
pub fn select(
    types: &List<Scalar>,
    frame: &Frame,
    to: u32,
    condition: Operand,
    on_true: Operand,
    on_false: Operand,
) -> Result<Effect, Trap>
    ensures effect { result ≡ selected types.now frame.now to condition on_true on_false }
    ensures sets { IfOk result (Sets types.now) }
{
    let first = frame.condition(condition)?;
    let v = frame.operand(on_true)?;
    let w = frame.operand(on_false)?;
    give(types, to, if first { v } else { w })
}
