//! Each instruction with its names resolved, by families. `None` where it breaks a rule of modules.
ghost use Rattle.std.specs.Prelude.{◌≡◌, ◌++◌, ◌∷◌, [], IfOk, OnOk, OnErr};
ghost use Rattle.ir_code.specs.Families.{width_of, bits_of, stored, operand_at, argument_at, binary, cast, freeze, compare, select, count_of, alloca, load, store, arguments_at, return_of};

use crate::lookups::Lookups;
use crate::op::{Fixed, Op, Operand, Scalar};
use crate::places::Places;
use int_num::ops::{BinOp, CastOp, Flags, Pred};
use ir_tree::instruction::{Argument, Operand as Named};
use ir_tree::nodes::{NameId, TypeId};
use pv_base::list::List;
use pv_base::want::Memory;
use std::alloc::Global;

fn width_of(of: Scalar) -> Option<u32>
    ensures { result ≡ width_of of }
{
    match of {
        Scalar::Int(width) => Some(width),
        Scalar::Pointer => None,
    }
}

/// The bits of an integer.
pub(crate) fn bits_of(value: Fixed) -> Option<u64>
    ensures { result ≡ bits_of value }
{
    match value {
        Fixed::Int(number) => Some(number.bits()),
        _ => None,
    }
}

/// The same type, where memory holds its values.
fn stored(of: Scalar) -> Option<Scalar>
    ensures { result ≡ stored of }
{
    match of {
        Scalar::Int(1 | 8 | 16 | 32 | 64) | Scalar::Pointer => Some(of),
        Scalar::Int(_) => None,
    }
}

/// An operand of a type.
pub(crate) fn operand(
    lookups: &Lookups,
    registers: &Places,
    of: Scalar,
    value: Named,
) -> Option<Operand>
    ensures { result ≡ operand_at lookups.now registers.now of value }
{
    match value {
        Named::Register(name) => Some(Operand::Register(registers.place(name)?)),
        Named::Constant(number) => Some(Operand::Constant(lookups.fixed(of, number)?)),
    }
}

/// An operand that is written with its type.
pub(crate) fn argument(lookups: &Lookups, registers: &Places, argument: Argument) -> Option<Operand>
    ensures { result ≡ argument_at lookups.now registers.now argument }
{
    let of = lookups.scalar(argument.of)?;
    operand(lookups, registers, of, argument.value)
}

pub(crate) fn binary(
    lookups: &Lookups,
    registers: &Places,
    to: NameId,
    op: BinOp,
    flags: Flags,
    of: TypeId,
    left: Named,
    right: Named,
) -> Option<Op>
    ensures { result ≡ binary lookups.now registers.now to op flags of left right }
{
    let to = registers.place(to)?;
    let of = lookups.scalar(of)?;
    let left = operand(lookups, registers, of, left)?;
    let right = operand(lookups, registers, of, right)?;
    Some(Op::Binary {
        to,
        op,
        flags,
        left,
        right,
    })
}

pub(crate) fn cast(
    lookups: &Lookups,
    registers: &Places,
    to: NameId,
    op: CastOp,
    flags: Flags,
    of: TypeId,
    value: Named,
    target: TypeId,
) -> Option<Op>
    ensures { result ≡ cast lookups.now registers.now to op flags of value target }
{
    let to = registers.place(to)?;
    let of = lookups.scalar(of)?;
    let value = operand(lookups, registers, of, value)?;
    let target = lookups.scalar(target)?;
    let width = width_of(target)?;
    Some(Op::Cast {
        to,
        op,
        flags,
        value,
        width,
    })
}

pub(crate) fn freeze(
    lookups: &Lookups,
    registers: &Places,
    to: NameId,
    of: TypeId,
    value: Named,
) -> Option<Op>
    ensures { result ≡ freeze lookups.now registers.now to of value }
{
    let to = registers.place(to)?;
    let of = lookups.scalar(of)?;
    let value = operand(lookups, registers, of, value)?;
    Some(Op::Freeze { to, value })
}

pub(crate) fn compare(
    lookups: &Lookups,
    registers: &Places,
    to: NameId,
    pred: Pred,
    of: TypeId,
    left: Named,
    right: Named,
) -> Option<Op>
    ensures { result ≡ compare lookups.now registers.now to pred of left right }
{
    let to = registers.place(to)?;
    let of = lookups.scalar(of)?;
    let left = operand(lookups, registers, of, left)?;
    let right = operand(lookups, registers, of, right)?;
    Some(Op::Compare {
        to,
        pred,
        left,
        right,
    })
}

pub(crate) fn select(
    lookups: &Lookups,
    registers: &Places,
    to: NameId,
    condition: Named,
    of: TypeId,
    on_true: Named,
    on_false: Named,
) -> Option<Op>
    ensures { result ≡ select lookups.now registers.now to condition of on_true on_false }
{
    let to = registers.place(to)?;
    let of = lookups.scalar(of)?;
    let condition = operand(lookups, registers, Scalar::Int(1), condition)?;
    let on_true = operand(lookups, registers, of, on_true)?;
    let on_false = operand(lookups, registers, of, on_false)?;
    Some(Op::Select {
        to,
        condition,
        on_true,
        on_false,
    })
}

/// How many elements an `alloca` makes: a constant, read as unsigned.
fn count(lookups: &Lookups, count: Option<Argument>) -> Option<u64>
    ensures { result ≡ count_of lookups.now count }
{
    let count = match count {
        Some(count) => count,
        None => return Some(1),
    };
    match count.value {
        Named::Register(_) => None,
        Named::Constant(number) => {
            let of = lookups.scalar(count.of)?;
            bits_of(lookups.fixed(of, number)?)
        }
    }
}

pub(crate) fn alloca(
    lookups: &Lookups,
    registers: &Places,
    to: NameId,
    of: TypeId,
    number: Option<Argument>,
) -> Option<Op>
    ensures { result ≡ alloca lookups.now registers.now to of number }
{
    let to = registers.place(to)?;
    let size = lookups.size(of)?;
    let number = count(lookups, number)?;
    Some(Op::Alloca {
        to,
        size: size.saturating_mul(number),
    })
}

pub(crate) fn load(
    lookups: &Lookups,
    registers: &Places,
    to: NameId,
    of: TypeId,
    pointer: Named,
) -> Option<Op>
    ensures { result ≡ load lookups.now registers.now to of pointer }
{
    let to = registers.place(to)?;
    let of = lookups.scalar(of)?;
    let of = stored(of)?;
    let pointer = operand(lookups, registers, Scalar::Pointer, pointer)?;
    Some(Op::Load { to, of, pointer })
}

pub(crate) fn store(
    lookups: &Lookups,
    registers: &Places,
    of: TypeId,
    value: Named,
    pointer: Named,
) -> Option<Op>
    ensures { result ≡ store lookups.now registers.now of value pointer }
{
    let of = lookups.scalar(of)?;
    let of = stored(of)?;
    let value = operand(lookups, registers, of, value)?;
    let pointer = operand(lookups, registers, Scalar::Pointer, pointer)?;
    Some(Op::Store { of, value, pointer })
}

pub(crate) fn return_of(
    lookups: &Lookups,
    registers: &Places,
    value: Option<Argument>,
) -> Option<Op>
    ensures { result ≡ return_of lookups.now registers.now value }
{
    match value {
        Some(value) => {
            let value = argument(lookups, registers, value)?;
            Some(Op::Return { value: Some(value) })
        }
        None => Some(Op::Return { value: None }),
    }
}

/// Appends an operand, or changes nothing.
fn push_operand(operands: &mut List<Operand>, operand: Operand) -> Result<(), Memory>
    ensures ok { OnOk result (operands.new ≡ operands.old ++ operand ∷ []) }
    ensures err { OnErr result (operands.new ≡ operands.old) }
{
    match operand {
        Operand::Register(register) => operands.push(Operand::Register(register)),
        Operand::Constant(value) => operands.push(Operand::Constant(value)),
    }
}

/// The operands of arguments, where all can be resolved.
pub(crate) fn arguments(
    alloc: Global,
    lookups: &Lookups,
    registers: &Places,
    all: &[Argument],
) -> Result<Option<List<Operand>>, Memory>
    ensures { IfOk result (λ r. r ≡ arguments_at lookups.now registers.now all.now) }
{
    let mut operands = List::new(alloc);
    for one in all {
        match argument(lookups, registers, *one) {
            Some(operand) => push_operand(&mut operands, operand)?,
            None => return Ok(None),
        }
    }
    Ok(Some(operands))
}
