//! Calls with their names resolved.
ghost use Rattle.std.specs.Prelude.{◌≡◌, IfOk, map, Some};
ghost use Rattle.ir_code.specs.Options.{every};
ghost use Rattle.ir_code.specs.Tables.{scalar_at};
ghost use Rattle.ir_code.specs.Families.{call_of, result_register, parameters_at, call_named, call_pointer, call};

use crate::families::arguments;
use crate::lookups::{Linkage, Lookups};
use crate::op::{Op, Operand, Scalar};
use crate::places::Places;
use ir_tree::instruction::{Argument, Callee};
use ir_tree::nodes::{NameId, TypeId};
use pv_base::list::List;
use pv_base::want::Memory;
use std::alloc::Global;

/// The types of arguments.
fn parameters(
    alloc: Global,
    lookups: &Lookups,
    all: &[Argument],
) -> Result<Option<List<Scalar>>, Memory>
    ensures { IfOk result (λ r. r ≡ parameters_at lookups.now all.now) }
{
    let mut scalars = List::new(alloc);
    for one in all {
        match lookups.scalar(one.of) {
            Some(scalar) => scalars.push(scalar)?,
            None => return Ok(None),
        }
    }
    Ok(Some(scalars))
}

/// The register of a call's result, where it has one.
fn result_register(registers: &Places, to: Option<NameId>) -> Option<Option<u32>>
    ensures { result ≡ result_register registers.now to }
{
    match to {
        Some(name) => Some(Some(registers.place(name)?)),
        None => Some(None),
    }
}

/// The call of a function that is linked so.
fn call_of(to: Option<u32>, arguments: List<Operand>, function: u32, linkage: Linkage) -> Option<Op>
    ensures { result ≡ call_of to arguments function linkage }
{
    match linkage {
        Linkage::Defined => Some(Op::Call {
            to,
            function,
            arguments,
        }),
        Linkage::External(external) => Some(Op::CallExternal {
            to,
            external,
            arguments,
        }),
        Linkage::Unknown => None,
    }
}

/// A call of a function by its name.
fn call_named(
    alloc: Global,
    lookups: &Lookups,
    registers: &Places,
    to: Option<NameId>,
    name: NameId,
    all: &[Argument],
) -> Result<Option<Op>, Memory>
    ensures { IfOk result (λ r. r ≡ call_named lookups.now registers.now to name all.now) }
{
    let to = match result_register(registers, to) {
        Some(to) => to,
        None => return Ok(None),
    };
    let function = match lookups.function(name) {
        Some(function) => function,
        None => return Ok(None),
    };
    match arguments(alloc, lookups, registers, all)? {
        Some(arguments) => Ok(call_of(to, arguments, function, lookups.linkage(function))),
        None => Ok(None),
    }
}

/// A call through a register.
fn call_pointer(
    alloc: Global,
    lookups: &Lookups,
    registers: &Places,
    to: Option<NameId>,
    of: TypeId,
    name: NameId,
    all: &[Argument],
) -> Result<Option<Op>, Memory>
    ensures { IfOk result (λ r. r ≡ call_pointer lookups.now registers.now to of name all.now) }
{
    let to = match result_register(registers, to) {
        Some(to) => to,
        None => return Ok(None),
    };
    let pointer = match registers.place(name) {
        Some(register) => Operand::Register(register),
        None => return Ok(None),
    };
    let arguments = match arguments(alloc, lookups, registers, all)? {
        Some(arguments) => arguments,
        None => return Ok(None),
    };
    match parameters(alloc, lookups, all)? {
        Some(parameters) => Ok(Some(Op::CallPointer {
            to,
            pointer,
            result: lookups.scalar(of),
            parameters,
            arguments,
        })),
        None => Ok(None),
    }
}

pub(crate) fn call(
    alloc: Global,
    lookups: &Lookups,
    registers: &Places,
    to: Option<NameId>,
    of: TypeId,
    callee: Callee,
    all: &[Argument],
) -> Result<Option<Op>, Memory>
    ensures { IfOk result (λ r. r ≡ call lookups.now registers.now to of callee all.now) }
{
    match callee {
        Callee::Function(name) => call_named(alloc, lookups, registers, to, name, all),
        Callee::Pointer(name) => call_pointer(alloc, lookups, registers, to, of, name, all),
    }
}
