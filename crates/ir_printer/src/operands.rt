//! Operands, and what stands before them.
#![tactic(auto, using(crate::proofs::Spelled::bytes_append))]

ghost use Rattle.std.specs.Prelude.{◌≡◌, ◌++◌, ◌∷◌, [], map, codes, OnOk};
ghost use Rattle.ir_tree.specs.Naming.{type_at, name_at};
ghost use Rattle.ir_tree.specs.Shown.{shown_operand, shown_argument};
ghost use Rattle.ir_printer.specs.Pieces.{Word, bytes_of, led, separated};
ghost use Rattle.ir_printer.specs.Operands.{operand_pieces, argument_pieces};
ghost use Rattle.ir_printer.specs.Instructions.{assigned, typed, reading, next_operand, next_argument, next_pointer, next_label};

use crate::nested::{put_constant, put_type};
use crate::spelling::put_local;
use ir_tree::instruction::{Argument, Operand};
use ir_tree::nodes::{NameId, TypeId};
use ir_tree::table::Names;
use pv_base::bytes::Bytes;
use pv_base::want::Memory;
use std::alloc::Global;

/// `%r = WORD`
pub(crate) fn put_assigned(
    to: &mut Bytes,
    names: &Names,
    name: NameId,
    word: &[u8],
) -> Result<(), Memory>
    ensures { OnOk result (to.new ≡ to.old ++ bytes_of (assigned (name_at names.now name) word.now)) }
{
    put_local(to, names, name)?;
    to.append(b" = ")?;
    to.append(word)
}

/// ` T`
pub(crate) fn put_typed(
    alloc: Global,
    to: &mut Bytes,
    names: &Names,
    of: TypeId,
) -> Result<(), Memory>
    ensures { OnOk result (to.new ≡ to.old ++ bytes_of (typed (type_at names.now of))) }
{
    to.append(b" ")?;
    put_type(alloc, to, names, of)
}

#[tactic(auto, unfolding(crate::specs::Operands::operand_pieces))]
pub(crate) fn put_operand(
    alloc: Global,
    to: &mut Bytes,
    names: &Names,
    value: Operand,
) -> Result<(), Memory>
    ensures { OnOk result (to.new ≡ to.old ++ bytes_of (operand_pieces (shown_operand names.now value))) }
{
    match value {
        Operand::Register(name) => put_local(to, names, name),
        Operand::Constant(constant) => put_constant(alloc, to, names, constant),
    }
}

/// ` A`
pub(crate) fn put_reading(
    alloc: Global,
    to: &mut Bytes,
    names: &Names,
    value: Operand,
) -> Result<(), Memory>
    ensures { OnOk result (to.new ≡ to.old ++ bytes_of (reading (shown_operand names.now value))) }
{
    to.append(b" ")?;
    put_operand(alloc, to, names, value)
}

/// `, A`
pub(crate) fn put_next_operand(
    alloc: Global,
    to: &mut Bytes,
    names: &Names,
    value: Operand,
) -> Result<(), Memory>
    ensures { OnOk result (to.new ≡ to.old ++ bytes_of (next_operand (shown_operand names.now value))) }
{
    to.append(b", ")?;
    put_operand(alloc, to, names, value)
}

/// `, ptr A`
pub(crate) fn put_next_pointer(
    alloc: Global,
    to: &mut Bytes,
    names: &Names,
    value: Operand,
) -> Result<(), Memory>
    ensures { OnOk result (to.new ≡ to.old ++ bytes_of (next_pointer (shown_operand names.now value))) }
{
    to.append(b", ptr ")?;
    put_operand(alloc, to, names, value)
}

/// `, label %b`
pub(crate) fn put_next_label(to: &mut Bytes, names: &Names, name: NameId) -> Result<(), Memory>
    ensures { OnOk result (to.new ≡ to.old ++ bytes_of (next_label (name_at names.now name))) }
{
    to.append(b", label ")?;
    put_local(to, names, name)
}

/// `T A`
pub(crate) fn put_argument(
    alloc: Global,
    to: &mut Bytes,
    names: &Names,
    argument: Argument,
) -> Result<(), Memory>
    ensures { OnOk result (to.new ≡ to.old ++ bytes_of (argument_pieces (shown_argument names.now argument))) }
{
    put_type(alloc, to, names, argument.of)?;
    put_reading(alloc, to, names, argument.value)
}

/// `, T A`
pub(crate) fn put_next_argument(
    alloc: Global,
    to: &mut Bytes,
    names: &Names,
    argument: Argument,
) -> Result<(), Memory>
    ensures { OnOk result (to.new ≡ to.old ++ bytes_of (next_argument (shown_argument names.now argument))) }
{
    to.append(b", ")?;
    put_argument(alloc, to, names, argument)
}

/// Each behind a comma.
pub(crate) fn put_next_arguments(
    alloc: Global,
    to: &mut Bytes,
    names: &Names,
    arguments: &[Argument],
) -> Result<(), Memory>
    ensures { OnOk result (to.new ≡ to.old ++ bytes_of (led (map argument_pieces (map (shown_argument names.now) arguments.now)))) }
{
    for argument in arguments {
        put_next_argument(alloc, to, names, *argument)?;
    }
    Ok(())
}

/// With commas between them.
pub(crate) fn put_arguments(
    alloc: Global,
    to: &mut Bytes,
    names: &Names,
    arguments: &[Argument],
) -> Result<(), Memory>
    ensures { OnOk result (to.new ≡ to.old ++ bytes_of (separated (map argument_pieces (map (shown_argument names.now) arguments.now)))) }
{
    match arguments {
        [] => Ok(()),
        [first, rest @ ..] => {
            put_argument(alloc, to, names, *first)?;
            put_next_arguments(alloc, to, names, rest)
        }
    }
}
