//! Instructions, form by form.
ghost use Rattle.std.specs.Prelude.{◌≡◌, ◌++◌, ◌∷◌, [], map, option_map, codes, OnOk};
ghost use Rattle.ir_tree.specs.Naming.{type_at, name_at};
ghost use Rattle.ir_tree.specs.Shown.{shown, shown_operand, shown_argument, shown_arm, shown_case, shown_callee};
ghost use Rattle.ir_tree.specs.declared.instruction.Instruction.TheVariants as instruction;
ghost use Rattle.ir_printer.specs.Pieces.{Blank, Mark, Word, bytes_of, comma, led, separated, joined};
ghost use Rattle.ir_printer.specs.Operands.{argument_pieces};
ghost use Rattle.ir_printer.specs.Instructions.{operation_word, cast_word, predicate_word, flag, range_flags, operation_flags, cast_flags, typed, value_pieces, operands_pieces, condition_pieces, arm_pieces, case_pieces, callee_piece, result_pieces, variadic_pieces, called_pieces, count_pieces, returned_pieces, select_pieces, instruction_pieces};

use crate::nested::{put_constant, put_type};
use crate::operands::{
    put_argument, put_arguments, put_assigned, put_next_argument, put_next_arguments,
    put_next_label, put_next_operand, put_next_pointer, put_reading, put_typed,
};
use crate::spelling::{put_global, put_local};
use int_num::ops::{BinOp, CastOp, Flags, Pred};
use ir_tree::instruction::{Argument, Arm, Callee, Case, Instruction, Operand};
use ir_tree::nodes::{NameId, TypeId};
use ir_tree::table::Names;
use pv_base::bytes::Bytes;
use pv_base::want::Memory;
use std::alloc::Global;

fn operation_word(op: BinOp) -> &'static [u8]
    ensures { result.now ≡ operation_word op }
{
    match op {
        BinOp::Add => b"add",
        BinOp::Sub => b"sub",
        BinOp::Mul => b"mul",
        BinOp::Udiv => b"udiv",
        BinOp::Sdiv => b"sdiv",
        BinOp::Urem => b"urem",
        BinOp::Srem => b"srem",
        BinOp::Shl => b"shl",
        BinOp::Lshr => b"lshr",
        BinOp::Ashr => b"ashr",
        BinOp::And => b"and",
        BinOp::Or => b"or",
        BinOp::Xor => b"xor",
    }
}

fn cast_word(op: CastOp) -> &'static [u8]
    ensures { result.now ≡ cast_word op }
{
    match op {
        CastOp::Trunc => b"trunc",
        CastOp::Zext => b"zext",
        CastOp::Sext => b"sext",
    }
}

fn predicate_word(pred: Pred) -> &'static [u8]
    ensures { result.now ≡ predicate_word pred }
{
    match pred {
        Pred::Eq => b"eq",
        Pred::Ne => b"ne",
        Pred::Ugt => b"ugt",
        Pred::Uge => b"uge",
        Pred::Ult => b"ult",
        Pred::Ule => b"ule",
        Pred::Sgt => b"sgt",
        Pred::Sge => b"sge",
        Pred::Slt => b"slt",
        Pred::Sle => b"sle",
    }
}

/// A flag behind a blank, where it is set.
fn put_flag(to: &mut Bytes, set: bool, word: &[u8]) -> Result<(), Memory>
    ensures { OnOk result (to.new ≡ to.old ++ bytes_of (flag set word.now)) }
{
    if set {
        to.append(b" ")?;
        to.append(word)
    } else {
        Ok(())
    }
}

fn put_range_flags(to: &mut Bytes, flags: Flags) -> Result<(), Memory>
    ensures { OnOk result (to.new ≡ to.old ++ bytes_of (range_flags flags)) }
{
    put_flag(to, flags.nuw, b"nuw")?;
    put_flag(to, flags.nsw, b"nsw")
}

/// The flags that an operation may have.
fn put_operation_flags(to: &mut Bytes, op: BinOp, flags: Flags) -> Result<(), Memory>
    ensures { OnOk result (to.new ≡ to.old ++ bytes_of (operation_flags op flags)) }
{
    match op {
        BinOp::Add | BinOp::Sub | BinOp::Mul | BinOp::Shl => put_range_flags(to, flags),
        BinOp::Udiv | BinOp::Sdiv | BinOp::Lshr | BinOp::Ashr => {
            put_flag(to, flags.exact, b"exact")
        }
        BinOp::Or => put_flag(to, flags.disjoint, b"disjoint"),
        BinOp::Urem | BinOp::Srem | BinOp::And | BinOp::Xor => Ok(()),
    }
}

/// The flags that a change of width may have.
fn put_cast_flags(to: &mut Bytes, op: CastOp, flags: Flags) -> Result<(), Memory>
    ensures { OnOk result (to.new ≡ to.old ++ bytes_of (cast_flags op flags)) }
{
    match op {
        CastOp::Trunc => put_range_flags(to, flags),
        CastOp::Zext => put_flag(to, flags.nneg, b"nneg"),
        CastOp::Sext => Ok(()),
    }
}

/// A predicate behind a blank.
fn put_predicate(to: &mut Bytes, pred: Pred) -> Result<(), Memory>
    ensures { OnOk result (to.new ≡ to.old ++ bytes_of (Blank ∷ Word (predicate_word pred) ∷ [])) }
{
    put_flag(to, true, predicate_word(pred))
}

/// ` T A`
fn put_value(
    alloc: Global,
    to: &mut Bytes,
    names: &Names,
    of: TypeId,
    value: Operand,
) -> Result<(), Memory>
    ensures { OnOk result (to.new ≡ to.old ++ bytes_of (value_pieces (type_at names.now of) (shown_operand names.now value))) }
{
    put_typed(alloc, to, names, of)?;
    put_reading(alloc, to, names, value)
}

/// ` T A, B`
fn put_operands(
    alloc: Global,
    to: &mut Bytes,
    names: &Names,
    of: TypeId,
    left: Operand,
    right: Operand,
) -> Result<(), Memory>
    ensures { OnOk result (to.new ≡ to.old ++ bytes_of (operands_pieces (type_at names.now of) (shown_operand names.now left) (shown_operand names.now right))) }
{
    put_value(alloc, to, names, of, left)?;
    put_next_operand(alloc, to, names, right)
}

/// ` i1 A`
fn put_condition(alloc: Global, to: &mut Bytes, names: &Names, value: Operand) -> Result<(), Memory>
    ensures { OnOk result (to.new ≡ to.old ++ bytes_of (condition_pieces (shown_operand names.now value))) }
{
    to.append(b" i1")?;
    put_reading(alloc, to, names, value)
}

/// ` to T`
fn put_target(alloc: Global, to: &mut Bytes, names: &Names, of: TypeId) -> Result<(), Memory>
    ensures { OnOk result (to.new ≡ to.old ++ bytes_of (Blank ∷ Word (codes "to") ∷ typed (type_at names.now of))) }
{
    to.append(b" to")?;
    put_typed(alloc, to, names, of)
}

/// The count of an `alloca`, where it has one.
fn put_count(
    alloc: Global,
    to: &mut Bytes,
    names: &Names,
    count: Option<Argument>,
) -> Result<(), Memory>
    ensures { OnOk result (to.new ≡ to.old ++ bytes_of (count_pieces (option_map (shown_argument names.now) count))) }
{
    match count {
        Some(count) => put_next_argument(alloc, to, names, count),
        None => Ok(()),
    }
}

/// What is returned: `T A` or `void`
fn put_returned(
    alloc: Global,
    to: &mut Bytes,
    names: &Names,
    value: Option<Argument>,
) -> Result<(), Memory>
    ensures { OnOk result (to.new ≡ to.old ++ bytes_of (returned_pieces (option_map (shown_argument names.now) value))) }
{
    match value {
        Some(value) => put_argument(alloc, to, names, value),
        None => to.append(b"void"),
    }
}

/// `[ A, %b ]`
fn put_arm(alloc: Global, to: &mut Bytes, names: &Names, arm: Arm) -> Result<(), Memory>
    ensures { OnOk result (to.new ≡ to.old ++ bytes_of (arm_pieces (shown_arm names.now arm))) }
{
    to.append(b"[")?;
    put_reading(alloc, to, names, arm.value)?;
    to.append(b", ")?;
    put_local(to, names, arm.from)?;
    to.append(b" ]")
}

/// `, [ A, %b ]`
fn put_next_arm(alloc: Global, to: &mut Bytes, names: &Names, arm: Arm) -> Result<(), Memory>
    ensures { OnOk result (to.new ≡ to.old ++ bytes_of (comma ++ arm_pieces (shown_arm names.now arm))) }
{
    to.append(b", ")?;
    put_arm(alloc, to, names, arm)
}

/// Each behind a comma.
fn put_next_arms(alloc: Global, to: &mut Bytes, names: &Names, arms: &[Arm]) -> Result<(), Memory>
    ensures { OnOk result (to.new ≡ to.old ++ bytes_of (led (map arm_pieces (map (shown_arm names.now) arms.now)))) }
{
    for arm in arms {
        put_next_arm(alloc, to, names, *arm)?;
    }
    Ok(())
}

/// With commas between them.
fn put_arms(alloc: Global, to: &mut Bytes, names: &Names, arms: &[Arm]) -> Result<(), Memory>
    ensures { OnOk result (to.new ≡ to.old ++ bytes_of (separated (map arm_pieces (map (shown_arm names.now) arms.now)))) }
{
    match arms {
        [] => Ok(()),
        [first, rest @ ..] => {
            put_arm(alloc, to, names, *first)?;
            put_next_arms(alloc, to, names, rest)
        }
    }
}

/// `T c, label %b` and a blank
fn put_case(
    alloc: Global,
    to: &mut Bytes,
    names: &Names,
    of: TypeId,
    case: Case,
) -> Result<(), Memory>
    ensures { OnOk result (to.new ≡ to.old ++ bytes_of (case_pieces (type_at names.now of) (shown_case names.now case))) }
{
    put_type(alloc, to, names, of)?;
    to.append(b" ")?;
    put_constant(alloc, to, names, case.value)?;
    put_next_label(to, names, case.to)?;
    to.append(b" ")
}

fn put_cases(
    alloc: Global,
    to: &mut Bytes,
    names: &Names,
    of: TypeId,
    cases: &[Case],
) -> Result<(), Memory>
    ensures { OnOk result (to.new ≡ to.old ++ bytes_of (joined (map (case_pieces (type_at names.now of)) (map (shown_case names.now) cases.now)))) }
{
    for case in cases {
        put_case(alloc, to, names, of, *case)?;
    }
    Ok(())
}

/// The result of a call, where it has one: `%r = `
fn put_result(to: &mut Bytes, names: &Names, result_name: Option<NameId>) -> Result<(), Memory>
    ensures { OnOk result (to.new ≡ to.old ++ bytes_of (result_pieces (option_map (name_at names.now) result_name))) }
{
    match result_name {
        Some(name) => {
            put_local(to, names, name)?;
            to.append(b" = ")
        }
        None => Ok(()),
    }
}

/// The type of a function with more arguments than parameters.
fn put_variadic(to: &mut Bytes, variadic: bool) -> Result<(), Memory>
    ensures { OnOk result (to.new ≡ to.old ++ bytes_of (variadic_pieces variadic)) }
{
    if variadic {
        to.append(b" (ptr, ...)")
    } else {
        Ok(())
    }
}

/// `@f`, `%p`
fn put_callee(to: &mut Bytes, names: &Names, callee: Callee) -> Result<(), Memory>
    ensures { OnOk result (to.new ≡ to.old ++ bytes_of (callee_piece (shown_callee names.now callee) ∷ [])) }
{
    match callee {
        Callee::Function(name) => put_global(to, names, name),
        Callee::Pointer(name) => put_local(to, names, name),
    }
}

/// ` callee(ARGUMENTS)`
fn put_called(
    alloc: Global,
    to: &mut Bytes,
    names: &Names,
    callee: Callee,
    arguments: &[Argument],
) -> Result<(), Memory>
    ensures { OnOk result (to.new ≡ to.old ++ bytes_of (called_pieces (shown_callee names.now callee) (map (shown_argument names.now) arguments.now))) }
{
    to.append(b" ")?;
    put_callee(to, names, callee)?;
    to.append(b"(")?;
    put_arguments(alloc, to, names, arguments)?;
    to.append(b")")
}

fn put_binary(
    alloc: Global,
    to: &mut Bytes,
    names: &Names,
    name: NameId,
    op: BinOp,
    flags: Flags,
    of: TypeId,
    left: Operand,
    right: Operand,
) -> Result<(), Memory>
    ensures { OnOk result (to.new ≡ to.old ++ bytes_of (instruction_pieces (shown names.now (instruction.Binary name op flags of left right)))) }
{
    put_assigned(to, names, name, operation_word(op))?;
    put_operation_flags(to, op, flags)?;
    put_operands(alloc, to, names, of, left, right)
}

fn put_cast(
    alloc: Global,
    to: &mut Bytes,
    names: &Names,
    name: NameId,
    op: CastOp,
    flags: Flags,
    of: TypeId,
    value: Operand,
    target: TypeId,
) -> Result<(), Memory>
    ensures { OnOk result (to.new ≡ to.old ++ bytes_of (instruction_pieces (shown names.now (instruction.Cast name op flags of value target)))) }
{
    put_assigned(to, names, name, cast_word(op))?;
    put_cast_flags(to, op, flags)?;
    put_value(alloc, to, names, of, value)?;
    put_target(alloc, to, names, target)
}

fn put_freeze(
    alloc: Global,
    to: &mut Bytes,
    names: &Names,
    name: NameId,
    of: TypeId,
    value: Operand,
) -> Result<(), Memory>
    ensures { OnOk result (to.new ≡ to.old ++ bytes_of (instruction_pieces (shown names.now (instruction.Freeze name of value)))) }
{
    put_assigned(to, names, name, b"freeze")?;
    put_value(alloc, to, names, of, value)
}

fn put_compare(
    alloc: Global,
    to: &mut Bytes,
    names: &Names,
    name: NameId,
    pred: Pred,
    of: TypeId,
    left: Operand,
    right: Operand,
) -> Result<(), Memory>
    ensures { OnOk result (to.new ≡ to.old ++ bytes_of (instruction_pieces (shown names.now (instruction.Compare name pred of left right)))) }
{
    put_assigned(to, names, name, b"icmp")?;
    put_predicate(to, pred)?;
    put_operands(alloc, to, names, of, left, right)
}

fn put_select(
    alloc: Global,
    to: &mut Bytes,
    names: &Names,
    name: NameId,
    condition: Operand,
    on_true: Argument,
    on_false: Argument,
) -> Result<(), Memory>
    ensures { OnOk result (to.new ≡ to.old ++ bytes_of (select_pieces (name_at names.now name) (shown_operand names.now condition) (shown_argument names.now on_true) (shown_argument names.now on_false))) }
{
    put_assigned(to, names, name, b"select")?;
    put_condition(alloc, to, names, condition)?;
    put_next_argument(alloc, to, names, on_true)?;
    put_next_argument(alloc, to, names, on_false)
}

/// A `select` of two operands of one type.
#[tactic(auto, unfolding(crate::specs::Instructions::instruction_pieces, ir_tree::specs::Shown::shown))]
fn put_choice(
    alloc: Global,
    to: &mut Bytes,
    names: &Names,
    name: NameId,
    condition: Operand,
    of: TypeId,
    on_true: Operand,
    on_false: Operand,
) -> Result<(), Memory>
    ensures { OnOk result (to.new ≡ to.old ++ bytes_of (instruction_pieces (shown names.now (instruction.Select name condition of on_true on_false)))) }
{
    let first = Argument { of, value: on_true };
    let second = Argument {
        of,
        value: on_false,
    };
    put_select(alloc, to, names, name, condition, first, second)
}

fn put_phi(
    alloc: Global,
    to: &mut Bytes,
    names: &Names,
    name: NameId,
    of: TypeId,
    arms: &[Arm],
) -> Result<(), Memory>
    ensures { OnOk result (to.new ≡ to.old ++ bytes_of (instruction_pieces (shown names.now (instruction.Phi name of arms.now)))) }
{
    put_assigned(to, names, name, b"phi")?;
    put_typed(alloc, to, names, of)?;
    to.append(b" ")?;
    put_arms(alloc, to, names, arms)
}

fn put_alloca(
    alloc: Global,
    to: &mut Bytes,
    names: &Names,
    name: NameId,
    of: TypeId,
    count: Option<Argument>,
) -> Result<(), Memory>
    ensures { OnOk result (to.new ≡ to.old ++ bytes_of (instruction_pieces (shown names.now (instruction.Alloca name of count)))) }
{
    put_assigned(to, names, name, b"alloca")?;
    put_typed(alloc, to, names, of)?;
    put_count(alloc, to, names, count)
}

fn put_load(
    alloc: Global,
    to: &mut Bytes,
    names: &Names,
    name: NameId,
    of: TypeId,
    pointer: Operand,
) -> Result<(), Memory>
    ensures { OnOk result (to.new ≡ to.old ++ bytes_of (instruction_pieces (shown names.now (instruction.Load name of pointer)))) }
{
    put_assigned(to, names, name, b"load")?;
    put_typed(alloc, to, names, of)?;
    put_next_pointer(alloc, to, names, pointer)
}

fn put_store(
    alloc: Global,
    to: &mut Bytes,
    names: &Names,
    of: TypeId,
    value: Operand,
    pointer: Operand,
) -> Result<(), Memory>
    ensures { OnOk result (to.new ≡ to.old ++ bytes_of (instruction_pieces (shown names.now (instruction.Store of value pointer)))) }
{
    to.append(b"store")?;
    put_value(alloc, to, names, of, value)?;
    put_next_pointer(alloc, to, names, pointer)
}

fn put_address(
    alloc: Global,
    to: &mut Bytes,
    names: &Names,
    name: NameId,
    inbounds: bool,
    of: TypeId,
    base: Operand,
    indices: &[Argument],
) -> Result<(), Memory>
    ensures { OnOk result (to.new ≡ to.old ++ bytes_of (instruction_pieces (shown names.now (instruction.Address name inbounds of base indices.now)))) }
{
    put_assigned(to, names, name, b"getelementptr")?;
    put_flag(to, inbounds, b"inbounds")?;
    put_typed(alloc, to, names, of)?;
    put_next_pointer(alloc, to, names, base)?;
    put_next_arguments(alloc, to, names, indices)
}

fn put_call(
    alloc: Global,
    to: &mut Bytes,
    names: &Names,
    name: Option<NameId>,
    of: TypeId,
    variadic: bool,
    callee: Callee,
    arguments: &[Argument],
) -> Result<(), Memory>
    ensures { OnOk result (to.new ≡ to.old ++ bytes_of (instruction_pieces (shown names.now (instruction.Call name of variadic callee arguments.now)))) }
{
    put_result(to, names, name)?;
    to.append(b"call")?;
    put_typed(alloc, to, names, of)?;
    put_variadic(to, variadic)?;
    put_called(alloc, to, names, callee, arguments)
}

fn put_return(
    alloc: Global,
    to: &mut Bytes,
    names: &Names,
    value: Option<Argument>,
) -> Result<(), Memory>
    ensures { OnOk result (to.new ≡ to.old ++ bytes_of (instruction_pieces (shown names.now (instruction.Return value)))) }
{
    to.append(b"ret ")?;
    put_returned(alloc, to, names, value)
}

fn put_jump(to: &mut Bytes, names: &Names, target: NameId) -> Result<(), Memory>
    ensures { OnOk result (to.new ≡ to.old ++ bytes_of (instruction_pieces (shown names.now (instruction.Jump target)))) }
{
    to.append(b"br label ")?;
    put_local(to, names, target)
}

fn put_branch(
    alloc: Global,
    to: &mut Bytes,
    names: &Names,
    condition: Operand,
    on_true: NameId,
    on_false: NameId,
) -> Result<(), Memory>
    ensures { OnOk result (to.new ≡ to.old ++ bytes_of (instruction_pieces (shown names.now (instruction.Branch condition on_true on_false)))) }
{
    to.append(b"br")?;
    put_condition(alloc, to, names, condition)?;
    put_next_label(to, names, on_true)?;
    put_next_label(to, names, on_false)
}

fn put_switch(
    alloc: Global,
    to: &mut Bytes,
    names: &Names,
    of: TypeId,
    value: Operand,
    default: NameId,
    cases: &[Case],
) -> Result<(), Memory>
    ensures { OnOk result (to.new ≡ to.old ++ bytes_of (instruction_pieces (shown names.now (instruction.Switch of value default cases.now)))) }
{
    to.append(b"switch")?;
    put_value(alloc, to, names, of, value)?;
    put_next_label(to, names, default)?;
    to.append(b" [ ")?;
    put_cases(alloc, to, names, of, cases)?;
    to.append(b"]")
}

/// An instruction, without blanks before it.
pub(crate) fn put_instruction(
    alloc: Global,
    to: &mut Bytes,
    names: &Names,
    it: &Instruction,
) -> Result<(), Memory>
    ensures { OnOk result (to.new ≡ to.old ++ bytes_of (instruction_pieces (shown names.now it.now))) }
{
    match it {
        Instruction::Binary {
            to: name,
            op,
            flags,
            of,
            left,
            right,
        } => put_binary(alloc, to, names, *name, *op, *flags, *of, *left, *right),
        Instruction::Cast {
            to: name,
            op,
            flags,
            of,
            value,
            target,
        } => put_cast(alloc, to, names, *name, *op, *flags, *of, *value, *target),
        Instruction::Freeze {
            to: name,
            of,
            value,
        } => put_freeze(alloc, to, names, *name, *of, *value),
        Instruction::Compare {
            to: name,
            pred,
            of,
            left,
            right,
        } => put_compare(alloc, to, names, *name, *pred, *of, *left, *right),
        Instruction::Select {
            to: name,
            condition,
            of,
            on_true,
            on_false,
        } => put_choice(
            alloc, to, names, *name, *condition, *of, *on_true, *on_false,
        ),
        Instruction::Phi { to: name, of, arms } => {
            put_phi(alloc, to, names, *name, *of, arms.as_slice())
        }
        Instruction::Alloca {
            to: name,
            of,
            count,
        } => put_alloca(alloc, to, names, *name, *of, *count),
        Instruction::Load {
            to: name,
            of,
            pointer,
        } => put_load(alloc, to, names, *name, *of, *pointer),
        Instruction::Store { of, value, pointer } => {
            put_store(alloc, to, names, *of, *value, *pointer)
        }
        Instruction::Address {
            to: name,
            inbounds,
            of,
            base,
            indices,
        } => put_address(
            alloc,
            to,
            names,
            *name,
            *inbounds,
            *of,
            *base,
            indices.as_slice(),
        ),
        Instruction::Call {
            to: name,
            of,
            variadic,
            callee,
            arguments,
        } => put_call(
            alloc,
            to,
            names,
            *name,
            *of,
            *variadic,
            *callee,
            arguments.as_slice(),
        ),
        Instruction::Return { value } => put_return(alloc, to, names, *value),
        Instruction::Jump { target } => put_jump(to, names, *target),
        Instruction::Branch {
            condition,
            on_true,
            on_false,
        } => put_branch(alloc, to, names, *condition, *on_true, *on_false),
        Instruction::Switch {
            of,
            value,
            default,
            cases,
        } => put_switch(alloc, to, names, *of, *value, *default, cases.as_slice()),
        Instruction::Unreachable => to.append(b"unreachable"),
    }
}
