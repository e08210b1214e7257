//! The instructions of a block with their names resolved.
ghost use Rattle.std.specs.Prelude.{◌≡◌, ◌≤◌, ◌++◌, ◌^◌, ◌<◌, IfOk, length, map, replicate};
ghost use Rattle.ir_code.specs.declared.op.Op.TheVariants as op;
ghost use Rattle.ir_code.specs.Places.{exit_at};
ghost use Rattle.ir_code.specs.Blocks.{joins_of, computed, ending, resolved, op_of, ops_of};

use crate::addresses::address;
use crate::calls::call;
use crate::exits::{Exits, branch, jump, switch};
use crate::families::{alloca, binary, cast, compare, freeze, load, return_of, select, store};
use crate::lookups::Lookups;
use crate::op::Op;
use crate::scope::Scope;
use ir_tree::instruction::Instruction;
use ir_tree::whole::Module;
use pv_base::list::List;
use pv_base::want::Memory;
use std::alloc::Global;

/// An instruction that ends its block; `None` where it breaks a rule of modules, and for every other.
fn ending(
    alloc: Global,
    lookups: &Lookups,
    scope: &Scope,
    exits: &Exits,
    instruction: &Instruction,
) -> Result<Option<Op>, Memory>
    ensures { IfOk result (λ r. r ≡ ending lookups.now scope.now (exit_at scope.now.labels exits.now.targets exits.now.first) instruction.now) }
{
    let registers = &scope.registers;
    let labels = &scope.labels;
    match instruction {
        Instruction::Return { value } => Ok(return_of(lookups, registers, *value)),
        Instruction::Jump { target } => Ok(jump(exits, labels, *target)),
        Instruction::Branch {
            condition,
            on_true,
            on_false,
        } => Ok(branch(
            lookups, registers, exits, labels, *condition, *on_true, *on_false,
        )),
        Instruction::Switch {
            of,
            value,
            default,
            cases,
        } => switch(
            alloc,
            lookups,
            registers,
            exits,
            labels,
            *of,
            *value,
            *default,
            cases.as_slice(),
        ),
        Instruction::Unreachable => Ok(Some(Op::Unreachable)),
        _ => Ok(None),
    }
}

/// An instruction whose value needs those of its operands alone; `None` where it breaks a rule of modules, and for every other.
fn computed(lookups: &Lookups, scope: &Scope, instruction: &Instruction) -> Option<Op>
    ensures { result ≡ computed lookups.now scope.now instruction.now }
{
    let registers = &scope.registers;
    match instruction {
        Instruction::Binary {
            to,
            op,
            flags,
            of,
            left,
            right,
        } => binary(lookups, registers, *to, *op, *flags, *of, *left, *right),
        Instruction::Cast {
            to,
            op,
            flags,
            of,
            value,
            target,
        } => cast(lookups, registers, *to, *op, *flags, *of, *value, *target),
        Instruction::Freeze { to, of, value } => freeze(lookups, registers, *to, *of, *value),
        Instruction::Compare {
            to,
            pred,
            of,
            left,
            right,
        } => compare(lookups, registers, *to, *pred, *of, *left, *right),
        Instruction::Select {
            to,
            condition,
            of,
            on_true,
            on_false,
        } => select(
            lookups, registers, *to, *condition, *of, *on_true, *on_false,
        ),
        _ => None,
    }
}

/// An instruction that is no phi of those that its block begins with; `None` where it breaks a rule of modules.
#[tactic(auto, unfolding(crate::specs::Blocks::resolved))]
fn resolved(
    alloc: Global,
    module: &Module,
    lookups: &Lookups,
    scope: &Scope,
    exits: &Exits,
    instruction: &Instruction,
) -> Result<Option<Op>, Memory>
    requires { length lookups.now.sizes ≡ length «module».now.names.types }
    ensures { IfOk result (λ r. r ≡ resolved «module».now lookups.now scope.now (exit_at scope.now.labels exits.now.targets exits.now.first) instruction.now) }
{
    let registers = &scope.registers;
    match instruction {
        Instruction::Binary { .. }
        | Instruction::Cast { .. }
        | Instruction::Freeze { .. }
        | Instruction::Compare { .. }
        | Instruction::Select { .. } => Ok(computed(lookups, scope, instruction)),
        Instruction::Phi { .. } => Ok(None),
        Instruction::Alloca { to, of, count } => Ok(alloca(lookups, registers, *to, *of, *count)),
        Instruction::Load { to, of, pointer } => Ok(load(lookups, registers, *to, *of, *pointer)),
        Instruction::Store { of, value, pointer } => {
            Ok(store(lookups, registers, *of, *value, *pointer))
        }
        Instruction::Address {
            to,
            inbounds,
            of,
            base,
            indices,
        } => address(
            alloc,
            module,
            lookups,
            registers,
            *to,
            *inbounds,
            *of,
            *base,
            indices.as_slice(),
        ),
        Instruction::Call {
            to,
            of,
            variadic: _,
            callee,
            arguments,
        } => call(
            alloc,
            lookups,
            registers,
            *to,
            *of,
            *callee,
            arguments.as_slice(),
        ),
        Instruction::Return { .. }
        | Instruction::Jump { .. }
        | Instruction::Branch { .. }
        | Instruction::Switch { .. }
        | Instruction::Unreachable => ending(alloc, lookups, scope, exits, instruction),
    }
}

fn op_of(
    alloc: Global,
    module: &Module,
    lookups: &Lookups,
    scope: &Scope,
    exits: &Exits,
    instruction: &Instruction,
) -> Result<Op, Memory>
    requires { length lookups.now.sizes ≡ length «module».now.names.types }
    ensures { IfOk result (λ r. r ≡ op_of «module».now lookups.now scope.now (exit_at scope.now.labels exits.now.targets exits.now.first) instruction.now) }
{
    match resolved(alloc, module, lookups, scope, exits, instruction)? {
        Some(op) => Ok(op),
        None => Ok(Op::Stuck),
    }
}

/// So many phis.
fn phis(alloc: Global, count: usize) -> Result<List<Op>, Memory>
    ensures { IfOk result (λ ops. ops ≡ replicate count op.Phi) }
{
    let mut ops = List::new(alloc);
    for _place in 0..count {
        ops.push(Op::Phi)?;
    }
    Ok(ops)
}

/// These instructions, and behind them others that are no phis.
fn with_ops(
    alloc: Global,
    module: &Module,
    lookups: &Lookups,
    scope: &Scope,
    exits: &Exits,
    instructions: &[Instruction],
    ops: List<Op>,
) -> Result<List<Op>, Memory>
    requires { length lookups.now.sizes ≡ length «module».now.names.types }
    ensures { IfOk result (λ r. r ≡ ops ++ map (op_of «module».now lookups.now scope.now (exit_at scope.now.labels exits.now.targets exits.now.first)) instructions.now) }
{
    let mut ops = ops;
    for instruction in instructions {
        let op = op_of(alloc, module, lookups, scope, exits, instruction)?;
        ops.push(op)?;
    }
    Ok(ops)
}

/// The instructions of a block that begins with so many phis.
#[tactic(auto, using(crate::proofs::Opening::joins_within))]
pub(crate) fn ops_of(
    alloc: Global,
    module: &Module,
    lookups: &Lookups,
    scope: &Scope,
    exits: &Exits,
    count: usize,
    instructions: &[Instruction],
) -> Result<List<Op>, Memory>
    requires sizes { length lookups.now.sizes ≡ length «module».now.names.types }
    requires count { count ≡ length (joins_of instructions.now) }
    ensures { IfOk result (λ r. r ≡ ops_of «module».now lookups.now scope.now exits.now instructions.now) }
{
    let phis = phis(alloc, count)?;
    with_ops(
        alloc,
        module,
        lookups,
        scope,
        exits,
        &instructions[count..],
        phis,
    )
}
