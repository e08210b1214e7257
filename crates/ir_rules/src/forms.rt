//! The parts of an instruction by its form.
ghost use Rattle.std.specs.Prelude.{◌≡◌, ◌++◌, ◌∷◌, [], map, IfOk};
ghost use Rattle.ir_rules.specs.Forms.{is_terminator, is_phi, call_register, result_of, used, argument_use, argument_uses, callee_uses, uses};

use crate::given::{Defined, Given, Use};
use ir_tree::instruction::{Argument, Arm, Callee, Case, Instruction, Operand};
use ir_tree::nodes::{NameId, TypeId};
use pv_base::list::List;
use pv_base::want::Memory;
use std::alloc::Global;

/// Whether the instruction ends its block.
#[tactic(auto, unfolding(crate::specs::Forms::is_terminator))]
pub fn is_terminator(instruction: &Instruction) -> bool
    ensures { result ≡ is_terminator instruction.now }
{
    match instruction {
        Instruction::Return { value: _ } => true,
        Instruction::Jump { target: _ } => true,
        Instruction::Branch {
            condition: _,
            on_true: _,
            on_false: _,
        } => true,
        Instruction::Switch {
            of: _,
            value: _,
            default: _,
            cases: _,
        } => true,
        Instruction::Unreachable => true,
        _ => false,
    }
}

/// Whether the instruction is a phi.
#[tactic(auto, unfolding(crate::specs::Forms::is_phi))]
pub fn is_phi(instruction: &Instruction) -> bool
    ensures { result ≡ is_phi instruction.now }
{
    match instruction {
        Instruction::Phi {
            to: _,
            of: _,
            arms: _,
        } => true,
        _ => false,
    }
}

fn register(to: NameId, of: Given) -> Option<Defined>
    ensures { result ≡ Some (record { name = to; of = Some of }) }
{
    Some(Defined {
        name: to,
        of: Some(of),
    })
}

fn call_register(to: Option<NameId>, of: TypeId) -> Option<Defined>
    ensures { result ≡ call_register to of }
{
    match to {
        Some(to) => register(to, Given::Written(of)),
        None => None,
    }
}

/// What an instruction defines.
#[tactic(auto, unfolding(crate::specs::Forms::result_of))]
pub fn result_of(instruction: &Instruction) -> Option<Defined>
    ensures { result ≡ result_of instruction.now }
{
    match instruction {
        Instruction::Binary { to, of, .. } => register(*to, Given::Written(*of)),
        Instruction::Cast { to, target, .. } => register(*to, Given::Written(*target)),
        Instruction::Freeze { to, of, .. } => register(*to, Given::Written(*of)),
        Instruction::Compare { to, .. } => register(*to, Given::Bit),
        Instruction::Select { to, of, .. } => register(*to, Given::Written(*of)),
        Instruction::Phi { to, of, .. } => register(*to, Given::Written(*of)),
        Instruction::Alloca { to, .. } => register(*to, Given::Pointer),
        Instruction::Load { to, of, .. } => register(*to, Given::Written(*of)),
        Instruction::Address { to, .. } => register(*to, Given::Pointer),
        Instruction::Call { to, of, .. } => call_register(*to, *of),
        _ => None,
    }
}

fn used(value: Operand, of: Given) -> Use
    ensures { result ≡ used value of }
{
    Use { value, of }
}

fn one(alloc: Global, a: Use) -> Result<List<Use>, Memory>
    ensures { IfOk result (λ l. l ≡ a ∷ []) }
{
    List::from_slice(alloc, &[a])
}

fn two(alloc: Global, a: Use, b: Use) -> Result<List<Use>, Memory>
    ensures { IfOk result (λ l. l ≡ a ∷ b ∷ []) }
{
    List::from_slice(alloc, &[a, b])
}

fn three(alloc: Global, a: Use, b: Use, c: Use) -> Result<List<Use>, Memory>
    ensures { IfOk result (λ l. l ≡ a ∷ b ∷ c ∷ []) }
{
    List::from_slice(alloc, &[a, b, c])
}

fn argument_use(argument: Argument) -> Use
    ensures { result ≡ argument_use argument }
{
    used(argument.value, Given::Written(argument.of))
}

fn argument_uses(alloc: Global, argument: Option<Argument>) -> Result<List<Use>, Memory>
    ensures { IfOk result (λ l. l ≡ argument_uses argument) }
{
    match argument {
        Some(argument) => one(alloc, argument_use(argument)),
        None => Ok(List::new(alloc)),
    }
}

fn callee_uses(alloc: Global, callee: Callee) -> Result<List<Use>, Memory>
    ensures { IfOk result (λ l. l ≡ callee_uses callee) }
{
    match callee {
        Callee::Function(_) => Ok(List::new(alloc)),
        Callee::Pointer(name) => one(alloc, used(Operand::Register(name), Given::Pointer)),
    }
}

fn with_arguments(mut uses: List<Use>, arguments: &[Argument]) -> Result<List<Use>, Memory>
    ensures { IfOk result (λ l. l ≡ uses ++ map argument_use arguments.now) }
{
    for argument in arguments {
        uses.push(argument_use(*argument))?;
    }
    Ok(uses)
}

fn with_arms(alloc: Global, of: TypeId, arms: &[Arm]) -> Result<List<Use>, Memory>
    ensures { IfOk result (λ l. l ≡ map (λ a. used a.value (Given.Written of)) arms.now) }
{
    let mut uses = List::new(alloc);
    for arm in arms {
        uses.push(used(arm.value, Given::Written(of)))?;
    }
    Ok(uses)
}

fn with_cases(mut uses: List<Use>, of: TypeId, cases: &[Case]) -> Result<List<Use>, Memory>
    ensures { IfOk result (λ l. l ≡ uses ++ map (λ c. used (Operand.Constant c.value) (Given.Written of)) cases.now) }
{
    for case in cases {
        uses.push(used(Operand::Constant(case.value), Given::Written(of)))?;
    }
    Ok(uses)
}

/// What an instruction reads, with the type that each operand needs.
#[tactic(auto, unfolding(crate::specs::Forms::uses))]
pub fn uses(alloc: Global, instruction: &Instruction) -> Result<List<Use>, Memory>
    ensures { IfOk result (λ l. l ≡ uses instruction.now) }
{
    match instruction {
        Instruction::Binary {
            of,
            left,
            right,
            ..
        } => two(
            alloc,
            used(*left, Given::Written(*of)),
            used(*right, Given::Written(*of)),
        ),
        Instruction::Cast { of, value, .. } => one(alloc, used(*value, Given::Written(*of))),
        Instruction::Freeze { of, value, .. } => one(alloc, used(*value, Given::Written(*of))),
        Instruction::Compare {
            of,
            left,
            right,
            ..
        } => two(
            alloc,
            used(*left, Given::Written(*of)),
            used(*right, Given::Written(*of)),
        ),
        Instruction::Select {
            condition,
            of,
            on_true,
            on_false,
            ..
        } => three(
            alloc,
            used(*condition, Given::Bit),
            used(*on_true, Given::Written(*of)),
            used(*on_false, Given::Written(*of)),
        ),
        Instruction::Phi { of, arms, .. } => with_arms(alloc, *of, arms.as_slice()),
        Instruction::Alloca { count, .. } => argument_uses(alloc, *count),
        Instruction::Load { pointer, .. } => one(alloc, used(*pointer, Given::Pointer)),
        Instruction::Store { of, value, pointer } => two(
            alloc,
            used(*value, Given::Written(*of)),
            used(*pointer, Given::Pointer),
        ),
        Instruction::Address { base, indices, .. } => with_arguments(
            one(alloc, used(*base, Given::Pointer))?,
            indices.as_slice(),
        ),
        Instruction::Call {
            callee,
            arguments,
            ..
        } => with_arguments(callee_uses(alloc, *callee)?, arguments.as_slice()),
        Instruction::Return { value } => argument_uses(alloc, *value),
        Instruction::Branch { condition, .. } => one(alloc, used(*condition, Given::Bit)),
        Instruction::Switch {
            of,
            value,
            cases,
            ..
        } => with_cases(
            one(alloc, used(*value, Given::Written(*of)))?,
            *of,
            cases.as_slice(),
        ),
        Instruction::Jump { target: _ } => Ok(List::new(alloc)),
        Instruction::Unreachable => Ok(List::new(alloc)),
    }
}
