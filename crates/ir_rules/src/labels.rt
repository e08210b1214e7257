//! The labels and the written types of an instruction.
ghost use Rattle.std.specs.Prelude.{◌≡◌, ◌++◌, ◌∷◌, [], map, IfOk};
ghost use Rattle.ir_rules.specs.Forms.{targets, sources, argument_types, integer_types};

use ir_tree::instruction::{Argument, Arm, Case, Instruction};
use ir_tree::nodes::{NameId, TypeId};
use pv_base::list::List;
use pv_base::want::Memory;
use std::alloc::Global;

fn one(alloc: Global, a: u32) -> Result<List<u32>, Memory>
    ensures { IfOk result (λ l. l ≡ a ∷ []) }
{
    List::from_slice(alloc, &[a])
}

fn two(alloc: Global, a: u32, b: u32) -> Result<List<u32>, Memory>
    ensures { IfOk result (λ l. l ≡ a ∷ b ∷ []) }
{
    List::from_slice(alloc, &[a, b])
}

fn case_targets(mut labels: List<NameId>, cases: &[Case]) -> Result<List<NameId>, Memory>
    ensures { IfOk result (λ l. l ≡ labels ++ map (λ c. c.to) cases.now) }
{
    for case in cases {
        labels.push(case.to)?;
    }
    Ok(labels)
}

fn arm_sources(alloc: Global, arms: &[Arm]) -> Result<List<NameId>, Memory>
    ensures { IfOk result (λ l. l ≡ map (λ a. a.from) arms.now) }
{
    let mut labels = List::new(alloc);
    for arm in arms {
        labels.push(arm.from)?;
    }
    Ok(labels)
}

/// The blocks to which an instruction has an edge.
#[tactic(auto, unfolding(crate::specs::Forms::targets))]
pub fn targets(alloc: Global, instruction: &Instruction) -> Result<List<NameId>, Memory>
    ensures { IfOk result (λ l. l ≡ targets instruction.now) }
{
    match instruction {
        Instruction::Jump { target } => one(alloc, *target),
        Instruction::Branch {
            on_true,
            on_false,
            ..
        } => two(alloc, *on_true, *on_false),
        Instruction::Switch { default, cases, .. } => {
            case_targets(one(alloc, *default)?, cases.as_slice())
        }
        _ => Ok(List::new(alloc)),
    }
}

/// The labels of a phi.
#[tactic(auto, unfolding(crate::specs::Forms::sources))]
pub fn sources(alloc: Global, instruction: &Instruction) -> Result<List<NameId>, Memory>
    ensures { IfOk result (λ l. l ≡ sources instruction.now) }
{
    match instruction {
        Instruction::Phi { arms, .. } => arm_sources(alloc, arms.as_slice()),
        _ => Ok(List::new(alloc)),
    }
}

/// The types that are written before arguments.
pub fn written_types(alloc: Global, arguments: &[Argument]) -> Result<List<TypeId>, Memory>
    ensures { IfOk result (λ l. l ≡ map (λ a. a.of) arguments.now) }
{
    let mut types = List::new(alloc);
    for argument in arguments {
        types.push(argument.of)?;
    }
    Ok(types)
}

fn argument_types(alloc: Global, argument: Option<Argument>) -> Result<List<TypeId>, Memory>
    ensures { IfOk result (λ l. l ≡ argument_types argument) }
{
    match argument {
        Some(argument) => one(alloc, argument.of),
        None => Ok(List::new(alloc)),
    }
}

/// The written types that are to be of integers.
#[tactic(auto, unfolding(crate::specs::Forms::integer_types))]
pub fn integer_types(alloc: Global, instruction: &Instruction) -> Result<List<TypeId>, Memory>
    ensures { IfOk result (λ l. l ≡ integer_types instruction.now) }
{
    match instruction {
        Instruction::Binary { of, .. } => one(alloc, *of),
        Instruction::Cast { of, target, .. } => two(alloc, *of, *target),
        Instruction::Alloca { count, .. } => argument_types(alloc, *count),
        Instruction::Address { indices, .. } => written_types(alloc, indices.as_slice()),
        Instruction::Switch { of, .. } => one(alloc, *of),
        _ => Ok(List::new(alloc)),
    }
}
