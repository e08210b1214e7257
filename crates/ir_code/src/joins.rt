//! The phis that blocks begin with, and what they take on edges.
ghost use Rattle.std.specs.Prelude.{◌≡◌, ◌++◌, ◌∷◌, [], IfOk, OnOk, OnErr, map, Some};
ghost use Rattle.ir_code.specs.Options.{every};
ghost use Rattle.ir_code.specs.Blocks.{join_of, joins_of, arm_from, move_of};

use crate::code::Move;
use crate::families::operand;
use crate::lookups::Lookups;
use crate::op::Operand;
use crate::places::Places;
use ir_tree::instruction::{Arm, Instruction, Operand as Named};
use ir_tree::nodes::{NameId, TypeId};
use pv_base::list::List;
use pv_base::want::Memory;
use std::alloc::Global;
use std::marker::Model;

/// A phi: its result, its type, its arms, and where each label stands among them.
#[derive(Drop)]
pub(crate) struct Join {
    to: NameId,
    of: TypeId,
    arms: List<Arm>,
    from: Places,
}

impl Model for Join {
    ghost use Rattle.ir_code.specs.Blocks.{Join as APhi};
    ghost use Rattle.std.specs.Prelude.{◌≡◌, map, Some};

    ghost Value = { APhi };

    ghost view = { λ j. record { to = j.to; of = j.of; arms = j.arms } };

    ghost invariant = { λ j. j.from ≡ map (λ a. Some a.from) j.arms };
}

impl Join {
    /// What the phi takes from the block of a label: its first arm from there.
    fn arm(&self, label: NameId) -> Option<Named>
        ensures { result ≡ arm_from label self.now.arms }
    {
        match self.from.place(label) {
            Some(place) => Some(self.arms.at(place as usize).value),
            None => None,
        }
    }
}

/// The labels of arms.
fn labels_of(alloc: Global, arms: &[Arm]) -> Result<Places, Memory>
    ensures { IfOk result (λ p. p ≡ map (λ a. Some a.from) arms.now) }
{
    let mut labels = Places::new(alloc);
    for arm in arms {
        labels.add(Some(arm.from))?;
    }
    Ok(labels)
}

fn join_of(alloc: Global, instruction: &Instruction) -> Result<Option<Join>, Memory>
    ensures { IfOk result (λ j. j ≡ join_of instruction.now) }
{
    match instruction {
        Instruction::Phi { to, of, arms } => {
            let from = labels_of(alloc, arms.as_slice())?;
            let arms = List::from_slice(alloc, arms.as_slice())?;
            Ok(Some(Join {
                to: *to,
                of: *of,
                arms,
                from,
            }))
        }
        _ => Ok(None),
    }
}

/// The phis that a block begins with.
pub(crate) fn joins(alloc: Global, instructions: &[Instruction]) -> Result<List<Join>, Memory>
    ensures { IfOk result (λ js. js ≡ joins_of instructions.now) }
{
    let mut joins = List::new(alloc);
    for instruction in instructions {
        match join_of(alloc, instruction)? {
            Some(join) => joins.push(join)?,
            None => return Ok(joins),
        }
    }
    Ok(joins)
}

/// What a phi's register takes on an edge from the block of a label.
fn move_of(lookups: &Lookups, registers: &Places, label: NameId, join: &Join) -> Option<Move>
    ensures { result ≡ move_of lookups.now registers.now label join.now }
{
    let register = registers.place(join.to)?;
    let of = lookups.scalar(join.of)?;
    let arm = join.arm(label)?;
    let value = operand(lookups, registers, of, arm)?;
    Some(Move { register, value })
}

/// Appends what a register takes, or changes nothing.
fn push_move(moves: &mut List<Move>, one: Move) -> Result<(), Memory>
    ensures ok { OnOk result (moves.new ≡ moves.old ++ one ∷ []) }
    ensures err { OnErr result (moves.new ≡ moves.old) }
{
    let register = one.register;
    match one.value {
        Operand::Register(from) => moves.push(Move {
            register,
            value: Operand::Register(from),
        }),
        Operand::Constant(value) => moves.push(Move {
            register,
            value: Operand::Constant(value),
        }),
    }
}

/// What the phis of a block take on an edge from the block of a label, where all can be resolved.
pub(crate) fn moves(
    alloc: Global,
    lookups: &Lookups,
    registers: &Places,
    label: NameId,
    joins: &[Join],
) -> Result<Option<List<Move>>, Memory>
    ensures { IfOk result (λ r. r ≡ every (move_of lookups.now registers.now label) joins.now) }
{
    let mut moves = List::new(alloc);
    for join in joins {
        match move_of(lookups, registers, label, join) {
            Some(one) => push_move(&mut moves, one)?,
            None => return Ok(None),
        }
    }
    Ok(Some(moves))
}
