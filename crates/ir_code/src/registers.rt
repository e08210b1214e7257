//! The registers of a function.
ghost use Rattle.std.specs.Prelude.{◌≡◌, ◌++◌, ◌∷◌, [], OnOk, OnErr, IfOk, map, Some};
ghost use Rattle.std.specs.List.{cons_option, filter_map, flat_map};
ghost use Rattle.ir_code.specs.Blocks.{result_of, parameter_of, registers_of};

use crate::lookups::Lookups;
use crate::op::Scalar;
use crate::places::Places;
use ir_tree::instruction::Instruction;
use ir_tree::items::{Block, Function, Param};
use ir_tree::nodes::NameId;
use pv_base::list::List;
use pv_base::want::Memory;
use std::alloc::Global;
use std::marker::Model;

/// A register: its name, which a parameter of a declaration may lack, and its type.
#[derive(Clone, Copy)]
pub struct Register {
    pub name: Option<NameId>,
    pub of: Scalar,
}

/// Registers in order, each found by its name.
#[derive(Drop)]
pub(crate) struct Registers {
    all: List<Register>,
    names: Places,
}

impl Model for Registers {
    ghost use Rattle.std.specs.Prelude.{◌≡◌, map, List as Sequence};
    ghost use Rattle.ir_code.specs.declared.registers.Register.{Register as ARegister};

    ghost Value = { Sequence ARegister };

    ghost view = { λ r. r.all };

    ghost invariant = { λ r. r.names ≡ map (λ x. x.name) r.all };
}

impl Registers {
    pub(crate) fn new(alloc: Global) -> Registers
        ensures { result ≡ [] }
    {
        Registers {
            all: List::new(alloc),
            names: Places::new(alloc),
        }
    }

    /// Adds a register behind the others.
    fn add(self, register: Register) -> Result<Registers, Memory>
        ensures { IfOk result (λ r. r ≡ self ++ register ∷ []) }
    {
        let Registers { mut all, mut names } = self;
        all.push(register)?;
        names.add(register.name)?;
        Ok(Registers { all, names })
    }

    /// The types of the registers.
    pub(crate) fn types(&self, alloc: Global) -> Result<List<Scalar>, Memory>
        ensures { IfOk result (λ ts. ts ≡ map (λ x. x.of) self.now) }
    {
        let mut types = List::new(alloc);
        for register in self.all.as_slice() {
            types.push(register.of)?;
        }
        Ok(types)
    }

    /// The names of the registers.
    pub(crate) fn into_names(self) -> Places
        ensures { result ≡ map (λ x. x.name) self }
    {
        let Registers { all: _, names } = self;
        names
    }
}

fn parameter_of(lookups: &Lookups, param: Param) -> Register
    ensures { result ≡ parameter_of lookups.now param }
{
    Register {
        name: param.name,
        of: lookups.scalar_or_pointer(param.of),
    }
}

/// The register that an instruction gives a value.
fn result_of(lookups: &Lookups, instruction: &Instruction) -> Option<Register>
    ensures { result ≡ result_of lookups.now instruction.now }
{
    let (name, of) = match instruction {
        Instruction::Binary { to, of, .. }
        | Instruction::Freeze { to, of, .. }
        | Instruction::Select { to, of, .. }
        | Instruction::Phi { to, of, .. }
        | Instruction::Load { to, of, .. } => (*to, lookups.scalar_or_pointer(*of)),
        Instruction::Cast { to, target, .. } => (*to, lookups.scalar_or_pointer(*target)),
        Instruction::Compare { to, .. } => (*to, Scalar::Int(1)),
        Instruction::Alloca { to, .. } | Instruction::Address { to, .. } => (*to, Scalar::Pointer),
        Instruction::Call {
            to: Some(to),
            of,
            ..
        } => (*to, lookups.scalar_or_pointer(*of)),
        _ => return None,
    };
    Some(Register {
        name: Some(name),
        of,
    })
}

fn parameters(alloc: Global, lookups: &Lookups, params: &[Param]) -> Result<Registers, Memory>
    ensures { IfOk result (λ r. r ≡ map (parameter_of lookups.now) params.now) }
{
    let mut registers = Registers::new(alloc);
    for param in params {
        registers = registers.add(parameter_of(lookups, *param))?;
    }
    Ok(registers)
}

/// Adds the result of an instruction, where it has one.
fn add_result(
    lookups: &Lookups,
    instruction: &Instruction,
    registers: Registers,
) -> Result<Registers, Memory>
    ensures { IfOk result (λ r. r ≡ registers ++ cons_option (result_of lookups.now instruction.now) []) }
{
    match result_of(lookups, instruction) {
        Some(register) => registers.add(register),
        None => Ok(registers),
    }
}

/// Adds the results of a block.
fn add_results(
    lookups: &Lookups,
    instructions: &[Instruction],
    registers: Registers,
) -> Result<Registers, Memory>
    ensures { IfOk result (λ r. r ≡ registers ++ filter_map (result_of lookups.now) instructions.now) }
{
    let mut registers = registers;
    for instruction in instructions {
        registers = add_result(lookups, instruction, registers)?;
    }
    Ok(registers)
}

/// Adds the results of blocks.
fn add_blocks(
    lookups: &Lookups,
    blocks: &[Block],
    registers: Registers,
) -> Result<Registers, Memory>
    ensures { IfOk result (λ r. r ≡ registers ++ flat_map (λ b. filter_map (result_of lookups.now) b.instructions) blocks.now) }
{
    let mut registers = registers;
    for block in blocks {
        registers = add_results(lookups, block.instructions.as_slice(), registers)?;
    }
    Ok(registers)
}

/// The registers of a function: its parameters first, then the results in text order.
pub(crate) fn registers_of(
    alloc: Global,
    lookups: &Lookups,
    function: &Function,
) -> Result<Registers, Memory>
    ensures { IfOk result (λ r. r ≡ registers_of lookups.now function.now) }
{
    let registers = parameters(alloc, lookups, function.params.as_slice())?;
    let registers = add_blocks(lookups, function.blocks.as_slice(), registers)?;
    Ok(registers)
}
