//! What a function defines, and the registers and labels among it.
ghost use Rattle.std.specs.Prelude.{◌≡◌, ◌++◌, IfOk};
ghost use Rattle.std.specs.Option.{option_to_list};
ghost use Rattle.std.specs.List.{filter_map};
ghost use Rattle.ir_rules.specs.Forms.{result_of};
ghost use Rattle.ir_rules.specs.Defining.{argument_of, defined_in, defined};

use crate::forms::result_of;
use crate::given::{Defined, Given};
use ir_tree::instruction::Instruction;
use ir_tree::items::{Block, Function, Param};
use pv_base::list::List;
use pv_base::want::Memory;
use std::alloc::Global;

fn argument_of(param: Param) -> Option<Defined>
    ensures { result ≡ argument_of param }
{
    match param.name {
        Some(name) => Some(Defined {
            name,
            of: Some(Given::Written(param.of)),
        }),
        None => None,
    }
}

fn with_one(mut all: List<Defined>, one: Option<Defined>) -> Result<List<Defined>, Memory>
    ensures { IfOk result (λ l. l ≡ all ++ option_to_list one) }
{
    match one {
        Some(one) => {
            all.push(one)?;
            Ok(all)
        }
        None => Ok(all),
    }
}

fn arguments(alloc: Global, params: &[Param]) -> Result<List<Defined>, Memory>
    ensures { IfOk result (λ l. l ≡ filter_map argument_of params.now) }
{
    let mut all = List::new(alloc);
    for param in params {
        all = with_one(all, argument_of(*param))?;
    }
    Ok(all)
}

fn with_results(
    mut all: List<Defined>,
    instructions: &[Instruction],
) -> Result<List<Defined>, Memory>
    ensures { IfOk result (λ l. l ≡ all ++ filter_map result_of instructions.now) }
{
    for instruction in instructions {
        all = with_one(all, result_of(instruction))?;
    }
    Ok(all)
}

fn with_block(mut all: List<Defined>, block: &Block) -> Result<List<Defined>, Memory>
    ensures { IfOk result (λ l. l ≡ all ++ defined_in block.now) }
{
    all.push(Defined {
        name: block.label,
        of: None,
    })?;
    with_results(all, block.instructions.as_slice())
}

/// What a function defines in text order.
pub fn defined(alloc: Global, function: &Function) -> Result<List<Defined>, Memory>
    ensures { IfOk result (λ l. l ≡ defined function.now) }
{
    let mut all = arguments(alloc, function.params.as_slice())?;
    for block in function.blocks.as_slice() {
        all = with_block(all, block)?;
    }
    Ok(all)
}
