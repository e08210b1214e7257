//! The names of a function's registers and blocks.
ghost use Rattle.std.specs.Prelude.{◌≡◌, IfOk, map};
ghost use Rattle.ir_code.specs.Blocks.{joins_of};

use crate::joins::{Join, joins};
use crate::places::Places;
use ir_tree::items::Block;
use pv_base::list::List;
use pv_base::want::Memory;
use std::alloc::Global;
use std::marker::Model;

/// The names of a function's registers and of its blocks, and the phis that its blocks begin with.
#[derive(Drop)]
pub(crate) struct Scope {
    pub(crate) registers: Places,
    pub(crate) labels: Places,
    pub(crate) joins: List<List<Join>>,
}

impl Model for Scope {
    ghost use Rattle.ir_code.specs.Blocks.{Scope as AScope};

    ghost Value = { AScope };

    ghost view = { λ s. record { registers = s.registers; labels = s.labels; joins = s.joins } };
}

/// The phis that the blocks begin with.
pub(crate) fn all_joins(alloc: Global, blocks: &[Block]) -> Result<List<List<Join>>, Memory>
    ensures { IfOk result (λ js. js ≡ map (λ b. joins_of b.instructions) blocks.now) }
{
    let mut all = List::new(alloc);
    for block in blocks {
        let joins = joins(alloc, block.instructions.as_slice())?;
        all.push(joins)?;
    }
    Ok(all)
}
