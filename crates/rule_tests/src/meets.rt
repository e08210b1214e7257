//! The plain test of a module by all its rules.
ghost use Rattle.std.specs.Prelude.{◌↔◌, IfOk, IsTrue};
ghost use Rattle.ir_rules.specs.Checked.{IsChecked};
ghost use Rattle.ir_rules.specs.Reading.{TableStands};

use crate::reading::is_well_formed;
use ir_checker::faults::find_fault;
use ir_tree::whole::Module;
use pv_base::want::Memory;
use std::alloc::Global;

/// Whether a module meets the rules: no place of it has a fault, and it keeps what reading keeps, its whole table with it.
#[tactic(auto, using(crate::proofs::TestedLemmas::checked, crate::proofs::TestedLemmas::not_formed, crate::proofs::TestedLemmas::faulty))]
pub fn meets_rules(alloc: Global, tree: &Module) -> Result<bool, Memory>
    ensures { IfOk result (λ b. IsTrue b ↔ (IsChecked tree.now × TableStands tree.now)) }
{
    if !is_well_formed(alloc, tree)? {
        return Ok(false);
    }
    match find_fault(alloc, tree)? {
        Some(_) => Ok(false),
        None => Ok(true),
    }
}
