//! The test of a module by its rules.
ghost use Rattle.std.specs.Prelude.{◌≡◌, None, IfOk, OnOk, IfErr};
ghost use Rattle.ir_rules.specs.Seen.{seen};
ghost use Rattle.ir_rules.specs.Faults.{first_fault};
ghost use Rattle.ir_rules.specs.Reading.{IsWellFormed};
ghost use Rattle.ir_checker.specs.Ending.{IsFault};

use crate::faults::find_fault;
use ir_rules::checked::Checked;
use ir_rules::fault::CheckError;
use ir_tree::whole::Module;
use pv_base::want::Memory;
use std::alloc::Global;
use thiserror::Error;

/// How a test ends that seals no module.
#[derive(Debug, Drop, Error)]
pub enum CheckEnd {
    /// The module breaks a rule: its first fault.
    #[error("the module breaks a rule: {0:?}")]
    Bad(CheckError),
    /// Memory was refused.
    #[error("memory was refused")]
    Memory,
}

/// Seals a module that meets the rules. Of another the first fault is answered: by globals, then by the sites of functions,
/// then of the whole, and at one place the first cause of the order. A module that is refused is dropped.
pub fn check(alloc: Global, tree: Module) -> Result<Checked, CheckEnd>
    requires { IsWellFormed tree }
    ensures same { IfOk result (λ c. c ≡ tree) }
    ensures ok { OnOk result (first_fault (seen tree) ≡ None) }
    ensures bad { IfErr result (IsFault (first_fault (seen tree))) }
{
    match find_fault(alloc, &tree) {
        Ok(None) => Ok(Checked::seal(tree)),
        Ok(Some(fault)) => Err(CheckEnd::Bad(fault)),
        Err(Memory) => Err(CheckEnd::Memory),
    }
}
