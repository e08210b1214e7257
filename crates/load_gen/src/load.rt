//! A generated module, and its profile.
ghost use Rattle.std.specs.Prelude.{◌≡◌, IfOk};
ghost use Rattle.load_gen.specs.Module.{module_text};
ghost use Rattle.load_gen.specs.Profile.{profile_text};

use crate::module_text::put_module;
use crate::profile_text::put_profile;
use pv_base::bytes::Bytes;
use pv_base::want::Memory;
use std::alloc::Global;

/// The text of a module, and that of a profile of its one loop.
#[derive(Debug, Drop)]
pub struct Load {
    pub module: Bytes,
    pub profile: Bytes,
}

/// A module whose loop makes so many turns. Each turn calls one of 64 functions, whose factors and addends come from the number,
/// puts what it answers into a table, adds it to a sum and prints a letter for it. The module is in canonical text, so the
/// count stands as a signed integer of 32 bits.
pub fn generate(alloc: Global, number: u64, turns: u32) -> Result<Load, Memory>
    ensures module { IfOk result (λ load. load.module ≡ module_text number turns) }
    ensures profile { IfOk result (λ load. load.profile ≡ profile_text) }
{
    let mut module = Bytes::new(alloc);
    put_module(&mut module, number, turns)?;
    let mut profile = Bytes::new(alloc);
    put_profile(&mut profile)?;
    Ok(Load { module, profile })
}
