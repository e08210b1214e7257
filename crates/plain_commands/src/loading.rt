//! From the text of a module to a module that can be run.
ghost use Rattle.std.specs.Prelude.{◌<◌, ◌^◌, length, IfOk};
ghost use Rattle.ir_rules.specs.Reading.{IsWellFormed};
ghost use Rattle.ir_tree.specs.Table.{IsTable};
ghost use Rattle.plain_commands.specs.Loading.{IsLoaded, IsJudged};

use ir_checker::faults::find_fault;
use ir_reader::whole::{TextEnd, read_module};
use ir_rules::checked::Checked;
use ir_tree::whole::Module;
use pv_base::bytes::Bytes;
use pv_base::want::Memory;
use run_report::refusals::{refused_check, refused_module};
use std::alloc::Global;

/// What a module's text is taken for.
#[derive(Drop)]
pub enum Loaded {
    Accepted(Checked),
    /// The line that says why it is refused.
    Refused(Bytes),
}

/// No name of a module has two numbers. The call does nothing: it tells this of a module at hand.
pub fn tell_names(tree: &Module)
    ensures { IsTable tree.now.names }
{
    tree.names().is_table();
}

/// Tests the module that was read of a text.
fn judge(alloc: Global, tree: Module) -> Result<Loaded, Memory>
    requires { IsWellFormed tree }
    ensures { IfOk result (IsJudged tree) }
{
    if let Some(fault) = find_fault(alloc, &tree)? {
        let line = refused_check(alloc, &tree, fault)?;
        return Ok(Loaded::Refused(line));
    }
    Ok(Loaded::Accepted(Checked::seal(tree)))
}

/// Reads a module and tests it by the rules.
pub fn load(alloc: Global, text: &[u8]) -> Result<Loaded, Memory>
    requires { length text.now < 2 ^ 32 }
    ensures { IfOk result (IsLoaded text.now) }
{
    match read_module(alloc, text) {
        Ok(tree) => {
            tell_names(&tree);
            judge(alloc, tree)
        }
        Err(TextEnd::Memory) => Err(Memory),
        Err(TextEnd::Bad(error)) => {
            let line = refused_module(alloc, &error)?;
            Ok(Loaded::Refused(line))
        }
    }
}
