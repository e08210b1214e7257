//! What is found once of a module before its places are looked at.
ghost use Rattle.std.specs.Prelude.{IfOk};
ghost use Rattle.ir_rules.specs.Heads.{AreTables};
ghost use Rattle.ir_checker.specs.Facts.{AreFacts};
ghost use Rattle.ir_checker.specs.Scopes.{IsIndex};

use crate::index::{Index, find_index};
use crate::kinds::constant_kinds;
use crate::known::known_flags;
use ir_rules::classes::type_classes;
use ir_rules::tables::Tables;
use ir_rules::together::together_flags;
use ir_tree::whole::Module;
use pv_base::list::List;
use pv_base::want::Memory;
use std::alloc::Global;

#[derive(Drop)]
pub struct Facts {
    /// The functions and globals by name.
    pub index: Index,
    pub tables: Tables,
    /// The classes of constants.
    pub kinds: List<usize>,
}

fn find_tables(alloc: Global, tree: &Module, index: &Index) -> Result<Tables, Memory>
    requires { IsIndex tree.now index.now }
    ensures { IfOk result (AreTables tree.now) }
{
    let classes = type_classes(alloc, tree.names())?;
    let known = known_flags(alloc, tree, index)?;
    let together = together_flags(alloc, tree, classes.as_slice())?;
    Ok(Tables {
        classes,
        known,
        together,
    })
}

pub fn find_facts(alloc: Global, tree: &Module) -> Result<Facts, Memory>
    ensures { IfOk result (AreFacts tree.now) }
{
    let index = find_index(alloc, tree)?;
    let tables = find_tables(alloc, tree, &index)?;
    let kinds = constant_kinds(alloc, tree.names(), tables.classes.as_slice())?;
    Ok(Facts {
        index,
        tables,
        kinds,
    })
}
