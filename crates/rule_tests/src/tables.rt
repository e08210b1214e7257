//! Whether the table of a module is that of one that is read from text.
ghost use Rattle.std.specs.Prelude.{◌≡◌, length, IfOk};
ghost use Rattle.std.specs.List.{list_all};
ghost use Rattle.ir_tree.specs.Naming.{type_at, constant_at};
ghost use Rattle.ir_tree.specs.Modules.{types_of};
ghost use Rattle.ir_rules.specs.Reading.{level_stands, address_stands, name_stands, numbers_below};

use crate::levels::{constant_stands, level_stands, name_stands};
use ir_rules::flags::number_of;
use ir_tree::table::Names;
use ir_tree::whole::Module;
use pv_base::want::Memory;
use std::alloc::Global;

/// Whether each name is one of a module.
pub fn names_stand(names: &Names) -> Result<bool, Memory>
    ensures { IfOk result (λ b. b ≡ list_all name_stands names.now.names) }
{
    for i in 0..names.name_count() {
        let number = number_of(i)?;
        if !name_stands(names, number) {
            return Ok(false);
        }
    }
    Ok(true)
}

/// Whether each type is one of a module.
pub fn types_stand(tree: &Module) -> Result<bool, Memory>
    ensures { IfOk result (λ b. b ≡ list_all (λ k. level_stands (types_of tree.now) (type_at tree.now.names k)) (numbers_below (length tree.now.names.types))) }
{
    for i in 0..tree.names().type_count() {
        let number = number_of(i)?;
        if !level_stands(tree, number) {
            return Ok(false);
        }
    }
    Ok(true)
}

/// Whether each constant is one of a module.
pub fn constants_stand(alloc: Global, tree: &Module) -> Result<bool, Memory>
    ensures { IfOk result (λ b. b ≡ list_all (λ k. address_stands (types_of tree.now) (constant_at tree.now.names k)) (numbers_below (length tree.now.names.constants))) }
{
    for i in 0..tree.names().constant_count() {
        let number = number_of(i)?;
        if !constant_stands(alloc, tree, number)? {
            return Ok(false);
        }
    }
    Ok(true)
}
