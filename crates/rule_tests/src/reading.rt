//! Whether a module is one that is read from text: that nothing in it breaks what reading keeps.
ghost use Rattle.std.specs.Prelude.{◌≡◌, ◌++◌, ◌↔◌, nat_lt, nat_le, map, sum_by, IfOk, IsTrue};
ghost use Rattle.std.specs.List.{list_all};
ghost use Rattle.pv_base.specs.Limits.{live_limit};
ghost use Rattle.ir_tree.specs.Naming.{type_at};
ghost use Rattle.ir_tree.specs.Modules.{layout_in, types_of};
ghost use Rattle.ir_tree.specs.Shown.{shown_function};
ghost use Rattle.ir_rules.specs.Reading.{is_struct, size_of, has_layout, function_stands, IsWellFormed, TableStands};
ghost use Rattle.rule_tests.specs.Tested.{table_stands, items_differ, globals_stand, module_stands};

use crate::differing::names_differ;
use crate::functions::function_stands;
use crate::levels::has_layout;
use crate::tables::{constants_stand, names_stand, types_stand};
use crate::within::is_within;
use ir_rules::types::is_struct;
use ir_tree::items::{Function, Global as Variable, NamedType};
use ir_tree::nodes::{NameId, TypeId};
use ir_tree::table::Names;
use ir_tree::whole::{Module, layout_at};
use pv_base::limits::LIVE_LIMIT;
use pv_base::list::List;
use pv_base::want::Memory;
use std::alloc::Global;

fn are_structs(names: &Names, types: &[NamedType]) -> bool
    ensures { result ≡ list_all (λ t. is_struct (type_at names.now t.of)) types.now }
{
    types.iter().all(|t| is_struct(names, t.of))
}

/// Whether the names, types and constants of the table are those of a module.
fn table_stands(alloc: Global, tree: &Module) -> Result<bool, Memory>
    ensures { IfOk result (λ b. b ≡ table_stands tree.now) }
{
    let names = names_stand(tree.names())?;
    let types = types_stand(tree)?;
    let constants = constants_stand(alloc, tree)?;
    Ok(names & types & constants)
}

fn type_names(alloc: Global, types: &[NamedType]) -> Result<List<NameId>, Memory>
    ensures { IfOk result (λ l. l ≡ map (λ t. t.name) types.now) }
{
    let names = types.iter().map(|t| t.name).collect(alloc)?;
    Ok(List::from_vec(names))
}

fn variable_names(alloc: Global, globals: &[Variable]) -> Result<List<NameId>, Memory>
    ensures { IfOk result (λ l. l ≡ map (λ g. g.name) globals.now) }
{
    let names = globals.iter().map(|g| g.name).collect(alloc)?;
    Ok(List::from_vec(names))
}

fn function_names(alloc: Global, functions: &[Function]) -> Result<List<NameId>, Memory>
    ensures { IfOk result (λ l. l ≡ map (λ f. f.name) functions.now) }
{
    let names = functions.iter().map(|f| f.name).collect(alloc)?;
    Ok(List::from_vec(names))
}

fn global_names(alloc: Global, tree: &Module) -> Result<List<NameId>, Memory>
    ensures { IfOk result (λ l. l ≡ map (λ g. g.name) tree.now.globals ++ map (λ f. f.name) tree.now.functions) }
{
    let mut names = variable_names(alloc, tree.globals())?;
    let others = function_names(alloc, tree.functions())?;
    names.append(others.as_slice())?;
    Ok(names)
}

/// Whether named types are structs, and no type, and no global or function, has the name of another.
#[tactic(auto, using(crate::proofs::TestedLemmas::items_are))]
fn items_differ(alloc: Global, tree: &Module) -> Result<bool, Memory>
    ensures { IfOk result (λ b. b ≡ items_differ tree.now) }
{
    let names = tree.names();
    let types = type_names(alloc, tree.types())?;
    let globals = global_names(alloc, tree)?;
    let structs = are_structs(names, tree.types());
    let types = names_differ(alloc, names, types.as_slice())?;
    let globals = names_differ(alloc, names, globals.as_slice())?;
    Ok(structs & types & globals)
}

fn have_layouts(tree: &Module, globals: &[Variable]) -> bool
    ensures { result ≡ list_all (λ g. has_layout (types_of tree.now) (type_at tree.now.names g.of)) globals.now }
{
    globals.iter().all(|g| has_layout(tree, g.of))
}

fn size_of(tree: &Module, of: TypeId) -> u64
    ensures { result ≡ size_of (layout_in tree.now of) }
{
    match layout_at(tree, of) {
        Some(layout) => layout.size,
        None => 0,
    }
}

/// Whether globals have at most so many bytes together.
fn sizes_below(tree: &Module, globals: &[Variable]) -> bool
    ensures { result ≡ nat_le (sum_by (λ g. size_of (layout_in tree.now g.of)) globals.now) live_limit }
{
    let mut left: u64 = LIVE_LIMIT;
    for variable in globals {
        let size = size_of(tree, variable.of);
        if size > left {
            return false;
        }
        left -= size;
    }
    true
}

fn is_number(count: usize) -> bool
    ensures { result ≡ nat_lt count 4294967296 }
{
    count < 4294967296
}

/// Whether globals have layouts and sizes within the limit, and there are not too many items.
#[tactic(auto, using(crate::proofs::TestedLemmas::globals_are))]
fn globals_stand(tree: &Module) -> bool
    ensures { result ≡ globals_stand tree.now }
{
    let globals = tree.globals();
    let functions = tree.functions();
    let layouts = have_layouts(tree, globals);
    let sizes = sizes_below(tree, globals);
    let variables = is_number(globals.len());
    layouts & sizes & variables & is_number(functions.len())
}

#[tactic(auto, using(crate::proofs::WithinLemmas::all_stop, crate::proofs::WithinLemmas::all_more, crate::proofs::WithinLemmas::all_end))]
fn functions_stand(alloc: Global, tree: &Module, functions: &[Function]) -> Result<bool, Memory>
    ensures { IfOk result (λ b. b ≡ list_all (λ f. function_stands (types_of tree.now) (shown_function tree.now.names f)) functions.now) }
{
    for function in functions {
        let stands = function_stands(alloc, tree, function)?;
        if !stands {
            return Ok(false);
        }
    }
    Ok(true)
}

#[tactic(auto, using(crate::proofs::TestedLemmas::module_is))]
fn module_stands(alloc: Global, tree: &Module) -> Result<bool, Memory>
    ensures { IfOk result (λ b. b ≡ module_stands tree.now) }
{
    let within = is_within(alloc, tree)?;
    let table = table_stands(alloc, tree)?;
    let items = items_differ(alloc, tree)?;
    let globals = globals_stand(tree);
    let functions = functions_stand(alloc, tree, tree.functions())?;
    Ok(within & table & items & globals & functions)
}

/// Whether nothing in a module breaks what reading keeps, nor in its table, whether the items use it or not.
#[tactic(auto, using(crate::proofs::TestedLemmas::stands_is))]
pub fn is_well_formed(alloc: Global, tree: &Module) -> Result<bool, Memory>
    ensures { IfOk result (λ b. IsTrue b ↔ (IsWellFormed tree.now × TableStands tree.now)) }
{
    tree.names().is_table();
    module_stands(alloc, tree)
}
