//! The functions and globals of a module by name.
ghost use Rattle.std.specs.Prelude.{◌≡◌, ◌||◌, map, slice_get, option_map, option_copied, IfOk};
ghost use Rattle.ir_tree.specs.Naming.{name_at};
ghost use Rattle.ir_tree.specs.Shown.{shown_function};
ghost use Rattle.ir_rules.specs.Seen.{seen};
ghost use Rattle.ir_rules.specs.Defining.{function_named, is_global};
ghost use Rattle.ir_checker.specs.Keys.{key_of};
ghost use Rattle.ir_checker.specs.Scopes.{IsIndex};

use crate::firsts::Firsts;
use crate::keys::{key_of, zero_key};
use ir_tree::items::{Function, Global as Variable};
use ir_tree::nodes::NameId;
use ir_tree::table::Names;
use ir_tree::whole::Module;
use pv_base::list::List;
use pv_base::want::Memory;
use std::alloc::Global;

#[derive(Drop)]
pub struct Index {
    /// The key of the name 0.
    pub zero: usize,
    /// The keys of the functions.
    pub functions: Firsts,
    /// The keys of the globals.
    pub globals: Firsts,
}

fn function_keys(
    alloc: Global,
    names: &Names,
    zero: usize,
    functions: &[Function],
) -> Result<List<usize>, Memory>
    ensures { IfOk result (λ l. l ≡ map (λ f. key_of names.now zero f.name) functions.now) }
{
    let keys = functions
        .iter()
        .map(|f| key_of(names, zero, f.name))
        .collect(alloc)?;
    Ok(List::from_vec(keys))
}

fn variable_keys(
    alloc: Global,
    names: &Names,
    zero: usize,
    globals: &[Variable],
) -> Result<List<usize>, Memory>
    ensures { IfOk result (λ l. l ≡ map (λ g. key_of names.now zero g.name) globals.now) }
{
    let keys = globals
        .iter()
        .map(|g| key_of(names, zero, g.name))
        .collect(alloc)?;
    Ok(List::from_vec(keys))
}

pub fn find_index(alloc: Global, tree: &Module) -> Result<Index, Memory>
    ensures { IfOk result (IsIndex tree.now) }
{
    let names = tree.names();
    let zero = zero_key(names)?;
    let functions = function_keys(alloc, names, zero, tree.functions())?;
    let globals = variable_keys(alloc, names, zero, tree.globals())?;
    Ok(Index {
        zero,
        functions: Firsts::new(alloc, functions)?,
        globals: Firsts::new(alloc, globals)?,
    })
}

fn function_at<'a>(functions: &'a [Function], place: usize) -> Option<&'a Function>
    ensures { option_copied result ≡ slice_get functions.now place }
{
    functions.get(place)
}

/// The function of a name.
pub fn function_named<'a>(tree: &'a Module, index: &Index, name: NameId) -> Option<&'a Function>
    requires { IsIndex tree.now index.now }
    ensures { option_map (shown_function tree.now.names) (option_copied result) ≡ function_named (seen tree.now) (name_at tree.now.names name) }
{
    match index
        .functions
        .first(key_of(tree.names(), index.zero, name))
    {
        Some(place) => function_at(tree.functions(), place),
        None => None,
    }
}

fn either_of(a: bool, b: bool) -> bool
    ensures { result ≡ (a || b) }
{
    a || b
}

/// Whether a global or a function has this name.
pub fn is_global(tree: &Module, index: &Index, name: NameId) -> bool
    requires { IsIndex tree.now index.now }
    ensures { result ≡ is_global (seen tree.now) (name_at tree.now.names name) }
{
    let key = key_of(tree.names(), index.zero, name);
    let variable = index.globals.has(key);
    let function = index.functions.has(key);
    either_of(variable, function)
}
