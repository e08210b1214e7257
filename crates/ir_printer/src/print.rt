//! The canonical text of a module and of a site.
ghost use Rattle.std.specs.Prelude.{◌≡◌, ◌<◌, ◌++◌, length, IfOk, OnOk};
ghost use Rattle.ir_tree.specs.Naming.{name_at};
ghost use Rattle.ir_printer.specs.Items.{module_text, site_text};
ghost use Rattle.ir_printer.specs.Pieces.{Global as GlobalName, spelled};

use crate::items::{put_functions, put_globals, put_types};
use crate::spelling::{put_decimal, put_global};
use ir_tree::nodes::NameId;
use ir_tree::whole::Module;
use pv_base::bytes::Bytes;
use pv_base::place::Site;
use pv_base::want::Memory;
use std::alloc::Global;

/// The canonical text: types, globals and functions in text order, an item, a label or an instruction a line, each line
/// with its end. It takes time and memory linear in the module and the text, however deep types and constants are nested.
pub fn print_module(alloc: Global, module: &Module) -> Result<Bytes, Memory>
    ensures { IfOk result (λ text. text ≡ module_text module.now) }
{
    let mut text = Bytes::new(alloc);
    put_types(alloc, &mut text, module.names(), module.types())?;
    put_globals(alloc, &mut text, module.names(), module.globals())?;
    put_functions(alloc, &mut text, module.names(), module.functions())?;
    Ok(text)
}

/// The name of a global or of a function, as the text spells it: `@name`.
pub fn put_global_name(to: &mut Bytes, module: &Module, name: NameId) -> Result<(), Memory>
    ensures { OnOk result (to.new ≡ to.old ++ spelled (GlobalName (name_at module.now.names name))) }
{
    put_global(to, module.names(), name)
}

/// A site as reports and profiles spell it: `@f:12`, by the function's name and the instruction's number in it.
pub fn site_text(alloc: Global, module: &Module, at: Site) -> Result<Bytes, Memory>
    requires { at.function < length module.now.functions }
    ensures { IfOk result (λ text. text ≡ site_text module.now at) }
{
    let mut text = Bytes::new(alloc);
    let function = &module.functions()[at.function as usize];
    put_global(&mut text, module.names(), function.name)?;
    text.append(b":")?;
    put_decimal(&mut text, u64::from(at.place))?;
    Ok(text)
}
