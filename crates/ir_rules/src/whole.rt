//! The initialisers of globals, and the function `main`.
ghost use Rattle.std.specs.Prelude.{◌≡◌, false, map, codes, find, option_map, option_copied};
ghost use Rattle.pv_base.specs.declared.name.Name.TheVariants.{Named};
ghost use Rattle.ir_tree.specs.Table.{same_name};
ghost use Rattle.ir_tree.specs.Naming.{name_at, type_at};
ghost use Rattle.ir_tree.specs.Shown.{shown_global, shown_function};
ghost use Rattle.ir_rules.specs.Seen.{seen};
ghost use Rattle.ir_rules.specs.Same.{same_type};
ghost use Rattle.ir_rules.specs.Constants.{names_known, holds_together};
ghost use Rattle.ir_rules.specs.Calls.{params_fit, param_types};
ghost use Rattle.ir_rules.specs.Causes.{initialiser_known, initialiser_fits, is_main, main_of, has_main_type, main_fits};
ghost use Rattle.ir_rules.specs.Heads.{name_or, AreFlags};
ghost use Rattle.ir_rules.specs.Outer.{shown_outer};
ghost use Rattle.ir_rules.specs.Classes.{AreClasses};

use crate::flags::flag_at;
use crate::given::Given;
use crate::operands::is_of;
use crate::types::{has_width, is_pointer, is_void};
use ir_tree::items::{Function, Global as Variable, Param};
use ir_tree::nodes::{NameId, TypeId};
use ir_tree::table::Names;
use ir_tree::whole::Module;
use pv_base::name::Name;

/// A type that stands in no table: of an argument or an answer that is fixed from outside a module.
#[derive(Clone, Copy)]
pub enum Outer {
    Integer(u32),
    Pointer,
    Void,
}

/// Whether each name in the initialiser of a global is known.
pub fn initialiser_known(tree: &Module, known: &[bool], variable: Variable) -> bool
    requires { AreFlags tree.now.names (names_known (seen tree.now)) known.now }
    ensures { result ≡ initialiser_known (seen tree.now) (shown_global tree.now.names variable) }
{
    flag_at(known, variable.init)
}

/// Whether the initialiser of a global is of the type of that global.
pub fn initialiser_fits(
    tree: &Module,
    classes: &[usize],
    together: &[bool],
    variable: Variable,
) -> bool
    requires classes { AreClasses tree.now.names classes.now }
    requires together { AreFlags tree.now.names (holds_together (seen tree.now)) together.now }
    ensures { result ≡ initialiser_fits (seen tree.now) (shown_global tree.now.names variable) }
{
    is_of(
        tree,
        classes,
        together,
        Given::Written(variable.of),
        variable.init,
    )
}

/// Whether the type of a number is one from outside.
#[tactic(auto, using(crate::proofs::GivenLemmas::pointer_left, crate::proofs::GivenLemmas::width_left, crate::proofs::OuterLemmas::void_left))]
pub fn is_outer(names: &Names, outer: Outer, of: TypeId) -> bool
    ensures { result ≡ same_type (shown_outer outer) (type_at names.now of) }
{
    match outer {
        Outer::Integer(width) => has_width(names, width, of),
        Outer::Pointer => is_pointer(names, of),
        Outer::Void => is_void(names, of),
    }
}

fn each_fits(names: &Names, outer: &[Outer], params: &[Param]) -> bool
    ensures { result ≡ params_fit false (map shown_outer outer.now) (map (λ p. type_at names.now p.of) params.now) }
{
    if params.len() < outer.len() {
        return false;
    }
    for i in 0..outer.len() {
        if !is_outer(names, outer[i], params[i].of) {
            return false;
        }
    }
    params.len() - outer.len() == 0
}

/// Whether the parameters of a function are of these types.
#[tactic(auto, using(crate::proofs::OuterLemmas::params_shown))]
pub fn takes(names: &Names, outer: &[Outer], function: &Function) -> bool
    ensures { result ≡ params_fit false (map shown_outer outer.now) (param_types (shown_function names.now function.now)) }
{
    each_fits(names, outer, function.params.as_slice())
}

fn spells_main(name: Option<&Name>) -> bool
    ensures { result ≡ same_name (Named (codes "main")) (name_or name.entry) }
{
    match name {
        Some(Name::Named(bytes)) => bytes.as_slice() == b"main".as_slice(),
        _ => false,
    }
}

/// The name of a number; one that a table lacks is the name 0.
pub fn name<'a>(names: &'a Names, number: NameId) -> Option<&'a Name>
    ensures { name_at names.now number ≡ name_or result }
{
    names.name(number)
}

/// Whether a function is the one at which a program begins.
fn is_main(names: &Names, function: &Function) -> bool
    ensures { result ≡ is_main (shown_function names.now function.now) }
{
    !function.declared && spells_main(name(names, function.name))
}

fn find_main<'a>(names: &Names, functions: &'a [Function]) -> Option<&'a Function>
    ensures { option_copied result ≡ find (λ f. is_main (shown_function names.now f)) functions.now }
{
    functions.iter().find(|f| is_main(names, f))
}

/// The function at which the program begins.
#[tactic(auto, using(crate::proofs::ShownLemmas::find_map))]
pub fn main_of<'a>(tree: &'a Module) -> Option<&'a Function>
    ensures { option_map (shown_function tree.now.names) (option_copied result) ≡ main_of (seen tree.now) }
{
    find_main(tree.names(), tree.functions())
}

/// Whether a function is one of `i32 ()` or of `i32 (i32, ptr)`.
#[tactic(auto, using(crate::proofs::GivenLemmas::width_right))]
fn has_main_type(names: &Names, function: &Function) -> bool
    ensures { result ≡ has_main_type (shown_function names.now function.now) }
{
    has_width(names, 32, function.result)
        && !function.variadic
        && (takes(names, &[], function)
            || takes(names, &[Outer::Integer(32), Outer::Pointer], function))
}

/// Whether the function at which the program begins, if there is one, has its type.
pub fn main_fits(tree: &Module) -> bool
    ensures { result ≡ main_fits (main_of (seen tree.now)) }
{
    match main_of(tree) {
        Some(function) => has_main_type(tree.names(), function),
        None => true,
    }
}
