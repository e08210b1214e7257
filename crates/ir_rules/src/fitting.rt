//! The types of calls, and what the form of an instruction asks beyond its operands.
ghost use Rattle.std.specs.Prelude.{◌≡◌, map, IfOk};
ghost use Rattle.ir_tree.specs.Naming.{type_at};
ghost use Rattle.ir_tree.specs.Shown.{shown_operand, shown_argument, shown_function};
ghost use Rattle.ir_rules.specs.Seen.{seen};
ghost use Rattle.ir_rules.specs.Calls.{params_fit, written_form, call_fits};
ghost use Rattle.ir_rules.specs.Causes.{operand_index};
ghost use Rattle.ir_rules.specs.Indexing.{path, agrees};
ghost use Rattle.ir_rules.specs.Classes.{AreClasses};

use crate::classes::same_type;
use crate::constants::constant;
use crate::paths::path;
use crate::together::{agrees, constant_index};
use crate::types::is_pointer;
use ir_tree::instruction::{Argument, Operand};
use ir_tree::items::{Function, Param};
use ir_tree::nodes::TypeId;
use ir_tree::table::Names;
use ir_tree::whole::Module;
use pv_base::list::List;
use pv_base::want::Memory;
use std::alloc::Global;

/// The types of parameters.
pub fn param_types(alloc: Global, params: &[Param]) -> Result<List<TypeId>, Memory>
    ensures { IfOk result (λ l. l ≡ map (λ p. p.of) params.now) }
{
    let mut types = List::new(alloc);
    for param in params {
        types.push(param.of)?;
    }
    Ok(types)
}

/// Whether the types of arguments begin with those of the parameters, and more follow only where `more` may.
fn params_fit(
    names: &Names,
    classes: &[usize],
    more: bool,
    params: &[TypeId],
    arguments: &[TypeId],
) -> bool
    requires { AreClasses names.now classes.now }
    ensures { result ≡ params_fit more (map (type_at names.now) params.now) (map (type_at names.now) arguments.now) }
{
    if arguments.len() < params.len() {
        return false;
    }
    for i in 0..params.len() {
        if !same_type(names, classes, params[i], arguments[i]) {
            return false;
        }
    }
    more || arguments.len() - params.len() == 0
}

/// Whether a function's parameters are those of the form `(ptr, ...)`.
#[tactic(auto, using(crate::proofs::CallLemmas::form_one, crate::proofs::CallLemmas::form_more), unfolding(crate::specs::Calls::params_fit))]
fn written_form(names: &Names, params: &[TypeId]) -> bool
    ensures { result ≡ written_form (map (type_at names.now) params.now) }
{
    match params {
        [] => false,
        [first] => is_pointer(names, *first),
        [_, _, ..] => false,
    }
}

/// Whether a call is of a function's type.
#[tactic(auto, using(crate::proofs::CallLemmas::param_types_shown))]
pub fn call_fits(
    names: &Names,
    classes: &[usize],
    function: &Function,
    params: &[TypeId],
    of: TypeId,
    variadic: bool,
    arguments: &[TypeId],
) -> bool
    requires classes { AreClasses names.now classes.now }
    requires params { params.now ≡ map (λ p. p.of) function.now.params }
    ensures { result ≡ call_fits (shown_function names.now function.now) (type_at names.now of) variadic (map (type_at names.now) arguments.now) }
{
    same_type(names, classes, function.result, of)
        && function.variadic == variadic
        && (!variadic || written_form(names, params))
        && params_fit(names, classes, variadic, params, arguments)
}

fn operand_index(names: &Names, argument: Argument) -> Option<u64>
    ensures { result ≡ operand_index (type_at names.now argument.of) (shown_operand names.now argument.value) }
{
    match argument.value {
        Operand::Register(_) => None,
        Operand::Constant(number) => { constant_index(names, argument.of, constant(names, number)) }
    }
}

/// The numbers of indices, where they are constant integers.
fn indices(
    alloc: Global,
    names: &Names,
    arguments: &[Argument],
) -> Result<List<Option<u64>>, Memory>
    ensures { IfOk result (λ l. l ≡ map (λ a. operand_index (type_at names.now a.of) (shown_operand names.now a.value)) arguments.now) }
{
    let mut numbers = List::new(alloc);
    for argument in arguments {
        numbers.push(operand_index(names, *argument))?;
    }
    Ok(numbers)
}

/// Whether the indices of an address lead into a type that has such parts.
#[tactic(auto, using(crate::proofs::CallLemmas::indices_shown))]
pub fn address_fits(
    alloc: Global,
    tree: &Module,
    of: TypeId,
    arguments: &[Argument],
) -> Result<bool, Memory>
    ensures { IfOk result (λ b. b ≡ agrees (path (seen tree.now).types (type_at tree.now.names of) (map (λ a. operand_index a.of a.value) (map (shown_argument tree.now.names) arguments.now)))) }
{
    let numbers = indices(alloc, tree.names(), arguments)?;
    Ok(agrees(path(tree, of, numbers.as_slice())))
}
