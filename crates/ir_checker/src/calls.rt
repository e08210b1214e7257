//! Calls of functions by name, and what the form of an instruction asks beyond its operands.
ghost use Rattle.std.specs.Prelude.{◌≡◌, map, IfOk};
ghost use Rattle.ir_tree.specs.Naming.{type_at};
ghost use Rattle.ir_tree.specs.Shown.{shown, shown_argument, shown_callee, shown_function};
ghost use Rattle.ir_rules.specs.Seen.{seen};
ghost use Rattle.ir_rules.specs.Causes.{callee_known, calls_known, callee_fits, form_fits, callee_allowed, call_allowed};
ghost use Rattle.ir_checker.specs.Facts.{AreFacts};

use crate::facts::Facts;
use crate::index::function_named;
use ir_rules::externals::declared_allowed;
use ir_rules::fitting::{address_fits, call_fits, param_types};
use ir_rules::labels::written_types;
use ir_rules::typing::{cast_fits, returns_fit};
use ir_tree::instruction::{Argument, Callee, Instruction};
use ir_tree::items::Function;
use ir_tree::nodes::{NameId, TypeId};
use ir_tree::whole::Module;
use pv_base::want::Memory;
use std::alloc::Global;

fn callee_known(tree: &Module, facts: &Facts, callee: Callee) -> bool
    requires { AreFacts tree.now facts.now }
    ensures { result ≡ callee_known (seen tree.now) (shown_callee tree.now.names callee) }
{
    match callee {
        Callee::Function(name) => function_named(tree, &facts.index, name).is_some(),
        Callee::Pointer(_) => true,
    }
}

/// Whether the function that is called by its name is one of the module.
#[tactic(auto, unfolding(ir_rules::specs::Causes::calls_known, ir_tree::specs::Shown::shown))]
pub fn calls_known(tree: &Module, facts: &Facts, instruction: &Instruction) -> bool
    requires { AreFacts tree.now facts.now }
    ensures { result ≡ calls_known (seen tree.now) (shown tree.now.names instruction.now) }
{
    match instruction {
        Instruction::Call { callee, .. } => callee_known(tree, facts, *callee),
        _ => true,
    }
}

#[tactic(auto, using(ir_rules::proofs::CallLemmas::argument_types_shown))]
fn named_call_fits(
    alloc: Global,
    tree: &Module,
    facts: &Facts,
    name: NameId,
    of: TypeId,
    variadic: bool,
    arguments: &[Argument],
) -> Result<bool, Memory>
    requires { AreFacts tree.now facts.now }
    ensures { IfOk result (λ b. b ≡ callee_fits (seen tree.now) (shown_callee tree.now.names (Callee.Function name)) (type_at tree.now.names of) variadic (map (shown_argument tree.now.names) arguments.now)) }
{
    let types = written_types(alloc, arguments)?;
    match function_named(tree, &facts.index, name) {
        Some(function) => {
            let params = param_types(alloc, function.params.as_slice())?;
            Ok(call_fits(
                tree.names(),
                facts.tables.classes.as_slice(),
                function,
                params.as_slice(),
                of,
                variadic,
                types.as_slice(),
            ))
        }
        None => Ok(true),
    }
}

fn callee_fits(
    alloc: Global,
    tree: &Module,
    facts: &Facts,
    callee: Callee,
    of: TypeId,
    variadic: bool,
    arguments: &[Argument],
) -> Result<bool, Memory>
    requires { AreFacts tree.now facts.now }
    ensures { IfOk result (λ b. b ≡ callee_fits (seen tree.now) (shown_callee tree.now.names callee) (type_at tree.now.names of) variadic (map (shown_argument tree.now.names) arguments.now)) }
{
    match callee {
        Callee::Function(name) => {
            named_call_fits(alloc, tree, facts, name, of, variadic, arguments)
        }
        Callee::Pointer(_) => Ok(!variadic),
    }
}

/// Whether an instruction has what its form asks beyond its operands.
#[tactic(auto, unfolding(ir_rules::specs::Causes::form_fits, ir_tree::specs::Shown::shown))]
pub fn form_fits(
    alloc: Global,
    tree: &Module,
    facts: &Facts,
    function: &Function,
    instruction: &Instruction,
) -> Result<bool, Memory>
    requires { AreFacts tree.now facts.now }
    ensures { IfOk result (λ b. b ≡ form_fits (seen tree.now) (shown_function tree.now.names function.now) (shown tree.now.names instruction.now)) }
{
    match instruction {
        Instruction::Cast { op, of, target, .. } => Ok(cast_fits(tree.names(), *op, *of, *target)),
        Instruction::Address { of, indices, .. } => {
            address_fits(alloc, tree, *of, indices.as_slice())
        }
        Instruction::Call {
            of,
            variadic,
            callee,
            arguments,
            ..
        } => callee_fits(
            alloc,
            tree,
            facts,
            *callee,
            *of,
            *variadic,
            arguments.as_slice(),
        ),
        Instruction::Return { value } => Ok(returns_fit(
            tree.names(),
            facts.tables.classes.as_slice(),
            function.result,
            *value,
        )),
        _ => Ok(true),
    }
}

fn callee_allowed(tree: &Module, facts: &Facts, callee: Callee, arguments: &[Argument]) -> bool
    requires { AreFacts tree.now facts.now }
    ensures { result ≡ callee_allowed (seen tree.now) (shown_callee tree.now.names callee) (map (shown_argument tree.now.names) arguments.now) }
{
    match callee {
        Callee::Function(called) => match function_named(tree, &facts.index, called) {
            Some(function) => {
                !function.declared || declared_allowed(tree.names(), function, arguments)
            }
            None => true,
        },
        Callee::Pointer(_) => true,
    }
}

/// Whether a call of a declared function is one of the external that it is.
#[tactic(auto, unfolding(ir_rules::specs::Causes::call_allowed, ir_tree::specs::Shown::shown))]
pub fn call_allowed(tree: &Module, facts: &Facts, instruction: &Instruction) -> bool
    requires { AreFacts tree.now facts.now }
    ensures { result ≡ call_allowed (seen tree.now) (shown tree.now.names instruction.now) }
{
    match instruction {
        Instruction::Call {
            callee,
            arguments,
            ..
        } => callee_allowed(tree, facts, *callee, arguments.as_slice()),
        _ => true,
    }
}
