//! Whether an instruction has known names, and the types that it needs.
ghost use Rattle.std.specs.Prelude.{◌≡◌, IfOk};
ghost use Rattle.ir_tree.specs.Shown.{shown, shown_function};
ghost use Rattle.ir_rules.specs.Seen.{seen};
ghost use Rattle.ir_rules.specs.Causes.{all_names_known, all_types_fit};
ghost use Rattle.ir_checker.specs.Facts.{AreFacts};
ghost use Rattle.ir_checker.specs.Scopes.{IsScope};

use crate::calls::{calls_known, form_fits};
use crate::facts::Facts;
use crate::operands::{are_labels, uses_fit, uses_known};
use crate::scope::Scope;
use ir_rules::forms::uses;
use ir_rules::labels::{integer_types, sources, targets};
use ir_rules::types::are_integers;
use ir_tree::instruction::Instruction;
use ir_tree::items::Function;
use ir_tree::whole::Module;
use pv_base::want::Memory;
use std::alloc::Global;

/// Whether each operand, label and callee of an instruction is defined.
pub fn names_known(
    alloc: Global,
    tree: &Module,
    facts: &Facts,
    function: &Function,
    scope: &Scope,
    instruction: &Instruction,
) -> Result<bool, Memory>
    requires facts { AreFacts tree.now facts.now }
    requires scope { IsScope tree.now.names facts.now.index.zero function.now scope.now }
    ensures { IfOk result (λ b. b ≡ all_names_known (seen tree.now) (shown_function tree.now.names function.now) (shown tree.now.names instruction.now)) }
{
    let uses = uses(alloc, instruction)?;
    let targets = targets(alloc, instruction)?;
    let sources = sources(alloc, instruction)?;
    let operands = uses_known(tree, facts, function, scope, uses.as_slice());
    let to = are_labels(tree, facts, function, scope, targets.as_slice());
    let from = are_labels(tree, facts, function, scope, sources.as_slice());
    let callee = calls_known(tree, facts, instruction);
    Ok(operands & to & from & callee)
}

/// Whether each operand is of the type that is needed, and the form has what it asks.
pub fn types_fit(
    alloc: Global,
    tree: &Module,
    facts: &Facts,
    function: &Function,
    scope: &Scope,
    instruction: &Instruction,
) -> Result<bool, Memory>
    requires facts { AreFacts tree.now facts.now }
    requires scope { IsScope tree.now.names facts.now.index.zero function.now scope.now }
    ensures { IfOk result (λ b. b ≡ all_types_fit (seen tree.now) (shown_function tree.now.names function.now) (shown tree.now.names instruction.now)) }
{
    let uses = uses(alloc, instruction)?;
    let types = integer_types(alloc, instruction)?;
    let form = form_fits(alloc, tree, facts, function, instruction)?;
    let operands = uses_fit(tree, facts, function, scope, uses.as_slice());
    let integers = are_integers(tree.names(), types.as_slice());
    Ok(operands & integers & form)
}
