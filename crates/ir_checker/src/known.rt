//! Whether the names in each constant are known.
ghost use Rattle.std.specs.Prelude.{◌≡◌, length, Some, IfOk};
ghost use Rattle.ir_tree.specs.Naming.{type_at, constant_at, elements_by};
ghost use Rattle.ir_rules.specs.Seen.{seen};
ghost use Rattle.ir_rules.specs.Constants.{names_known, all_known};
ghost use Rattle.ir_rules.specs.Heads.{constant_below, node_constant, FlagsBelow, AreFlags};
ghost use Rattle.ir_checker.specs.Scopes.{IsIndex};

use crate::index::{Index, is_global};
use ir_rules::constants::constant;
use ir_rules::flags::{all_flags, flag_at, number_of};
use ir_tree::nodes::{ConstantNode, Element};
use ir_tree::whole::Module;
use pv_base::list::List;
use pv_base::want::Memory;
use std::alloc::Global;

/// Whether the names are known in what stands in a constant.
#[tactic(auto, using(ir_rules::proofs::FlagLemmas::all_known_is))]
fn elements_known(tree: &Module, flags: &[bool], elements: &[Element]) -> bool
    requires { FlagsBelow tree.now.names (names_known (seen tree.now)) flags.now }
    ensures { result ≡ all_known (seen tree.now) (elements_by (type_at tree.now.names) (constant_below tree.now.names (length flags.now)) elements.now) }
{
    all_flags(flags, elements)
}

/// Whether each global or function that a constant names is one of the module.
#[tactic(auto, unfolding(ir_rules::specs::Constants::names_known))]
fn known_node(tree: &Module, index: &Index, flags: &[bool], node: &ConstantNode) -> bool
    requires index { IsIndex tree.now index.now }
    requires flags { FlagsBelow tree.now.names (names_known (seen tree.now)) flags.now }
    ensures { result ≡ names_known (seen tree.now) (node_constant tree.now.names (length flags.now) (Some node.now)) }
{
    match node {
        ConstantNode::Name(name) => is_global(tree, index, *name),
        ConstantNode::Array(elements) => elements_known(tree, flags, elements.as_slice()),
        ConstantNode::Struct { packed: _, fields } => elements_known(
            tree,
            flags,
            fields.as_slice(),
        ),
        ConstantNode::Address {
            of: _,
            base,
            indices,
        } => flag_at(flags, *base) && elements_known(tree, flags, indices.as_slice()),
        _ => true,
    }
}

/// Whether the names are known in the constant behind those that have a flag.
fn next_known(tree: &Module, index: &Index, flags: &[bool]) -> Result<bool, Memory>
    requires index { IsIndex tree.now index.now }
    requires flags { FlagsBelow tree.now.names (names_known (seen tree.now)) flags.now }
    ensures { IfOk result (λ b. b ≡ names_known (seen tree.now) (constant_at tree.now.names (length flags.now))) }
{
    let number = number_of(flags.len())?;
    match constant(tree.names(), number) {
        Some(node) => Ok(known_node(tree, index, flags, node)),
        None => Ok(true),
    }
}

/// Whether the names are known in each constant.
pub fn known_flags(alloc: Global, tree: &Module, index: &Index) -> Result<List<bool>, Memory>
    requires { IsIndex tree.now index.now }
    ensures { IfOk result (AreFlags tree.now.names (names_known (seen tree.now))) }
{
    let mut flags = List::new(alloc);
    for _number in 0..tree.names().constant_count() {
        let flag = next_known(tree, index, flags.as_slice())?;
        flags.push(flag)?;
    }
    Ok(flags)
}
