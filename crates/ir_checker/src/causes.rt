//! The first cause that is met at an instruction, at a global, and in the whole module.
ghost use Rattle.std.specs.Prelude.{◌≡◌, IfOk};
ghost use Rattle.ir_tree.specs.Naming.{name_at};
ghost use Rattle.ir_tree.specs.Shown.{shown, shown_function, shown_global};
ghost use Rattle.ir_rules.specs.Seen.{seen};
ghost use Rattle.ir_rules.specs.Heads.{AreTables};
ghost use Rattle.ir_checker.specs.Entering.{AreEdges};
ghost use Rattle.ir_checker.specs.Facts.{AreFacts};
ghost use Rattle.ir_checker.specs.Scopes.{IsScope};
ghost use Rattle.ir_checker.specs.Finding.{spot_cause, global_cause, whole_cause};

use crate::calls::call_allowed;
use crate::edges::Edges;
use crate::facts::Facts;
use crate::meeting::{names_known, types_fit};
use crate::phis::phi_fits;
use crate::scope::Scope;
use ir_rules::edges::{alloca_fits, spares_entry, terminates};
use ir_rules::fault::CheckCause;
use ir_rules::tables::Tables;
use ir_rules::whole::{initialiser_fits, initialiser_known, main_fits, main_of};
use ir_tree::instruction::Instruction;
use ir_tree::items::{Function, Global as Variable};
use ir_tree::nodes::NameId;
use ir_tree::whole::Module;
use pv_base::want::Memory;
use std::alloc::Global;

/// Where an instruction stands: the label of its block, whether that is the entry block, whether only phis stand before
/// it, whether it is the last of its block, and whether an empty block stands right before it.
#[derive(Clone, Copy)]
pub struct Standing {
    pub label: NameId,
    pub entry: bool,
    pub behind: bool,
    pub last: bool,
    pub lack: bool,
}

/// The first cause that is met at an instruction.
#[tactic(auto, unfolding(crate::specs::Finding::spot_cause))]
pub fn spot_cause(
    alloc: Global,
    tree: &Module,
    facts: &Facts,
    function: &Function,
    scope: &Scope,
    edges: &Edges,
    standing: Standing,
    instruction: &Instruction,
) -> Result<Option<CheckCause>, Memory>
    requires facts { AreFacts tree.now facts.now }
    requires scope { IsScope tree.now.names facts.now.index.zero function.now scope.now }
    requires edges { AreEdges tree.now.names function.now edges.now }
    ensures { IfOk result (λ c. c ≡ spot_cause (seen tree.now) (shown_function tree.now.names function.now) standing.lack (record { instruction = shown tree.now.names instruction.now; label = name_at tree.now.names standing.label; entry = standing.entry; behind_phis = standing.behind; last = standing.last })) }
{
    if !names_known(alloc, tree, facts, function, scope, instruction)? {
        return Ok(Some(CheckCause::UnknownName));
    }
    if !types_fit(alloc, tree, facts, function, scope, instruction)? {
        return Ok(Some(CheckCause::TypeDiffers));
    }
    if standing.lack || !terminates(instruction, standing.last) {
        return Ok(Some(CheckCause::Terminator));
    }
    if !spares_entry(alloc, tree.names(), function, instruction)? {
        return Ok(Some(CheckCause::EntryHasPreds));
    }
    if !phi_fits(
        alloc,
        tree.names(),
        facts.kinds.as_slice(),
        function,
        edges,
        standing.label,
        standing.behind,
        instruction,
    )? {
        return Ok(Some(CheckCause::PhiEdges));
    }
    if !alloca_fits(standing.entry, instruction) {
        return Ok(Some(CheckCause::AllocaPlace));
    }
    if !call_allowed(tree, facts, instruction) {
        return Ok(Some(CheckCause::External));
    }
    Ok(None)
}

/// The first cause that is met at the initialiser of a global.
#[tactic(auto, unfolding(crate::specs::Finding::global_cause))]
pub fn global_cause(tree: &Module, tables: &Tables, variable: Variable) -> Option<CheckCause>
    requires { AreTables tree.now tables.now }
    ensures { result ≡ global_cause (seen tree.now) (shown_global tree.now.names variable) }
{
    if !initialiser_known(tree, tables.known.as_slice(), variable) {
        return Some(CheckCause::UnknownName);
    }
    if !initialiser_fits(
        tree,
        tables.classes.as_slice(),
        tables.together.as_slice(),
        variable,
    ) {
        return Some(CheckCause::TypeDiffers);
    }
    None
}

/// The first cause of the whole module.
#[tactic(auto, unfolding(crate::specs::Finding::whole_cause))]
pub fn whole_cause(tree: &Module) -> Option<CheckCause>
    ensures { result ≡ whole_cause (seen tree.now) }
{
    if main_of(tree).is_none() {
        return Some(CheckCause::NoMain);
    }
    if !main_fits(tree) {
        return Some(CheckCause::MainType);
    }
    None
}
