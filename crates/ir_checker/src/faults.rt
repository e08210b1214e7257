//! The first fault of a module, in text order.
ghost use Rattle.std.specs.Prelude.{◌≡◌, ◌+◌, ◌&&◌, not, nat_eq, true, map, length, IfOk};
ghost use Rattle.ir_tree.specs.Naming.{name_at};
ghost use Rattle.ir_tree.specs.Shown.{shown, shown_block, shown_function, shown_global};
ghost use Rattle.ir_rules.specs.Seen.{seen};
ghost use Rattle.ir_rules.specs.Forms.{is_phi};
ghost use Rattle.ir_rules.specs.Faults.{first_fault};
ghost use Rattle.ir_rules.specs.Heads.{AreTables};
ghost use Rattle.ir_checker.specs.Entering.{AreEdges};
ghost use Rattle.ir_checker.specs.Facts.{AreFacts};
ghost use Rattle.ir_checker.specs.Scopes.{IsScope};
ghost use Rattle.ir_checker.specs.Finding.{lack_cause, found_at, block_fault, blocks_fault, function_fault, fault_in, functions_fault, fault_of_global, globals_fault, fault_of_whole, whole_cause};

use crate::causes::{Standing, global_cause, spot_cause, whole_cause};
use crate::edges::{Edges, find_edges};
use crate::facts::{Facts, find_facts};
use crate::found::Found;
use crate::scope::{Scope, find_scope};
use ir_rules::fault::{CheckCause, CheckError, CheckSite};
use ir_rules::forms::is_phi;
use ir_rules::tables::Tables;
use ir_tree::instruction::Instruction;
use ir_tree::items::{Block, Function, Global as Variable};
use ir_tree::whole::Module;
use pv_base::place::Site;
use pv_base::want::Memory;
use std::alloc::Global;

/// So many numbers further; `Memory` past the numbers.
fn further(place: u32, count: usize) -> Result<u32, Memory>
    ensures { IfOk result (λ n. n ≡ place + count) }
{
    if count > (u32::MAX - place) as usize {
        return Err(Memory);
    }
    Ok(place + count as u32)
}

/// A block of a function, the number of its first instruction, and whether an empty block stands right before it.
#[derive(Clone, Copy)]
struct Opening {
    entry: bool,
    lack: bool,
    place: u32,
}

/// Whether only phis stand before the next instruction.
fn stays_behind(behind: bool, instruction: &Instruction) -> bool
    ensures { result ≡ (behind && is_phi instruction.now) }
{
    behind && is_phi(instruction)
}

/// The first cause in a block.
fn block_fault(
    alloc: Global,
    tree: &Module,
    facts: &Facts,
    function: &Function,
    scope: &Scope,
    edges: &Edges,
    opening: Opening,
    block: &Block,
) -> Result<Option<Found>, Memory>
    requires facts { AreFacts tree.now facts.now }
    requires scope { IsScope tree.now.names facts.now.index.zero function.now scope.now }
    requires edges { AreEdges tree.now.names function.now edges.now }
    ensures { IfOk result (λ r. r ≡ block_fault (seen tree.now) (shown_function tree.now.names function.now) (name_at tree.now.names block.now.label) opening.entry true opening.lack opening.place (map (shown tree.now.names) block.now.instructions)) }
{
    let instructions = block.instructions.as_slice();
    let mut behind = true;
    let mut lack = opening.lack;
    for i in 0..instructions.len() {
        let instruction = &instructions[i];
        let standing = Standing {
            label: block.label,
            entry: opening.entry,
            behind,
            last: i + 1 == instructions.len(),
            lack,
        };
        let cause = spot_cause(
            alloc,
            tree,
            facts,
            function,
            scope,
            edges,
            standing,
            instruction,
        )?;
        match cause {
            Some(cause) => {
                let place = further(opening.place, i)?;
                return Ok(Some(Found { place, cause }));
            }
            None => (),
        }
        behind = stays_behind(behind, instruction);
        lack = false;
    }
    Ok(None)
}

/// The cause of a block that is empty, where one stands at the end of a function.
fn lack_at(lack: bool, place: u32) -> Option<Found>
    ensures { result ≡ found_at place (lack_cause lack) }
{
    if lack {
        Some(Found {
            place,
            cause: CheckCause::Terminator,
        })
    } else {
        None
    }
}

fn blocks_fault(
    alloc: Global,
    tree: &Module,
    facts: &Facts,
    function: &Function,
    scope: &Scope,
    edges: &Edges,
    lack: bool,
    blocks: &[Block],
) -> Result<Option<Found>, Memory>
    requires facts { AreFacts tree.now facts.now }
    requires scope { IsScope tree.now.names facts.now.index.zero function.now scope.now }
    requires edges { AreEdges tree.now.names function.now edges.now }
    ensures { IfOk result (λ r. r ≡ blocks_fault (seen tree.now) (shown_function tree.now.names function.now) true lack 0 (map (shown_block tree.now.names) blocks.now)) }
{
    let mut opening = Opening {
        entry: true,
        lack,
        place: 0,
    };
    for block in blocks {
        let found = block_fault(alloc, tree, facts, function, scope, edges, opening, block)?;
        if found.is_some() {
            return Ok(found);
        }
        opening = Opening {
            entry: false,
            lack: block.instructions.len() == 0,
            place: further(opening.place, block.instructions.len())?,
        };
    }
    Ok(lack_at(opening.lack, opening.place))
}

/// Whether a function is defined, and has no block.
fn lacks_block(function: &Function) -> bool
    ensures { result ≡ (not function.now.declared && nat_eq (length function.now.blocks) 0) }
{
    !function.declared && function.blocks.len() == 0
}

/// The first cause in a function.
fn function_fault(
    alloc: Global,
    tree: &Module,
    facts: &Facts,
    function: &Function,
) -> Result<Option<Found>, Memory>
    requires { AreFacts tree.now facts.now }
    ensures { IfOk result (λ r. r ≡ function_fault (seen tree.now) (shown_function tree.now.names function.now)) }
{
    let scope = find_scope(alloc, tree.names(), facts.index.zero, function)?;
    let edges = find_edges(alloc, tree.names(), facts.index.zero, function)?;
    let lack = lacks_block(function);
    let blocks = function.blocks.as_slice();
    let found = blocks_fault(alloc, tree, facts, function, &scope, &edges, lack, blocks)?;
    Ok(found)
}

/// The fault of a function by its number.
fn fault_in(number: u32, found: Option<Found>) -> Option<CheckError>
    ensures { result ≡ fault_in number found }
{
    match found {
        Some(found) => Some(CheckError {
            at: CheckSite::At(Site {
                function: number,
                place: found.place,
            }),
            cause: found.cause,
        }),
        None => None,
    }
}

fn functions_fault(
    alloc: Global,
    tree: &Module,
    facts: &Facts,
) -> Result<Option<CheckError>, Memory>
    requires { AreFacts tree.now facts.now }
    ensures { IfOk result (λ r. r ≡ functions_fault (seen tree.now) 0 (map (shown_function tree.now.names) tree.now.functions)) }
{
    let functions = tree.functions();
    for i in 0..functions.len() {
        let number = further(0, i)?;
        let found = function_fault(alloc, tree, facts, &functions[i])?;
        let fault = fault_in(number, found);
        if fault.is_some() {
            return Ok(fault);
        }
    }
    Ok(None)
}

/// The fault of a global by its number.
fn fault_of_global(number: u32, cause: Option<CheckCause>) -> Option<CheckError>
    ensures { result ≡ fault_of_global number cause }
{
    match cause {
        Some(cause) => Some(CheckError {
            at: CheckSite::Global(number),
            cause,
        }),
        None => None,
    }
}

fn globals_fault(tree: &Module, tables: &Tables) -> Result<Option<CheckError>, Memory>
    requires { AreTables tree.now tables.now }
    ensures { IfOk result (λ r. r ≡ globals_fault (seen tree.now) 0 (map (shown_global tree.now.names) tree.now.globals)) }
{
    let globals = tree.globals();
    for i in 0..globals.len() {
        let number = further(0, i)?;
        let fault = fault_of_global(number, global_cause(tree, tables, globals[i]));
        if fault.is_some() {
            return Ok(fault);
        }
    }
    Ok(None)
}

fn fault_of_whole(tree: &Module) -> Option<CheckError>
    ensures { result ≡ fault_of_whole (whole_cause (seen tree.now)) }
{
    match whole_cause(tree) {
        Some(cause) => Some(CheckError {
            at: CheckSite::Whole,
            cause,
        }),
        None => None,
    }
}

/// The first fault of a module, if it has one, by what was found of it.
#[tactic(auto, using(crate::proofs::FindingLemmas::first_is))]
fn first_fault(alloc: Global, tree: &Module, facts: &Facts) -> Result<Option<CheckError>, Memory>
    requires { AreFacts tree.now facts.now }
    ensures { IfOk result (λ r. r ≡ first_fault (seen tree.now)) }
{
    let fault = globals_fault(tree, &facts.tables)?;
    if fault.is_some() {
        return Ok(fault);
    }
    let fault = functions_fault(alloc, tree, facts)?;
    if fault.is_some() {
        return Ok(fault);
    }
    Ok(fault_of_whole(tree))
}

/// The first fault of a module, if it has one: by globals, then by the sites of functions, then the whole, and at one place
/// the first cause of the order.
pub fn find_fault(alloc: Global, tree: &Module) -> Result<Option<CheckError>, Memory>
    ensures { IfOk result (λ r. r ≡ first_fault (seen tree.now)) }
{
    let facts = find_facts(alloc, tree)?;
    first_fault(alloc, tree, &facts)
}
