//! Functions and modules with their names resolved.
ghost use Rattle.std.specs.Prelude.{◌≡◌, ◌≤◌, ◌^◌, IfOk, map, length, position};
ghost use Rattle.ir_code.specs.Coding.{is_named};
ghost use Rattle.ir_code.specs.Tables.{linkage_of};

use crate::functions::function_of;
use crate::lookups::Lookups;
use crate::made::lookups;
use crate::op::{Op, Operand, Scalar};
use ir_tree::items::Function;
use ir_tree::table::Names;
use ir_tree::whole::Module;
use pv_base::external::External;
use pv_base::list::List;
use pv_base::name::Name;
use pv_base::want::Memory;
use std::alloc::Global;

/// How many numbers there are.
const NUMBERS: usize = 4294967296;

/// What a phi takes on an edge.
#[derive(Clone, Copy, Debug)]
pub struct Move {
    pub register: u32,
    pub value: Operand,
}

/// An edge from a block to another: where it leads, and what the phis there take, in their order. Two blocks share one edge,
/// however many targets of a terminator name it.
#[derive(Drop)]
pub struct Edge {
    pub to: u32,
    pub moves: List<Move>,
}

/// A block: the number of its first instruction in the function, how many phis it begins with, and its instructions.
#[derive(Drop)]
pub struct BlockCode {
    pub first: u32,
    pub phis: u32,
    pub ops: List<Op>,
}

/// A function: the types of its parameters, which are its first registers, and of its result, where it has one; the types of
/// all its registers; its blocks, of which the first is the entry block, and its edges. A declared function has no blocks.
#[derive(Drop)]
pub struct FunctionCode {
    pub parameters: List<Scalar>,
    pub result: Option<Scalar>,
    pub registers: List<Scalar>,
    pub blocks: List<BlockCode>,
    pub edges: List<Edge>,
    pub external: Option<External>,
    pub declared: bool,
}

/// A module: its functions in text order, and the number of `main`, where it is defined.
pub struct Code {
    pub functions: List<FunctionCode>,
    pub main: Option<u32>,
}

impl Drop for Code {
    fn drop(self) {
        let Code {
            functions: _,
            main: _,
        } = self;
    }
}

impl Code {
    ghost use Rattle.ir_code.specs.Coding.{code_of};
    ghost use Rattle.ir_code.specs.Fitting.{CodeFits};

    /// A module with its names resolved, in time linear in the module but for looking names up.
    #[tactic(auto, unfolding(crate::specs::Coding::code_of))]
    pub fn new(alloc: Global, module: &Module) -> Result<Code, Memory>
        ensures code { IfOk result (λ code. code ≡ code_of «module».now) }
        ensures fits { IfOk result CodeFits }
    {
        let functions = module.functions();
        if functions.len() > NUMBERS {
            return Err(Memory);
        }
        let lookups = lookups(alloc, module)?;
        let coded = functions_of(alloc, module, &lookups, functions)?;
        Ok(Code {
            functions: coded,
            main: main_of(module.names(), functions),
        })
    }
}

ghost use Rattle.ir_code.specs.Coding.{function_of, is_main};
ghost use Rattle.ir_code.specs.Fitting.{FunctionsFit};

fn functions_of(
    alloc: Global,
    module: &Module,
    lookups: &Lookups,
    functions: &[Function],
) -> Result<List<FunctionCode>, Memory>
    requires sizes { length lookups.now.sizes ≡ length «module».now.names.types }
    requires linkages { lookups.now.linkages ≡ map (linkage_of «module».now.names) functions.now }
    ensures code { IfOk result (λ fs. fs ≡ map (function_of «module».now lookups.now) functions.now) }
    ensures fits { IfOk result FunctionsFit }
{
    let mut all = List::new(alloc);
    for number in 0..functions.len() {
        let linkage = *lookups.linkages.at(number);
        let code = function_of(alloc, module, lookups, &functions[number], linkage)?;
        all.push(code)?;
    }
    Ok(all)
}

/// Whether the name is spelled by these bytes.
fn is_named(bytes: &[u8], name: &Name) -> bool
    ensures { result ≡ is_named bytes.now name.now }
{
    match name {
        Name::Named(own) => own.as_slice() == bytes,
        Name::Numbered(_) => false,
    }
}

/// A definition of `main`.
fn is_main(names: &Names, function: &Function) -> bool
    ensures { result ≡ is_main names.now function.now }
{
    if function.declared {
        return false;
    }
    match names.name(function.name) {
        Some(name) => is_named(b"main", name),
        None => false,
    }
}

/// The place of the first definition of `main`.
fn place_of_main(names: &Names, functions: &[Function]) -> Option<usize>
    ensures { result ≡ position (is_main names.now) functions.now }
{
    functions
        .iter()
        .position(|function| is_main(names, function))
}

/// The number of the first definition of `main`.
fn main_of(names: &Names, functions: &[Function]) -> Option<u32>
    requires { length functions.now ≤ 2 ^ 32 }
    ensures { result ≡ position (is_main names.now) functions.now }
{
    match place_of_main(names, functions) {
        Some(place) => Some(place as u32),
        None => None,
    }
}
