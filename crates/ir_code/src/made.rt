//! What is found once of a module, found.
ghost use Rattle.std.specs.Prelude.{◌≡◌, ◌<◌, IfOk, length, map, Some};
ghost use Rattle.std.specs.List.{range_with_len};
ghost use Rattle.ir_tree.specs.Naming.{constant_at};
ghost use Rattle.ir_code.specs.Tables.{scalar_of, external_named, linkage_of_external, linkage_of};
ghost use Rattle.ir_code.specs.Fixed.{AreFixed};
ghost use Rattle.ir_code.specs.Coding.{scalar_in, size_in, constant_in, tables_of};
ghost use Rattle.ir_code.specs.Found.{node_constant};

use crate::fixed::Constants;
use crate::lookups::{Constant, Linkage, Lookups};
use crate::op::{Fixed, Scalar};
use crate::places::Places;
use ir_tree::items::Function;
use ir_tree::nodes::{ConstantId, ConstantNode, TypeId, TypeNode};
use ir_tree::table::Names;
use ir_tree::whole::{Module, layout};
use pv_base::external::External;
use pv_base::list::List;
use pv_base::name::Name;
use pv_base::want::Memory;
use seq_calls::names::known;
use std::alloc::Global;

/// The type of a number, where a register may have it.
fn scalar_in(names: &Names, of: TypeId) -> Option<Scalar>
    ensures { result ≡ scalar_in names.now of }
{
    match names.type_node(of) {
        Some(TypeNode::Int(width)) => Some(Scalar::Int(*width)),
        Some(TypeNode::Ptr) => Some(Scalar::Pointer),
        _ => None,
    }
}

/// The types of registers, by the number of a type.
#[tactic(auto, using(crate::proofs::Ranges::one_more))]
fn scalars(alloc: Global, names: &Names) -> Result<List<Option<Scalar>>, Memory>
    ensures { IfOk result (λ s. s ≡ map (scalar_in names.now) (range_with_len 0 (length names.now.types))) }
{
    names.is_table();
    let mut scalars = List::new(alloc);
    for number in 0..names.type_count() {
        scalars.push(scalar_in(names, number as u32))?;
    }
    Ok(scalars)
}

/// The size in bytes of the type of a number.
fn size_in(module: &Module, of: TypeId) -> Option<u64>
    requires { of < length «module».now.names.types }
    ensures { result ≡ size_in «module».now of }
{
    let layout = layout(module, of)?;
    Some(layout.size)
}

/// The sizes of types, by their numbers.
#[tactic(auto, using(crate::proofs::Ranges::one_more))]
fn sizes(alloc: Global, module: &Module) -> Result<List<Option<u64>>, Memory>
    ensures { IfOk result (λ s. s ≡ map (size_in «module».now) (range_with_len 0 (length «module».now.names.types))) }
{
    let names = module.names();
    names.is_table();
    let mut sizes = List::new(alloc);
    for number in 0..names.type_count() {
        sizes.push(size_in(module, number as u32))?;
    }
    Ok(sizes)
}

/// A constant, from what was found for it as a pointer.
fn constant_of(node: &ConstantNode, found: Option<Fixed>) -> Option<Constant>
    ensures { result ≡ node_constant node.now found }
{
    match node {
        ConstantNode::Zero => Some(Constant::Zero),
        _ => match found {
            Some(value) => Some(Constant::Is(value)),
            None => None,
        },
    }
}

/// The constant of a number, from those that were found.
fn constant_in(module: &Module, constants: &Constants, number: ConstantId) -> Option<Constant>
    requires found { AreFixed «module».now constants.now }
    requires within { number < length «module».now.names.constants }
    ensures { result ≡ constant_in «module».now number }
{
    let names = module.names();
    names.is_table();
    match names.constant_node(number) {
        Some(node) => constant_of(node, constants.as_pointer(number)),
        None => None,
    }
}

/// The constants of a module, by their numbers.
#[tactic(auto, using(crate::proofs::Ranges::one_more))]
fn constants(alloc: Global, module: &Module) -> Result<List<Option<Constant>>, Memory>
    ensures { IfOk result (λ cs. cs ≡ map (constant_in «module».now) (range_with_len 0 (length «module».now.names.constants))) }
{
    let names = module.names();
    names.is_table();
    let found = Constants::new(alloc, module)?;
    let mut constants = List::new(alloc);
    for number in 0..names.constant_count() {
        constants.push(constant_in(module, &found, number as u32))?;
    }
    Ok(constants)
}

/// The external of a name.
fn external_named(name: &Name) -> Option<External>
    ensures { result ≡ external_named name.now }
{
    match name {
        Name::Named(bytes) => known(bytes.as_slice()),
        Name::Numbered(_) => None,
    }
}

fn linkage_of_external(external: Option<External>) -> Linkage
    ensures { result ≡ linkage_of_external external }
{
    match external {
        Some(external) => Linkage::External(external),
        None => Linkage::Unknown,
    }
}

/// How a call of a function by its name is made.
fn linkage_of(names: &Names, function: &Function) -> Linkage
    ensures { result ≡ linkage_of names.now function.now }
{
    if !function.declared {
        return Linkage::Defined;
    }
    match names.name(function.name) {
        Some(name) => linkage_of_external(external_named(name)),
        None => Linkage::Unknown,
    }
}

fn linkages(alloc: Global, names: &Names, functions: &[Function]) -> Result<List<Linkage>, Memory>
    ensures { IfOk result (λ ls. ls ≡ map (linkage_of names.now) functions.now) }
{
    let mut linkages = List::new(alloc);
    for function in functions {
        linkages.push(linkage_of(names, function))?;
    }
    Ok(linkages)
}

fn function_names(alloc: Global, functions: &[Function]) -> Result<Places, Memory>
    ensures { IfOk result (λ p. p ≡ map (λ f. Some f.name) functions.now) }
{
    let mut names = Places::new(alloc);
    for function in functions {
        names.add(Some(function.name))?;
    }
    Ok(names)
}

/// What is found once of a module, in time linear in its table and its items.
pub(crate) fn lookups(alloc: Global, module: &Module) -> Result<Lookups, Memory>
    ensures { IfOk result (λ l. l ≡ tables_of «module».now) }
{
    let functions = module.functions();
    Ok(Lookups {
        scalars: scalars(alloc, module.names())?,
        sizes: sizes(alloc, module)?,
        constants: constants(alloc, module)?,
        functions: function_names(alloc, functions)?,
        linkages: linkages(alloc, module.names(), functions)?,
    })
}
