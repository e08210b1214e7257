//! Constants as registers hold them, found once for all constants of a module.
ghost use Rattle.std.specs.Prelude.{◌≡◌, ◌<◌, ◌≤◌, ◌^◌, nat_lt, if◌then◌else◌, pos, length, slice_set, IfOk, None, Some, slice_index_or};
ghost use Rattle.ir_tree.specs.Naming.{type_at, constant_at};
ghost use Rattle.ir_tree.specs.Trees.{PtrV};
ghost use Rattle.ir_code.specs.Fixed.{scaled_by, amount, total_of, stays, moved, zero_of, fixed_of, fixed_at, AreFixed};
ghost use Rattle.ir_code.specs.Walking.{node_zero, AreNamed, AreFixedBelow, PutsItems, value_at, operands_at, address_at, node_fixed};

use crate::op::{Fixed, Index, Operand};
use crate::strides::strides;
use int_num::int::Int;
use int_num::sign::signed;
use ir_tree::items::{Function, Global as Variable};
use ir_tree::nodes::{ConstantId, ConstantNode, Element, NameId, TypeId, TypeNode};
use ir_tree::table::Names;
use ir_tree::whole::Module;
use pv_base::list::List;
use pv_base::want::Memory;
use std::alloc::Global;
use std::marker::Model;

/// How many numbers there are.
const NUMBERS: usize = 4294967296;

fn scaled_by(value: Fixed, stride: u64) -> Option<i64>
    ensures { result ≡ scaled_by value stride }
{
    match value {
        Fixed::Int(number) => Some(signed(number).wrapping_mul(stride.cast_signed())),
        _ => None,
    }
}

/// How many bytes an index adds.
fn amount(index: Index) -> Option<i64>
    ensures { result ≡ amount index }
{
    match index {
        Index::Scaled { value, stride } => match value {
            Operand::Constant(value) => scaled_by(value, stride),
            Operand::Register(_) => None,
        },
        Index::Field(offset) => Some(offset.cast_signed()),
    }
}

/// How many bytes all of them add.
fn total(indices: &[Index]) -> Option<i64>
    ensures { result ≡ total_of (pos 0) indices.now }
{
    let mut total = 0i64;
    for index in indices {
        match amount(*index) {
            Some(bytes) => total = total.wrapping_add(bytes),
            None => return None,
        }
    }
    Some(total)
}

fn stays(value: Fixed, total: i64) -> Fixed
    ensures { result ≡ stays value total }
{
    if total == 0 { value } else { Fixed::Nowhere }
}

/// A constant address, so many bytes further on.
fn moved(base: Fixed, total: i64) -> Option<Fixed>
    ensures { result ≡ moved base total }
{
    match base {
        Fixed::Int(_) => None,
        Fixed::Null | Fixed::Function(_) => Some(stays(base, total)),
        Fixed::Global { index, offset } => Some(Fixed::Global {
            index,
            offset: offset.wrapping_add(total),
        }),
        Fixed::Nowhere => Some(Fixed::Nowhere),
    }
}

fn node_zero(node: &TypeNode) -> Option<Fixed>
    ensures { result ≡ node_zero node.now }
{
    match node {
        TypeNode::Int(width) => {
            if *width >= 1 && *width <= 64 {
                Some(Fixed::Int(Int::new(*width, 0)))
            } else {
                None
            }
        }
        TypeNode::Ptr => Some(Fixed::Null),
        _ => None,
    }
}

/// `zeroinitializer` of a register's type. A number that the table lacks is taken for `ptr`.
fn zero_of(names: &Names, of: TypeId) -> Option<Fixed>
    ensures { result ≡ zero_of (type_at names.now of) }
{
    names.is_table();
    match names.type_node(of) {
        Some(node) => node_zero(node),
        None => Some(Fixed::Null),
    }
}

/// Puts an item under its name, where the name is one of the table.
fn put(items: &mut List<Option<Fixed>>, name: NameId, item: Fixed)
    ensures { items.new ≡ (if nat_lt name (length items.old) then slice_set items.old name (Some item) else items.old) }
{
    let at = name as usize;
    if at < items.len() {
        items.set(at, Some(item));
    }
}

/// Puts the functions under their names; the first of a name counts.
fn put_functions(items: &mut List<Option<Fixed>>, functions: &[Function])
    requires { length functions.now ≤ 2 ^ 32 }
    ensures { PutsItems (λ f. f.name) Fixed.Function 0 functions.now items.old items.new }
{
    for number in (0..functions.len()).rev() {
        put(
            items,
            functions[number].name,
            Fixed::Function(number as u32),
        );
    }
}

/// Puts the globals under their names; the first of a name counts.
fn put_globals(items: &mut List<Option<Fixed>>, globals: &[Variable])
    requires { length globals.now ≤ 2 ^ 32 }
    ensures { PutsItems (λ g. g.name) (λ i. Fixed.Global i (pos 0)) 0 globals.now items.old items.new }
{
    for number in (0..globals.len()).rev() {
        let item = Fixed::Global {
            index: number as u32,
            offset: 0,
        };
        put(items, globals[number].name, item);
    }
}

/// The items of a module by the numbers of their names.
fn items_by_name(alloc: Global, tree: &Module) -> Result<List<Option<Fixed>>, Memory>
    ensures { IfOk result (AreNamed tree.now) }
{
    tree.names().is_table();
    let functions = tree.functions();
    let globals = tree.globals();
    if functions.len() > NUMBERS || globals.len() > NUMBERS {
        return Err(Memory);
    }
    let mut items = List::repeat(alloc, None, tree.names().name_count())?;
    put_functions(&mut items, functions);
    put_globals(&mut items, globals);
    Ok(items)
}

fn at(found: &[Option<Fixed>], number: u32) -> Option<Fixed>
    ensures { result ≡ slice_index_or found.now number None }
{
    match found.get(number as usize) {
        Some(value) => *value,
        None => None,
    }
}

/// A constant at a type, from what was found for it as a pointer: only `zeroinitializer` depends on the type.
fn value_at(names: &Names, found: &[Option<Fixed>], of: TypeId, number: ConstantId) -> Option<Fixed>
    ensures { result ≡ value_at names.now found.now of number }
{
    match names.constant_node(number) {
        Some(ConstantNode::Zero) => zero_of(names, of),
        _ => at(found, number),
    }
}

/// The values of indices.
fn operands_at(
    alloc: Global,
    names: &Names,
    found: &[Option<Fixed>],
    elements: &[Element],
) -> Result<Option<List<Operand>>, Memory>
    ensures { IfOk result (λ r. r ≡ operands_at names.now found.now elements.now) }
{
    let mut operands = List::new(alloc);
    for element in elements {
        match value_at(names, found, element.of, element.value) {
            Some(value) => operands.push(Operand::Constant(value))?,
            None => return Ok(None),
        }
    }
    Ok(Some(operands))
}

/// A constant `getelementptr`.
fn address(
    alloc: Global,
    tree: &Module,
    of: TypeId,
    base: Option<Fixed>,
    operands: &[Operand],
) -> Result<Option<Fixed>, Memory>
    ensures { IfOk result (λ r. r ≡ address_at tree.now of base operands.now) }
{
    let base = match base {
        Some(base) => base,
        None => return Ok(None),
    };
    let indices = match strides(alloc, tree, of, operands)? {
        Some(indices) => indices,
        None => return Ok(None),
    };
    match total(indices.as_slice()) {
        Some(total) => Ok(moved(base, total)),
        None => Ok(None),
    }
}

/// What a constant is as a pointer, from the items by name and what was found for the constants in it.
fn node_fixed(
    alloc: Global,
    tree: &Module,
    items: &[Option<Fixed>],
    found: &[Option<Fixed>],
    node: &ConstantNode,
) -> Result<Option<Fixed>, Memory>
    ensures { IfOk result (λ r. r ≡ node_fixed tree.now items.now found.now node.now) }
{
    match node {
        ConstantNode::Integer(number) => Ok(Some(Fixed::Int(*number))),
        ConstantNode::Null | ConstantNode::Zero => Ok(Some(Fixed::Null)),
        ConstantNode::Name(name) => Ok(at(items, *name)),
        ConstantNode::Address { of, base, indices } => {
            let base = at(found, *base);
            match operands_at(alloc, tree.names(), found, indices.as_slice())? {
                Some(operands) => address(alloc, tree, *of, base, operands.as_slice()),
                None => Ok(None),
            }
        }
        _ => Ok(None),
    }
}

/// What the next constant is as a pointer, from what was found for those before it.
fn next_fixed(
    alloc: Global,
    tree: &Module,
    items: &[Option<Fixed>],
    found: &[Option<Fixed>],
    number: usize,
) -> Result<Option<Fixed>, Memory>
    requires items { AreNamed tree.now items.now }
    requires found { AreFixedBelow tree.now found.now }
    requires next { number ≡ length found.now }
    requires known { number < length tree.now.names.constants }
    ensures { IfOk result (λ r. r ≡ fixed_of tree.now PtrV (constant_at tree.now.names number)) }
{
    let names = tree.names();
    names.is_table();
    match names.constant_node(number as u32) {
        Some(node) => node_fixed(alloc, tree, items, found, node),
        None => Ok(None),
    }
}

/// What is found once for the constants of a module.
#[derive(Drop)]
pub struct Constants {
    found: List<Option<Fixed>>,
}

impl Model for Constants {
    ghost use Rattle.std.specs.Prelude.{List, Option};
    ghost use Rattle.ir_code.specs.declared.op.Fixed.{Fixed as AFixed};

    ghost Value = { List (Option AFixed) };

    ghost view = { λ c. c.found };
}

impl Constants {
    /// Finds them in time linear in the table, however deep constants are nested.
    pub fn new(alloc: Global, tree: &Module) -> Result<Constants, Memory>
        ensures { IfOk result (AreFixed tree.now) }
    {
        let names = tree.names();
        let items = items_by_name(alloc, tree)?;
        let mut found = List::new(alloc);
        for number in 0..names.constant_count() {
            let value = next_fixed(alloc, tree, items.as_slice(), found.as_slice(), number)?;
            found.push(value)?;
        }
        Ok(Constants { found })
    }

    /// What was found for the constant of a number, taken as a pointer.
    pub fn as_pointer(&self, number: ConstantId) -> Option<Fixed>
        ensures { result ≡ slice_index_or self.now number None }
    {
        at(self.found.as_slice(), number)
    }

    /// The constant of a number at a type of a number, as a register holds it; `None` where it is an aggregate, the name of
    /// no item, or an address that cannot be found. It only looks up.
    pub fn at(&self, tree: &Module, of: TypeId, number: ConstantId) -> Option<Fixed>
        requires { AreFixed tree.now self.now }
        ensures { result ≡ fixed_at tree.now of number }
    {
        let names = tree.names();
        names.is_table();
        match names.constant_node(number) {
            Some(_) => value_at(names, self.found.as_slice(), of, number),
            None => Some(Fixed::Null),
        }
    }
}
