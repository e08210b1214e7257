//! The layouts of all types of a table, found once and looked up from then on.
ghost use Rattle.std.specs.Prelude.{◌≡◌, ◌<◌, length, map, All, IfOk};
ghost use Rattle.ir_tree.specs.Layouts.{struct_layout};
ghost use Rattle.ir_tree.specs.Filling.{answer_at, named_answer, node_body, node_layout, node_place, place_at, AreBodies, AreBounded, IsFound, NamedWithin, Passes, Reaches, Settles, Tries};

use crate::fields::all_places;
use crate::items::NamedType;
use crate::layout::{Layout, array_layout, int_layout, joined, padded};
use crate::nodes::{NameId, TypeId, TypeNode};
use crate::table::Names;
use pv_base::list::List;
use pv_base::want::Memory;
use std::alloc::Global;
use std::marker::Model;

pub(crate) fn answer_at(answers: &[Option<Layout>], number: TypeId) -> Option<Layout>
    ensures { result ≡ answer_at answers.now number }
{
    match answers.get(number as usize) {
        Some(answer) => *answer,
        None => None,
    }
}

fn named_answer(
    bodies: &[Option<TypeId>],
    answers: &[Option<Layout>],
    name: NameId,
) -> Option<Layout>
    ensures { result ≡ named_answer bodies.now answers.now name }
{
    match bodies.get(name as usize) {
        Some(Some(body)) => answer_at(answers, *body),
        _ => None,
    }
}

fn struct_layout(packed: bool, fields: &[TypeId], answers: &[Option<Layout>]) -> Option<Layout>
    requires { AreBounded answers.now }
    ensures { result ≡ struct_layout packed (map (answer_at answers.now) fields.now) }
{
    let mut so = Some(Layout { size: 0, align: 1 });
    for field in fields {
        so = joined(packed, so, answer_at(answers, *field));
    }
    match so {
        Some(so) => padded(so),
        None => None,
    }
}

/// The layout of a node, from what was found for the types in it.
fn node_layout(
    node: &TypeNode,
    bodies: &[Option<TypeId>],
    answers: &[Option<Layout>],
) -> Option<Layout>
    requires { AreBounded answers.now }
    ensures { result ≡ node_layout (answer_at answers.now) (named_answer bodies.now answers.now) node.now }
{
    match node {
        TypeNode::Int(width) => int_layout(*width),
        TypeNode::Ptr => Some(Layout { size: 8, align: 8 }),
        TypeNode::Void => None,
        TypeNode::Array { count, of } => match answer_at(answers, *of) {
            Some(of) => array_layout(*count, of),
            None => None,
        },
        TypeNode::Struct { packed, fields } => struct_layout(*packed, fields.as_slice(), answers),
        TypeNode::Named(name) => named_answer(bodies, answers, *name),
    }
}

/// Finds the layout of one type, where it is not found yet and those in it are. Answers whether it did.
fn find(
    names: &Names,
    bodies: &[Option<TypeId>],
    answers: &mut List<Option<Layout>>,
    number: TypeId,
) -> bool
    requires bounded { AreBounded answers.old }
    requires len { length answers.old ≡ length names.now.types }
    ensures { Tries names.now bodies.now answers.old answers.new number result }
{
    let node = match names.type_node(number) {
        Some(node) => node,
        None => return false,
    };
    if answer_at(answers.as_slice(), number).is_some() {
        return false;
    }
    match node_layout(node, bodies, answers.as_slice()) {
        Some(layout) => {
            answers.set(number as usize, Some(layout));
            true
        }
        None => false,
    }
}

/// The types of the names, by the names' numbers. The first of two types of one name counts.
fn bodies(alloc: Global, names: usize, types: &[NamedType]) -> Result<List<Option<TypeId>>, Memory>
    requires { All (λ n. n.name < names) types.now }
    ensures { IfOk result (AreBodies types.now names) }
{
    let mut bodies = List::repeat(alloc, None, names)?;
    for named in types {
        let name = named.name as usize;
        if bodies.at(name).is_none() {
            bodies.set(name, Some(named.of));
        }
    }
    Ok(bodies)
}

/// Finds what can be found in one pass over all types. Answers whether it found a layout.
fn pass(names: &Names, bodies: &[Option<TypeId>], answers: &mut List<Option<Layout>>) -> bool
    requires bounded { AreBounded answers.old }
    requires len { length answers.old ≡ length names.now.types }
    ensures { Passes names.now bodies.now answers.old answers.new (length answers.old) result }
{
    names.is_table();
    let mut found = false;
    for number in 0..answers.len() {
        if find(names, bodies, answers, number as u32) {
            found = true;
        }
    }
    found
}

/// Finds all layouts that are to be found.
fn settle(names: &Names, bodies: &[Option<TypeId>], answers: &mut List<Option<Layout>>)
    requires bounded { AreBounded answers.old }
    requires len { length answers.old ≡ length names.now.types }
    ensures { Settles names.now bodies.now answers.old answers.new }
{
    'passes: loop {
        if !pass(names, bodies, answers) {
            return;
        }
    }
}

/// Tries the types in an order.
fn follow(
    order: &[TypeId],
    names: &Names,
    bodies: &[Option<TypeId>],
    answers: &mut List<Option<Layout>>,
)
    requires bounded { AreBounded answers.old }
    requires len { length answers.old ≡ length names.now.types }
    ensures reaches { Reaches names.now bodies.now answers.old answers.new }
    ensures bounded { AreBounded answers.new }
    ensures len { length answers.new ≡ length answers.old }
{
    for number in order {
        find(names, bodies, answers, *number);
    }
}

/// A type that is to be visited, or whose parts were.
#[derive(Clone, Copy)]
struct Visit {
    number: TypeId,
    parts_done: bool,
}

fn push_visit(stack: &mut List<Visit>, number: TypeId, parts_done: bool) -> Result<(), Memory> {
    stack.push(Visit { number, parts_done })
}

fn push_parts(
    node: &TypeNode,
    bodies: &[Option<TypeId>],
    stack: &mut List<Visit>,
) -> Result<(), Memory> {
    match node {
        TypeNode::Array { count: _, of } => push_visit(stack, *of, false),
        TypeNode::Struct { packed: _, fields } => {
            for field in fields.as_slice() {
                push_visit(stack, *field, false)?;
            }
            Ok(())
        }
        TypeNode::Named(name) => match bodies.get(*name as usize) {
            Some(Some(body)) => push_visit(stack, *body, false),
            _ => Ok(()),
        },
        _ => Ok(()),
    }
}

/// The types in an order in which what stands in a type comes before it, where none holds itself. Only the speed rests on
/// it: one pass in this order finds every layout, and a second sees that no more are to be found.
fn order(alloc: Global, names: &Names, bodies: &[Option<TypeId>]) -> Result<List<TypeId>, Memory> {
    names.is_table();
    let count = names.type_count();
    let mut stack = List::new(alloc);
    for number in 0..count {
        push_visit(&mut stack, (count - 1 - number) as u32, false)?;
    }
    let mut seen = List::repeat(alloc, false, count)?;
    let mut order = List::new(alloc);
    for _ in 0..u64::MAX {
        let visit = match stack.pop() {
            Some(visit) => visit,
            None => break,
        };
        if visit.parts_done {
            order.push(visit.number)?;
        } else {
            enter(names, bodies, visit.number, &mut seen, &mut stack)?;
        }
    }
    Ok(order)
}

/// Visits a type for the first time.
fn enter(
    names: &Names,
    bodies: &[Option<TypeId>],
    number: TypeId,
    seen: &mut List<bool>,
    stack: &mut List<Visit>,
) -> Result<(), Memory> {
    let at = number as usize;
    if at >= seen.len() || *seen.at(at) {
        return Ok(());
    }
    seen.set(at, true);
    push_visit(stack, number, true)?;
    match names.type_node(number) {
        Some(node) => push_parts(node, bodies, stack),
        None => Ok(()),
    }
}

/// What is found once of the types of a module, by their numbers: layouts, the types of names, and the places of fields.
#[derive(Drop)]
pub struct Layouts {
    layouts: List<Option<Layout>>,
    bodies: List<Option<TypeId>>,
    places: List<List<Option<u64>>>,
}

impl Model for Layouts {
    ghost use Rattle.ir_tree.specs.Filling.{Found};

    ghost Value = { Found };

    ghost view = { λ l. record { layouts = l.layouts; bodies = l.bodies; places = l.places } };
}

impl Layouts {
    /// Finds them in time and memory linear in the table, however deep it is nested.
    pub fn new(alloc: Global, names: &Names, types: &[NamedType]) -> Result<Layouts, Memory>
        requires { All (NamedWithin names.now) types.now }
        ensures { IfOk result (IsFound names.now types.now) }
    {
        names.is_table();
        let bodies = bodies(alloc, names.name_count(), types)?;
        let order = order(alloc, names, bodies.as_slice())?;
        let mut layouts = List::repeat(alloc, None, names.type_count())?;
        follow(order.as_slice(), names, bodies.as_slice(), &mut layouts);
        settle(names, bodies.as_slice(), &mut layouts);
        let places = all_places(alloc, names, layouts.as_slice())?;
        Ok(Layouts {
            layouts,
            bodies,
            places,
        })
    }

    /// The layout of a type; `None` where it has none.
    pub fn of(&self, number: TypeId) -> Option<Layout>
        ensures { result ≡ answer_at self.now.layouts number }
    {
        answer_at(self.layouts.as_slice(), number)
    }

    /// Where a field of a type stands that is a struct, and not a named one.
    fn own_place(&self, number: TypeId, index: u32) -> Option<u64>
        ensures { result ≡ place_at self.now number index }
    {
        match self.places.as_slice().get(number as usize) {
            Some(places) => match places.as_slice().get(index as usize) {
                Some(place) => *place,
                None => None,
            },
            None => None,
        }
    }

    /// The number of a type, or of what it is a name of; `None` where a name has no type.
    pub(crate) fn opened(&self, node: &TypeNode, number: TypeId) -> Option<TypeId>
        ensures { result ≡ node_body self.now node.now number }
    {
        match node {
            TypeNode::Named(name) => match self.bodies.as_slice().get(*name as usize) {
                Some(body) => *body,
                None => None,
            },
            _ => Some(number),
        }
    }

    /// Where a field of a struct stands, which may be named; `None` where there is no such field or no layout of it.
    pub(crate) fn place(&self, node: &TypeNode, number: TypeId, index: u32) -> Option<u64>
        ensures { result ≡ node_place self.now node.now number index }
    {
        match node {
            TypeNode::Named(name) => match self.bodies.as_slice().get(*name as usize) {
                Some(Some(body)) => self.own_place(*body, index),
                _ => None,
            },
            _ => self.own_place(number, index),
        }
    }
}
