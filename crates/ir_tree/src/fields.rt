//! Where the fields of structs stand.
ghost use Rattle.std.specs.Prelude.{◌≡◌, length, map, option_map, option_and_then, IfOk, IfSome};
ghost use Rattle.ir_tree.specs.Layouts.{field_place};
ghost use Rattle.ir_tree.specs.Bounds.{IsLayout};
ghost use Rattle.ir_tree.specs.Filling.{answer_at, AreBounded, ArePlaces, AllPlaces, NodePlaces};

use crate::layout::{Layout, field_align, joined, round_up};
use crate::layouts::answer_at;
use crate::nodes::{TypeId, TypeNode};
use crate::table::Names;
use pv_base::list::List;
use pv_base::want::Memory;
use std::alloc::Global;

/// Where a field stands behind what is laid out so far.
fn place(packed: bool, so: Option<Layout>, of: Option<Layout>) -> Option<u64>
    requires so { IfSome so IsLayout }
    requires of { IfSome of IsLayout }
    ensures { result ≡ option_and_then (λ s. option_map (field_place packed s) of) so }
{
    match so {
        Some(so) => match of {
            Some(of) => Some(round_up(so.size, field_align(packed, of))),
            None => None,
        },
        None => None,
    }
}

fn struct_places(
    alloc: Global,
    packed: bool,
    fields: &[TypeId],
    answers: &[Option<Layout>],
) -> Result<List<Option<u64>>, Memory>
    requires { AreBounded answers.now }
    ensures { IfOk result (ArePlaces packed (map (answer_at answers.now) fields.now)) }
{
    let mut so = Some(Layout { size: 0, align: 1 });
    let mut places = List::new(alloc);
    for field in fields {
        let of = answer_at(answers, *field);
        let at = place(packed, so, of);
        so = joined(packed, so, of);
        places.push(at)?;
    }
    Ok(places)
}

fn node_places(
    alloc: Global,
    node: &TypeNode,
    answers: &[Option<Layout>],
) -> Result<List<Option<u64>>, Memory>
    requires { AreBounded answers.now }
    ensures { IfOk result (λ places. NodePlaces answers.now places node.now) }
{
    match node {
        TypeNode::Struct { packed, fields } => {
            struct_places(alloc, *packed, fields.as_slice(), answers)
        }
        _ => Ok(List::new(alloc)),
    }
}

/// The places of the fields of all types.
pub(crate) fn all_places(
    alloc: Global,
    names: &Names,
    answers: &[Option<Layout>],
) -> Result<List<List<Option<u64>>>, Memory>
    requires { AreBounded answers.now }
    ensures { IfOk result (AllPlaces names.now answers.now (length names.now.types)) }
{
    names.is_table();
    let mut all = List::new(alloc);
    for number in 0..names.type_count() {
        let places = match names.type_node(number as u32) {
            Some(node) => node_places(alloc, node, answers)?,
            None => List::new(alloc),
        };
        all.push(places)?;
    }
    Ok(all)
}
