//! Named types, the fields of structs, and where indices into a type lead.
ghost use Rattle.std.specs.Prelude.{◌≡◌, fold};
ghost use Rattle.ir_tree.specs.Naming.{type_at, types_at};
ghost use Rattle.ir_tree.specs.Layouts.{fields_of, struct_fields};
ghost use Rattle.ir_tree.specs.Modules.{types_of};
ghost use Rattle.ir_rules.specs.Indexing.{field_at, field_step, step_into, advance, path};
ghost use Rattle.ir_rules.specs.Heads.{shown_walk, shown_fields};

use crate::given::Walk;
use crate::types::{Head, head_of};
use ir_tree::nodes::TypeId;
use ir_tree::table::Names;
use ir_tree::whole::{Module, opened};

/// The fields of a struct, and whether it is packed.
#[derive(Clone, Copy)]
pub struct Fields<'a> {
    pub packed: bool,
    pub fields: &'a [TypeId],
}

fn own_fields<'a>(names: &'a Names, of: TypeId) -> Option<Fields<'a>>
    ensures { shown_fields names.now result ≡ struct_fields (type_at names.now of) }
{
    match head_of(names, of) {
        Head::Struct { packed, fields } => Some(Fields { packed, fields }),
        _ => None,
    }
}

/// The fields of a struct, which may be named. A name's type is looked up, without a search.
#[tactic(auto, using(crate::proofs::PathLemmas::fields_some, crate::proofs::PathLemmas::fields_none))]
pub fn fields_of<'a>(tree: &'a Module, of: TypeId) -> Option<Fields<'a>>
    ensures { shown_fields tree.now.names result ≡ fields_of (types_of tree.now) (type_at tree.now.names of) }
{
    match opened(tree, of) {
        Some(body) => own_fields(tree.names(), body),
        None => None,
    }
}

fn field_at(names: &Names, fields: &[TypeId], index: u64) -> Walk
    ensures { shown_walk names.now result ≡ field_at (types_at names.now fields.now) index }
{
    let at = index as usize;
    if at < fields.len() {
        Walk::Through(fields[at])
    } else {
        Walk::Outside
    }
}

fn field_step(names: &Names, fields: Option<Fields>, index: Option<u64>) -> Walk
    ensures { shown_walk names.now result ≡ field_step (shown_fields names.now fields.entry) index }
{
    match fields {
        Some(fields) => match index {
            Some(index) => field_at(names, fields.fields, index),
            None => Walk::Differs,
        },
        None => Walk::Differs,
    }
}

/// Where one index into a type leads. An index that is no constant integer is `None`.
#[tactic(auto, unfolding(crate::specs::Indexing::step_into))]
fn step_into(tree: &Module, of: TypeId, index: Option<u64>) -> Walk
    ensures { shown_walk tree.now.names result ≡ step_into (types_of tree.now) (type_at tree.now.names of) index }
{
    let names = tree.names();
    match head_of(names, of) {
        Head::Array { count: _, of } => Walk::Through(of),
        _ => field_step(names, fields_of(tree, of), index),
    }
}

fn advance(tree: &Module, walk: Walk, index: Option<u64>) -> Walk
    ensures { shown_walk tree.now.names result ≡ advance (types_of tree.now) (shown_walk tree.now.names walk) index }
{
    match walk {
        Walk::Through(of) => step_into(tree, of, index),
        Walk::Differs => Walk::Differs,
        Walk::Outside => Walk::Outside,
    }
}

fn walk_along(tree: &Module, of: TypeId, indices: &[Option<u64>]) -> Walk
    ensures { shown_walk tree.now.names result ≡ fold (advance (types_of tree.now)) (Walk.Through (type_at tree.now.names of)) indices.now }
{
    let mut walk = Walk::Through(of);
    for index in indices {
        walk = advance(tree, walk, *index);
    }
    walk
}

/// Where all indices of a `getelementptr` lead. The first counts elements of the type itself.
pub fn path(tree: &Module, of: TypeId, indices: &[Option<u64>]) -> Walk
    ensures { shown_walk tree.now.names result ≡ path (types_of tree.now) (type_at tree.now.names of) indices.now }
{
    match indices {
        [] => Walk::Differs,
        [_, rest @ ..] => walk_along(tree, of, rest),
    }
}
