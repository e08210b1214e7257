//! What a function defines, by name.
ghost use Rattle.std.specs.Prelude.{◌≡◌, map, option_map, IfOk};
ghost use Rattle.ir_tree.specs.Naming.{name_at};
ghost use Rattle.ir_tree.specs.Shown.{shown_function};
ghost use Rattle.ir_rules.specs.Defining.{given_type, register_type, is_label};
ghost use Rattle.ir_rules.specs.Heads.{shown_given};
ghost use Rattle.ir_checker.specs.Keys.{key_of, IsZero};
ghost use Rattle.ir_checker.specs.Scopes.{IsScope};

use crate::firsts::Firsts;
use crate::keys::key_of;
use ir_rules::defining::defined;
use ir_rules::given::{Defined, Given};
use ir_tree::items::{Block, Function};
use ir_tree::nodes::NameId;
use ir_tree::table::Names;
use pv_base::list::List;
use pv_base::want::Memory;
use std::alloc::Global;

#[derive(Drop)]
pub struct Scope {
    /// What the function defines in text order.
    pub all: List<Defined>,
    /// The keys of that.
    pub names: Firsts,
    /// The keys of the labels.
    pub labels: Firsts,
}

fn defined_keys(
    alloc: Global,
    names: &Names,
    zero: usize,
    all: &[Defined],
) -> Result<List<usize>, Memory>
    ensures { IfOk result (λ l. l ≡ map (λ d. key_of names.now zero d.name) all.now) }
{
    let keys = all
        .iter()
        .map(|d| key_of(names, zero, d.name))
        .collect(alloc)?;
    Ok(List::from_vec(keys))
}

fn label_keys(
    alloc: Global,
    names: &Names,
    zero: usize,
    blocks: &[Block],
) -> Result<List<usize>, Memory>
    ensures { IfOk result (λ l. l ≡ map (λ b. key_of names.now zero b.label) blocks.now) }
{
    let keys = blocks
        .iter()
        .map(|b| key_of(names, zero, b.label))
        .collect(alloc)?;
    Ok(List::from_vec(keys))
}

pub fn find_scope(
    alloc: Global,
    names: &Names,
    zero: usize,
    function: &Function,
) -> Result<Scope, Memory>
    ensures { IfOk result (IsScope names.now zero function.now) }
{
    let all = defined(alloc, function)?;
    let keys = defined_keys(alloc, names, zero, all.as_slice())?;
    let labels = label_keys(alloc, names, zero, function.blocks.as_slice())?;
    Ok(Scope {
        all,
        names: Firsts::new(alloc, keys)?,
        labels: Firsts::new(alloc, labels)?,
    })
}

/// The type of a register of the function.
pub fn register_type(
    names: &Names,
    zero: usize,
    function: &Function,
    scope: &Scope,
    name: NameId,
) -> Option<Given>
    requires zero { IsZero names.now zero }
    requires scope { IsScope names.now zero function.now scope.now }
    ensures { option_map (λ g. given_type (shown_given names.now g)) result ≡ register_type (shown_function names.now function.now) (name_at names.now name) }
{
    match scope.names.first(key_of(names, zero, name)) {
        Some(place) => match scope.all.get(place) {
            Some(one) => one.of,
            None => None,
        },
        None => None,
    }
}

/// Whether a block of the function has this label.
#[tactic(auto, using(crate::proofs::IndexLemmas::label_is))]
pub fn is_label(
    names: &Names,
    zero: usize,
    function: &Function,
    scope: &Scope,
    name: NameId,
) -> bool
    requires zero { IsZero names.now zero }
    requires scope { IsScope names.now zero function.now scope.now }
    ensures { result ≡ is_label (shown_function names.now function.now) (name_at names.now name) }
{
    scope.labels.has(key_of(names, zero, name))
}
