//! Whether the items of a list differ from each other: each is looked for among those before it.
ghost use Rattle.std.specs.Prelude.{◌≡◌, ◌||◌, ℕ, nat_eq, not, map, IfOk, OnOk};
ghost use Rattle.std.specs.Ordering.{nat_cmp};
ghost use Rattle.std.specs.BTreeSet.{contains};
ghost use Rattle.ir_tree.specs.Table.{same_name};
ghost use Rattle.ir_tree.specs.Naming.{name_at};
ghost use Rattle.ir_rules.specs.Reading.{all_differ, names_differ};
ghost use Rattle.rule_tests.specs.NameKeys.{name_key};

use ir_rules::whole::name;
use ir_tree::nodes::NameId;
use ir_tree::table::Names;
use pv_base::list::List;
use pv_base::name::Name;
use pv_base::want::Memory;
use std::alloc::Global;
use std::collections::BTreeSet;

/// Adds a number. Answers whether it is new.
fn add(seen: &mut BTreeSet<u64>, number: u64) -> Result<bool, Memory>
    ensures new { IfOk result (λ b. b ≡ not (contains nat_cmp seen.old number)) }
    ensures more { OnOk result ((q : ℕ) → contains nat_cmp seen.new q ≡ (contains nat_cmp seen.old q || nat_eq q number)) }
{
    match seen.insert(number) {
        Ok(new) => Ok(new),
        Err(_) => Err(Memory),
    }
}

/// Whether no number stands twice in a list.
pub fn numbers_differ(alloc: Global, all: &[u64]) -> Result<bool, Memory>
    ensures { IfOk result (λ b. b ≡ all_differ nat_eq all.now) }
{
    let mut seen = BTreeSet::new(alloc);
    for i in 0..all.len() {
        if !add(&mut seen, all[i])? {
            return Ok(false);
        }
    }
    Ok(true)
}

/// Whether a number is of the name 0, for which a number that the table lacks stands.
fn is_name_zero(names: &Names, number: NameId) -> bool
    ensures { result ≡ same_name (name_at names.now number) (Name.Numbered 0) }
{
    match name(names, number) {
        Some(Name::Numbered(number)) => *number == 0,
        Some(Name::Named(_)) => false,
        None => true,
    }
}

/// The key of a name: two names are the same exactly where their keys are.
fn key_of(names: &Names, number: NameId) -> u64
    ensures { result ≡ name_key names.now number }
{
    if is_name_zero(names, number) {
        0
    } else {
        number as u64 + 1
    }
}

fn keys_of(alloc: Global, names: &Names, all: &[NameId]) -> Result<List<u64>, Memory>
    ensures { IfOk result (λ l. l ≡ map (name_key names.now) all.now) }
{
    let keys = all.iter().map(|k| key_of(names, *k)).collect(alloc)?;
    Ok(List::from_vec(keys))
}

/// Whether no name stands twice in a list.
#[tactic(auto, using(crate::proofs::NameKeyLemmas::names_by_key))]
pub fn names_differ(alloc: Global, names: &Names, all: &[NameId]) -> Result<bool, Memory>
    ensures { IfOk result (λ b. b ≡ names_differ (map (name_at names.now) all.now)) }
{
    names.is_table();
    let keys = keys_of(alloc, names, all)?;
    let differ = numbers_differ(alloc, keys.as_slice())?;
    Ok(differ)
}
