//! Where a number stands first in a list, without a search.
ghost use Rattle.std.specs.Prelude.{◌≡◌, ℕ, nat_eq, is_some, Some, None, IfOk, if◌then◌else◌};
ghost use Rattle.std.specs.Ordering.{nat_cmp};
ghost use Rattle.std.specs.BTreeMap.{get};
ghost use Rattle.ir_checker.specs.Firsts.{first_place};
ghost use Rattle.ir_checker.specs.Finding.{either};

use pv_base::list::List;
use pv_base::want::Memory;
use std::alloc::Global;
use std::collections::BTreeMap;
use std::marker::Model;

/// A list of numbers, with the place where each stands first.
#[derive(Drop)]
pub struct Firsts {
    numbers: List<usize>,
    places: BTreeMap<usize, usize>,
}

impl Model for Firsts {
    ghost use Rattle.std.specs.Prelude.{◌≡◌, ℕ, List as Sequence};
    ghost use Rattle.std.specs.Ordering.{nat_cmp};
    ghost use Rattle.std.specs.BTreeMap.{get};
    ghost use Rattle.ir_checker.specs.Firsts.{first_place};

    ghost Value = { Sequence ℕ };

    ghost view = { λ f. f.numbers };

    ghost invariant = { λ f. (q : ℕ) → get nat_cmp f.places q ≡ first_place q f.numbers };
}

/// The places with one more, unless its number has one.
fn with_place(
    mut places: BTreeMap<usize, usize>,
    number: usize,
    place: usize,
) -> Result<BTreeMap<usize, usize>, Memory>
    ensures { IfOk result (λ m. (q : ℕ) → get nat_cmp m q ≡ either (get nat_cmp places q) (if nat_eq q number then Some place else None)) }
{
    if places.get(&number).is_some() {
        return Ok(places);
    }
    match places.insert(number, place) {
        Ok(_) => Ok(places),
        Err(_) => Err(Memory),
    }
}

fn places_of(alloc: Global, numbers: &[usize]) -> Result<BTreeMap<usize, usize>, Memory>
    ensures { IfOk result (λ m. (q : ℕ) → get nat_cmp m q ≡ first_place q numbers.now) }
{
    let mut places = BTreeMap::new(alloc);
    for i in 0..numbers.len() {
        places = with_place(places, numbers[i], i)?;
    }
    Ok(places)
}

impl Firsts {
    /// The numbers of a list.
    pub fn new(alloc: Global, numbers: List<usize>) -> Result<Firsts, Memory>
        ensures { IfOk result (λ f. f ≡ numbers) }
    {
        let places = places_of(alloc, numbers.as_slice())?;
        Ok(Firsts { numbers, places })
    }

    /// Where a number stands first.
    pub fn first(&self, number: usize) -> Option<usize>
        ensures { result ≡ first_place number self.now }
    {
        self.places.get(&number).copied()
    }

    /// Whether a number stands in the list.
    pub fn has(&self, number: usize) -> bool
        ensures { result ≡ is_some (first_place number self.now) }
    {
        self.first(number).is_some()
    }

    pub fn numbers(&self) -> &[usize]
        ensures { result.now ≡ self.now }
    {
        self.numbers.as_slice()
    }
}
