//! Where names stand in a list, found by name.
ghost use Rattle.std.specs.Prelude.{◌≡◌, ◌<◌, ◌++◌, ◌∷◌, [], OnOk, OnErr, length, nat_eq};
ghost use Rattle.indexmap.specs.IndexMap.{get};
ghost use Rattle.ir_code.specs.Places.{place_of};
ghost use Rattle.ir_code.specs.Noting.{Notes, Keeps};

use indexmap::IndexMap;
use pv_base::list::List;
use pv_base::want::Memory;
use std::alloc::Global;
use std::marker::Model;

/// How many numbers there are.
const NUMBERS: usize = 4294967296;

/// Names in a list, in which an item may have none, each found by its first place.
#[derive(Drop)]
pub struct Places {
    names: List<Option<u32>>,
    first: IndexMap<u32, u32>,
}

impl Model for Places {
    ghost use Rattle.std.specs.Prelude.{ℕ, List as Sequence, Option};
    ghost use Rattle.ir_code.specs.Noting.{AreFirst};

    ghost Value = { Sequence (Option ℕ) };

    ghost view = { λ p. p.names };

    ghost invariant = { λ p. AreFirst p.names p.first };
}

/// Notes the place of a name, where it has none yet.
fn note(first: &mut IndexMap<u32, u32>, name: Option<u32>, place: u32) -> Result<(), Memory>
    ensures ok { OnOk result (Notes first.old first.new name place) }
    ensures err { OnErr result (Keeps first.old first.new) }
{
    let name = match name {
        Some(name) => name,
        None => return Ok(()),
    };
    if first.get(&name).is_some() {
        return Ok(());
    }
    match first.insert(name, place) {
        Ok(_) => Ok(()),
        Err(_) => Err(Memory),
    }
}

impl Places {
    pub fn new(alloc: Global) -> Places
        ensures { result ≡ [] }
    {
        Places {
            names: List::new(alloc),
            first: IndexMap::new(alloc),
        }
    }

    pub fn len(&self) -> usize
        ensures { result ≡ length self.now }
    {
        self.names.len()
    }

    /// The place of the first item of this name.
    pub fn place(&self, name: u32) -> Option<u32>
        ensures { result ≡ place_of self.now name }
    {
        self.first.get(&name).copied()
    }

    /// Adds an item behind the others, or changes nothing. `Memory` where memory or the 2^32 places are used up.
    pub fn add(&mut self, name: Option<u32>) -> Result<(), Memory>
        ensures ok { OnOk result (self.new ≡ self.old ++ name ∷ []) }
        ensures err { OnErr result (self.new ≡ self.old) }
    {
        let place = self.names.len();
        if place >= NUMBERS {
            return Err(Memory);
        }
        self.names.push(name)?;
        match note(&mut self.first, name, place as u32) {
            Ok(()) => Ok(()),
            Err(_) => {
                self.names.pop();
                Err(Memory)
            }
        }
    }
}
