//! The cases of a switch, found by value.
ghost use Rattle.std.specs.Prelude.{◌≡◌, ◌++◌, ◌∷◌, [], OnOk, OnErr};
ghost use Rattle.ir_code.specs.Cases.{edge_of, with_case};

use pv_base::list::List;
use pv_base::want::Memory;
use std::alloc::Global;
use std::collections::BTreeMap;
use std::marker::Model;

/// The edge of each value of a switch, by the value's bits, in text order. Contracts see the pairs of bits and edge. A value is found
/// by an ordered search, which no choice of values makes slow.
#[derive(Drop)]
pub struct Cases {
    pairs: List<(u64, u32)>,
    edges: BTreeMap<u64, u32>,
}

impl Model for Cases {
    ghost use Rattle.std.specs.Prelude.{ℕ, List as Sequence};
    ghost use Rattle.ir_code.specs.Cases.{AreFound};

    ghost Value = { Sequence (ℕ × ℕ) };

    ghost view = { λ c. c.pairs };

    ghost invariant = { λ c. AreFound c.pairs c.edges };
}

impl Cases {
    pub fn new(alloc: Global) -> Cases
        ensures { result ≡ [] }
    {
        Cases {
            pairs: List::new(alloc),
            edges: BTreeMap::new(alloc),
        }
    }

    /// The edge of a value.
    pub fn edge(&self, value: u64) -> Option<u32>
        ensures { result ≡ edge_of self.now value }
    {
        self.edges.get(&value).copied()
    }

    /// Adds a case behind the others. Of two cases of one value the first counts.
    pub fn add(&mut self, value: u64, edge: u32) -> Result<(), Memory>
        ensures ok { OnOk result (self.new ≡ with_case self.old value edge) }
        ensures err { OnErr result (self.new ≡ self.old) }
    {
        if self.edge(value).is_some() {
            return Ok(());
        }
        self.pairs.push((value, edge))?;
        match self.edges.insert(value, edge) {
            Ok(_) => Ok(()),
            Err(_) => {
                self.pairs.pop();
                Err(Memory)
            }
        }
    }
}
