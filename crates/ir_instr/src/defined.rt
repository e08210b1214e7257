//! The names that a function has defined so far.

ghost use Rattle.std.specs.Prelude.{◌≡◌, [], OnOk, OnErr};
ghost use Rattle.ir_instr.specs.Defined.{number_among, with_number};

use indexmap::IndexSet;
use ir_tree::nodes::NameId;
use pv_base::want::Memory;
use std::alloc::Global;
use std::marker::Model;

/// The numbers of the names that a function has defined, in order of definition, each found by hashing it.
#[derive(Drop)]
pub struct Defined {
    numbers: IndexSet<NameId>,
}

impl Model for Defined {
    ghost use Rattle.std.specs.Prelude.{List, ℕ};

    ghost Value = { List ℕ };

    ghost view = { λ d. d.numbers.keys };
}

impl Defined {
    pub fn new(alloc: Global) -> Defined
        ensures { result ≡ [] }
    {
        Defined {
            numbers: IndexSet::new(alloc),
        }
    }

    /// Notes a name behind those before it, or changes nothing. One that stands among them stays where it is.
    pub fn push(&mut self, name: NameId) -> Result<(), Memory>
        ensures ok { OnOk result (self.new ≡ with_number self.old name) }
        ensures err { OnErr result (self.new ≡ self.old) }
    {
        match self.numbers.insert(name) {
            Ok(_) => Ok(()),
            Err(_) => Err(Memory),
        }
    }

    /// Whether the function has defined a name, found without a search.
    pub fn contains(&self, name: NameId) -> bool
        ensures { result ≡ number_among name self.now }
    {
        self.numbers.contains(&name)
    }
}
