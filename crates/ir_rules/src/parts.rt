//! Lists of numbers, by which keys are made.
ghost use Rattle.std.specs.Prelude.{◌≡◌, nat_eq};
ghost use Rattle.std.proofs.Common.{rules};
ghost use Rattle.std.specs.Hash as fed;
ghost use Rattle.std.specs.Cmp.Rules.{hashing};
ghost use Rattle.std.specs.Cmp.{partial_equiv_from_equiv};
ghost use Rattle.std.specs.Cmp.Lexicographic.{pointwise, nat_list_eq_equiv};

use std::hash::{Hash, Hasher};
use std::marker::Model;

/// Numbers in their order. Two lists are equal where they have the same numbers.
#[derive(Drop)]
pub struct Parts {
    numbers: Vec<usize>,
}

impl Model for Parts {
    ghost use Rattle.std.specs.Prelude.{ℕ, List as Sequence};

    ghost Value = { Sequence ℕ };

    ghost view = { λ p. p.numbers.items };
}

impl Parts {
    /// These numbers, which takes no memory.
    pub fn from_vec(numbers: Vec<usize>) -> Parts
        ensures { result ≡ numbers.items }
    {
        Parts { numbers }
    }

    pub fn as_slice(&self) -> &[usize]
        ensures { result.now ≡ self.now }
    {
        self.numbers.as_slice()
    }
}

impl PartialEq for Parts {
    ghost eq = { pointwise nat_eq };

    ghost laws = { partial_equiv_from_equiv nat_list_eq_equiv };

    fn eq(&self, other: &Parts) -> bool {
        self.as_slice() == other.as_slice()
    }
}

impl Eq for Parts {
    ghost laws = { nat_list_eq_equiv };
}

impl Hash for Parts {
    ghost hash_input = { fed.slice fed.usize };

    ghost respects_eq = { Prim.search (hashing, rules) };

    fn hash<H: Hasher>(&self, state: &mut H) {
        self.as_slice().hash(state);
    }
}
