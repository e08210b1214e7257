//! Bytes, which contracts see as a list of numbers below 256.
ghost use Rattle.std.specs.Prelude.{◌≡◌, ℕ, ◌++◌, List as Sequence, [], ◌∷◌, length, take, IfOk, OnOk, OnErr};
ghost use Rattle.std.specs.Prelude.{nat_eq};
ghost use Rattle.std.proofs.Common.{rules};
ghost use Rattle.std.specs.Hash as fed;
ghost use Rattle.std.specs.Cmp.Rules.{hashing};
ghost use Rattle.std.specs.Cmp.{partial_equiv_from_equiv};
ghost use Rattle.std.specs.Cmp.Lexicographic.{pointwise, nat_list_eq_equiv};

use crate::want::Memory;
use std::alloc::{AllocError, Global};
use std::hash::{Hash, Hasher};
use std::marker::Model;

/// A growing run of bytes, which keeps its allocator.
#[derive(Debug, Drop)]
pub struct Bytes {
    items: Vec<u8>,
}

impl Model for Bytes {
    ghost Value = { Sequence ℕ };

    ghost view = { λ b. b.items.items };
}

impl Bytes {
    pub fn new(alloc: Global) -> Bytes
        ensures { result ≡ [] }
    {
        Bytes {
            items: Vec::new(alloc),
        }
    }

    pub fn from_slice(alloc: Global, bytes: &[u8]) -> Result<Bytes, Memory>
        ensures { IfOk result (λ b. b ≡ bytes.now) }
    {
        let items = Vec::from_slice(alloc, bytes)?;
        Ok(Bytes { items })
    }

    pub fn as_slice(&self) -> &[u8]
        ensures { result.now ≡ self.now }
    {
        self.items.as_slice()
    }

    pub fn len(&self) -> usize
        ensures { result ≡ length self.now }
    {
        self.items.len()
    }

    pub fn clear(&mut self)
        ensures { self.new ≡ [] }
    {
        self.items.clear();
    }

    /// Drops the bytes from a place on; a place behind the last drops none.
    pub fn truncate(&mut self, len: usize)
        ensures { self.new ≡ take len self.old }
    {
        self.items.truncate(len);
    }

    /// Appends one byte, or changes nothing.
    pub fn push(&mut self, byte: u8) -> Result<(), Memory>
        ensures ok { OnOk result (self.new ≡ self.old ++ byte ∷ []) }
        ensures err { OnErr result (self.new ≡ self.old) }
    {
        match self.items.push(byte) {
            Ok(()) => Ok(()),
            Err(_) => Err(Memory),
        }
    }

    /// Appends all of it, or changes nothing.
    pub fn append(&mut self, bytes: &[u8]) -> Result<(), Memory>
        ensures ok { OnOk result (self.new ≡ self.old ++ bytes.now) }
        ensures err { OnErr result (self.new ≡ self.old) }
    {
        match self.items.extend_from_slice(bytes) {
            Ok(()) => Ok(()),
            Err(_) => Err(Memory),
        }
    }

    pub fn copy(&self) -> Result<Bytes, Memory>
        ensures { IfOk result (λ b. b ≡ self.now) }
    {
        Bytes::from_slice(*self.items.allocator(), self.items.as_slice())
    }
}

impl Clone for Bytes {
    ghost is_clone = { λ bytes other. other ≡ bytes };

    fn clone(&self) -> Result<Bytes, AllocError> {
        match self.copy() {
            Ok(bytes) => Ok(bytes),
            Err(_) => Err(AllocError),
        }
    }
}

impl PartialEq for Bytes {
    ghost eq = { pointwise nat_eq };

    ghost laws = { partial_equiv_from_equiv nat_list_eq_equiv };

    fn eq(&self, other: &Bytes) -> bool {
        self.as_slice() == other.as_slice()
    }
}

impl Eq for Bytes {
    ghost laws = { nat_list_eq_equiv };
}

impl Hash for Bytes {
    ghost hash_input = { fed.slice fed.u8 };

    ghost respects_eq = { Prim.search (hashing, rules) };

    fn hash<H: Hasher>(&self, state: &mut H) {
        self.as_slice().hash(state);
    }
}
