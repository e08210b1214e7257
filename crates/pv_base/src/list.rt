//! Lists, which contracts see as lists of their items.
ghost use Rattle.std.specs.Prelude.{◌≡◌, ℕ, ◌+◌, ◌-◌, ◌<◌, ◌≤◌, ◌++◌, List as Sequence, [], ◌∷◌, Some, length, take, drop, slice_get, slice_set, replicate, IfOk, OnOk, OnErr, MatchOption};

use crate::want::Memory;
use std::alloc::{AllocError, Global};
use std::marker::Model;

/// A growing list, which keeps its allocator.
#[derive(Debug, Drop)]
pub struct List<T> {
    items: Vec<T>,
}

impl<T> Model for List<T> {
    ghost Value = { Sequence T };

    ghost view = { λ l. l.items.items };
}

impl<T> List<T> {
    pub fn new(alloc: Global) -> List<T>
        ensures { result ≡ [] }
    {
        List {
            items: Vec::new(alloc),
        }
    }

    /// The list of these items, which takes no memory.
    pub fn from_vec(items: Vec<T>) -> List<T>
        ensures { result ≡ items.items }
    {
        List { items }
    }

    pub fn alloc(&self) -> Global {
        *self.items.allocator()
    }

    pub fn as_slice(&self) -> &[T]
        ensures { result.now ≡ self.now }
    {
        self.items.as_slice()
    }

    pub fn len(&self) -> usize
        ensures { result ≡ length self.now }
    {
        self.items.len()
    }

    pub fn get(&self, at: usize) -> Option<&T>
        ensures { MatchOption result (length self.now ≤ at) (λ item. slice_get self.now at ≡ Some item.now) }
    {
        self.items.get(at)
    }

    /// The item at a place that the list has.
    pub fn at(&self, at: usize) -> &T
        requires { at < length self.now }
        ensures { slice_get self.now at ≡ Some result.now }
    {
        &self.items[at]
    }

    /// Appends the item, or changes nothing and drops it.
    pub fn push(&mut self, item: T) -> Result<(), Memory>
    where
        T: Drop,
        ensures ok { OnOk result (self.new ≡ self.old ++ item ∷ []) }
        ensures err { OnErr result (self.new ≡ self.old) }
    {
        match self.items.push(item) {
            Ok(()) => Ok(()),
            Err(_) => Err(Memory),
        }
    }

    /// Puts the item at a place that the list has, and drops the one that stood there.
    pub fn set(&mut self, at: usize, item: T)
    where
        T: Drop,
        requires { at < length self.old }
        ensures { self.new ≡ slice_set self.old at item }
    {
        self.items[at] = item;
    }

    /// Puts the item at a place that the list has, and gives the one that stood there.
    pub fn replace(&mut self, at: usize, item: T) -> T
        requires { at < length self.old }
        ensures old { slice_get self.old at ≡ Some result }
        ensures new { self.new ≡ slice_set self.old at item }
    {
        std::mem::replace(&mut self.items[at], item)
    }

    /// Takes the last item off.
    pub fn pop(&mut self) -> Option<T>
        ensures { MatchOption result ((self.old ≡ []) × (self.new ≡ [])) (λ item. self.old ≡ self.new ++ item ∷ []) }
    {
        self.items.pop()
    }

    pub fn clear(&mut self)
    where
        T: Drop,
        ensures { self.new ≡ [] }
    {
        self.items.clear();
    }

    /// Drops the items from a place on; a place behind the last drops none.
    pub fn truncate(&mut self, len: usize)
    where
        T: Drop,
        ensures { self.new ≡ take len self.old }
    {
        self.items.truncate(len);
    }
}

impl<T: Copy> List<T> {
    /// So many of one item.
    pub fn repeat(alloc: Global, item: T, count: usize) -> Result<List<T>, Memory>
        ensures { IfOk result (λ l. l ≡ replicate count item) }
    {
        let mut items = Vec::with_capacity(alloc, count)?;
        for _ in 0..count {
            items.push(item)?;
        }
        Ok(List { items })
    }

    pub fn from_slice(alloc: Global, items: &[T]) -> Result<List<T>, Memory>
        ensures { IfOk result (λ l. l ≡ items.now) }
    {
        let items = Vec::from_slice(alloc, items)?;
        Ok(List { items })
    }

    /// Puts the items in place of those from a place on.
    pub fn write(&mut self, at: usize, items: &[T])
        requires { at + length items.now ≤ length self.old }
        ensures { self.new ≡ take at self.old ++ items.now ++ drop (at + length items.now) self.old }
    {
        self.items[at..at + items.len()].copy_from_slice(items);
    }

    /// Puts the item in place of so many from a place on.
    pub fn fill(&mut self, at: usize, len: usize, item: T)
        requires { at + len ≤ length self.old }
        ensures { self.new ≡ take at self.old ++ replicate len item ++ drop (at + len) self.old }
    {
        for i in 0..len {
            self.items[at + i] = item;
        }
    }

    /// Appends all of them, or changes nothing.
    pub fn append(&mut self, items: &[T]) -> Result<(), Memory>
        ensures ok { OnOk result (self.new ≡ self.old ++ items.now) }
        ensures err { OnErr result (self.new ≡ self.old) }
    {
        match self.items.extend_from_slice(items) {
            Ok(()) => Ok(()),
            Err(_) => Err(Memory),
        }
    }
}

impl<T: Clone> List<T> {
    /// An equal list of clones.
    pub fn copy(&self) -> Result<List<T>, Memory>
        requires { (item clone : T) → T.is_clone item clone → clone ≡ item }
        ensures { IfOk result (λ l. l ≡ self.now) }
    {
        let mut items = Vec::with_capacity(self.alloc(), self.items.len())?;
        for item in self.items.as_slice() {
            items.push(item.clone()?)?;
        }
        Ok(List { items })
    }
}
