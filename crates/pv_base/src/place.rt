//! Places in a module and in memory.

/// An instruction: the function by its number in the module, and the instruction by its number in the function, both
/// counted from 0 in text order, phis and terminators included.
#[derive(Clone, Copy, Debug, PartialEq, Eq, PartialOrd, Ord, Hash)]
pub struct Site {
    pub function: u32,
    pub place: u32,
}

/// What makes an object: a global by its number in the module, or an instruction. Globals come first in the order.
#[derive(Clone, Copy, Debug, PartialEq, Eq, PartialOrd, Ord, Hash)]
pub enum AllocSite {
    Global(u32),
    At(Site),
}

/// The class that a plan gives to an object; `Untagged` where it gives none.
#[derive(Clone, Copy, Debug, PartialEq, Eq)]
pub enum Heap {
    Private,
    ShortLived,
    Reduction,
    ReadOnly,
    Unrestricted,
    Untagged,
}

/// A byte of memory: the name of its object, and the offset in bytes from the object's start. Ordered by name and then
/// by offset.
#[derive(Clone, Copy, Debug, PartialEq, Eq, PartialOrd, Ord, Hash)]
pub struct Place {
    pub name: u32,
    pub offset: u64,
}
