//! The small parts of a plan of speculation: what it says of sites, slots and bytes, and the lines that it puts beside a
//! module. Easy to get wrong: a tag is said of a site, an expected class of one slot of an instruction.
use int_num::ops::RedKind;
use pv_base::bytes::Bytes;
use pv_base::place::{AllocSite, Heap, Site};

/// The class of a site's objects, with the reduction's kind exactly where the class is `Reduction`.
#[derive(Clone, Copy, Debug, PartialEq, Eq)]
pub struct Tag {
    pub heap: Heap,
    pub kind: Option<RedKind>,
}

/// The class of all objects that a slot of an instruction may touch.
#[derive(Clone, Copy, Debug, PartialEq, Eq)]
pub struct Expect {
    pub at: Site,
    pub slot: u32,
    pub heap: Heap,
}

/// Bytes of a global that are guessed to stand there at the start of every turn, from an offset in bytes on.
#[derive(Drop)]
pub struct MemGuess {
    pub global: u32,
    pub offset: u64,
    pub bytes: Bytes,
}

/// Three adjacent instructions that join an operand into an element of memory: it is loaded, joined and stored.
#[derive(Clone, Copy, Debug, PartialEq, Eq)]
pub struct Triple {
    pub load: Site,
    pub op: Site,
    pub store: Site,
    pub kind: RedKind,
}

/// A check that stands beside a module, by the number of its loop in the profile.
#[derive(Drop)]
pub enum CheckLine {
    /// The class of the objects of the site before which it stands.
    Tag(Heap),
    /// A turn of the loop begins.
    Turn { number: u32 },
    /// Bytes are set at the start of a turn.
    Set { number: u32, guess: MemGuess },
    /// A slot of the instruction is to touch objects of this class.
    Expect { number: u32, slot: u32, heap: Heap },
    /// A turn of the loop ends here, and its guesses are tested.
    Test { number: u32 },
}

/// A check line, and the global or the instruction before which it stands.
#[derive(Drop)]
pub struct CheckAt {
    pub at: AllocSite,
    pub line: CheckLine,
}
