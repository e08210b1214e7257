//! What a worker hands over for a period.

use crate::failure::Failure;
use deferred_output::output::TurnOutput;
use mem_image::object::{Byte, Object};
use pv_base::list::List;
use pv_base::place::{Place, Site};
use reduction_merge::partial::Partial;
use seq_effects::state::Value;

/// A byte that turns wrote: the latest of them, and the value that it gave.
#[derive(Clone, Copy, Debug)]
pub struct ByteWrite {
    pub place: Place,
    pub turn: u64,
    pub byte: Byte,
}

/// A register of the loop's frame that turns set: the latest of them, and the value that it gave.
#[derive(Clone, Copy, Debug)]
pub struct RegWrite {
    pub register: u32,
    pub turn: u64,
    pub value: Value,
}

/// The operands that were recorded for a number in memory.
#[derive(Clone, Copy, Debug)]
pub struct ElementPartial {
    pub place: Place,
    pub partial: Partial,
}

/// The operands that were recorded for a reduced phi.
#[derive(Clone, Copy, Debug)]
pub struct PhiPartial {
    pub site: Site,
    pub partial: Partial,
}

/// A count of one turn.
#[derive(Clone, Copy, Debug, PartialEq, Eq)]
pub struct TurnCount {
    pub turn: u64,
    pub count: u64,
}

/// The objects that one turn made and that were alive at its end, by name. A name counts from the next name of the span's base.
#[derive(Drop)]
pub struct TurnObjects {
    pub turn: u64,
    pub objects: List<Object>,
}

/// What a worker's memory tells of a period.
#[derive(Drop)]
pub struct MemDelta {
    pub live_in: List<Place>,
    pub writes: List<ByteWrite>,
    pub partials: List<ElementPartial>,
    pub kept: List<TurnObjects>,
    pub peaks: List<TurnCount>,
}

/// What the turns of one worker in one period did, each list in rising order of its key. Each list per turn has one entry for each
/// of these turns.
#[derive(Drop)]
pub struct Delta {
    /// The private bytes that a turn read and had not written before.
    pub live_in: List<Place>,
    pub writes: List<ByteWrite>,
    pub registers: List<RegWrite>,
    pub partials: List<ElementPartial>,
    pub phis: List<PhiPartial>,
    pub output: List<TurnOutput>,
    /// How many objects each turn made.
    pub made: List<TurnCount>,
    pub steps: List<TurnCount>,
    pub kept: List<TurnObjects>,
    /// The most bytes of each turn's own objects that were live at once.
    pub peaks: List<TurnCount>,
}

/// What became of a worker's turns in a period.
#[derive(Drop)]
pub enum Body {
    Done(Delta),
    /// The first turn that failed.
    Failed(Failure),
}

/// A worker's part of a period.
#[derive(Drop)]
pub struct Piece {
    pub worker: u32,
    pub period: u32,
    pub body: Body,
}
