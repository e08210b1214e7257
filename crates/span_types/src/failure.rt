//! Failures of turns and of periods.

use mem_image::fault::{CheckKind, Kept};
use pv_base::place::{AllocSite, Place, Site};

/// What a failed check points at: an instruction, what made an object, or a guessed global by its number.
#[derive(Clone, Copy, Debug, PartialEq, Eq)]
pub enum FailSite {
    At(Site),
    Made(AllocSite),
    Guess(u32),
}

/// The first check that a turn failed. The turn counts from the start of the span.
#[derive(Clone, Copy, Debug, PartialEq, Eq)]
pub struct Failure {
    pub turn: u64,
    pub kind: CheckKind,
    pub at: FailSite,
    pub kept: Kept,
}

/// What is reduced: a number in memory by its first byte, or a phi of the header.
#[derive(Clone, Copy, Debug, PartialEq, Eq)]
pub enum Element {
    Memory(Place),
    Phi(Site),
}

/// A bound that the turns of a period pass together, though no turn passes it alone.
#[derive(Clone, Copy, Debug, PartialEq, Eq)]
pub enum LimitKind {
    Steps,
    Output,
    Names,
    Memory,
}

/// Why a period is not committed.
#[derive(Clone, Copy, Debug, PartialEq, Eq)]
pub enum PeriodFailure {
    /// A turn of it failed.
    Piece(Failure),
    /// A turn of it read this byte as it was before the period, and a turn of this or of an earlier period wrote it.
    Conflict(Place),
    /// The operands of this element may leave the range that its operation promises.
    Range(Element),
    /// With this turn the period passes a limit.
    Limit { turn: u64, limit: LimitKind },
}
