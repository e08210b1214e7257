//! Spans, and how they end.

use crate::failure::PeriodFailure;
use mem_image::image::Image;
use pv_base::list::List;
use seq_machine::state::State;

/// A run of turns of one planned loop that workers take on copies. Turn k belongs to worker k mod `workers` and to period k div
/// `period`, both counted from 0.
#[derive(Drop)]
pub struct Span {
    /// The state in which turn 0 begins: it stands behind the phis of the loop's header.
    pub base: State<Image>,
    /// The loop by its number in the profile.
    pub loop_number: u32,
    pub turns: u64,
    /// How many turns a period has; the last one may have fewer.
    pub period: u32,
    pub workers: u32,
    /// The whole run's bound on steps.
    pub budget: u64,
}

/// A period that was committed: its number of turns, and the length of the state's output after it.
#[derive(Clone, Copy, Debug, PartialEq, Eq)]
pub struct PeriodDone {
    pub turns: u64,
    pub output_to: u64,
}

/// How far a span was committed.
#[derive(Clone, Copy, Debug)]
pub enum Settled {
    AllCommitted,
    /// The first period that does not pass, and why.
    FailedAt { period: u32, failure: PeriodFailure },
}

/// What a span leaves: the state after its committed periods, these periods in order, and how far it came.
#[derive(Drop)]
pub struct SpanEnd {
    pub state: State<Image>,
    pub done: List<PeriodDone>,
    pub settled: Settled,
}
