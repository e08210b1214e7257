//! The state of the machine, and the answers of a step and of a run.
use int_num::int::Int;
use mem_image::fault::{CheckFault, Trap};
use mem_image::object::Byte;
use pv_base::bytes::Bytes;
use pv_base::list::List;
use pv_base::place::Site;
use seq_effects::state::Frame;

/// A state of the machine; the last frame is the top one.
#[derive(Drop)]
pub struct State<M> {
    pub frames: List<Frame>,
    pub memory: M,
    pub input_place: u64,
    pub output: Bytes,
    pub steps: u64,
}

/// How one step went.
#[derive(Clone, Copy, Debug)]
pub enum Step {
    Next,
    /// The run ended with this number.
    Ended(Int),
    /// The instruction did nothing; the step is counted.
    Trap(Trap, Site),
    /// A check of the memory failed; the step is not counted.
    Failed(CheckFault, Site),
}

/// How a run ended.
#[derive(Clone, Copy, Debug)]
pub enum End {
    Ended(Int),
    Trapped(Trap, Site),
    /// All steps were taken.
    Spent,
}

/// The bytes of a global at the end of a run.
#[derive(Drop)]
pub struct GlobalBytes {
    pub global: u32,
    pub bytes: List<Byte>,
}

/// What a run leaves; the globals are those that are no constants.
#[derive(Drop)]
pub struct Outcome {
    pub end: End,
    pub output: Bytes,
    pub globals: List<GlobalBytes>,
    pub steps: u64,
}

/// The start of a block, after its phis.
#[derive(Clone, Copy, Debug, PartialEq, Eq)]
pub struct Header {
    pub function: u32,
    pub block: u32,
}

/// Why a run to a header stopped; a header is named by its place in the list.
#[derive(Clone, Copy, Debug)]
pub enum Stop {
    AtHeader(u32),
    Ended(Int),
    Trapped(Trap, Site),
    Spent,
}
