//! The plan of a profile: for each loop what its turns may touch, or why it is left out. Everything is by number:
//! functions, globals and blocks in text order, instructions by their sites, registers by their place in a frame.
use int_num::int::Int;
use int_num::ops::{Pred, RedKind};
use ir_tree::plans::{Expect, MemGuess, Tag, Triple};
use pv_base::list::List;
use pv_base::place::{AllocSite, Site};

/// What a header's phi holds in turn `k` of a span, where it held `v` at the span's start.
#[derive(Clone, Copy, Debug, PartialEq, Eq)]
pub enum PhiGuess {
    /// `v + k * S`, modulo 2 to its width.
    Step(i64),
    /// `v`.
    Same,
    /// No guess: it is a sum, to which this instruction adds once a turn.
    Reduce { op: Site, kind: RedKind },
}

/// A phi of a loop's header with its guess.
#[derive(Clone, Copy, Debug, PartialEq, Eq)]
pub struct PhiPlan {
    pub phi: Site,
    pub guess: PhiGuess,
}

/// What a counted test compares its counter with: a constant, or a register of the loop's frame that no instruction of the
/// loop defines.
#[derive(Clone, Copy, Debug)]
pub enum Bound {
    Const(Int),
    Register(u32),
}

/// The test that decides whether a turn leads into the next: the block that it ends, the phi that counts, whether the phi itself
/// or its value for the next turn is tested, the step, the predicate, on which side of it the counter stands, and
/// on which answer it leads into the loop.
#[derive(Clone, Copy, Debug)]
pub struct CountedTest {
    pub block: u32,
    pub phi: Site,
    pub latch_value: bool,
    pub step: i64,
    pub pred: Pred,
    pub tested_left: bool,
    pub into_on: bool,
    pub bound: Bound,
}

/// A loop: its function, its header, the block with the only edge of the loop to the header, all blocks in the order of the
/// profile's lines, the header's phis in their order, and its counted test.
#[derive(Drop)]
pub struct Region {
    pub function: u32,
    pub header: u32,
    pub latch: u32,
    pub blocks: List<u32>,
    pub phis: List<PhiPlan>,
    pub test: CountedTest,
}

/// Why a loop is left out.
#[derive(Clone, Copy, Debug, PartialEq, Eq)]
pub enum Reason {
    /// A function, a block, a phi, a site, a slot or an object of its lines is not there.
    Unknown,
    /// Its header is a function's first block or is not listed, or another block of it is entered from outside.
    Entry,
    /// Its blocks have no edge to the header, or several.
    Latch,
    /// The header's phis and the lines of phis do not match, or a line does not fit its phi.
    Phi,
    /// Neither its header nor its latch ends in a counted test.
    Test,
    /// Bytes of this site's objects flow from turn to turn, and no guess covers them.
    Unrestricted(AllocSite),
    /// This slot touches objects of two classes.
    Mixed { at: Site, slot: u32 },
    /// An earlier loop tags this site otherwise.
    Incompatible(AllocSite),
    /// A guess is of no private global, leaves its global, or overlaps another.
    Guess,
}

/// A loop that is planned, by its number in the profile: its period length where the profile gives one, its tags by
/// site, expected classes by site and slot, guesses by global and offset, and triples by the site of their load.
#[derive(Drop)]
pub struct LoopPlan {
    pub number: u32,
    pub period: Option<u32>,
    pub region: Region,
    pub tags: List<(AllocSite, Tag)>,
    pub expected: List<Expect>,
    pub guesses: List<MemGuess>,
    pub scratch: List<Triple>,
}

/// A loop that is left out, by its number in the profile.
#[derive(Clone, Copy, Debug, PartialEq, Eq)]
pub struct LeftOut {
    pub number: u32,
    pub reason: Reason,
}

/// The plan of a profile: each of its loops is in exactly one of these lists, which are in the profile's order.
#[derive(Drop)]
pub struct Plan {
    pub loops: List<LoopPlan>,
    pub left_out: List<LeftOut>,
}
