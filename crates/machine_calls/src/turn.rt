//! Turns of a loop.
ghost use Rattle.std.specs.Prelude.{◌≡◌, ◌-◌, ◌==◌, ◌&&◌, [], length, nat_eq, IfOk};
ghost use Rattle.std.specs.List.{list_any};
ghost use Rattle.ir_code.specs.Coding.{code_of};
ghost use Rattle.machine_calls.specs.Turns.{stands_at, end_of, AreMarked, Marks};
ghost use Rattle.seq_machine.specs.Acts.{top};
ghost use Rattle.seq_machine.specs.Frames.{CodeOk, FramesOf};
ghost use Rattle.seq_machine.specs.Step.{StateOf};
ghost use Rattle.seq_run.specs.Headers.{is_header};
ghost use Rattle.turn_laws.specs.Turns.{frame_stands, standing, turn_from};

use crate::place::block_of_top;
use checked_code::program::Program;
use int_num::int::Int;
use ir_code::code::{BlockCode, Code};
use mem_image::fault::Trap;
use mem_image::image::Image;
use pv_base::list::List;
use pv_base::place::Site;
use pv_base::want::Memory;
use seq_effects::state::Frame;
use seq_machine::machine::step;
use seq_machine::state::{Header, State, Step};
use std::alloc::Global;
use std::marker::Model;

/// A loop of a function: its header and its blocks, with a mark for each block of the function, so that one look tells whether
/// it is in the loop. Contracts see the header and the blocks.
#[derive(Drop)]
pub struct LoopBlocks {
    header: Header,
    blocks: List<u32>,
    marks: List<bool>,
}

impl Model for LoopBlocks {
    ghost use Rattle.machine_calls.specs.Turns.{AreMarked};
    ghost use Rattle.turn_laws.specs.Turns.{Loop};

    ghost Value = { Loop };

    ghost view = { λ l. record { header = l.header; blocks = l.blocks } };

    ghost invariant = { λ l. AreMarked l.blocks l.marks };
}

/// Where a state stands, seen from the frame that runs the loop.
enum Standing {
    AtHeader,
    Within,
    Outside,
}

/// How a turn of a loop ended.
#[derive(Clone, Copy, Debug)]
pub enum TurnEnd {
    /// It came back to the header, in the same frame.
    Arrived,
    /// Its frame left the blocks of the loop, or returned.
    Left,
    /// The run ended with this number.
    Ended(Int),
    Trapped(Trap, Site),
    /// All steps were taken.
    Spent,
}

/// Marks a block, where there is room for it.
fn mark(marks: &mut List<bool>, block: u32)
    ensures { Marks marks.old marks.new block }
{
    if (block as usize) < marks.len() {
        marks.set(block as usize, true);
    }
}

/// Marks all of them.
fn mark_all(marks: &mut List<bool>, blocks: &[u32])
    requires { AreMarked [] marks.old }
    ensures { AreMarked blocks.now marks.new }
{
    for number in 0..blocks.len() {
        mark(marks, blocks[number]);
    }
}

/// Room for a mark of each block of a function.
fn no_marks(alloc: Global, code: &Code, function: u32) -> Result<List<bool>, Memory>
    ensures { IfOk result (AreMarked []) }
{
    match code.functions.get(function as usize) {
        Some(function) => List::repeat(alloc, false, function.blocks.len()),
        None => Ok(List::new(alloc)),
    }
}

/// Whether the block is among these.
fn is_among(blocks: &[u32], block: u32) -> bool
    ensures { result ≡ list_any (nat_eq block) blocks.now }
{
    blocks.iter().any(|other| block == *other)
}

impl LoopBlocks {
    /// The loop with this header and these blocks, with room for the blocks of its function, in time linear in both.
    pub fn new(
        alloc: Global,
        code: &Code,
        header: Header,
        blocks: &List<u32>,
    ) -> Result<LoopBlocks, Memory>
        ensures { IfOk result (λ l. l ≡ record { header = header; blocks = blocks.now }) }
    {
        let mut marks = no_marks(alloc, code, header.function)?;
        mark_all(&mut marks, blocks.as_slice());
        let blocks = List::from_slice(alloc, blocks.as_slice())?;
        Ok(LoopBlocks {
            header,
            blocks,
            marks,
        })
    }

    pub fn header(&self) -> Header
        ensures { result ≡ self.now.header }
    {
        self.header
    }

    /// Whether the block is in the loop. Only a block that the function has not is searched for.
    pub fn contains(&self, block: u32) -> bool
        ensures { result ≡ list_any (nat_eq block) self.now.blocks }
    {
        match self.marks.get(block as usize) {
            Some(mark) => *mark,
            None => is_among(self.blocks.as_slice(), block),
        }
    }
}

/// Whether the frame stands at the header, right after the phis of its block, which is this one.
fn is_after_phis(block: &BlockCode, header: Header, frame: &Frame) -> bool
    ensures { result ≡ (is_header frame.now header && frame.now.place == block.now.phis) }
{
    header.function == frame.function && header.block == frame.block && frame.place == block.phis
}

/// Where the top frame, which runs the loop, stands.
fn top_stands(code: &Code, of: &LoopBlocks, frames: &List<Frame>) -> Standing
    requires { FramesOf code.now frames.now }
    ensures { frame_stands code.now of.now (top frames.now) ≡ stands_at result }
{
    let frame = frames.at(frames.len() - 1);
    let block = block_of_top(code, frames);
    let header = of.header();
    if is_after_phis(block, header, frame) {
        Standing::AtHeader
    } else if header.function == frame.function && of.contains(frame.block) {
        Standing::Within
    } else {
        Standing::Outside
    }
}

/// Where these frames stand, where so many stand up to the one that runs the loop.
fn frames_stand(code: &Code, of: &LoopBlocks, depth: usize, frames: &List<Frame>) -> Standing
    requires { FramesOf code.now frames.now }
    ensures { standing code.now of.now depth frames.now ≡ stands_at result }
{
    if frames.len() == depth {
        top_stands(code, of, frames)
    } else if depth < frames.len() {
        Standing::Within
    } else {
        Standing::Outside
    }
}

/// Takes steps until one ends or traps, or leads to the header in the frame that runs the loop or out of the loop, or the state
/// has taken `n`.
fn turn_on(
    code: &Code,
    state: &mut State<Image>,
    input: &[u8],
    n: u64,
    of: &LoopBlocks,
    depth: usize,
) -> Result<TurnEnd, Memory>
    requires code { CodeOk code.now }
    requires state { StateOf code.now state.old }
    ensures kept { StateOf code.now state.new }
    ensures turn { IfOk result (λ end. turn_from code.now input.now of.now depth state.old (n - state.old.steps) ≡ (end_of end, state.new)) }
{
    while state.steps < n {
        match step(code, state, input)? {
            Step::Next => {}
            Step::Ended(value) => return Ok(TurnEnd::Ended(value)),
            Step::Trap(trap, site) => return Ok(TurnEnd::Trapped(trap, site)),
            Step::Failed(_, _) => unreachable!(),
        }
        match frames_stand(code, of, depth, &state.frames) {
            Standing::AtHeader => return Ok(TurnEnd::Arrived),
            Standing::Within => {}
            Standing::Outside => return Ok(TurnEnd::Left),
        }
    }
    Ok(TurnEnd::Spent)
}

/// Goes on with a run from a state of the program by one turn of a loop, which its top frame runs: by at least one step where the
/// state has taken fewer than `n`, to the first state that stands at the header again in the same frame or is no longer in the
/// loop, or to where the run ended or trapped before, or the state has taken `n` steps.
pub fn run_turn(
    program: &Program,
    state: &mut State<Image>,
    input: &[u8],
    n: u64,
    of: &LoopBlocks,
) -> Result<TurnEnd, Memory>
    requires state { StateOf (code_of program.now) state.old }
    ensures kept { StateOf (code_of program.now) state.new }
    ensures turn { IfOk result (λ end. turn_from (code_of program.now) input.now of.now (length state.old.frames) state.old (n - state.old.steps) ≡ (end_of end, state.new)) }
{
    let depth = state.frames.len();
    turn_on(program.code(), state, input, n, of, depth)
}
