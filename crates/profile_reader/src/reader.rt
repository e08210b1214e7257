//! A profile as far as its lines are read.
ghost use Rattle.std.specs.Prelude.{not, IsTrue, ◌&&◌, ◌||◌, ◌==◌};
ghost use Rattle.profile_lines.specs.Keys.{rank as rank_of};
ghost use Rattle.std.specs.Prelude.{◌≡◌, ◌++◌, ◌∷◌, [], ◌≤◌, ◌<◌, ℕ, IfOk, OnOk, Some, None, true};
ghost use Rattle.profile_reader.specs.Reading.{follows as follows_of, step, pass as pass_of, begin as begin_of, add as add_of, repeats};
ghost use Rattle.profile_reader.specs.Grammar.{saying};

use crate::put::{empty_loop, put};
use crate::repeats::note;
use profile_lines::keys::rank;
use profile_lines::lines::{Line, is_passed_over, line_of, version_of};
use profile_lines::profile::{ProfileCause, ProfileLoop};
use pv_base::list::List;
use pv_base::want::Memory;
use std::alloc::Global;
use std::collections::BTreeSet;

const MOST_BYTES: usize = 4096;

const LOOP: u64 = 0;

const PERIOD: u64 = 1;

const BLOCK: u64 = 2;

const END: u64 = 8;

/// The loops whose ends are read, the loop that is open, and what the lines said.
#[derive(Drop)]
pub struct Reader {
    /// The version that the first line names, once it is read.
    pub version: Option<u32>,
    pub loops: List<ProfileLoop>,
    pub open: Option<ProfileLoop>,
    /// The place of the last line's word in the order of a loop's lines; that of `end` where there is none.
    pub last: u64,
    /// What the lines of the last loop say.
    pub said: BTreeSet<Vec<u64>>,
    /// The loops that were named.
    pub named: BTreeSet<Vec<u64>>,
}

/// Whether a word may stand after another, each by its place in the order of a loop's lines.
fn follows(last: u64, next: u64) -> bool
    ensures { result ≡ follows_of last next }
{
    if last == END {
        next == LOOP
    } else if last == LOOP {
        next == PERIOD || next == BLOCK
    } else if last == PERIOD {
        next == BLOCK
    } else {
        last <= next
    }
}

/// Whether a word may stand after another, and is that of an end where no line comes after it.
fn fits(before: u64, next: u64, last: bool) -> bool
    ensures { result ≡ (follows_of before next && (not last || next == 8)) }
{
    follows(before, next) && (!last || next == END)
}

impl Reader {
    ghost use Rattle.profile_reader.specs.Standing.{Holds, IsOpen, Stands, Takes, lines_said, said_by};
    ghost use Rattle.profile_reader.specs.Reading.{this_loop, named_loops};

    pub fn new(alloc: Global) -> Reader
        ensures stands { Stands result }
        ensures none { said_by result ≡ None }
        ensures closed { result.open ≡ None }
    {
        Reader {
            version: None,
            loops: List::new(alloc),
            open: None,
            last: END,
            said: BTreeSet::new(alloc),
            named: BTreeSet::new(alloc),
        }
    }

    /// Reads one line; `last` tells that no line comes after it.
    pub fn take(&mut self, text: &[u8], last: bool) -> Result<Result<(), ProfileCause>, Memory>
        requires { Stands self.old }
        ensures { IfOk result (λ taken. Takes last (step (said_by self.old) last text.now) self.new taken) }
    {
        if is_passed_over(text) {
            return Ok(self.pass(last));
        }
        if text.len() > MOST_BYTES {
            return Ok(Err(ProfileCause::TooLong));
        }
        let Some(version) = self.version else {
            return Ok(self.begin(text, last));
        };
        match line_of(self.loops.alloc(), version, text)? {
            Ok(line) => self.add(line, last),
            Err(cause) => Ok(Err(cause)),
        }
    }

    /// A line that is passed over, which must not be the last one of an open loop.
    fn pass(&self, last: bool) -> Result<(), ProfileCause>
        requires { Stands self.now }
        ensures { Takes last (pass_of (said_by self.now) last) self.now result }
    {
        if last && self.last != END {
            Err(ProfileCause::Order)
        } else {
            Ok(())
        }
    }

    fn begin(&mut self, text: &[u8], last: bool) -> Result<(), ProfileCause>
        requires stands { Stands self.old }
        requires none { self.old.version ≡ None }
        ensures { Takes last (begin_of text.now) self.new result }
    {
        let Some(version) = version_of(text) else {
            return Err(ProfileCause::Head);
        };
        self.version = Some(version);
        Ok(())
    }

    fn add(&mut self, line: Line, last: bool) -> Result<Result<(), ProfileCause>, Memory>
        requires stands { Stands self.old }
        ensures { (version : ℕ) → self.old.version ≡ Some version → IfOk result (λ taken. Takes last (add_of (saying version (lines_said self.old)) last line) self.new taken) }
    {
        let next = rank(&line);
        let fitting = fits(self.last, next, last);
        if !fitting {
            return Ok(Err(ProfileCause::Order));
        }
        let new = self.is_new(&line, next)?;
        if !new {
            return Ok(Err(ProfileCause::Repeat));
        }
        self.keep(line, next)?;
        Ok(Ok(()))
    }

    /// Notes what the line says; false where it says what was said before.
    fn is_new(&mut self, line: &Line, next: u64) -> Result<bool, Memory>
        requires stands { Stands self.old }
        requires rank { next ≡ rank_of line.now }
        ensures new { IfOk result (λ new. new ≡ not (repeats (lines_said self.old) line.now)) }
        ensures said { OnOk result (Holds self.new.said (this_loop (lines_said self.old ++ line.now ∷ []))) }
        ensures named { OnOk result (Holds self.new.named (named_loops (lines_said self.old ++ line.now ∷ []))) }
        ensures loops { self.new.loops ≡ self.old.loops }
        ensures opened { self.new.open ≡ self.old.open }
        ensures last { self.new.last ≡ self.old.last }
        ensures headed { self.new.version ≡ self.old.version }
    {
        let alloc = self.loops.alloc();
        if next == LOOP {
            self.said = BTreeSet::new(alloc);
            note(alloc, &mut self.named, line)
        } else {
            note(alloc, &mut self.said, line)
        }
    }

    fn keep(&mut self, line: Line, next: u64) -> Result<(), Memory>
        requires opened { IsOpen self.old.last self.old.open }
        requires rank { next ≡ rank_of line }
        requires follows { IsTrue (follows_of self.old.last next) }
        ensures lines { OnOk result (lines_said self.new ≡ lines_said self.old ++ line ∷ []) }
        ensures opened { OnOk result (IsOpen self.new.last self.new.open) }
        ensures last { self.new.last ≡ next }
        ensures said { self.new.said ≡ self.old.said }
        ensures named { self.new.named ≡ self.old.named }
        ensures headed { self.new.version ≡ self.old.version }
    {
        self.last = next;
        if let Line::Loop(function, header) = line {
            self.open = Some(empty_loop(self.loops.alloc(), function, header));
            return Ok(());
        }
        let Some(mut current) = self.open.take() else {
            return Ok(());
        };
        if next == END {
            self.loops.push(current)?;
            return Ok(());
        }
        put(&mut current, line)?;
        self.open = Some(current);
        Ok(())
    }
}
