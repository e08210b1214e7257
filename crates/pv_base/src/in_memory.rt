//! Files and sinks in memory, which fail at the calls that their maker lists.
ghost use Rattle.std.specs.Prelude.{◌≡◌, ◌≤◌, ◌<◌, ◌+◌, ◌⊎◌, ℕ, [], length, min, Some, IfOk, Err, is_ok, vec_len, vec_capacity, option_map};
ghost use Rattle.pv_base.specs.Outside.{Text, ReadEnds, PutEnds, last_count};
ghost use Rattle.pv_base.specs.InMemory.{content_of, is_listed, read_gives, read_shown, put_gives, told_room, faultless_has_room};
ghost use Rattle.pv_base.specs.declared.outside.FileEnd.TheVariants.{Memory};

use crate::bytes::Bytes;
use crate::list::List;
use crate::outside::{FileEnd, Files, Sink, SinkFault, raised};
use crate::want;
use std::alloc::Global;

fn is_listed(failing: &List<u32>, call: u64) -> bool
    ensures { result ≡ is_listed failing.now call }
{
    failing.as_slice().iter().any(|n| u64::from(*n) == call)
}

fn content_of<'a>(entries: &'a [(Bytes, Bytes)], name: &str) -> Option<&'a [u8]>
    ensures { option_map (λ s. s.now) result ≡ content_of entries.now name.now }
{
    entries
        .iter()
        .find(|e| e.0.as_slice() == name.as_bytes())
        .map(|e| e.1.as_slice())
}

/// Files in memory: pairs of name and content, of which the first of a name counts, and the numbers of the reads that
/// fail, counted from 1.
#[derive(Drop)]
pub struct MemFiles {
    entries: List<(Bytes, Bytes)>,
    failing: List<u32>,
    calls: u64,
    faults: u64,
}

impl MemFiles {
    ghost use Rattle.pv_base.specs.Views.{files_entries, files_failing, files_calls, files_faults};

    pub fn new(entries: List<(Bytes, Bytes)>, failing: List<u32>) -> MemFiles
        ensures entries { files_entries result ≡ entries }
        ensures failing { files_failing result ≡ failing }
        ensures calls { files_calls result ≡ 0 }
        ensures faults { files_faults result ≡ 0 }
    {
        MemFiles {
            entries,
            failing,
            calls: 0,
            faults: 0,
        }
    }
}

impl Files for MemFiles {
    ghost use Rattle.pv_base.specs.Views.{files_entries, files_failing, files_calls, files_faults};

    ghost content = { λ f. content_of f.entries };

    ghost faults = { λ f. f.faults };

    fn read(&mut self, name: &str, limit: usize, to: &mut Bytes) -> Result<(), FileEnd>
        ensures content { files_entries self.new ≡ files_entries self.old }
        ensures later { files_faults self.old ≤ files_faults self.new }
        ensures ends { ReadEnds (content_of (files_entries self.old) name.now) limit (files_faults self.old) (files_faults self.new) to.new result }
        ensures failing { files_failing self.new ≡ files_failing self.old }
        ensures counted { files_calls self.new ≡ min (files_calls self.old + 1) last_count }
        ensures exact { (result ≡ Err Memory) ⊎ (read_shown to.new result ≡ read_gives (is_listed (files_failing self.old) (files_calls self.new)) (content_of (files_entries self.old) name.now) limit) }
    {
        to.clear();
        self.calls = self.calls.saturating_add(1);
        if is_listed(&self.failing, self.calls) {
            self.faults = raised(self.faults);
            return Err(FileEnd::Failed);
        }
        match content_of(self.entries.as_slice(), name) {
            None => {
                self.faults = raised(self.faults);
                Err(FileEnd::Failed)
            }
            Some(content) => {
                if content.len() > limit {
                    return Err(FileEnd::TooLong);
                }
                match to.append(content) {
                    Ok(()) => Ok(()),
                    Err(_) => Err(FileEnd::Memory),
                }
            }
        }
    }
}

/// A sink in memory, with room in bytes that is taken when it is made, and the numbers of the puts that fail, counted
/// from 1.
#[derive(Drop)]
pub struct MemSink {
    bytes: Vec<u8>,
    room: usize,
    failing: List<u32>,
    calls: u64,
    faults: u64,
    ghost within: { vec_len bytes ≤ room },
    ghost reserved: { room ≤ vec_capacity bytes },
    ghost faultless: { failing ≡ [] → length bytes.items < room → faults ≡ 0 },
}

impl MemSink {
    ghost use Rattle.pv_base.specs.Views.{sink_bytes, sink_room, sink_failing, sink_calls, sink_faults};

    pub fn with_room(
        alloc: Global,
        room: usize,
        failing: List<u32>,
    ) -> Result<MemSink, want::Memory>
        ensures bytes { IfOk result (λ s. sink_bytes s ≡ []) }
        ensures room { IfOk result (λ s. sink_room s ≡ room) }
        ensures failing { IfOk result (λ s. sink_failing s ≡ failing) }
        ensures calls { IfOk result (λ s. sink_calls s ≡ 0) }
        ensures faults { IfOk result (λ s. sink_faults s ≡ 0) }
    {
        let bytes = Vec::with_capacity(alloc, room)?;
        Ok(MemSink {
            bytes,
            room,
            failing,
            calls: 0,
            faults: 0,
        })
    }

    /// The bytes that it holds.
    pub fn bytes(&self) -> &[u8]
        ensures { result.now ≡ sink_bytes self.now }
    {
        self.bytes.as_slice()
    }
}

impl Sink for MemSink {
    ghost use Rattle.pv_base.specs.Views.{sink_bytes, sink_room, sink_failing, sink_calls, sink_faults};

    ghost held = { λ s. Some s.bytes.items };

    ghost faults = { λ s. s.faults };

    ghost room = { λ s. told_room s.failing s.room };

    ghost has_room = { λ s. faultless_has_room s.failing s.room s.bytes.items s.faults s.faultless };

    fn put(&mut self, bytes: &[u8]) -> Result<(), SinkFault>
        ensures room { told_room (sink_failing self.new) (sink_room self.new) ≡ told_room (sink_failing self.old) (sink_room self.old) }
        ensures later { sink_faults self.old ≤ sink_faults self.new }
        ensures ends { PutEnds (Some (sink_bytes self.old)) (Some (sink_bytes self.new)) (sink_faults self.old) (sink_faults self.new) bytes.now result }
        ensures settings { (sink_room self.new ≡ sink_room self.old) × (sink_failing self.new ≡ sink_failing self.old) }
        ensures counted { sink_calls self.new ≡ min (sink_calls self.old + 1) last_count }
        ensures exact { (is_ok result, sink_bytes self.new) ≡ put_gives (is_listed (sink_failing self.old) (sink_calls self.new)) (sink_room self.old) (sink_bytes self.old) bytes.now }
    {
        self.calls = self.calls.saturating_add(1);
        if is_listed(&self.failing, self.calls) {
            self.faults = raised(self.faults);
            return Err(SinkFault);
        }
        let free = self.room - self.bytes.len();
        if bytes.len() <= free {
            match self.bytes.extend_from_slice(bytes) {
                Ok(()) => Ok(()),
                Err(_) => unreachable!(),
            }
        } else {
            match self.bytes.extend_from_slice(&bytes[..free]) {
                Ok(()) => {
                    self.faults = raised(self.faults);
                    Err(SinkFault)
                }
                Err(_) => unreachable!(),
            }
        }
    }
}
