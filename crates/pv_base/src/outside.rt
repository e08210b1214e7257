//! The outside: files that are read by name, and sinks that take bytes, each with a count of its faults.
ghost use Rattle.std.specs.Prelude.{◌≡◌, ◌≤◌, ◌<◌, ◌+◌, ℕ, Option, length, min};
ghost use Rattle.pv_base.specs.Outside.{Text, ReadEnds, PutEnds, HasRoom, Rose, last_count};

use crate::bytes::Bytes;

/// Why a read gave nothing: a fault of the files, more bytes than the limit, or want of memory.
#[derive(Clone, Copy, Debug, PartialEq, Eq)]
pub enum FileEnd {
    Failed,
    TooLong,
    Memory,
}

/// A sink did not take all of a piece.
#[derive(Clone, Copy, Debug, PartialEq, Eq)]
pub struct SinkFault;

/// Files that are read by name.
pub trait Files {
    /// The content of a name, where the files tell it.
    ghost content: { Self → Text → Option Text };

    /// How often a read has failed. It stands still at 2^64 - 1.
    ghost faults: { Self → ℕ };

    /// Puts the whole content of a name into `to` in place of what stood there, if it has at most `limit` bytes. At most
    /// one byte more than the limit is taken from the file. A name that does not exist is a fault.
    fn read(&mut self, name: &str, limit: usize, to: &mut Bytes) -> Result<(), FileEnd>
        ensures content { content self.new ≡ content self.old }
        ensures later { faults self.old ≤ faults self.new }
        ensures ends { ReadEnds (content self.old name.now) limit (faults self.old) (faults self.new) to.new result };
}

/// What takes bytes.
pub trait Sink {
    /// The bytes that it holds, where it tells them.
    ghost held: { Self → Option Text };

    /// How often a put has failed. It stands still at 2^64 - 1.
    ghost faults: { Self → ℕ };

    /// How many bytes it has room for, where it tells that.
    ghost room: { Self → Option ℕ };

    /// Appends all of the bytes, or a front of them and then it is a fault. There is something to append.
    fn put(&mut self, bytes: &[u8]) -> Result<(), SinkFault>
        requires { 0 < length bytes.now }
        ensures room { room self.new ≡ room self.old }
        ensures later { faults self.old ≤ faults self.new }
        ensures ends { PutEnds (held self.old) (held self.new) (faults self.old) (faults self.new) bytes.now result };

    /// A sink that tells a room has no fault while it holds fewer bytes than that.
    ghost has_room: { (s : Self) → HasRoom (room s) (held s) (faults s) };
}

/// One fault more, up to the last value of a count.
pub fn raised(count: u64) -> u64
    ensures value { result ≡ min (count + 1) last_count }
    ensures rose { Rose count result }
    ensures later { count ≤ result }
{
    count.saturating_add(1)
}
