//! Files and sinks over the host's.
ghost use Rattle.std.specs.Prelude.{◌≡◌, ◌≤◌, [], None, length, OnOk};
ghost use Rattle.std.specs.Io.KnownBytes.{Appends};
ghost use Rattle.pv_base.specs.Outside.{PutEnds};

use crate::bytes::Bytes;
use crate::outside::{FileEnd, Files, Sink, SinkFault, raised};
use std::fs;
use std::io::{Read, Write};

const PIECE: usize = 4096;

/// The host's files.
#[derive(Drop)]
pub struct HostFiles<'r, H> {
    rt: &'r H,
    faults: u64,
}

impl<'r, H> HostFiles<'r, H> {
    pub fn new(rt: &'r H) -> HostFiles<'r, H> {
        HostFiles { rt, faults: 0 }
    }
}

/// Reads all that there is, and at most one byte more than the limit.
fn read_within<R: Read>(from: &mut R, limit: usize, to: &mut Bytes) -> Result<(), FileEnd>
    requires { to.old ≡ [] }
    ensures { OnOk result (length to.new ≤ limit) }
{
    let mut piece = [0u8; PIECE];
    let mut taken = 0usize;
    for _ in 0..u64::MAX {
        let left = limit - taken;
        let want = if left < PIECE { left + 1 } else { PIECE };
        match from.read(&mut piece[..want]) {
            Ok(0) => return Ok(()),
            Ok(n) => {
                if n > left {
                    return Err(FileEnd::TooLong);
                }
                if to.append(&piece[..n]).is_err() {
                    return Err(FileEnd::Memory);
                }
                taken += n;
            }
            Err(e) => {
                if e.kind() != std::io::ErrorKind::Interrupted {
                    return Err(FileEnd::Failed);
                }
            }
        }
    }
    Err(FileEnd::Failed)
}

impl<'r, H: std::rt::Files> Files for HostFiles<'r, H> {
    ghost content = { λ _ _. None };

    ghost faults = { λ f. f.faults };

    fn read(&mut self, name: &str, limit: usize, to: &mut Bytes) -> Result<(), FileEnd> {
        to.clear();
        let end = match fs::open(self.rt, name) {
            Ok(mut file) => read_within(&mut file, limit, to),
            Err(_) => Err(FileEnd::Failed),
        };
        match end {
            Ok(()) => Ok(()),
            Err(FileEnd::Failed) => {
                to.clear();
                self.faults = raised(self.faults);
                Err(FileEnd::Failed)
            }
            Err(e) => {
                to.clear();
                Err(e)
            }
        }
    }
}

/// A sink over a writer.
#[derive(Drop)]
pub struct HostSink<W> {
    writer: W,
    faults: u64,
}

impl<W> HostSink<W> {
    pub fn new(writer: W) -> HostSink<W> {
        HostSink { writer, faults: 0 }
    }
}

impl<W: Write> Sink for HostSink<W> {
    ghost use Rattle.pv_base.specs.Views.{writer_of, writer_faults};

    ghost held = { λ _. None };

    ghost faults = { λ s. s.faults };

    ghost room = { λ _. None };

    ghost has_room = { λ _. tt };

    fn put(&mut self, bytes: &[u8]) -> Result<(), SinkFault>
        ensures later { writer_faults self.old ≤ writer_faults self.new }
        ensures ends { PutEnds None None (writer_faults self.old) (writer_faults self.new) bytes.now result }
        ensures written { OnOk result (Appends (W.contents (writer_of self.old)) (W.contents (writer_of self.new)) bytes.now) }
    {
        match self.writer.write_all(bytes) {
            Ok(()) => Ok(()),
            Err(_) => {
                self.faults = raised(self.faults);
                Err(SinkFault)
            }
        }
    }
}
