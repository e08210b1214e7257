//! What a call answers: a status, what is put out and what is reported.
ghost use Rattle.std.specs.Prelude.{◌≡◌};
ghost use Rattle.plain_commands.specs.Answers.{gives, refuses};

use pv_base::bytes::Bytes;
use std::alloc::Global;

/// The status of the process, the bytes for the output and those for the report.
#[derive(Drop)]
pub struct Answer {
    pub status: u8,
    pub out: Bytes,
    pub report: Bytes,
}

impl Answer {
    pub fn new(status: u8, out: Bytes, report: Bytes) -> Answer
        ensures { result ≡ gives status out report }
    {
        Answer {
            status,
            out,
            report,
        }
    }
}

/// A refusal with its line, which puts nothing out.
pub fn refuse(alloc: Global, status: u8, line: Bytes) -> Answer
    ensures { result ≡ refuses status line }
{
    Answer::new(status, Bytes::new(alloc), line)
}
