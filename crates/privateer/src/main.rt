//! The program: the host's files and streams, the top call, and its status.
#![tactic(auto)]

use plain_commands::status::MEMORY;
use privateer_core::top::plain_top;
use pv_base::bytes::Bytes;
use pv_base::host::{HostFiles, HostSink};
use pv_base::list::List;
use pv_base::want::Memory;
use std::alloc::Global;
use std::env::Args;
use std::process::ExitCode;

/// The words of the command line. Where the runtime refuses the arguments as a whole, there are none.
fn word_list(alloc: Global, args: Option<Args>) -> Result<List<Bytes>, Memory> {
    let mut words = List::new(alloc);
    if let Some(args) = args {
        for arg in args {
            words.push(Bytes::from_slice(alloc, arg.as_bytes())?)?;
        }
    }
    Ok(words)
}

fn main(rt: HostRuntime) -> ExitCode {
    let alloc = rt.alloc();
    let words = match word_list(alloc, std::env::args(&rt).ok()) {
        Ok(words) => words,
        Err(Memory) => return ExitCode::from(MEMORY),
    };
    let mut files = HostFiles::new(&rt);
    let mut out = HostSink::new(rt.stdout());
    let mut report = HostSink::new(rt.stderr());
    ExitCode::from(plain_top(alloc, &words, &mut files, &mut out, &mut report))
}
