//! Calls of the program, and what they answer.
use privateer_core::top::plain_top;
use pv_base::bytes::Bytes;
use pv_base::in_memory::{MemFiles, MemSink};
use pv_base::list::List;
use pv_base::want::Memory;
use std::alloc::Global;

/// Room for the output: one byte more than a program may print.
const OUT_ROOM: usize = 16_777_217;

/// Room for the report.
const REPORT_ROOM: usize = 20_000;

fn files_of(alloc: Global, module: &[u8], input: &str) -> Result<MemFiles, Memory> {
    let mut files = List::new(alloc);
    let name = Bytes::from_slice(alloc, b"m")?;
    files.push((name, Bytes::from_slice(alloc, module)?))?;
    let name = Bytes::from_slice(alloc, b"i")?;
    files.push((name, Bytes::from_slice(alloc, input.as_bytes())?))?;
    Ok(MemFiles::new(files, List::new(alloc)))
}

/// The answer to words: the status, a blank, the output, `|` and the report.
fn called(alloc: Global, words: &[&str], mut files: MemFiles) -> Result<String, Memory> {
    let mut list = List::new(alloc);
    for word in words {
        list.push(Bytes::from_slice(alloc, word.as_bytes())?)?;
    }
    let mut out = MemSink::with_room(alloc, OUT_ROOM, List::new(alloc))?;
    let mut report = MemSink::with_room(alloc, REPORT_ROOM, List::new(alloc))?;
    let status = plain_top(alloc, &list, &mut files, &mut out, &mut report);
    let mut told = Bytes::from_slice(alloc, &[b'0'.wrapping_add(status), b' '])?;
    told.append(out.bytes())?;
    told.append(b"|")?;
    told.append(report.bytes())?;
    Ok(String::from_utf8_lossy(alloc, told.as_slice())?)
}

/// The answer to a run of a module on an input.
pub(crate) fn run(
    alloc: Global,
    module: &[u8],
    input: &str,
    budget: &str,
) -> Result<String, Memory> {
    let words = ["privateer", "run", "m", "i", "--budget", budget];
    called(alloc, &words, files_of(alloc, module, input)?)
}

/// The answer to the check of a module.
pub(crate) fn check(alloc: Global, module: &[u8]) -> Result<String, Memory> {
    called(
        alloc,
        &["privateer", "check", "m"],
        files_of(alloc, module, "")?,
    )
}

/// The pieces, one after another.
pub(crate) fn joined(alloc: Global, pieces: &[&str]) -> Result<Bytes, Memory> {
    let mut text = Bytes::new(alloc);
    for piece in pieces {
        text.append(piece.as_bytes())?;
    }
    Ok(text)
}

/// A module with these items and a loop of so many turns.
pub(crate) fn turning(
    alloc: Global,
    items: &str,
    turns: &str,
    body: &str,
) -> Result<Bytes, Memory> {
    let before =
        "define i32 @main() {\nentry:\n  br label %head\nhead:\n  %i = phi i32 [ 0, %entry ], [ %i2, %latch ]\n  %c = icmp slt i32 %i, ";
    let behind = "latch:\n  %i2 = add i32 %i, 1\n  br label %head\ndone:\n  ret i32 0\n}\n";
    let branch = "\n  br i1 %c, label %body, label %done\nbody:\n";
    joined(alloc, &[items, before, turns, branch, body, behind])
}
