//! The top call.
ghost use Rattle.std.specs.Prelude.{◌≡◌, ◌≢◌, ◌≤◌};
ghost use Rattle.plain_commands.specs.Status as exit;
ghost use Rattle.privateer_core.specs.Delivering.{Delivers, PutsAll, sink_seen};
ghost use Rattle.privateer_core.specs.Ends.{TopEnds, seen, files_seen};
ghost use Rattle.command_words.specs.Requests.{asked_of};

use crate::requests::answer;
use plain_commands::answer::Answer;
use plain_commands::status::{MEMORY, WRITE_FAULT};
use pv_base::bytes::Bytes;
use pv_base::list::List;
use pv_base::outside::{Files, Sink};
use std::alloc::Global;

/// Puts all that there is to put. No empty slice is ever put.
fn put_all<S: Sink>(sink: &mut S, bytes: &Bytes) -> bool
    ensures room { S.room sink.new ≡ S.room sink.old }
    ensures later { S.faults sink.old ≤ S.faults sink.new }
    ensures put { PutsAll (S.held sink.old) (S.held sink.new) (S.faults sink.old) (S.faults sink.new) bytes.now result }
{
    if bytes.as_slice().is_empty() {
        return true;
    }
    sink.put(bytes.as_slice()).is_ok()
}

/// Delivers an answer: the output first, then the report. Every plain command ends here.
fn deliver<O: Sink, R: Sink>(answer: &Answer, out: &mut O, report: &mut R) -> u8
    requires { answer.now.status ≢ exit.write_fault }
    ensures { Delivers answer.now result
        (sink_seen (O.held out.old) (O.faults out.old) (O.room out.old)) (sink_seen (O.held out.new) (O.faults out.new) (O.room out.new))
        (sink_seen (R.held report.old) (R.faults report.old) (R.room report.old)) (sink_seen (R.held report.new) (R.faults report.new) (R.room report.new)) }
{
    if !put_all(out, &answer.out) {
        return WRITE_FAULT;
    }
    if !put_all(report, &answer.report) {
        return WRITE_FAULT;
    }
    answer.status
}

/// Runs the command that the words ask for, and answers the status of the process, one of `plain_commands::status`. The first
/// word is the program's name.
pub fn plain_top<F: Files, O: Sink, R: Sink>(
    alloc: Global,
    words: &List<Bytes>,
    files: &mut F,
    out: &mut O,
    report: &mut R,
) -> u8
    // What the words ask is answered from the texts of the files, over any files and sinks.
    ensures ends { TopEnds (asked_of words.now)
        (seen (files_seen (F.content files.old) (F.faults files.old)) (sink_seen (O.held out.old) (O.faults out.old) (O.room out.old)) (sink_seen (R.held report.old) (R.faults report.old) (R.room report.old)))
        (seen (files_seen (F.content files.new) (F.faults files.new)) (sink_seen (O.held out.new) (O.faults out.new) (O.room out.new)) (sink_seen (R.held report.new) (R.faults report.new) (R.room report.new)))
        result }
{
    match answer(alloc, words, files) {
        Ok(a) => deliver(&a, out, report),
        Err(_) => MEMORY,
    }
}
