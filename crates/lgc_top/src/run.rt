// The top call.
ghost use Rattle.std.specs.Prelude.{ℕ, List, map, string_bytes};
ghost use Rattle.lgc_io.specs.Files.{FilesState};
ghost use Rattle.lgc_top.specs.Run.{run_of, Answers, Ends, AfterPut};
ghost use Rattle.lgc_top.specs.Promise.{KeepsPromises};

use crate::answer::{Answer, Stop, answer_to};
use crate::status::{Status, goes_out};
use lgc_io::{Files, Sink, SinkFault};
use std::alloc::Global;

// Puts the bytes of an answer, if there are any, and tells how the run then ends.
fn put_all<K: Sink>(sink: &mut K, bytes: &[u8], status: Status) -> Status
    ensures { AfterPut (K.state sink.old) (K.state sink.new) bytes.now status result }
{
    if bytes.is_empty() {
        return status;
    }
    match sink.put(bytes) {
        Ok(()) => status,
        Err(SinkFault::Failed) => Status::WriteFault,
        Err(SinkFault::Memory) => Status::Memory,
    }
}

// Puts an answer to the sink of its status.
fn put_answer<O: Sink, E: Sink>(answer: &Answer, out: &mut O, err: &mut E) -> Status
    ensures { (words : List (List ℕ)) (files files_after : FilesState) →
        let run = run_of words files files_after (O.state out.old) (O.state out.new) (E.state err.old) (E.state err.new) in
        Answers run answer.now.status answer.now.bytes.items → Ends run result }
{
    if goes_out(answer.status) {
        put_all(out, &answer.bytes, answer.status)
    } else {
        put_all(err, &answer.bytes, answer.status)
    }
}

// The run of the words.
fn run_words<F: Files, O: Sink, E: Sink>(
    alloc: Global,
    words: &[String],
    files: &mut F,
    out: &mut O,
    err: &mut E,
) -> Status
    ensures { Ends (run_of (map string_bytes words.now) (F.state files.old) (F.state files.new) (O.state out.old) (O.state out.new) (E.state err.old) (E.state err.new)) result }
{
    match answer_to(alloc, words, files) {
        Ok(answer) => put_answer(&answer, out, err),
        Err(Stop::Refused(answer)) => put_answer(&answer, out, err),
        Err(Stop::Memory) => Status::Memory,
    }
}

/// Runs the program on the words of its command line, after its own name.
///
/// Each status comes with its cause, and all bytes of its answer then stand in one sink: in `out` with
/// `Done`, `Refuted` and `Rejected`, and else in `err`; the other sink is as it was. `WriteFault` comes where a put failed:
/// that sink then has the first of the bytes, and its count of faults rose. With `Memory` nothing was put. Under `Done`,
/// `Refuted`, `Usage`, `BadSpec`, `BadInput` and `Rejected` the files are as they were, so none of these passes over a failed read.
/// What stands in the bytes, command by command, is said clause by clause in `specs/Promise.antt`.
pub fn run_multlog<F: Files, O: Sink, E: Sink>(
    alloc: Global,
    words: &[String],
    files: &mut F,
    out: &mut O,
    err: &mut E,
) -> Status
    ensures { KeepsPromises (run_of (map string_bytes words.now) (F.state files.old) (F.state files.new) (O.state out.old) (O.state out.new) (E.state err.old) (E.state err.new)) result }
{
    run_words(alloc, words, files, out, err)
}
