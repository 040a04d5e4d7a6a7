// The files of the machine, and a sink over a writer of std. They tell no contents.
ghost use Rattle.std.specs.Prelude.{◌≡◌, None, [], ◌++◌, ◌≤◌, ◌<◌, length, OnOk, IfSome, IsErrOf, IsOk, IsTrue, Ok, ℕ, List};
ghost use Rattle.std.specs.Io.KnownBytes.{Appends};
ghost use Rattle.lgc_io.specs.Sinks.{Takes, TakesPart};
ghost use Rattle.lgc_io.specs.Files.{GainsFile, IsLonger, FailsAt};
ghost use Rattle.lgc_io.specs.Streams.{WritesPart, untold_files, untold_sink};

use crate::files::{FileFault, Files, Reading};
use crate::sink::{Sink, SinkFault};
use lgc_values::Name;
use std::alloc::Global;
use std::io::{Read, Write};
use std::{fs, rt};

/// The files of the machine.
///
/// No clause of std says which file is opened under a name, nor when an open or a read fails. So the clauses of `read_file` speak of
/// some file of the machine: `Whole` comes with all bytes that it had left, and `TooLong` where these were more than the limit.
#[derive(Drop)]
pub struct HostFiles<R: rt::Files + Drop> {
    alloc: Global,
    rt: R,
    faults: u64,
    last: Name,
}

impl<R: rt::Files + Drop> HostFiles<R> {
    /// The files that `rt` reaches, without a fault so far. It takes no memory.
    pub fn new(alloc: Global, rt: R) -> HostFiles<R>
        ensures { ⟦<HostFiles<R> as Files>⟧.state result ≡ untold_files 0 [] }
    {
        HostFiles {
            alloc,
            rt,
            faults: 0,
            last: Name::new(alloc),
        }
    }
}

// Appends what is left of a reader, up to `limit` bytes, and takes at most one byte more to see whether that is all.
fn read_up_to<F: Read>(file: &mut F, limit: usize, into: &mut Vec<u8>) -> Result<Reading, FileFault>
    ensures gained { (bytes : List ℕ) × (length bytes ≤ limit) × (into.new.items ≡ into.old.items ++ bytes) }
    ensures whole { result ≡ Ok Reading.Whole → IfSome (F.remaining file.old) (λ all. (length all ≤ limit) × (into.new.items ≡ into.old.items ++ all)) }
    ensures long { result ≡ Ok Reading.TooLong → IfSome (F.remaining file.old) (λ all. limit < length all) }
{
    let mut buffer = [0u8; 4096];
    let mut left = limit;
    'reads: loop {
        let want = left.min(4095) + 1;
        let count = file
            .read(&mut buffer[..want])
            .map_err(|_| FileFault::Failed)?;
        if count == 0 {
            return Ok(Reading::Whole);
        }
        if count > left {
            return Ok(Reading::TooLong);
        }
        into.extend_from_slice(&buffer[..count])
            .map_err(|_| FileFault::Memory)?;
        left -= count;
    }
}

impl<R: rt::Files + Drop> Files for HostFiles<R> {
    ghost state = { λ f. untold_files f.faults f.last };

    #[tactic(auto, using(crate::proofs::Unseen::longer_unseen))]
    fn read_file(
        &mut self,
        name: &str,
        limit: usize,
        into: &mut Vec<u8>,
    ) -> Result<Reading, FileFault>
        ensures whole { result ≡ Ok Reading.Whole → GainsFile (untold_files self.old.faults self.old.last) name.now limit into.old.items into.new.items }
        ensures long { result ≡ Ok Reading.TooLong → IsLonger (untold_files self.old.faults self.old.last) name.now limit }
        ensures failed { IsErrOf result FileFault.Failed → FailsAt (untold_files self.old.faults self.old.last) (untold_files self.new.faults self.new.last) name.now }
        ensures unread { (result ≡ Ok Reading.Whole → ⊥) → into.new.items ≡ into.old.items }
        ensures quiet { (IsErrOf result FileFault.Failed → ⊥) → untold_files self.new.faults self.new.last ≡ untold_files self.old.faults self.old.last }
        ensures told { (untold_files self.new.faults self.new.last).told ≡ (untold_files self.old.faults self.old.last).told }
        ensures all { result ≡ Ok Reading.Whole → (file : R.File) × IfSome (R.File.remaining file) (λ all. into.new.items ≡ into.old.items ++ all) }
        ensures more { result ≡ Ok Reading.TooLong → (file : R.File) × IfSome (R.File.remaining file) (λ all. limit < length all) }
    {
        let asked = Name::of_bytes(self.alloc, name.as_bytes()).map_err(|_| FileFault::Memory)?;
        let before = into.len();
        let outcome = match fs::open(&self.rt, name) {
            Ok(mut file) => read_up_to(&mut file, limit, into),
            Err(_) => Err(FileFault::Failed),
        };
        match outcome {
            Ok(Reading::Whole) => Ok(Reading::Whole),
            Ok(Reading::TooLong) => {
                into.truncate(before);
                Ok(Reading::TooLong)
            }
            Err(FileFault::Memory) => {
                into.truncate(before);
                Err(FileFault::Memory)
            }
            Err(FileFault::Failed) => {
                into.truncate(before);
                self.faults = self.faults.saturating_add(1);
                self.last = asked;
                Err(FileFault::Failed)
            }
        }
    }
}

/// A sink over a writer of std. A write that takes nothing of what is left is a fault, and so is a failed flush.
///
/// Over a writer whose bytes are known, the clauses of `put` tell which bytes it took. That the bytes are flushed isn't among them:
/// std says of a flush only that it keeps these bytes.
#[derive(Drop)]
pub struct StreamSink<W: Write> {
    inner: W,
    faults: u64,
}

impl<W: Write> StreamSink<W> {
    /// A sink over this writer, without a fault so far. It takes no memory.
    pub fn new(inner: W) -> StreamSink<W>
        ensures { ⟦<StreamSink<W> as Sink>⟧.state result ≡ record { written = None; faults = 0 } }
    {
        StreamSink { inner, faults: 0 }
    }
}

// Writes the bytes and flushes. Whether all of that succeeded.
fn write_through<W: Write>(inner: &mut W, bytes: &[u8]) -> bool
    ensures all { IsTrue result → Appends (W.contents inner.old) (W.contents inner.new) bytes.now }
    ensures part { WritesPart (W.contents inner.old) (W.contents inner.new) bytes.now }
{
    let mut rest = bytes;
    while !rest.is_empty() {
        match inner.write(rest) {
            Ok(count) => {
                if count == 0 {
                    return false;
                }
                rest = &rest[count..];
            }
            Err(_) => return false,
        }
    }
    inner.flush().is_ok()
}

impl<W: Write> Sink for StreamSink<W> {
    ghost state = { λ s. untold_sink s.faults };

    fn put(&mut self, bytes: &[u8]) -> Result<(), SinkFault>
        ensures ok { OnOk result (Takes (untold_sink self.old.faults) (untold_sink self.new.faults) bytes.now) }
        ensures failed { IsErrOf result SinkFault.Failed → TakesPart (untold_sink self.old.faults) (untold_sink self.new.faults) bytes.now }
        ensures memory { IsErrOf result SinkFault.Memory → untold_sink self.new.faults ≡ untold_sink self.old.faults }
        ensures nothing { bytes.now ≡ [] → IsOk result × (untold_sink self.new.faults ≡ untold_sink self.old.faults) }
        ensures all { OnOk result (Appends (W.contents self.old.inner) (W.contents self.new.inner) bytes.now) }
        ensures part { WritesPart (W.contents self.old.inner) (W.contents self.new.inner) bytes.now }
    {
        if bytes.is_empty() || write_through(&mut self.inner, bytes) {
            return Ok(());
        }
        self.faults = self.faults.saturating_add(1);
        Err(SinkFault::Failed)
    }
}
