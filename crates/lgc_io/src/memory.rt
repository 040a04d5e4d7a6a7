// Files and a sink in memory, which fail at the calls that they are told.
ghost use Rattle.std.specs.Prelude.{◌≡◌, ◌≢◌, List, Option, Some, None, [], map, AllPairs, OnOk, IsErrOf, IsOk, Ok, IfSome, Err, ◌++◌, ◌↔◌, take, ◌⊎◌};
ghost use Rattle.std.specs.Option.{option_copied};
ghost use Rattle.lgc_io.specs.Files.{GainsFile, IsLonger, FailsAt, file_at};
ghost use Rattle.lgc_io.specs.Sinks.{Takes, TakesPart};
ghost use Rattle.lgc_io.specs.Memory.{MemoryFilesState, MemorySinkState, Answers, files_state, found_at, one_more, room_at, next_room, sink_state};

use crate::files::{FileFault, Files, Reading};
use crate::sink::{Sink, SinkFault};
use lgc_values::{List, Name};
use std::alloc::Global;
use std::marker::Model;

/// Files in memory. Calls are counted from 1. Those whose numbers are listed fail, and so do those for a name without a file; no other call does.
#[derive(Drop)]
pub struct MemoryFiles {
    alloc: Global,
    files: List<(Name, List<u8>)>,
    failing: List<u64>,
    calls: u64,
    faults: u64,
    last: Name,
}

impl Model for MemoryFiles {
    ghost use Rattle.lgc_io.specs.Memory.{MemoryFilesState};

    ghost Value = { MemoryFilesState };

    ghost view = { λ m. record { files = m.files; failing = m.failing; calls = m.calls; faults = m.faults; last = m.last } };
}

// The bytes of the first file of that name.
fn find_file<'a>(files: &'a [(Name, List<u8>)], name: &[u8]) -> Option<&'a List<u8>>
    ensures { option_copied result ≡ file_at files.now name.now }
{
    files
        .iter()
        .find(|file| file.0.bytes() == name)
        .map(|file| &file.1)
}

impl MemoryFiles {
    /// Files with distinct names, before any call. It takes no memory.
    pub fn new(alloc: Global, files: List<(Name, List<u8>)>, failing: List<u64>) -> MemoryFiles
        requires { AllPairs (λ a b. a ≢ b) (map (λ f. f.0) files) }
        ensures { result ≡ record { files = files; failing = failing; calls = 0; faults = 0; last = [] } }
    {
        MemoryFiles {
            alloc,
            files,
            failing,
            calls: 0,
            faults: 0,
            last: Name::new(alloc),
        }
    }

    /// The count of faults.
    pub fn faults(&self) -> u64
        ensures { result ≡ self.now.faults }
    {
        self.faults
    }
}

impl Files for MemoryFiles {
    ghost state = { files_state };

    fn read_file(
        &mut self,
        name: &str,
        limit: usize,
        into: &mut Vec<u8>,
    ) -> Result<Reading, FileFault>
        ensures whole { result ≡ Ok Reading.Whole → GainsFile (files_state self.old) name.now limit into.old.items into.new.items }
        ensures long { result ≡ Ok Reading.TooLong → IsLonger (files_state self.old) name.now limit }
        ensures failed { IsErrOf result FileFault.Failed → FailsAt (files_state self.old) (files_state self.new) name.now }
        ensures unread { (result ≡ Ok Reading.Whole → ⊥) → into.new.items ≡ into.old.items }
        ensures quiet { (IsErrOf result FileFault.Failed → ⊥) → files_state self.new ≡ files_state self.old }
        ensures told { (files_state self.new).told ≡ (files_state self.old).told }
        ensures calls { self.new.calls ≡ one_more self.old.calls }
        ensures kept { (self.new.files ≡ self.old.files) × (self.new.failing ≡ self.old.failing) }
        ensures answer { Answers (found_at self.old name.now) limit result }
        ensures faults { IsErrOf result FileFault.Failed → self.new.faults ≡ one_more self.old.faults }
    {
        self.calls = self.calls.saturating_add(1);
        let asked = Name::of_bytes(self.alloc, name.as_bytes()).map_err(|_| FileFault::Memory)?;
        if !self.failing.items().contains(&self.calls) {
            if let Some(bytes) = find_file(self.files.items(), name.as_bytes()) {
                if bytes.len() > limit {
                    return Ok(Reading::TooLong);
                }
                into.extend_from_slice(bytes.items())
                    .map_err(|_| FileFault::Memory)?;
                return Ok(Reading::Whole);
            }
        }
        self.faults = self.faults.saturating_add(1);
        self.last = asked;
        Err(FileFault::Failed)
    }
}

/// A sink in memory. Calls with bytes are counted from 1. The listed ones fail, each after it took the given number of bytes at most; no other call does.
#[derive(Drop)]
pub struct MemorySink {
    bytes: Vec<u8>,
    failing: List<(u64, usize)>,
    calls: u64,
    faults: u64,
}

impl Model for MemorySink {
    ghost use Rattle.lgc_io.specs.Memory.{MemorySinkState};

    ghost Value = { MemorySinkState };

    ghost view = { λ s. record { bytes = s.bytes.items; failing = s.failing; calls = s.calls; faults = s.faults } };
}

impl MemorySink {
    /// An empty sink, before any call. It takes no memory.
    pub fn new(alloc: Global, failing: List<(u64, usize)>) -> MemorySink
        ensures { result ≡ record { bytes = []; failing = failing; calls = 0; faults = 0 } }
    {
        MemorySink {
            bytes: Vec::new(alloc),
            failing,
            calls: 0,
            faults: 0,
        }
    }

    /// The bytes that were written.
    pub fn bytes(&self) -> &[u8]
        ensures { result.now ≡ self.now.bytes }
    {
        self.bytes.as_slice()
    }

    /// The count of faults.
    pub fn faults(&self) -> u64
        ensures { result ≡ self.now.faults }
    {
        self.faults
    }
}

// How many bytes the call of this number takes before it fails, if it is to fail.
fn room_at(failing: &[(u64, usize)], call: u64) -> Option<usize>
    ensures { result ≡ room_at failing.now call }
{
    failing
        .iter()
        .find(|entry| entry.0 == call)
        .map(|entry| entry.1)
}

impl Sink for MemorySink {
    ghost state = { sink_state };

    fn put(&mut self, bytes: &[u8]) -> Result<(), SinkFault>
        ensures ok { OnOk result (Takes (sink_state self.old) (sink_state self.new) bytes.now) }
        ensures failed { IsErrOf result SinkFault.Failed → TakesPart (sink_state self.old) (sink_state self.new) bytes.now }
        ensures memory { IsErrOf result SinkFault.Memory → sink_state self.new ≡ sink_state self.old }
        ensures nothing { bytes.now ≡ [] → IsOk result × (self.new ≡ self.old) }
        ensures calls { bytes.now ≢ [] → self.new.calls ≡ one_more self.old.calls }
        ensures kept { self.new.failing ≡ self.old.failing }
        ensures answer { bytes.now ≢ [] → (result ≡ Err SinkFault.Memory) ⊎ (IsOk result ↔ (next_room self.old ≡ None)) }
        ensures part { IsErrOf result SinkFault.Failed → IfSome (next_room self.old) (λ room. self.new.bytes ≡ self.old.bytes ++ take room bytes.now) }
        ensures faults { IsErrOf result SinkFault.Failed → self.new.faults ≡ one_more self.old.faults }
    {
        if bytes.is_empty() {
            return Ok(());
        }
        self.calls = self.calls.saturating_add(1);
        match room_at(self.failing.items(), self.calls) {
            None => {
                self.bytes
                    .extend_from_slice(bytes)
                    .map_err(|_| SinkFault::Memory)
            }
            Some(room) => {
                let count = room.min(bytes.len());
                self.bytes
                    .extend_from_slice(&bytes[..count])
                    .map_err(|_| SinkFault::Memory)?;
                self.faults = self.faults.saturating_add(1);
                Err(SinkFault::Failed)
            }
        }
    }
}
