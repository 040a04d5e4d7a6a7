//! Files and sinks as traits that count their faults, over memory and over the machine.
//!
//! - [`Files`] reads files by their names, and [`Sink`] takes bytes. Each keeps a count of faults
//!   that never falls and stops at `2^64 - 1`; a failure is answered only where the count rose.
//! - [`MemoryFiles`] and [`MemorySink`] tell their contents, and fail at the calls that they are told.
//! - [`HostFiles`] and [`StreamSink`] reach the machine. They tell no contents: what they read and
//!   write is what the machine gives and takes.
#![tactic(auto)]

mod files;
mod host;
mod memory;
mod sink;

pub use files::{FileFault, Files, Reading};
pub use host::{HostFiles, StreamSink};
pub use memory::{MemoryFiles, MemorySink};
pub use sink::{Sink, SinkFault};
