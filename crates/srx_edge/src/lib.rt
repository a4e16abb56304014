//! The edge of the program: files that are read by name, sources and sinks of bytes.
//!
//! What is seen of each of them is one record, as ghost: what it tells of its content, the counts
//! of its faults and, of a sink, of its wants of memory, and whether the last call that did
//! anything stopped it. A call answers `Failed` only where the count of faults rose, by one; a
//! count stands still at 2^64 - 1. Files tell a list of names with their bytes and the names asked
//! for, a source the bytes that are left, a sink the bytes that it holds. A call that fails gives,
//! takes and appends nothing.
//!
//! `draw` takes a source to its end, `pour` writes all of its bytes; after a fault or a want
//! neither makes another call. `MemFiles`, `MemSource` and `MemSink` stand in memory and fail at
//! the calls that they are given; `SureSource` and `SureSink` never fail. `SlowSource` and
//! `SlowSink` are another source or sink, at most one byte a call. `HostFiles`, `HostSource` and
//! `HostSink` stand on std's files, readers and writers; streams of the system tell nothing.
//! `HostFiles` tells what `Opens` tells, by which its files are opened, and `read_whole` gives all
//! that a reader has left: so what stands on the system without a clause is `HostOpener` alone,
//! which opens the file of a name.
#![tactic(auto)]

mod failing_calls;
mod file_access;
mod host_files;
mod host_sink;
mod host_source;
mod input;
mod laws;
mod mem_files;
mod mem_sink;
mod mem_source;
mod opening;
mod output;
mod rest;
mod slow_sink;
mod slow_source;
mod sure_sink;
mod sure_source;

pub use base::NoMemory;
pub use file_access::{FileFault, Files};
pub use host_files::{HostFiles, HostOpener};
pub use host_sink::HostSink;
pub use host_source::HostSource;
pub use input::{DrawFault, Failed, Source, draw};
pub use laws::sure_ends_never_fail;
pub use mem_files::MemFiles;
pub use mem_sink::MemSink;
pub use mem_source::MemSource;
pub use opening::{Opens, read_whole};
pub use output::{PourFault, Sink, SinkFault, pour};
pub use slow_sink::SlowSink;
pub use slow_source::SlowSource;
pub use sure_sink::SureSink;
pub use sure_source::SureSource;
