//! What `serve` gives over memory.

use srv6_cli::{Status, serve};
use srx_edge::{MemFiles, MemSink, MemSource, NoMemory};
use std::alloc::Global;

/// What came of words: a status, and what was written.
#[derive(Drop)]
pub(crate) struct Ran {
    /// The status.
    pub(crate) status: Status,
    /// What stands on `out`.
    pub(crate) out: MemSink,
    /// What stands on `err`.
    pub(crate) err: MemSink,
}

/// Serves words over files and an input in memory. Here alone `serve` is called, so that what it
/// promises is gone through once.
pub(crate) fn served(
    alloc: Global,
    words: &[String],
    files: &mut MemFiles,
    input: &[u8],
) -> Result<Ran, NoMemory> {
    let mut input = MemSource::new(alloc, input, &[])?;
    let mut out = MemSink::new(alloc, &[])?;
    let mut err = MemSink::new(alloc, &[])?;
    let status = serve(alloc, words, files, &mut input, &mut out, &mut err);
    Ok(Ran { status, out, err })
}
