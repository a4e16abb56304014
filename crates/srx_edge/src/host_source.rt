//! A reader of std as a source.
ghost use Rattle.std.specs.Prelude.{◌≡◌, false, None};
ghost use Rattle.std.specs.Io.KnownBytes.{ReadConsumes};
ghost use Rattle.srx_edge.specs.Sources.{Reads};
ghost use Rattle.srx_edge.specs.Host.{reader_of, host_source_seen};

use crate::input::{Failed, Source};
use std::io::Read;

const PIECE: usize = 4096;

/// A reader of std as a source, with counts of the reads that failed and that found the end. It
/// tells no bytes.
#[derive(Drop)]
pub struct HostSource<R> {
    reader: R,
    faults: u64,
    ends: u64,
    stopped: bool,
}

impl<R> HostSource<R> {
    /// No read has failed yet.
    pub fn new(reader: R) -> HostSource<R>
        ensures reader { reader_of result ≡ reader }
        ensures seen { host_source_seen result
            ≡ record { left = None; faults = 0; ends = 0; stopped = false } }
    {
        HostSource {
            reader,
            faults: 0,
            ends: 0,
            stopped: false,
        }
    }
}

impl<R: Read> Source for HostSource<R> {
    ghost seen = { host_source_seen };

    fn read(&mut self, into: &mut [u8]) -> Result<usize, Failed>
        // The reader's own bytes, where it knows them, go exactly as the answer says.
        ensures bytes { ReadConsumes (R.remaining (reader_of self.old))
            (R.remaining (reader_of self.new)) result into.new }
        ensures reads { Reads into.old into.new result
            (host_source_seen self.old) (host_source_seen self.new) }
    {
        if into.is_empty() {
            return Ok(0);
        }
        // A read that fails may have written into its buffer, so it gets another one.
        let mut piece = [0; PIECE];
        let most = into.len().min(PIECE);
        match self.reader.read(&mut piece[..most]) {
            Ok(count) => {
                into[..count].copy_from_slice(&piece[..count]);
                if count == 0 {
                    self.ends = self.ends.saturating_add(1);
                }
                self.stopped = false;
                Ok(count)
            }
            Err(_) => {
                self.faults = self.faults.saturating_add(1);
                self.stopped = true;
                Err(Failed)
            }
        }
    }
}
