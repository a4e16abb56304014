//! A writer of std as a sink.
ghost use Rattle.std.specs.Prelude.{◌≡◌, false, None};
ghost use Rattle.std.specs.Io.KnownBytes.{WriteAppends};
ghost use Rattle.srx_edge.specs.Sinks.{Writes};
ghost use Rattle.srx_edge.specs.Host.{writer_of, host_sink_seen, NeverStuck, NeverWants};

use crate::output::{Sink, SinkFault};
use std::io::Write;

/// A writer of std as a sink, with a count of the writes that failed. It tells no bytes, and never
/// answers NoMemory. It does not flush.
#[derive(Drop)]
pub struct HostSink<W> {
    writer: W,
    faults: u64,
    stopped: bool,
}

impl<W> HostSink<W> {
    /// No write has failed yet.
    pub fn new(writer: W) -> HostSink<W>
        ensures writer { writer_of result ≡ writer }
        ensures seen { host_sink_seen result
            ≡ record { held = None; faults = 0; wants = 0; stopped = false } }
    {
        HostSink {
            writer,
            faults: 0,
            stopped: false,
        }
    }
}

impl<W: Write> Sink for HostSink<W> {
    ghost seen = { host_sink_seen };

    fn write(&mut self, piece: &[u8]) -> Result<usize, SinkFault>
        // The writer's own bytes, where it knows them, go exactly as the answer says.
        ensures bytes { WriteAppends (W.contents (writer_of self.old))
            (W.contents (writer_of self.new)) result piece.now }
        ensures writes { Writes piece.now result
            (host_sink_seen self.old) (host_sink_seen self.new) }

        // A write that takes no byte of a piece that isn't empty is answered as a failure.
        ensures some { NeverStuck piece.now result }
        ensures memory { NeverWants result }
    {
        if piece.is_empty() {
            return Ok(0);
        }
        match self.writer.write(piece) {
            Ok(count) if count > 0 => {
                self.stopped = false;
                Ok(count)
            }
            Ok(_) | Err(_) => {
                self.faults = self.faults.saturating_add(1);
                self.stopped = true;
                Err(SinkFault::Failed)
            }
        }
    }
}
