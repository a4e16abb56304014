//! A sink that takes one byte at a time.
ghost use Rattle.std.specs.Prelude.{◌≡◌, ◌≤◌, IfOk};
ghost use Rattle.srx_edge.specs.Slow.{sink_of};
ghost use Rattle.srx_edge.specs.Sinks.{Writes};

use crate::output::{Sink, SinkFault};

/// A sink that gives on to another one, at most one byte a call. It tells what the other one tells,
/// and fails where that one does: over `SureSink` never.
#[derive(Drop)]
pub struct SlowSink<O> {
    sink: O,
}

impl<O> SlowSink<O> {
    /// Slows a sink.
    pub fn new(sink: O) -> SlowSink<O>
        ensures { sink_of result ≡ sink }
    {
        SlowSink { sink }
    }

    /// The sink that takes the bytes.
    pub fn sink(&self) -> &O
        ensures { result.now ≡ sink_of self.now }
    {
        &self.sink
    }
}

impl<O: Sink> Sink for SlowSink<O> {
    ghost seen = { λ slow. O.seen (sink_of slow) };

    fn write(&mut self, piece: &[u8]) -> Result<usize, SinkFault>
        ensures writes { Writes piece.now result
            (O.seen (sink_of self.old)) (O.seen (sink_of self.new)) }
        ensures slow { IfOk result (λ count. count ≤ 1) }
    {
        let most = piece.len().min(1);
        self.sink.write(&piece[..most])
    }
}
