//! A sink in memory that never fails.
ghost use Rattle.std.specs.Prelude.{◌≡◌, false, []};
ghost use Rattle.srx_edge.specs.Fakes.{sure_sink_seen};
ghost use Rattle.srx_edge.specs.SinkFake.{SurelyWrites};

use crate::output::{Sink, SinkFault};
use std::alloc::Global;
use std::marker::Model;

/// A sink in memory that never answers Failed; its count of faults is 0. A write may answer
/// NoMemory.
#[derive(Drop)]
pub struct SureSink {
    bytes: Vec<u8>,
    wants: u64,
    stopped: bool,
}

impl Model for SureSink {
    ghost use Rattle.srx_edge.specs.Fakes.{SureSinkState};

    ghost Value = { SureSinkState };

    ghost view = { λ s. record { held = s.bytes.items; wants = s.wants; stopped = s.stopped } };
}

impl SureSink {
    /// An empty sink. It takes no memory yet.
    pub fn new(alloc: Global) -> SureSink
        ensures { result ≡ record { held = []; wants = 0; stopped = false } }
    {
        SureSink {
            bytes: Vec::new(alloc),
            wants: 0,
            stopped: false,
        }
    }

    /// What the sink holds.
    pub fn held(&self) -> &[u8]
        ensures { result.now ≡ self.now.held }
    {
        self.bytes.as_slice()
    }
}

impl Sink for SureSink {
    ghost seen = { sure_sink_seen };

    fn write(&mut self, piece: &[u8]) -> Result<usize, SinkFault>
        ensures { SurelyWrites piece.now result self.old self.new }
    {
        if piece.is_empty() {
            return Ok(0);
        }
        if self.bytes.extend_from_slice(piece).is_err() {
            self.wants = self.wants.saturating_add(1);
            self.stopped = true;
            return Err(SinkFault::NoMemory);
        }
        self.stopped = false;
        Ok(piece.len())
    }
}
