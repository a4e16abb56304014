//! A sink in memory whose writes fail where they are told to.
ghost use Rattle.std.specs.Prelude.{◌≡◌, false, [], IfOk};
ghost use Rattle.srx_edge.specs.Fakes.{sink_seen};
ghost use Rattle.srx_edge.specs.SinkFake.{MemWrites};

use crate::failing_calls::Plan;
use crate::output::{Sink, SinkFault};
use base::NoMemory;
use std::alloc::Global;
use std::marker::Model;

/// A sink in memory. The writes of the given numbers fail, counted from 1 among those of pieces
/// that aren't empty and that don't answer NoMemory.
#[derive(Drop)]
pub struct MemSink {
    bytes: Vec<u8>,
    plan: Plan,
    wants: u64,
    stopped: bool,
}

impl Model for MemSink {
    ghost use Rattle.srx_edge.specs.Fakes.{SinkState};

    ghost Value = { SinkState };

    ghost view = { λ s. record {
      held = s.bytes.items;
      fails = s.plan.fails.items;
      calls = s.plan.calls;
      faults = s.plan.faults;
      wants = s.wants;
      stopped = s.stopped;
    } };
}

impl MemSink {
    /// An empty sink. `fails` has the numbers of the writes that fail, counted from 1.
    pub fn new(alloc: Global, fails: &[u64]) -> Result<MemSink, NoMemory>
        ensures { IfOk result (λ sink. sink ≡ record {
          held = [];
          fails = fails.now;
          calls = 0;
          faults = 0;
          wants = 0;
          stopped = false;
        }) }
    {
        Ok(MemSink {
            bytes: Vec::new(alloc),
            plan: Plan::new(alloc, fails)?,
            wants: 0,
            stopped: false,
        })
    }

    /// What the sink holds.
    pub fn held(&self) -> &[u8]
        ensures { result.now ≡ self.now.held }
    {
        self.bytes.as_slice()
    }
}

impl Sink for MemSink {
    ghost seen = { sink_seen };

    fn write(&mut self, piece: &[u8]) -> Result<usize, SinkFault>
        ensures { MemWrites piece.now result self.old self.new }
    {
        if piece.is_empty() {
            return Ok(0);
        }
        if self.plan.fails_next() {
            self.plan.fail();
            self.stopped = true;
            return Err(SinkFault::Failed);
        }
        if self.bytes.extend_from_slice(piece).is_err() {
            self.wants = self.wants.saturating_add(1);
            self.stopped = true;
            return Err(SinkFault::NoMemory);
        }
        self.plan.pass();
        self.stopped = false;
        Ok(piece.len())
    }
}
