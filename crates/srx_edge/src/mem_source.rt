//! A source in memory whose reads fail where they are told to.
ghost use Rattle.std.specs.Prelude.{◌≡◌, false, IfOk};
ghost use Rattle.srx_edge.specs.Fakes.{source_seen};
ghost use Rattle.srx_edge.specs.SourceFake.{MemReads};

use crate::failing_calls::Plan;
use crate::input::{Failed, Source};
use crate::rest::Rest;
use base::NoMemory;
use std::alloc::Global;
use std::marker::Model;

/// A source in memory. The reads of the given numbers fail, counted from 1 among those into slices
/// that aren't empty.
#[derive(Drop)]
pub struct MemSource {
    rest: Rest,
    plan: Plan,
    ends: u64,
    stopped: bool,
}

impl Model for MemSource {
    ghost use Rattle.srx_edge.specs.Fakes.{SourceState};

    ghost Value = { SourceState };

    ghost view = { λ s. record {
      left = s.rest;
      fails = s.plan.fails.items;
      calls = s.plan.calls;
      faults = s.plan.faults;
      ends = s.ends;
      stopped = s.stopped;
    } };
}

impl MemSource {
    /// A source that has these bytes left. `fails` has the numbers of the reads that fail, counted
    /// from 1.
    pub fn new(alloc: Global, bytes: &[u8], fails: &[u64]) -> Result<MemSource, NoMemory>
        ensures { IfOk result (λ source. source ≡ record {
          left = bytes.now;
          fails = fails.now;
          calls = 0;
          faults = 0;
          ends = 0;
          stopped = false;
        }) }
    {
        Ok(MemSource {
            rest: Rest::new(alloc, bytes)?,
            plan: Plan::new(alloc, fails)?,
            ends: 0,
            stopped: false,
        })
    }
}

impl Source for MemSource {
    ghost seen = { source_seen };

    fn read(&mut self, into: &mut [u8]) -> Result<usize, Failed>
        ensures { MemReads result into.old into.new self.old self.new }
    {
        if into.is_empty() {
            return Ok(0);
        }
        if self.plan.fails_next() {
            self.plan.fail();
            self.stopped = true;
            return Err(Failed);
        }
        self.plan.pass();
        let count = self.rest.take_into(into);
        if count == 0 {
            self.ends = self.ends.saturating_add(1);
        }
        self.stopped = false;
        Ok(count)
    }
}
