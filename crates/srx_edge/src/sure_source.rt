//! A source in memory that never fails.
ghost use Rattle.std.specs.Prelude.{◌≡◌, IfOk};
ghost use Rattle.srx_edge.specs.Fakes.{sure_source_seen};
ghost use Rattle.srx_edge.specs.SourceFake.{SurelyReads};

use crate::input::{Failed, Source};
use crate::rest::Rest;
use base::NoMemory;
use std::alloc::Global;
use std::marker::Model;

/// A source in memory that never fails; its count of faults is 0, and it is never
/// stopped.
#[derive(Drop)]
pub struct SureSource {
    rest: Rest,
    ends: u64,
}

impl Model for SureSource {
    ghost use Rattle.srx_edge.specs.Fakes.{SureSourceState};

    ghost Value = { SureSourceState };

    ghost view = { λ s. record { left = s.rest; ends = s.ends } };
}

impl SureSource {
    /// A source that has these bytes left.
    pub fn new(alloc: Global, bytes: &[u8]) -> Result<SureSource, NoMemory>
        ensures { IfOk result (λ source. source ≡ record { left = bytes.now; ends = 0 }) }
    {
        Ok(SureSource {
            rest: Rest::new(alloc, bytes)?,
            ends: 0,
        })
    }
}

impl Source for SureSource {
    ghost seen = { sure_source_seen };

    fn read(&mut self, into: &mut [u8]) -> Result<usize, Failed>
        ensures { SurelyReads result into.old into.new self.old self.new }
    {
        if into.is_empty() {
            return Ok(0);
        }
        let count = self.rest.take_into(into);
        if count == 0 {
            self.ends = self.ends.saturating_add(1);
        }
        Ok(count)
    }
}
