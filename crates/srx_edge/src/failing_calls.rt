//! Which calls of a fake fail.
ghost use Rattle.std.specs.Prelude.{◌≡◌, ◌↔◌, IsTrue, Contains, IfOk, []};
ghost use Rattle.srx_edge.specs.Edge.{next_count};

use std::alloc::{AllocError, Global};

/// The numbers of the calls that fail, counted from 1, with the calls and the faults so far.
#[derive(Drop)]
pub struct Plan {
    pub fails: Vec<u64>,
    pub calls: u64,
    pub faults: u64,
}

impl Plan {
    /// No call was made yet. `fails` has the numbers of the calls that fail, counted from 1.
    pub fn new(alloc: Global, fails: &[u64]) -> Result<Plan, AllocError>
        ensures fails { IfOk result (λ plan. plan.fails.items ≡ fails.now) }
        ensures calls { IfOk result (λ plan. plan.calls ≡ 0) }
        ensures faults { IfOk result (λ plan. plan.faults ≡ 0) }
    {
        Ok(Plan {
            fails: Vec::from_slice(alloc, fails)?,
            calls: 0,
            faults: 0,
        })
    }

    /// Whether the next call fails.
    pub fn fails_next(&self) -> bool
        ensures { IsTrue result ↔ Contains self.now.fails.items (next_count self.now.calls) }
    {
        self.fails.contains(&self.calls.saturating_add(1))
    }

    /// Counts a call that passed.
    pub fn pass(&mut self)
        ensures { self.new ≡ record self.old { calls = next_count self.old.calls } }
    {
        self.calls = self.calls.saturating_add(1);
    }

    /// Counts a call that failed.
    pub fn fail(&mut self)
        ensures { self.new ≡ record self.old {
          calls = next_count self.old.calls;
          faults = next_count self.old.faults;
        } }
    {
        self.calls = self.calls.saturating_add(1);
        self.faults = self.faults.saturating_add(1);
    }
}
