//! Causes.

/// What happens on the way from the execution of a SID, or from the headend, to the next one of a
/// list. The first in this order that happens under some choice is the cause.
#[derive(Clone, Copy, Debug, PartialEq, Eq)]
pub enum Cause {
    /// The packet is dropped, under whatever hop limit, or delivered, or leaves the network.
    Lost,
    /// It crosses a link or executes a function that isn't the steps' next, or, where a step is to
    /// reach a node, a binding SID.
    Astray,
    /// The SID is executed at different nodes, or after different numbers of finished steps.
    Apart,
    /// The inner packet is handed over before the steps are done.
    Early,
    /// The steps are done and the packet is handed over, and the SID isn't executed.
    Unexecuted,
}

/// Where a list fails, and why.
#[derive(Clone, Copy, Debug, PartialEq, Eq)]
pub struct Failure {
    /// The number of the first SID of the list, counted from 1, that isn't executed for all choices
    /// alike; 0 where all are.
    pub sid: usize,
    /// Why.
    pub cause: Cause,
}
