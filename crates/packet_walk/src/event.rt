//! What a turn gives.

use walk_rules::Outcome;

/// One stage of a packet in flight.
#[derive(Clone, Copy, Debug, PartialEq, Eq)]
pub struct Event {
    /// The packet's number, from 1.
    pub packet: u32,
    /// The number of the node where the stage was.
    pub node: u32,
    /// What came of the packet there.
    pub outcome: Outcome,
}
