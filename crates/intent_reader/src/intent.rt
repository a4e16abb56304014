//! The intent as a value.

use base::Seq;
use net_syntax::Prefer;
use srv6_rules::{Family, LinkSet};
use v6_addr::Addr;

/// A step of an intent.
#[derive(Debug, Drop)]
pub enum Step {
    /// One of these links is crossed; they start at one node and end at one node.
    Links(LinkSet),
    /// The SID with this number, which has a title, is executed.
    Function(u32),
    /// Any links are crossed, up to the first arrival at the node with this number; the walk
    /// doesn't stand there before.
    Reach(u32),
}

/// The steps of an intent, in order.
pub type Steps = Seq<Step>;

/// A path intent: where packets enter, how they are encapsulated, and what they cross.
#[derive(Debug, Drop)]
pub struct Intent {
    /// The number of the node where packets enter and are encapsulated.
    pub headend: u32,
    /// The source of the outer header.
    pub source: Addr,
    /// The family of the packets that are encapsulated.
    pub inner: Family,
    /// Whether the first segment is left out of the segment routing header (RFC 8986 section 5.2).
    pub reduced: bool,
    /// The hop limit of the outer header, 1 to 255.
    pub hop_limit: u8,
    /// The most containers of 16 bytes that a list may have, 1 to 127.
    pub max_containers: u32,
    /// The traffic class of the outer header.
    pub traffic_class: u8,
    /// The flow label of the outer header, 20 bits.
    pub flow_label: u32,
    /// Which list is chosen: of the lists of fewest containers the one of least need, or the one of
    /// fewest SIDs and then least need.
    pub prefer: Prefer,
    /// What is crossed, executed and reached, in order.
    pub steps: Steps,
}
