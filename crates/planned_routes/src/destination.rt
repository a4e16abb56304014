//! Where routes lead to.

use base::Seq;
use srv6_rules::Family;
use v6_addr::Prefix;

/// A prefix that routes of a table lead to.
#[derive(Debug, Drop)]
pub(crate) struct Destination {
    /// The number of the table.
    pub table: u32,
    /// The family of the packets.
    pub family: Family,
    /// The prefix; that of IPv4 stands in the first 32 bits.
    pub prefix: Prefix,
    /// The nodes that have it, by their numbers; with several it is anycast.
    pub nodes: Seq<u32>,
}
