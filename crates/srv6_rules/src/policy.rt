//! Policies: what is put in front of a packet.

use base::Seq;
use v6_addr::Addr;

/// The segments of a policy in the order in which they are visited, 1 to 127 of them (RFC 8986
/// section 5.1; at most 127 is an own rule).
pub type SegmentList = Seq<Addr>;

/// What a packet is encapsulated with (RFC 8986 sections 4.13 and 5.1).
#[derive(Debug, Drop)]
pub struct Policy {
    /// The outer header's source.
    pub source: Addr,
    /// The segments.
    pub segments: SegmentList,
    /// The outer header's traffic class.
    pub traffic_class: u8,
    /// The outer header's flow label, below 2 to the 20.
    pub flow_label: u32,
    /// The outer header's hop limit.
    pub hop_limit: u8,
    /// Whether H.Encaps writes the reduced form; a binding SID's behaviour says so itself.
    pub reduced: bool,
}
