//! What SRv6 nodes do, as definitions over plain values.
//!
//! `specs/` has the IPv6 packet and the segment routing header as values with their one spelling
//! each, how bytes are read, how the chain of extension headers is taken apart, what an endpoint
//! does with a packet that came to one of its SIDs, how a packet is encapsulated after a segment
//! list, and which ICMPv6 error is made about a packet that is dropped. The code here has the types
//! that these definitions speak of, and the laws about the definitions.
#![tactic(auto)]

pub mod area_laws;
pub mod chain_laws;
pub mod compressed_laws;
mod compression;
pub mod encapsulation_laws;
mod family;
pub mod figures;
pub mod header_laws;
pub mod icmp;
pub mod ip4_laws;
pub mod numbers;
pub mod packet_laws;
mod policy;
pub mod policy_laws;
mod reason;
mod sid;
pub mod sid_laws;

pub use compression::Compression;
pub use family::Family;
pub use icmp::IcmpKind;
pub use policy::{Policy, SegmentList};
pub use reason::Reason;
pub use sid::{Behaviour, Csid, LinkSet, SidEntry};
