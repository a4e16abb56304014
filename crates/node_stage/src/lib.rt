//! One node's treatment of one packet, in place.
//!
//! A `ContentBuf` is what a node holds: a packet of IPv6 or IPv4 in its bytes, or bytes that do not
//! read as one, and how many bytes are spare in front; a `Content` is the same where what is spare
//! is not looked at. `stage_buf` and `stage` are what a node does with them at a place under a
//! choice among equal next hops; where 2,080 bytes are spare no memory is taken. About an IPv6
//! packet that is dropped they give the ICMPv6 error that the node sends. `next_hops` are the links
//! over which a packet may be sent.
#![tactic(auto)]

mod content;
mod content_buf;
mod endpoint;
mod hops;
mod ip4_packet;
mod ip6_packet;
mod packet_reading;
mod sending;
mod stage_error;
mod stage_result;
mod treatment;

pub use content::Content;
pub use content_buf::ContentBuf;
pub use hops::next_hops;
pub use treatment::{stage, stage_buf};
