//! What is common to all of a node's endpoints: how the extension headers in front of what decides
//! are judged, whatever comes after them, what comes of a packet at the node's own address, what
//! comes of one at a SID, and how a header is taken out of a packet's bytes.
//!
//! Places are in bytes from the packet's first. Nothing here takes memory.
#![tactic(auto)]

mod outcome;
mod own_address;
mod passed_headers;
mod removal;
mod upper;

pub use outcome::EndOutcome;
pub use own_address::fault_at_address;
pub use passed_headers::{bad_segments, cut_fault, header_fault, unknown_routing_fault};
pub use removal::take_out;
pub use upper::{family_inside, is_allowed};
