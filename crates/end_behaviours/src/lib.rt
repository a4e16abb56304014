//! What a node does with a packet at one of its SIDs that goes on, in the packet's bytes: End,
//! End.X, End.T and, for their own step alone, the binding SIDs, with the flavours PSP, USP and USD
//! and with the compressions NEXT-CSID and REPLACE-CSID (RFC 8986 sections 4.1 to 4.3, 4.13, 4.14
//! and 4.16, RFC 9800 sections 4.1 and 4.2).
//!
//! Places are in bytes from the packet's first. Nothing here takes memory.
#![tactic(auto)]

mod end_headers;
mod header_finding;
mod last_headers;
mod lengths;
mod stepping;
mod treatment;
mod writing;

pub use lengths::onward_len;
pub use treatment::end_step;
