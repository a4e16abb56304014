//! The SIDs that decapsulate: End.DX6, End.DX4, End.DT6, End.DT4 and End.DT46 (RFC 8986 sections
//! 4.4 to 4.8), over a packet's bytes.
//!
//! Nothing here takes memory. Places are in bytes from the packet's first.
#![tactic(auto)]

mod decap_headers;
mod decap_judge;
mod decap_stepping;

pub use decap_stepping::decap_step;
