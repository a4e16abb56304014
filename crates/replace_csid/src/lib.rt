//! REPLACE-CSID in a packet's bytes (RFC 9800 section 4.2).
//!
//! The SIDs that follow stand packed in the entries of the segment list, and the destination's
//! lowest bits say at which index of an entry the active one stands. A node with that SID writes
//! the next CSID and its index into the destination, or takes the next entry whole. Nothing here
//! takes memory. Places in packets are in bytes; entries and indexes are counted from 0.
#![tactic(auto)]

mod csids;
mod laws;
mod replace_judge;
mod replace_step;

pub use laws::header_of_a_chain_can_be_stepped_over;
pub use replace_step::{ReplaceOutcome, is_at_end, replace, would_end};
