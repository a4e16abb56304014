//! NEXT-CSID in a packet's bytes (RFC 9800 section 4.1).
//!
//! The SIDs that follow stand packed in the destination itself, after the SID that is active: its
//! argument. A node with that SID moves the argument up to the block and lowers the hop limit, so
//! that the next SID is active. Nothing else of the packet changes, and no header after the IPv6
//! header is looked at. Nothing here takes memory. Lengths and places of bits count from an
//! address's highest bit.
#![tactic(auto)]

mod next_step;

pub use next_step::{ShiftOutcome, argument, shift, shifts};
