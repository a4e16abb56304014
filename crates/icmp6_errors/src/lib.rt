//! ICMPv6 errors about packets (RFC 4443): where one is made, and its bytes.
//!
//! Nothing here takes memory: an error is written into a slot of the least size of packets that
//! every link carries.
#![tactic(auto)]

mod checksum;
mod error;
mod message;
mod unanswered;

pub use error::{IcmpSlot, error_for};
