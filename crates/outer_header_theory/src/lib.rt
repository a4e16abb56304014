//! Headers that nodes put in front of packets, apart from the packets that they carry, and packets
//! that differ in their hop limit alone.
//!
//! A header that a policy makes is an IPv6 header with or without one segment routing header.
//! `specs/HeaderFronts.antt` says how such a header stands in front of bytes, and what comes of it at
//! a SID, so that the answer is said for all bytes at once; `specs/HopLimits.antt` says what comes of
//! a packet at a SID for all hop limits at once. The functions of both modules of laws do nothing:
//! their contracts are the laws of those definitions.
#![tactic(auto)]

mod hop_limit_laws;
mod pushed_header_laws;

pub use hop_limit_laws::hop_limits_decide_only_whether_packets_go_on;
pub use pushed_header_laws::{a_policy_makes_a_front, what_a_header_is_round_makes_no_difference};
