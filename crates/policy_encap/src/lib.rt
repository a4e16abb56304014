//! Headers of policies put in front of packets: H.Encaps and its reduced form, and what binding
//! SIDs put there (RFC 8986 sections 4.13, 4.14, 5.1 and 5.2).
//!
//! What comes of it is defined in `srv6_rules`; the bytes become exactly the outer packet's, or
//! they stay and the answer tells why. Lengths are in bytes.
#![tactic(auto)]

mod encapsulation;
mod faults;
pub mod figures;
mod inner;
mod policy_headers;

pub use encapsulation::{encap, encap_fault, is_too_big, push};
pub use faults::{EncapFault, PushFault};
pub use policy_headers::MAX_FRONT;
