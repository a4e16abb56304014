//! The segment routing header in bytes (RFC 8754 section 2).
//!
//! `SrhView` reads a header, `write_srh` writes one, and `tlvs` looks at the items after its
//! segment list. Nothing here takes memory. What a header says is the value `Srh` of `srv6_rules`,
//! and its bytes are that value's spelling. Lengths and places are in bytes; entries of a segment
//! list are counted from 0.
#![tactic(auto)]

mod area;
mod laws;
mod view;
mod write;

pub use area::tlvs;
pub use laws::{spelled_header_is_read, written_header_is_of_its_entries};
pub use view::SrhView;
pub use write::{SrhParts, write_srh};
