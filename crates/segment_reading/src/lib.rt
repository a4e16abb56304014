//! Lists of segments that somebody else made, read back from their addresses.
//!
//! `list_of_segments` gives the one legal list of a flat network that is spelled by addresses, or
//! says that there is none: `specs/Spellings.antt` has the definition, and `specs/Readings.antt`
//! what the code goes by, container by container. At the address of a full container the longest
//! prefix of a SID that has it is that of the active SID, and NEXT-CSID moves up what is behind (RFC
//! 9800 section 4.1); in a REPLACE container each place has the CSID of a SID of the block (section
//! 4.2). The functions of `laws` do nothing: their contracts are the laws.
#![tactic(auto)]

mod asked;
mod full;
pub mod laws;
mod packed;
mod reading;

pub use reading::{ListFault, list_of_segments};
