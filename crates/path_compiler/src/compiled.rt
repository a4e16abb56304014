//! Compiled lists, and when an intent is refused.

use list_pack::{SidList, Solution};
use net_flatness::NotFlat;

/// A list of segments that an intent is compiled to.
#[derive(Debug, Drop)]
pub struct Compiled {
    /// The list as containers, the SID that is executed first in front.
    pub list: SidList,
    /// How many containers of 16 bytes the list has.
    pub containers: u32,
    /// How many SIDs the list has, counted as the prefixes of its containers.
    pub sids: u64,
    /// How many bytes stand in front of the inner packet: the outer header of 40 bytes, and the
    /// segment routing header, if there is one (RFC 8754 section 2, RFC 8986 sections 5.1 and 5.2).
    pub header: u64,
    /// How often the outer hop limit is lowered on the way: the hop limit has to be above it.
    pub need: u32,
    /// What the search found: the potentials of the states from which a path leads to the end, and
    /// the first least path, which is that of the list.
    pub solution: Solution,
}

/// Why an intent is not compiled. The refusals come in this order; want of memory may
/// come in place of any answer.
#[derive(Debug, Drop)]
pub enum CompileFault {
    /// The network is not flat, for the reason that `compilable` gives.
    NotFlat(NotFlat),
    /// No legal list of SIDs takes packets along the steps for all choices.
    NoList {
        /// What the search found: potentials, and an empty path.
        solution: Solution,
    },
    /// The least list has more containers than the intent allows: each list has.
    TooLong {
        /// The least list.
        found: Compiled,
    },
    /// The need of the least list is not below the intent's hop limit.
    HopLimit {
        /// The least list.
        found: Compiled,
    },
    /// Want of memory.
    NoMemory,
}
