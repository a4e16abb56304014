//! What is said of a list.

use list_causes::Cause;
use net_flatness::NotFlat;

/// What is said of a legal list.
#[derive(Clone, Copy, Debug, PartialEq, Eq)]
pub enum Judgement {
    /// It realizes the intent.
    Realizes {
        /// How often the outer hop limit is lowered on the way: the hop limit has to be above it.
        need: u64,
        /// How many containers of 16 bytes it has.
        containers: usize,
        /// How many SIDs it has, counted as the prefixes of its containers.
        sids: usize,
        /// Whether it is equal to the chosen list in containers and need, and in SIDs where few are
        /// preferred.
        least: bool,
        /// Whether it has at most as many containers as the intent allows, and a need below the
        /// intent's hop limit.
        within: bool,
    },
    /// It doesn't.
    Fails {
        /// The number of its first SID, counted from 1, that isn't executed for all choices alike; 0
        /// where all are.
        sid: usize,
        /// Why.
        cause: Cause,
    },
}

/// Why a list isn't judged.
#[derive(Debug, Drop)]
pub enum JudgeFault {
    /// The network is not flat, for the reason that `compilable` gives.
    NotFlat(NotFlat),
    /// Want of memory.
    NoMemory,
}
