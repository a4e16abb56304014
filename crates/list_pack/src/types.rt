//! States, costs, legs, and what a search gives.

use base::Seq;
use srv6_rules::Csid;
use v6_addr::Prefix;

/// A state of the search for a list of SIDs.
#[derive(Clone, Copy, Debug, PartialEq, Eq)]
pub struct State {
    /// How many steps of the intent are done.
    pub position: u32,
    /// The number of the SID that was executed last; none at the start.
    pub via: Option<u32>,
    /// How much room is left in the container: 16-bit units after a NEXT SID, CSIDs after a
    /// REPLACE SID, 0 after any other and at the start.
    pub room: u8,
}

/// What a path of states costs. Costs are compared by containers, then by SIDs, then by hops.
#[derive(Clone, Copy, Debug, PartialEq, Eq)]
pub struct Cost {
    /// How many containers of 16 bytes the list has.
    pub containers: u32,
    /// What its SIDs cost: as many as they are where the legs count them, else 0.
    pub sids: u32,
    /// How often the hop limit is lowered.
    pub hops: u32,
}

/// What a SID is to the search.
#[derive(Clone, Copy, Debug, PartialEq, Eq)]
pub struct Shape {
    /// The SID's prefix: the bits of its locator and function.
    pub prefix: Prefix,
    /// The number of the block that the SID's prefix lies in, if it lies in one (RFC 9800
    /// section 3).
    pub block: Option<u32>,
    /// How many bits the prefixes of the block share; 0 where there is no block.
    pub lbl: u8,
    /// How the SID is compressed (RFC 9800 sections 4.1 and 4.2).
    pub csid: Csid,
    /// Whether the packet goes on to a next segment from the SID, so that the SID may stand in a
    /// state; not so for one that decapsulates.
    pub middle: bool,
}

/// A way from the execution of one SID to that of the next.
#[derive(Clone, Copy, Debug, PartialEq, Eq)]
pub struct Leg {
    /// How many steps of the intent are done after it.
    pub to: u32,
    /// How often the hop limit is lowered on it, with the execution at its end.
    pub hops: u32,
}

/// A SID of a list: in the container of the SID before it, or the first of a new one.
#[derive(Clone, Copy, Debug, PartialEq, Eq)]
pub struct PathStep {
    /// Whether it stands in the container of the SID before it.
    pub stays: bool,
    /// The SID's prefix.
    pub prefix: Prefix,
}

/// The least cost from a state to the end.
#[derive(Clone, Copy, Debug, PartialEq, Eq)]
pub struct Potential {
    /// The state.
    pub state: State,
    /// The cost.
    pub cost: Cost,
}

/// What a search found.
#[derive(Debug, Drop)]
pub struct Solution {
    /// The potentials of the states from which a path leads to the end, in order.
    pub potentials: Seq<Potential>,
    /// The first least path from the start to the end; empty where there is none.
    pub path: Seq<PathStep>,
}

/// The prefixes of SIDs in a container after its first, in the order in which they are visited.
/// (RFC 9800 section 6)
pub type Prefixes = Seq<Prefix>;

/// 16 bytes of a segment list, by the prefixes of its SIDs: the first to be visited, and those
/// after it. (RFC 9800 section 6)
#[derive(Debug, Drop)]
pub enum Container {
    /// An address that begins with its first SID; after it the CSIDs of the others (RFC 8754
    /// section 2, RFC 9800 section 4.1).
    Full(Prefix, Prefixes),
    /// A REPLACE container, of CSIDs alone (RFC 9800 section 4.2).
    Packed(Prefix, Prefixes),
}

/// A list of SIDs as containers, the first to be visited first. (RFC 9800 section 6)
pub type SidList = Seq<Container>;
