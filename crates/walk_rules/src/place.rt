//! Where a packet stands, and what comes of it there.

use srv6_rules::{Family, Reason};

/// How a packet came to be treated at a node.
#[derive(Clone, Copy, Debug, PartialEq, Eq)]
pub enum How {
    /// It was received or exposed, and is looked up in a table; a route lowers its hop limit or
    /// TTL.
    Arrived {
        /// The table's number.
        table: u32,
    },
    /// The node has made or updated it, and it is looked up in a table; the hop limit stays, also
    /// over a route.
    Submitted {
        /// The table's number.
        table: u32,
    },
    /// It goes over the links of a SID without a look-up.
    Through {
        /// The SID's number.
        sid: u32,
        /// Whether the hop limit is lowered.
        lower: bool,
    },
}

/// Where a packet stands before a stage.
#[derive(Clone, Copy, Debug, PartialEq, Eq)]
pub struct Place {
    /// The node's number.
    pub node: u32,
    /// How it came to be treated there.
    pub how: How,
    /// Its family.
    pub family: Family,
}

/// What comes of a packet in one stage.
#[derive(Clone, Copy, Debug, PartialEq, Eq)]
pub enum Outcome {
    /// A SID was executed, and the packet stays at the node.
    Again {
        /// The SID's number.
        sid: u32,
        /// How the packet goes on.
        how: How,
    },
    /// A SID was executed, and the packet inside was exposed.
    Hand {
        /// The SID's number.
        sid: u32,
        /// How the exposed packet goes on.
        how: How,
        /// The exposed packet's family.
        family: Family,
    },
    /// The packet was sent on a link.
    Send {
        /// The link's number.
        link: u32,
    },
    /// An upper layer of the node took it.
    Local,
    /// It was dropped.
    Drop {
        /// Why.
        reason: Reason,
        /// Whether the node sends an ICMPv6 error about it.
        error: bool,
    },
}

/// How a walk ended.
#[derive(Clone, Copy, Debug, PartialEq, Eq)]
pub enum Ended {
    /// The packet left the network.
    Left {
        /// The number of the link over which it left.
        link: u32,
    },
    /// An upper layer took it.
    Delivered {
        /// The node's number.
        node: u32,
    },
    /// It was dropped.
    Dropped {
        /// The node's number.
        node: u32,
        /// Why.
        reason: Reason,
    },
    /// It used all its stages.
    Stages,
}
