//! Why a network is not flat.

use v6_addr::Prefix;

/// Why a network is not flat.
#[derive(Clone, Copy, Debug, PartialEq, Eq)]
pub enum NotFlat {
    /// An entry lies strictly inside the prefix of a SID, and is no SID that may be nested in it.
    Nested {
        /// The SID's prefix.
        outer: Prefix,
        /// The prefix of a SID or of an IPv6 route of any table, or a node's address as a prefix of
        /// 128 bits.
        inner: Prefix,
    },
    /// A SID lies strictly inside a block, and its CSID, the bits after the block's up to its
    /// length, is 0.
    ZeroCsid {
        /// The SID's prefix.
        prefix: Prefix,
    },
    /// A SID overlaps a block and is no longer than it; or it lies strictly inside a REPLACE block
    /// with other bits after the block's than a compressed SID of the block has; or it lies
    /// strictly inside a NEXT block, has no NEXT, and its bits after the block's are no multiple
    /// of `BLOCK_UNIT`.
    MixedBlock {
        /// The block's prefix.
        block: Prefix,
        /// The SID's prefix.
        prefix: Prefix,
    },
    /// SIDs of two nodes on one prefix, both of which make the next segment the destination, differ
    /// in their compression.
    Clash {
        /// The SIDs' prefix.
        prefix: Prefix,
        /// The number of the node of the SID that comes first in the description.
        first: u32,
        /// The number of the other's node.
        second: u32,
    },
}
