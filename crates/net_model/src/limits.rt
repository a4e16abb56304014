//! How many of each part a network may have, and the largest numbers of its parts. The
//! definitions cite these, and so does the code.

use srv6_rules::numbers::MIN_MTU;

/// Nodes of a network.
pub const MAX_NODES: usize = 256;

/// Links of a network.
pub const MAX_LINKS: usize = 4096;

/// Routes of a network, in all tables of all nodes.
pub const MAX_ROUTES: usize = 65536;

/// SIDs of a network.
pub const MAX_SIDS: usize = 4096;

/// SIDs of a node.
pub const MAX_SIDS_OF_NODE: usize = 64;

/// Links of a set of equal next hops.
pub const MAX_LINKS_OF_SET: usize = 64;

/// Upper layers that a node takes at its SIDs.
pub const MAX_ALLOWED_TYPES: usize = 16;

/// Bytes of a name.
pub const MAX_NAME_BYTES: usize = 32;

/// The least MTU of a link, in bytes: what each link has that carries IPv6 (RFC 8200 section 5).
pub const MIN_LINK_MTU: u32 = MIN_MTU as u32;

/// The largest MTU of a link, in bytes, and that of a link for which none is given: each packet
/// passes it, as a header and its payload have at most so many bytes (RFC 8200 section 3).
pub const MAX_LINK_MTU: u32 = 65575;

/// The number of the last table of routes; the first is 0.
pub const LAST_TABLE: u32 = 65535;

/// Blocks of SIDs of a description.
pub const MAX_BLOCKS: usize = 64;

/// Bytes of a text: a description, an intent, a certificate or a trace.
pub const MAX_TEXT_BYTES: usize = 4_194_304;

/// The bits that a block's length is a multiple of, and those of the shortest block.
pub const BLOCK_UNIT: u8 = 16;

/// The bits of the longest block.
pub const MAX_BLOCK_LEN: u8 = 64;

/// The bits of the longest IPv4 prefix (RFC 791).
pub const MAX_IPV4_PREFIX_LEN: u8 = 32;

/// Policies of a description.
pub const MAX_POLICIES: usize = 256;

/// The bits of a short compressed SID.
pub const SHORT_CSID: u32 = 16;

/// The bits of a long compressed SID.
pub const LONG_CSID: u32 = 32;

/// The largest number of 8 bits, as a traffic class and a hop limit have (RFC 8200 section 3).
pub const LAST_OCTET: u32 = 255;

/// The largest flow label, a number of 20 bits (RFC 8200 section 3).
pub const LAST_FLOW_LABEL: u32 = 1_048_575;

/// The hop limit of an outer header for which none is given.
pub const DEFAULT_HOP_LIMIT: u32 = 64;
