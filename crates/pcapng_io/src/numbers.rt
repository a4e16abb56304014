//! Numbers of the format. The definitions cite the constants, and so does the code.

/// The most bytes that a reader is fed: 64 MiB.
pub const MAX_INPUT: usize = 67_108_864;

/// The bytes of the pieces in which a whole file is fed: 64 KiB.
pub(crate) const PIECE: usize = 65_536;

/// The type of a section header block, the same in either byte order (draft-ietf-opsawg-pcapng
/// section 4.1).
pub(crate) const SECTION: u32 = 0x0a0d_0d0a;

/// The type of an interface description block (section 4.2).
pub(crate) const INTERFACE: u32 = 1;

/// The type of the obsolete packet block (appendix A), which is refused.
pub(crate) const OLD_PACKET: u32 = 2;

/// The type of a simple packet block (section 4.4).
pub(crate) const SIMPLE_PACKET: u32 = 3;

/// The type of an enhanced packet block (section 4.3).
pub(crate) const ENHANCED_PACKET: u32 = 6;

/// What the magic of a section reads in the byte order of its numbers.
pub(crate) const ORDER_MAGIC: u32 = 0x1a2b_3c4d;

/// The major version that is read.
pub(crate) const MAJOR: u16 = 1;

/// The fewest bytes of a block: its type and its total length twice.
pub(crate) const MIN_BLOCK: usize = 12;

/// The fewest bytes of a section header block: magic, versions and the section's length besides.
pub(crate) const MIN_SECTION: usize = 28;

/// The fewest bytes of an interface description block: link type, 2 bytes and snaplen besides.
pub(crate) const MIN_INTERFACE: usize = 20;

/// The fewest bytes of a simple packet block: the original length besides.
pub(crate) const MIN_SIMPLE: usize = 16;

/// The fewest bytes of an enhanced packet block: interface, time and two lengths besides.
pub(crate) const MIN_ENHANCED: usize = 32;

/// Where the packet of a simple packet block begins, in bytes from the block's first.
pub(crate) const SIMPLE_START: usize = 12;

/// Where the packet of an enhanced packet block begins, in bytes from the block's first.
pub(crate) const ENHANCED_START: usize = 28;
