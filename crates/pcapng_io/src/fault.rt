//! Why bytes are no pcapng file.

use base::NoMemory;
use std::alloc::AllocFailed;

/// What is wrong with a block.
#[derive(Debug, Clone, Copy, PartialEq, Eq)]
pub(crate) enum BlockFault {
    /// The magic of a section reads 1a2b3c4d in neither byte order.
    Magic,
    /// The total length is no multiple of 4, less than the type needs, or another at the block's
    /// end; or the packet doesn't fit.
    Form,
    /// The major version of a section is not 1.
    Version,
    /// The obsolete packet block.
    OldBlock,
    /// The packet's interface is not described.
    Interface,
}

/// Why `NgReader::take` gives no answer. Blocks are numbered from 1 on over all sections.
#[derive(Debug, Clone, Copy, PartialEq, Eq)]
pub enum NgFault {
    /// The magic of a section reads 1a2b3c4d in neither byte order.
    NgMagic {
        /// The number of the block.
        block: u32,
    },
    /// The total length of a block is no multiple of 4, below 12 or less than its type needs, or
    /// another at the block's end; or the packet's bytes, filled up to a multiple of 4, don't fit
    /// (of a simple packet only where interface 0 is described).
    NgBlock {
        /// The number of the block.
        block: u32,
    },
    /// The major version of a section is not 1.
    NgVersion {
        /// The number of the block.
        block: u32,
    },
    /// The block has type 2, the obsolete packet block.
    NgOldBlock {
        /// The number of the block.
        block: u32,
    },
    /// The interface of a packet is not described before it in its section.
    NgInterface {
        /// The number of the block.
        block: u32,
    },
    /// Packet 65,537 begins.
    FrameLimit,
    /// Memory ran out, which says nothing about the bytes.
    NoMemory,
}

/// Bytes are left over, and they are no whole block.
#[derive(Debug, Clone, Copy, PartialEq, Eq)]
pub struct NgCut {
    /// The number of the block that is cut, from 1 on over all sections.
    pub block: u32,
}

impl BlockFault {
    ghost use Rattle.std.specs.Prelude.{◌≡◌};
    ghost use Rattle.pcapng_io.specs.NgReading.{fault_in};

    /// The fault of the block of a number.
    pub(crate) fn of_block(self, block: u32) -> NgFault
        ensures { result ≡ fault_in block self }
    {
        match self {
            BlockFault::Magic => NgFault::NgMagic { block },
            BlockFault::Form => NgFault::NgBlock { block },
            BlockFault::Version => NgFault::NgVersion { block },
            BlockFault::OldBlock => NgFault::NgOldBlock { block },
            BlockFault::Interface => NgFault::NgInterface { block },
        }
    }
}

impl NgFault {
    ghost use Rattle.std.specs.Prelude.{◌≡◌, ◌↔◌, IsTrue};

    /// Whether memory ran out.
    pub(crate) fn is_want(self) -> bool
        ensures { IsTrue result ↔ (self ≡ NgFault.NoMemory) }
    {
        match self {
            NgFault::NoMemory => true,
            NgFault::NgMagic { .. }
            | NgFault::NgBlock { .. }
            | NgFault::NgVersion { .. }
            | NgFault::NgOldBlock { .. }
            | NgFault::NgInterface { .. }
            | NgFault::FrameLimit => false,
        }
    }
}

impl From<NoMemory> for NgFault {
    ghost use Rattle.std.specs.Prelude.{◌≡◌};
    ghost use Rattle.pcapng_io.specs.declared.fault.NgFault.TheVariants.{NoMemory};

    ghost from_gives = { λ _ fault. fault ≡ NoMemory };

    fn from(_: NoMemory) -> NgFault {
        NgFault::NoMemory
    }
}

impl<T: Drop> From<AllocFailed<T>> for NgFault {
    ghost use Rattle.std.specs.Prelude.{◌≡◌};
    ghost use Rattle.pcapng_io.specs.declared.fault.NgFault.TheVariants.{NoMemory};

    ghost from_gives = { λ _ fault. fault ≡ NoMemory };

    fn from(_: AllocFailed<T>) -> NgFault {
        NgFault::NoMemory
    }
}
