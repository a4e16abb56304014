//! Why bytes are no capture.

use base::NoMemory;

/// Why bytes are no capture.
#[derive(Debug, Clone, Copy, PartialEq, Eq)]
pub enum CaptureFault {
    /// Fewer than 4 bytes, or a known magic and fewer than 24 bytes.
    CutHead,
    /// The first 4 bytes are 0a0d0d0a: a pcapng file, which `pcapng_io` reads.
    PcapNg,
    /// The first 4 bytes are none of the four magics: a1b2c3d4 and a1b23c4d in either byte order.
    BadMagic,
    /// The version is not 2.4.
    BadVersion,
    /// The link type is not 1, 101 or 229.
    BadLink {
        /// The link type: the low 16 bits of the head's last number, the only ones that are read.
        link: u32,
    },
    /// At least one byte follows frame 65,536. The head never has this fault.
    FrameLimit,
}

/// Why `FrameReader::take` gives no answer.
#[derive(Debug, Clone, Copy, PartialEq, Eq)]
pub enum TakeFault {
    /// 65,536 frames were taken, and a further byte is there.
    FrameLimit,
    /// Memory ran out.
    NoMemory,
}

/// 65,536 frames were taken, and a further byte is there.
#[derive(Debug, Clone, Copy, PartialEq, Eq)]
pub struct FrameLimit;

/// Bytes are left over, and they are no whole frame.
#[derive(Debug, Clone, Copy, PartialEq, Eq)]
pub struct CutFrame {
    /// The number of the frame that is cut, from 1 on.
    pub number: u32,
}

impl From<NoMemory> for TakeFault {
    ghost use Rattle.std.specs.Prelude.{◌≡◌};
    ghost use Rattle.pcap_io.specs.declared.fault.TakeFault.TheVariants.{NoMemory};

    ghost from_gives = { λ _ fault. fault ≡ NoMemory };

    fn from(_: NoMemory) -> TakeFault {
        TakeFault::NoMemory
    }
}
