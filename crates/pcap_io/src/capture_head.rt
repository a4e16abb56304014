//! The head of a capture.

ghost use Rattle.std.specs.Prelude.{◌≡◌, ◌≤◌, length, Some, OnOk};
ghost use Rattle.pcap_io.specs.Head.{magic_of, link_of, head_behind, head_of};

use crate::fault::CaptureFault;
use crate::numbers::{
    ETHERNET, HEAD_LEN, IPV6, MAJOR, MICROS_MAGIC, MINOR, NANOS_MAGIC, PCAPNG_MAGIC, RAW_IP,
    four_at, two_at,
};

/// What the frames of a capture hold (libpcap's list of link-layer header types; that these three
/// are read is an own rule).
#[derive(Clone, Copy, Debug, PartialEq, Eq)]
pub enum LinkType {
    /// Ethernet frames: link type 1.
    Ethernet,
    /// IP packets of either version: link type 101.
    Raw,
    /// IPv6 packets: link type 229.
    Ipv6,
}

/// What the head of a capture says of the frames after it (libpcap's savefile format).
#[derive(Clone, Copy, Debug, PartialEq, Eq)]
pub struct CaptureHead {
    /// Whether the lowest byte of each number comes first.
    pub little: bool,
    /// Whether the fractions of seconds are nanoseconds; else they are microseconds.
    pub nanos: bool,
    /// What the frames hold.
    pub link: LinkType,
}

/// The byte order and the resolution that a magic says.
#[derive(Clone, Copy)]
pub(crate) struct Magic {
    little: bool,
    nanos: bool,
}

/// The byte order and the resolution where the first 4 bytes are one of the four magics.
#[tactic(auto, unfolding(crate::specs::Head::magic_of))]
fn magic_of(bytes: &[u8]) -> Option<Magic>
    requires { 4 ≤ length bytes.now }
    ensures { result ≡ magic_of bytes.now }
{
    let low_first = four_at(true, bytes, 0);
    let high_first = four_at(false, bytes, 0);
    let (little, nanos) = if low_first == MICROS_MAGIC {
        (true, false)
    } else if low_first == NANOS_MAGIC {
        (true, true)
    } else if high_first == MICROS_MAGIC {
        (false, false)
    } else if high_first == NANOS_MAGIC {
        (false, true)
    } else {
        return None;
    };
    Some(Magic { little, nanos })
}

/// What the frames of a link type hold; `BadLink` where it is none of the three.
pub fn link_of(link: u32) -> Result<LinkType, CaptureFault>
    ensures { result ≡ link_of link }
{
    if link == ETHERNET {
        Ok(LinkType::Ethernet)
    } else if link == RAW_IP {
        Ok(LinkType::Raw)
    } else if link == IPV6 {
        Ok(LinkType::Ipv6)
    } else {
        Err(CaptureFault::BadLink { link })
    }
}

/// The head after a known magic, of at least 24 bytes.
fn head_behind(magic: Magic, bytes: &[u8]) -> Result<CaptureHead, CaptureFault>
    requires { HEAD_LEN ≤ length bytes.now }
    ensures { result ≡ head_behind (Some magic) bytes.now }
{
    let Magic { little, nanos } = magic;
    if two_at(little, bytes, 4) != MAJOR || two_at(little, bytes, 6) != MINOR {
        return Err(CaptureFault::BadVersion);
    }
    let link = link_of(four_at(little, bytes, 20) % 65536)?;
    Ok(CaptureHead {
        little,
        nanos,
        link,
    })
}

/// The head that a capture begins with; whatever follows its 24 bytes is not looked at, and neither
/// are time zone, accuracy, snaplen and the high 16 bits of the last number. The faults come in
/// this order: `CutHead` exactly where fewer than 4 bytes are there, `PcapNg` where the first 4
/// are 0a0d0d0a, `BadMagic` where they are no magic, `CutHead` where fewer than 24 bytes are
/// there, `BadVersion`, and `BadLink` with the low 16 bits.
#[tactic(auto, unfolding(crate::specs::Head::head_of))]
pub fn read_head(bytes: &[u8]) -> Result<CaptureHead, CaptureFault>
    ensures head { result ≡ head_of bytes.now }
    ensures whole { OnOk result (HEAD_LEN ≤ length bytes.now) }
{
    if bytes.len() < 4 {
        return Err(CaptureFault::CutHead);
    }
    if four_at(false, bytes, 0) == PCAPNG_MAGIC {
        return Err(CaptureFault::PcapNg);
    }
    let Some(magic) = magic_of(bytes) else {
        return Err(CaptureFault::BadMagic);
    };
    if bytes.len() < HEAD_LEN {
        return Err(CaptureFault::CutHead);
    }
    head_behind(magic, bytes)
}
