//! Numbers of the format and in its bytes. The definitions cite the constants, and so does the
//! code.

ghost use Rattle.std.specs.Prelude.{◌≡◌, ◌+◌, ◌≤◌, length, drop};
ghost use Rattle.pcap_io.specs.Numbers.{number_of};

use byteorder::{BigEndian, ByteOrder, LittleEndian};

/// Bytes of a capture's head (libpcap's savefile format).
pub const HEAD_LEN: usize = 24;

/// Frames of a capture that are read.
pub const MAX_FRAMES: u32 = 65536;

/// The longest frame that the head says that is written, in bytes.
pub const SNAPLEN: u32 = 262_144;

/// The bytes of the pieces in which a whole capture is fed: 64 KiB.
pub(crate) const PIECE: usize = 65_536;

/// The magic of a capture with microseconds.
pub(crate) const MICROS_MAGIC: u32 = 0xa1b2_c3d4;

/// The magic of a capture with nanoseconds.
pub(crate) const NANOS_MAGIC: u32 = 0xa1b2_3c4d;

/// The first 4 bytes of a pcapng file, which are the same in either byte order.
pub(crate) const PCAPNG_MAGIC: u32 = 0x0a0d_0d0a;

/// The version that is read.
pub(crate) const MAJOR: u16 = 2;

/// The version's second number.
pub(crate) const MINOR: u16 = 4;

/// The link type of Ethernet frames.
pub(crate) const ETHERNET: u32 = 1;

/// The link type of IP packets of either version.
pub(crate) const RAW_IP: u32 = 101;

/// The link type of IPv6 packets.
pub(crate) const IPV6: u32 = 229;

/// The EtherType of IPv6 (RFC 2464 section 3).
pub(crate) const ETHERTYPE_V6: u16 = 0x86dd;

/// The EtherType of IPv4 (RFC 894).
pub(crate) const ETHERTYPE_V4: u16 = 0x0800;

/// The number in the 2 bytes from a place on, counted from 0; `little` says that the lowest byte
/// comes first.
#[tactic(auto, unfolding(crate::specs::Numbers::number_of))]
pub fn two_at(little: bool, bytes: &[u8], at: usize) -> u16
    requires { at + 2 ≤ length bytes.now }
    ensures { result ≡ number_of little 2 (drop at bytes.now) }
{
    let rest = bytes.split_at(at).1;
    if little {
        LittleEndian::read_u16(rest)
    } else {
        BigEndian::read_u16(rest)
    }
}

/// The number in the 4 bytes from a place on, counted from 0; `little` says that the lowest byte
/// comes first.
#[tactic(auto, unfolding(crate::specs::Numbers::number_of))]
pub fn four_at(little: bool, bytes: &[u8], at: usize) -> u32
    requires { at + 4 ≤ length bytes.now }
    ensures { result ≡ number_of little 4 (drop at bytes.now) }
{
    let rest = bytes.split_at(at).1;
    if little {
        LittleEndian::read_u32(rest)
    } else {
        BigEndian::read_u32(rest)
    }
}
