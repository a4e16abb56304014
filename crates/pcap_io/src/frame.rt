//! What the frames of a capture hold.

ghost use Rattle.std.specs.Prelude.{◌≡◌, ◌+◌, ◌<◌, ◌≤◌, length, take, drop, IfOk, MatchOption};
ghost use Rattle.pcap_io.specs.Frames.{by_ethertype, by_version, packet_in, body_of, first_frame, frame_len};
ghost use Rattle.pcap_io.specs.FramesTerms.{HoldsNoFrame};

use crate::capture_head::LinkType;
use crate::numbers::{ETHERTYPE_V4, ETHERTYPE_V6, four_at, two_at};
use base::{NoMemory, Seq};
use std::alloc::Global;

/// What a frame holds. The bytes are those after the link header, as they are in the capture:
/// bytes after a packet's own end are among them.
#[derive(Debug, Drop)]
pub enum Body {
    /// An IPv6 packet.
    V6(Seq<u8>),
    /// An IPv4 packet.
    V4(Seq<u8>),
    /// Bytes of the frame were left out of the capture: its captured length is below its original
    /// length.
    ShortFrame,
    /// No IP packet by the link type: another EtherType than 86dd and 0800 or fewer than 14 bytes
    /// of an Ethernet frame, another first half byte than 6 and 4 or no bytes of a raw one.
    NotIp,
}

/// A frame of a capture.
#[derive(Debug, Drop)]
pub struct Frame {
    /// Its number in the capture, from 1 on.
    pub number: u32,
    /// What it holds.
    pub body: Body,
}

/// A copy of bytes.
fn copied(alloc: Global, bytes: &[u8]) -> Result<Seq<u8>, NoMemory>
    ensures { IfOk result (λ copy. copy ≡ bytes.now) }
{
    Ok(Seq::new(bytes.to_vec(alloc)?))
}

/// The packet after an Ethernet header, by its EtherType.
fn by_ethertype(alloc: Global, bytes: &[u8]) -> Result<Body, NoMemory>
    ensures { IfOk result (λ body. body ≡ by_ethertype bytes.now) }
{
    if bytes.len() < 14 {
        return Ok(Body::NotIp);
    }
    let kind = two_at(false, bytes, 12);
    let packet = bytes.split_at(14).1;
    if kind == ETHERTYPE_V6 {
        Ok(Body::V6(copied(alloc, packet)?))
    } else if kind == ETHERTYPE_V4 {
        Ok(Body::V4(copied(alloc, packet)?))
    } else {
        Ok(Body::NotIp)
    }
}

/// The packet that bytes are, by the first half byte.
fn by_version(alloc: Global, bytes: &[u8]) -> Result<Body, NoMemory>
    ensures { IfOk result (λ body. body ≡ by_version bytes.now) }
{
    let version = if bytes.is_empty() { 0 } else { bytes[0] / 16 };
    if version == 6 {
        Ok(Body::V6(copied(alloc, bytes)?))
    } else if version == 4 {
        Ok(Body::V4(copied(alloc, bytes)?))
    } else {
        Ok(Body::NotIp)
    }
}

/// The packet in the captured bytes of a frame that is whole, by the link type: of an Ethernet
/// frame by its EtherType, of a raw packet by its first half byte.
#[tactic(auto, unfolding(crate::specs::Frames::packet_in))]
pub fn packet_in(alloc: Global, link: LinkType, bytes: &[u8]) -> Result<Body, NoMemory>
    ensures { IfOk result (λ body. body ≡ packet_in link bytes.now) }
{
    match link {
        LinkType::Ethernet => by_ethertype(alloc, bytes),
        LinkType::Raw => by_version(alloc, bytes),
        LinkType::Ipv6 => Ok(Body::V6(copied(alloc, bytes)?)),
    }
}

/// How many bytes were captured of the frame at the front; `None` exactly where no whole frame
/// stands there.
#[tactic(auto, unfolding(crate::specs::Frames::frame_len))]
pub(crate) fn captured_len(little: bool, bytes: &[u8]) -> Option<usize>
    ensures { MatchOption result (HoldsNoFrame little bytes.now)
        (λ len. (len + 16 ≡ frame_len little bytes.now) × (len + 16 ≤ length bytes.now)) }
{
    if bytes.len() < 16 {
        return None;
    }
    let len = four_at(little, bytes, 8) as usize;
    if bytes.len() - 16 < len {
        None
    } else {
        Some(len)
    }
}

/// What the frame at the front holds, with its captured length.
#[tactic(auto, unfolding(crate::specs::Frames::first_frame, crate::specs::Frames::frame_len, crate::specs::Frames::body_of))]
pub(crate) fn first_body(
    alloc: Global,
    little: bool,
    link: LinkType,
    bytes: &[u8],
    len: usize,
) -> Result<Body, NoMemory>
    requires len { len + 16 ≡ frame_len little bytes.now }
    requires whole { len + 16 ≤ length bytes.now }
    ensures { IfOk result (λ body. body ≡ body_of link (first_frame little bytes.now)) }
{
    let captured = bytes.split_at(16).1.split_at(len).0;
    let original = four_at(little, bytes, 12) as usize;
    if captured.len() < original {
        Ok(Body::ShortFrame)
    } else {
        packet_in(alloc, link, captured)
    }
}
