//! Frames lent from the bytes of a capture, without copying them.

ghost use Rattle.std.specs.Prelude.{◌≡◌, ◌+◌, ◌≤◌, length};
ghost use Rattle.pcap_io.specs.Frames.{by_ethertype, by_version, packet_in, body_of, first_frame, frame_len};
ghost use Rattle.pcap_io.specs.FrameLending.{body_lent};

use crate::capture_head::LinkType;
use crate::numbers::{ETHERTYPE_V4, ETHERTYPE_V6, four_at, two_at};
use std::marker::Model;

/// What a frame holds, lent. The bytes are those after the link header, as they are in the
/// capture: bytes after a packet's own end are among them.
#[derive(Clone, Copy, Debug, Drop)]
pub enum LentBody<'a> {
    /// An IPv6 packet.
    V6(&'a [u8]),
    /// An IPv4 packet.
    V4(&'a [u8]),
    /// Bytes of the frame were left out of the capture: its captured length is below its original
    /// length.
    ShortFrame,
    /// No IP packet by the link type: another EtherType than 86dd and 0800 or fewer than 14 bytes
    /// of an Ethernet frame, another first half byte than 6 and 4 or no bytes of a raw one.
    NotIp,
}

/// A frame of a capture, lent: its number, from 1 on, and what it holds. It is seen as a `Frame`.
#[derive(Debug, Drop)]
pub struct LentFrame<'a> {
    number: u32,
    body: LentBody<'a>,
}

impl<'a> Model for LentFrame<'a> {
    ghost use Rattle.pcap_io.specs.declared.frame.Frame.{Frame};

    ghost Value = { Frame };

    ghost use Rattle.pcap_io.specs.FrameLending.{body_lent};

    ghost view = { λ f. record { number = f.number; body = body_lent f.body } };
}

impl<'a> LentFrame<'a> {
    /// A frame of a number, from 1 on.
    pub fn new(number: u32, body: LentBody<'a>) -> LentFrame<'a>
        ensures { result ≡ record { number = number; body = body_lent body.entry } }
    {
        LentFrame { number, body }
    }

    /// Its number in the capture, from 1 on.
    pub fn number(&self) -> u32
        ensures { result ≡ self.now.number }
    {
        self.number
    }

    /// What it holds, lent for as long as the capture's bytes.
    pub fn body(&self) -> LentBody<'a>
        ensures { body_lent result ≡ self.now.body }
    {
        self.body
    }
}

/// The packet after an Ethernet header, by its EtherType.
fn by_ethertype(bytes: &[u8]) -> LentBody<'_>
    ensures { body_lent result ≡ by_ethertype bytes.now }
{
    if bytes.len() < 14 {
        return LentBody::NotIp;
    }
    let kind = two_at(false, bytes, 12);
    let packet = bytes.split_at(14).1;
    if kind == ETHERTYPE_V6 {
        LentBody::V6(packet)
    } else if kind == ETHERTYPE_V4 {
        LentBody::V4(packet)
    } else {
        LentBody::NotIp
    }
}

/// The packet that bytes are, by the first half byte.
fn by_version(bytes: &[u8]) -> LentBody<'_>
    ensures { body_lent result ≡ by_version bytes.now }
{
    let version = if bytes.is_empty() { 0 } else { bytes[0] / 16 };
    if version == 6 {
        LentBody::V6(bytes)
    } else if version == 4 {
        LentBody::V4(bytes)
    } else {
        LentBody::NotIp
    }
}

/// The packet in the captured bytes of a frame, by the link type.
#[tactic(auto, unfolding(crate::specs::Frames::packet_in))]
fn packet_in(link: LinkType, bytes: &[u8]) -> LentBody<'_>
    ensures { body_lent result ≡ packet_in link bytes.now }
{
    match link {
        LinkType::Ethernet => by_ethertype(bytes),
        LinkType::Raw => by_version(bytes),
        LinkType::Ipv6 => LentBody::V6(bytes),
    }
}

/// What the frame at the front holds, with its captured length.
#[tactic(auto, unfolding(crate::specs::Frames::first_frame, crate::specs::Frames::frame_len, crate::specs::Frames::body_of))]
pub(crate) fn lent_body(little: bool, link: LinkType, bytes: &[u8], len: usize) -> LentBody<'_>
    requires len { len + 16 ≡ frame_len little bytes.now }
    requires whole { len + 16 ≤ length bytes.now }
    ensures { body_lent result ≡ body_of link (first_frame little bytes.now) }
{
    let captured = bytes.split_at(16).1.split_at(len).0;
    let original = four_at(little, bytes, 12) as usize;
    if captured.len() < original {
        LentBody::ShortFrame
    } else {
        packet_in(link, captured)
    }
}
