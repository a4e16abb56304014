//! IPv6 packets as views of bytes (RFC 8200 section 3).

ghost use Rattle.std.specs.Prelude.{◌≡◌, ℕ, ◌+◌, ◌≤◌, ◌++◌, List, length, drop, IfOk, IsOk};
ghost use Rattle.srv6_rules.specs.Packet.{Packet, IsSpellable, content_of, packet_at, stated_len, spelling};
ghost use Rattle.ip6_headers.specs.Ip6Reading.{HoldsPacket, IsFault, read_content};

use crate::faults::ReadFault;
use crate::numbers::{address_at, four_at, two_at};
use srv6_rules::numbers::{
    DESTINATION_AT, HOP_LIMIT_AT, IPV6_HEADER_LEN, IPV6_VERSION, NEXT_HEADER_AT, PAYLOAD_LEN_AT,
    SOURCE_AT,
};
use std::marker::Model;
use v6_addr::Addr;

/// An IPv6 packet in bytes, which begin with it: what stands after its end is not part of it (RFC
/// 8200 section 3).
#[derive(Debug, Drop)]
pub struct Ip6View<'a> {
    bytes: &'a [u8],
}

impl<'a> Model for Ip6View<'a> {
    ghost use Rattle.srv6_rules.specs.Packet.{Packet, packet_at};
    ghost use Rattle.ip6_headers.specs.Ip6Reading.{HoldsPacket};

    ghost Value = { Packet };

    ghost view = { λ v. packet_at v.bytes.now };

    ghost invariant = { λ v. HoldsPacket v.bytes.now };
}

/// The payload length that a header states.
#[tactic(auto, unfolding(srv6_rules::specs::Packet::stated_len))]
fn stated_len(bytes: &[u8]) -> u16
    requires { IPV6_HEADER_LEN ≤ length bytes.now }
    ensures { result ≡ stated_len bytes.now }
{
    two_at(bytes, PAYLOAD_LEN_AT)
}

/// Why bytes do not read as a packet, or none where they hold one. Where there is a byte the
/// version is judged first: `BadVersion` exactly where the first half byte is not 6, else
/// `Truncated` exactly where there are fewer than 40 bytes, or fewer than 40 and the payload length
/// that the header states; `Truncated` where there is none (RFC 8200 section 3).
pub fn read_fault(bytes: &[u8]) -> Option<ReadFault>
    ensures { IsFault bytes.now result }
{
    if bytes.is_empty() {
        return Some(ReadFault::Truncated);
    }
    if bytes[0] / 16 != IPV6_VERSION {
        return Some(ReadFault::BadVersion);
    }
    if bytes.len() < IPV6_HEADER_LEN {
        return Some(ReadFault::Truncated);
    }
    if bytes.len() < IPV6_HEADER_LEN + usize::from(stated_len(bytes)) {
        return Some(ReadFault::Truncated);
    }
    None
}

impl<'a> Ip6View<'a> {
    /// The packet in bytes that hold one (RFC 8200 section 3).
    pub fn over(bytes: &'a [u8]) -> Ip6View<'a>
        requires { HoldsPacket bytes.now }
        ensures { result ≡ packet_at bytes.now }
    {
        Ip6View { bytes }
    }

    /// Reads bytes as a packet, with the faults of `read_fault`. The packet is the one that the
    /// bytes spell up to its end, and where they begin with the spelling of a packet, it is that
    /// one (RFC 8200 section 3).
    #[tactic(auto, using(crate::proofs::PacketBytes::readings))]
    pub fn read(bytes: &'a [u8]) -> Result<Ip6View<'a>, ReadFault>
        ensures content { content_of bytes.now ≡ read_content bytes.now result }
        ensures whole { IsOk result → HoldsPacket bytes.now }
        ensures spelled { IfOk result
            (λ p. bytes.now ≡ spelling p ++ drop (length (spelling p)) bytes.now) }
        ensures spellable { IfOk result (λ p. IsSpellable p) }
        ensures back { (p : Packet) (rest : List ℕ) → IsSpellable p
            → bytes.now ≡ spelling p ++ rest → result ≡ Ok p }
    {
        match read_fault(bytes) {
            Some(fault) => Err(fault),
            None => Ok(Ip6View { bytes }),
        }
    }

    /// Bytes can spell the packet: its fields fit their widths (RFC 8200 section 3). An empty
    /// function, for the callers' proofs.
    #[tactic(auto, using(crate::proofs::PacketBytes::readings))]
    pub fn keeps_rules(&self)
        ensures { IsSpellable self.now }
    {
        let _ = &self.bytes;
    }

    /// The traffic class (RFC 8200 section 3).
    #[tactic(auto, unfolding(srv6_rules::specs::Packet::packet_at))]
    pub fn traffic_class(&self) -> u8
        ensures { result ≡ self.now.traffic_class }
    {
        (four_at(self.bytes, 0) / 0x10_0000 % 0x100) as u8
    }

    /// The flow label, 20 bits (RFC 8200 section 3).
    #[tactic(auto, unfolding(srv6_rules::specs::Packet::packet_at))]
    pub fn flow_label(&self) -> u32
        ensures { result ≡ self.now.flow_label }
    {
        four_at(self.bytes, 0) % 0x10_0000
    }

    /// The payload's length in bytes, which the header states (RFC 8200 section 3).
    #[tactic(auto, using(crate::proofs::PacketBytes::payload_lens))]
    pub fn payload_len(&self) -> u16
        ensures { result ≡ length self.now.payload }
    {
        stated_len(self.bytes)
    }

    /// The value that names what stands after the IPv6 header (RFC 8200 section 3).
    #[tactic(auto, unfolding(srv6_rules::specs::Packet::packet_at))]
    pub fn next_header(&self) -> u8
        ensures { result ≡ self.now.next_header }
    {
        self.bytes[NEXT_HEADER_AT]
    }

    /// The hop limit (RFC 8200 section 3).
    #[tactic(auto, unfolding(srv6_rules::specs::Packet::packet_at))]
    pub fn hop_limit(&self) -> u8
        ensures { result ≡ self.now.hop_limit }
    {
        self.bytes[HOP_LIMIT_AT]
    }

    /// The source address (RFC 8200 section 3).
    #[tactic(auto, unfolding(srv6_rules::specs::Packet::packet_at))]
    pub fn source(&self) -> Addr
        ensures { result.value ≡ self.now.source }
    {
        address_at(self.bytes, SOURCE_AT)
    }

    /// The destination address (RFC 8200 section 3).
    #[tactic(auto, unfolding(srv6_rules::specs::Packet::packet_at))]
    pub fn destination(&self) -> Addr
        ensures { result.value ≡ self.now.destination }
    {
        address_at(self.bytes, DESTINATION_AT)
    }

    /// The bytes after the IPv6 header, up to the packet's end (RFC 8200 section 3).
    #[tactic(auto, unfolding(srv6_rules::specs::Packet::packet_at))]
    pub fn payload(&self) -> &'a [u8]
        ensures { result.now ≡ self.now.payload }
    {
        let len = usize::from(stated_len(self.bytes));
        self.bytes.split_at(IPV6_HEADER_LEN).1.split_at(len).0
    }

    /// The packet's bytes up to its end, which spell it (RFC 8200 section 3).
    #[tactic(auto, using(crate::proofs::PacketBytes::spellings))]
    pub fn bytes(&self) -> &'a [u8]
        ensures { result.now ≡ spelling self.now }
    {
        let len = usize::from(stated_len(self.bytes));
        self.bytes.split_at(IPV6_HEADER_LEN + len).0
    }
}
