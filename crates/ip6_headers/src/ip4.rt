//! IPv4 packets as views of bytes, and a time to live that is lowered in them (RFC 791 section
//! 3.1).

ghost use Rattle.std.specs.Prelude.{◌≡◌, ℕ, ◌+◌, ◌<◌, ◌≤◌, ◌^◌, ◌++◌, List, length, drop, slice_index, IfOk, IsOk, Ok};
ghost use Rattle.srv6_rules.specs.Packet4.{Packet4, IsSpellable4, read4, packet4_at, stated_header_len, total_len, address4_at, spelling4, ttl, protocol, source4, destination4, checksum_lowered, ttl_lowered, lowered4};
ghost use Rattle.ip6_headers.specs.Ip4Reading.{HoldsPacket4, IsFault4, read_packet4};

use crate::faults::ReadFault;
use crate::numbers::{four_at, put_two, two_at};
use srv6_rules::numbers::{
    CHECKSUM_AT, CHECKSUM_WRAP, IPV4_DESTINATION_AT, IPV4_HEADER_LEN, IPV4_LEN_UNIT,
    IPV4_SOURCE_AT, IPV4_VERSION, PROTOCOL_AT, TOTAL_LEN_AT, TTL_AT, TTL_WEIGHT,
};
use std::marker::Model;
use v6_addr::Addr;

/// An IPv4 packet in bytes, which begin with it: what stands after its end is not part of it (RFC
/// 791 section 3.1).
#[derive(Debug, Drop)]
pub struct Ip4View<'a> {
    bytes: &'a [u8],
}

impl<'a> Model for Ip4View<'a> {
    ghost use Rattle.srv6_rules.specs.Packet4.{Packet4, packet4_at};
    ghost use Rattle.ip6_headers.specs.Ip4Reading.{HoldsPacket4};

    ghost Value = { Packet4 };

    ghost view = { λ v. packet4_at v.bytes.now };

    ghost invariant = { λ v. HoldsPacket4 v.bytes.now };
}

/// The length in bytes that a header states for itself.
#[tactic(auto, unfolding(srv6_rules::specs::Packet4::stated_header_len))]
fn stated_header_len(bytes: &[u8]) -> usize
    requires { IPV4_HEADER_LEN ≤ length bytes.now }
    ensures { result ≡ stated_header_len bytes.now }
{
    IPV4_LEN_UNIT * usize::from(bytes[0] % 16)
}

/// The length in bytes that a header states for the packet.
#[tactic(auto, unfolding(srv6_rules::specs::Packet4::total_len, srv6_rules::specs::Packet::two_number))]
fn total_len(bytes: &[u8]) -> u16
    requires { IPV4_HEADER_LEN ≤ length bytes.now }
    ensures { result ≡ total_len bytes.now }
{
    two_at(bytes, TOTAL_LEN_AT)
}

/// The address in a header's 4 bytes from a place on, in the highest 32 bits.
#[tactic(auto, unfolding(srv6_rules::specs::Packet4::address4_at, srv6_rules::specs::Packet::four_number))]
fn address4_at(bytes: &[u8], at: usize) -> Addr
    requires { at + 4 ≤ length bytes.now }
    ensures { result.value ≡ address4_at at bytes.now }
{
    Addr {
        value: u128::from(four_at(bytes, at)) << 96,
    }
}

/// The checksum of a header whose time to live is lowered by 1 (RFC 1624 section 3).
fn checksum_lowered(checksum: u16) -> u16
    ensures { result ≡ checksum_lowered checksum }
{
    if checksum < CHECKSUM_WRAP {
        checksum + TTL_WEIGHT
    } else {
        checksum - CHECKSUM_WRAP
    }
}

/// Why bytes do not read as a packet, or none where they hold one. Where there is a byte the
/// version is judged first: `BadVersion` exactly where the first half byte is not 4, else
/// `Truncated` exactly where there are fewer than 20 bytes, where the header states fewer than 20
/// bytes for itself or fewer for the packet than for itself, or where there are fewer than it
/// states for the packet; `Truncated` where there is none (RFC 791 section 3.1; the order is an own
/// rule).
pub fn read_fault4(bytes: &[u8]) -> Option<ReadFault>
    ensures { IsFault4 bytes.now result }
{
    if bytes.is_empty() {
        return Some(ReadFault::Truncated);
    }
    if bytes[0] / 16 != IPV4_VERSION {
        return Some(ReadFault::BadVersion);
    }
    if bytes.len() < IPV4_HEADER_LEN {
        return Some(ReadFault::Truncated);
    }
    let header_len = stated_header_len(bytes);
    let total_len = usize::from(total_len(bytes));
    if header_len < IPV4_HEADER_LEN || total_len < header_len || bytes.len() < total_len {
        return Some(ReadFault::Truncated);
    }
    None
}

impl<'a> Ip4View<'a> {
    /// Reads bytes as a packet, with the faults of `read_fault4`. The packet is the one that the
    /// bytes spell up to its end, and where they begin with the spelling of a packet, it is that
    /// one. The checksum is not verified (RFC 791 section 3.1; own rule).
    #[tactic(auto, using(crate::proofs::PacketBytes4::readings4))]
    pub fn read(bytes: &'a [u8]) -> Result<Ip4View<'a>, ReadFault>
        ensures content { read4 bytes.now ≡ read_packet4 result }
        ensures whole { IsOk result → HoldsPacket4 bytes.now }
        ensures spelled { IfOk result
            (λ p. bytes.now ≡ spelling4 p ++ drop (length (spelling4 p)) bytes.now) }
        ensures spellable { IfOk result (λ p. IsSpellable4 p) }
        ensures back { (p : Packet4) (rest : List ℕ) → IsSpellable4 p
            → bytes.now ≡ spelling4 p ++ rest → result ≡ Ok p }
    {
        match read_fault4(bytes) {
            Some(fault) => Err(fault),
            None => Ok(Ip4View { bytes }),
        }
    }

    /// The time to live (RFC 791 section 3.1).
    #[tactic(auto, using(crate::proofs::PacketBytes4::fields4))]
    pub fn ttl(&self) -> u8
        ensures { result ≡ ttl self.now }
    {
        self.bytes[TTL_AT]
    }

    /// The number that names what stands after the header (RFC 791 section 3.1).
    #[tactic(auto, using(crate::proofs::PacketBytes4::fields4))]
    pub fn protocol(&self) -> u8
        ensures { result ≡ protocol self.now }
    {
        self.bytes[PROTOCOL_AT]
    }

    /// The packet's length in bytes, its header among it (RFC 791 section 3.1).
    #[tactic(auto, using(crate::proofs::PacketBytes4::fields4))]
    pub fn total_len(&self) -> u16
        ensures field { result ≡ total_len self.now.header }
        ensures length { result ≡ length (spelling4 self.now) }
    {
        total_len(self.bytes)
    }

    /// The source address, in the highest 32 bits (RFC 791 section 3.1; that it stands there is an
    /// own rule).
    #[tactic(auto, using(crate::proofs::PacketBytes4::fields4))]
    pub fn source(&self) -> Addr
        ensures { result.value ≡ source4 self.now }
    {
        address4_at(self.bytes, IPV4_SOURCE_AT)
    }

    /// The destination address, in the highest 32 bits (RFC 791 section 3.1; that it stands there
    /// is an own rule).
    #[tactic(auto, using(crate::proofs::PacketBytes4::fields4))]
    pub fn destination(&self) -> Addr
        ensures { result.value ≡ destination4 self.now }
    {
        address4_at(self.bytes, IPV4_DESTINATION_AT)
    }

    /// The packet's bytes up to its end, which spell it (RFC 791 section 3.1).
    #[tactic(auto, using(crate::proofs::PacketBytes4::spellings4))]
    pub fn bytes(&self) -> &'a [u8]
        ensures { result.now ≡ spelling4 self.now }
    {
        let len = usize::from(total_len(self.bytes));
        self.bytes.split_at(len).0
    }
}

/// Lowers the time to live, which is at least 1, of the packet that bytes begin with by 1; the
/// checksum follows and is not verified, and no other byte changes (RFC 791 section 3.1, RFC 1624
/// section 3; own rule).
#[tactic(auto, using(crate::proofs::PacketBytes4::lowerings4))]
pub fn lower_ttl(bytes: &mut [u8])
    requires holds { HoldsPacket4 bytes.old }
    requires some { 0 < slice_index bytes.old TTL_AT }
    ensures bytes { bytes.new ≡ ttl_lowered bytes.old }
    ensures packet { (p : Packet4) → read4 bytes.old ≡ Ok p → read4 bytes.new ≡ Ok (lowered4 p) }
{
    let checksum = checksum_lowered(two_at(bytes, CHECKSUM_AT));
    bytes[TTL_AT] -= 1;
    put_two(bytes, CHECKSUM_AT, checksum);
}
