//! The error about a packet, in bytes.

ghost use Rattle.std.specs.Prelude.{◌≡◌, ◌+◌, ◌≤◌, [], ◌++◌, List, ℕ, length, is_some};
ghost use Rattle.arrayvec.specs.ArrayVec.{array_vec_len};
ghost use Rattle.srv6_rules.specs.Errors.{error_about, error_packet, icmp_packet};
ghost use Rattle.srv6_rules.specs.Packet.{IsSpellable, V6, content_of, header_spelling, packet_at, spelling};
ghost use Rattle.icmp6_errors.specs.Answer.{error_bytes};

use crate::checksum::{complement, pseudo_sum, word_sum};
use crate::message::message_head;
use crate::unanswered::is_unanswered;
use arrayvec::ArrayVec;
use ip6_headers::Ip6View;
use srv6_rules::IcmpKind;
use srv6_rules::numbers::{
    ICMPV6, ICMPV6_HEADER_LEN, ICMPV6_HOP_LIMIT, IPV6_HEADER_LEN, IPV6_VERSION, MAX_QUOTE_LEN,
    MIN_MTU,
};
use v6_addr::Addr;

/// Room for an ICMPv6 error, which is at most 1,280 bytes long (RFC 4443 section 2.4 (c)).
pub type IcmpSlot = ArrayVec<u8, MIN_MTU>;

/// Appends bytes.
fn append(out: &mut IcmpSlot, bytes: &[u8])
    requires { array_vec_len out.old + length bytes.now ≤ MIN_MTU }
    ensures { out.new.items ≡ out.old.items ++ bytes.now }
{
    out.try_extend_from_slice(bytes).unwrap();
}

/// Appends the IPv6 header in front of an ICMPv6 message of a length (RFC 8200 section 3).
fn append_header(out: &mut IcmpSlot, source: Addr, destination: Addr, len: u16)
    requires { array_vec_len out.old + IPV6_HEADER_LEN ≤ MIN_MTU }
    ensures bytes { (message : List ℕ) → length message ≡ len
        → out.new.items
        ≡ out.old.items ++ header_spelling (icmp_packet source.value destination.value message) }
    ensures len { array_vec_len out.new ≡ array_vec_len out.old + IPV6_HEADER_LEN }
{
    append(out, &[IPV6_VERSION * 16, 0, 0, 0]);
    append(out, &len.to_be_bytes());
    append(out, &[ICMPV6, ICMPV6_HOP_LIMIT]);
    append(out, &source.value.to_be_bytes());
    append(out, &destination.value.to_be_bytes());
}

/// Writes the error of a kind about a packet, from an address, into an empty slot.
fn write_error(packet: &Ip6View<'_>, kind: &IcmpKind, from: Addr, out: &mut IcmpSlot)
    requires spellable { IsSpellable packet.now }
    requires empty { out.old.items ≡ [] }
    ensures { out.new.items ≡ spelling (error_about packet.now kind.now from.value) }
{
    let bytes = packet.bytes();
    let quote = bytes.split_at(MAX_QUOTE_LEN.min(bytes.len())).0;
    let len = (ICMPV6_HEADER_LEN + quote.len()) as u16;
    let to = packet.source();
    let sum = pseudo_sum(from, to, len) + word_sum(&message_head(kind, 0)) + word_sum(quote);
    append_header(out, from, to, len);
    append(out, &message_head(kind, complement(sum)));
    append(out, quote);
}

/// Writes the ICMPv6 error of a kind about a packet into a slot, from the address of the node that
/// dropped it; what the slot held is gone. The packet begins at the first byte, and what stands
/// after its end is neither looked at nor quoted. Answers false, with an empty slot, exactly where
/// no error is made: where the packet's source is unspecified or multicast, where its destination
/// is multicast (but for Packet Too Big and an unknown option), or where it is itself an ICMPv6
/// error or a redirect (RFC 4443 section 2.4). It takes no memory.
pub fn error_for(packet: &[u8], kind: &IcmpKind, from: Addr, out: &mut IcmpSlot) -> bool
    requires { content_of packet.now ≡ V6 (packet_at packet.now) }
    ensures made { result ≡ is_some (error_packet (packet_at packet.now) kind.now from.value) }
    ensures bytes { out.new.items
        ≡ error_bytes (error_packet (packet_at packet.now) kind.now from.value) }
{
    out.clear();
    let Ok(packet) = Ip6View::read(packet) else {
        unreachable!()
    };
    if is_unanswered(&packet, kind) {
        return false;
    }
    write_error(&packet, kind, from, out);
    true
}
