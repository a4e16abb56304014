//! The headers in front of a packet, in bytes.

ghost use Rattle.std.specs.Prelude.{◌≡◌, ◌+◌, ◌-◌, ◌<◌, ◌≤◌, ◌++◌, ℕ, ◌*◌, ◌^◌, List, length, drop, reverse, All};
ghost use Rattle.srv6_rules.specs.Packet.{spelling};
ghost use Rattle.srv6_rules.specs.Encapsulation.{header_bytes};
ghost use Rattle.srv6_rules.specs.Policies.{inner_kind, outer_by};
ghost use Rattle.srv6_rules.specs.PoliciesTerms.{IsPolicy};
ghost use Rattle.srv6_rules.specs.Srh.{srh_spelling};
ghost use Rattle.srv6_rules.specs.declared.family.Family.{Family as FamilyValue};
ghost use Rattle.srh_codec.specs.Writing.{header_over, numbers_of};
ghost use Rattle.policy_encap.specs.PolicyHeaders.{FitsOuter, framed, listed, routing_bytes};

use pkt_buf::PktBuf;
use srh_codec::{SrhParts, write_srh};
use srv6_rules::numbers::{
    IPV4_INSIDE, IPV6_HEADER_LEN, IPV6_INSIDE, MAX_PACKET_LEN, MAX_SEGMENTS, ROUTING, SEGMENT_LEN,
    SEGMENT_LIST_AT,
};
use srv6_rules::{Family, Policy};
use v6_addr::Addr;

/// The greatest payload length: 65,535 (RFC 8200 section 3).
pub(crate) const MAX_PAYLOAD_LEN: usize = MAX_PACKET_LEN - IPV6_HEADER_LEN;

/// The most bytes of a policy's header: an IPv6 header and a segment routing header over 127
/// segments.
pub const MAX_FRONT: usize = IPV6_HEADER_LEN + SEGMENT_LIST_AT + SEGMENT_LEN * MAX_SEGMENTS;

/// The value that names a packet of a family inside a packet.
fn inner_kind(inner: Family) -> u8
    ensures { result ≡ inner_kind inner }
{
    match inner {
        Family::V6 => IPV6_INSIDE,
        Family::V4 => IPV4_INSIDE,
    }
}

/// The segments that the segment list has, in the order in which they are visited: in the reduced
/// form all but the first (RFC 8986 section 5.2).
fn listed(policy: &Policy, reduced: bool) -> &[Addr]
    requires { IsPolicy policy.now }
    ensures { result.now ≡ listed policy.now reduced }
{
    let segments = policy.segments.as_slice();
    if reduced {
        segments.split_at(1).1
    } else {
        segments
    }
}

/// The length of the segment routing header; there is none over no segments.
fn routing_len(listed: &[Addr]) -> usize
    requires { length listed.now ≤ MAX_SEGMENTS }
    ensures { result ≡ routing_bytes listed.now }
{
    if listed.is_empty() {
        0
    } else {
        SEGMENT_LIST_AT + SEGMENT_LEN * listed.len()
    }
}

/// The payload length of the outer packet round so many bytes.
pub(crate) fn payload_len(policy: &Policy, reduced: bool, inner_len: usize) -> usize
    requires policy { IsPolicy policy.now }
    requires inner { inner_len ≤ MAX_PACKET_LEN }
    ensures most { result ≤ SEGMENT_LIST_AT + SEGMENT_LEN * MAX_SEGMENTS + inner_len }
    ensures value { (inner : FamilyValue) (bytes : List ℕ) → length bytes ≡ inner_len
        → result ≡ length (outer_by policy.now reduced inner bytes).payload }
{
    routing_len(listed(policy, reduced)) + inner_len
}

/// The length of what is put in front of a packet.
pub(crate) fn front_len(policy: &Policy, reduced: bool) -> usize
    requires { IsPolicy policy.now }
    ensures { result ≡ header_bytes reduced (length policy.now.segments) }
{
    IPV6_HEADER_LEN + routing_len(listed(policy, reduced))
}

/// Puts the outer header in front of its payload, field by field from the last.
fn put_outer(buf: &mut PktBuf, policy: &Policy, next_header: u8)
    requires policy { IsPolicy policy.now }
    requires room { IPV6_HEADER_LEN ≤ buf.old.front }
    requires fits { length buf.old.bytes ≤ MAX_PAYLOAD_LEN }
    ensures { buf.new ≡ record {
      bytes = spelling (framed policy.now next_header buf.old.bytes);
      front = buf.old.front - IPV6_HEADER_LEN;
    } }
{
    let word = 0x6000_0000 + u32::from(policy.traffic_class) * 0x10_0000 + policy.flow_label;
    let len = buf.len() as u16;
    let destination = policy.segments.as_slice()[0];
    buf.put_front(&destination.value.to_be_bytes());
    buf.put_front(&policy.source.value.to_be_bytes());
    buf.put_front(&[next_header, policy.hop_limit]);
    buf.put_front(&len.to_be_bytes());
    buf.put_front(&word.to_be_bytes());
}

/// Writes the segment routing header over the listed segments, of which the last is visited last,
/// at the front of bytes (RFC 8754 sections 2 and 4.1).
fn write_routing(out: &mut [u8], listed: &[Addr], next_header: u8, segments_left: u8)
    requires some { 0 < length listed.now }
    requires most { length listed.now ≤ MAX_SEGMENTS }
    requires room { routing_bytes listed.now ≤ length out.old }
    ensures { out.new
        ≡ srh_spelling (header_over next_header segments_left (reverse (numbers_of listed.now)))
        ++ drop (routing_bytes listed.now) out.old }
{
    let mut room = [Addr { value: 0 }; MAX_SEGMENTS];
    let (entries, _) = room.split_at_mut(listed.len());
    entries.copy_from_slice(listed);
    entries.reverse();
    let parts = SrhParts {
        next_header,
        segments_left,
        entries,
    };
    let (header, _) = out.split_at_mut(routing_len(listed));
    write_srh(header, &parts);
}

/// Puts that header in front of a packet.
fn put_routing(buf: &mut PktBuf, listed: &[Addr], next_header: u8, segments_left: u8)
    requires some { 0 < length listed.now }
    requires most { length listed.now ≤ MAX_SEGMENTS }
    requires room { routing_bytes listed.now ≤ buf.old.front }
    ensures { buf.new ≡ record {
      bytes = srh_spelling
          (header_over next_header segments_left (reverse (numbers_of listed.now)))
          ++ buf.old.bytes;
      front = buf.old.front - routing_bytes listed.now;
    } }
{
    buf.open_front(routing_len(listed));
    write_routing(buf.view_mut(), listed, next_header, segments_left);
}

/// Puts a policy's headers in front of a packet of a family.
pub(crate) fn put_headers(buf: &mut PktBuf, policy: &Policy, reduced: bool, inner: Family)
    requires policy { IsPolicy policy.now }
    requires room { header_bytes reduced (length policy.now.segments) ≤ buf.old.front }
    requires fits { length (outer_by policy.now reduced inner buf.old.bytes).payload
        ≤ MAX_PAYLOAD_LEN }
    ensures { buf.new ≡ record {
      bytes = spelling (outer_by policy.now reduced inner buf.old.bytes);
      front = buf.old.front - header_bytes reduced (length policy.now.segments);
    } }
{
    let listed = listed(policy, reduced);
    if listed.is_empty() {
        put_outer(buf, policy, inner_kind(inner));
    } else {
        let segments_left = policy.segments.as_slice().len() - 1;
        put_routing(buf, listed, inner_kind(inner), segments_left as u8);
        put_outer(buf, policy, ROUTING);
    }
}

/// A byte is below 256.
fn byte_fits(n: u8)
    ensures { n < 2 ^ 8 }
{}

/// Bytes are below 256.
pub(crate) fn bytes_fit(bytes: &[u8])
    ensures { All (λ b. b < 2 ^ 8) bytes.now }
{}

/// An address is below 2 to the 128.
fn address_fits(a: Addr)
    ensures { a.value < 2 ^ 128 }
{
    let _ = a.value;
}

/// The fields of the outer header fit their widths.
pub(crate) fn outer_fits(policy: &Policy)
    requires { IsPolicy policy.now }
    ensures { FitsOuter policy.now }
{
    byte_fits(policy.traffic_class);
    byte_fits(policy.hop_limit);
    address_fits(policy.source);
    address_fits(policy.segments.as_slice()[0]);
}
