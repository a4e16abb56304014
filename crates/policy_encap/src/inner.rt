//! The packet that is encapsulated, of either family.

ghost use Rattle.std.specs.Prelude.{◌≡◌, ◌<◌, ◌≤◌, length};
ghost use Rattle.srv6_rules.specs.PoliciesTerms.{inner_hop, inner_lowered_bytes};
ghost use Rattle.policy_encap.specs.Inner.{HoldsInner};

use ip6_headers::lower_ttl;
use srv6_rules::Family;
use srv6_rules::numbers::{HOP_LIMIT_AT, MAX_PACKET_LEN, TTL_AT};

/// How many the bytes of a packet are.
pub(crate) fn inner_len(inner: Family, bytes: &[u8]) -> usize
    requires { HoldsInner inner bytes.now }
    ensures len { result ≡ length bytes.now }
    ensures most { result ≤ MAX_PACKET_LEN }
{
    bytes.len()
}

/// The hop limit of an IPv6 packet, or the TTL of an IPv4 packet.
pub(crate) fn inner_hop(inner: Family, bytes: &[u8]) -> u8
    requires { HoldsInner inner bytes.now }
    ensures { result ≡ inner_hop inner bytes.now }
{
    match inner {
        Family::V6 => bytes[HOP_LIMIT_AT],
        Family::V4 => bytes[TTL_AT],
    }
}

/// Lowers it by one, in place; the checksum of an IPv4 packet follows (RFC 8986 section 5.1, RFC
/// 1624 section 3).
pub(crate) fn lower(inner: Family, bytes: &mut [u8])
    requires holds { HoldsInner inner bytes.old }
    requires some { 1 < inner_hop inner bytes.old }
    ensures { bytes.new ≡ inner_lowered_bytes inner bytes.old }
{
    match inner {
        Family::V6 => bytes[HOP_LIMIT_AT] -= 1,
        Family::V4 => lower_ttl(bytes),
    }
}
