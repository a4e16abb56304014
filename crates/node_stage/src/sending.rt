//! Packets sent over one of a set of equal next hops.

ghost use Rattle.std.specs.Prelude.{◌≡◌, ℕ, true, not, nat_le, ◌<◌, ◌≤◌, length};
ghost use Rattle.srv6_rules.specs.Packet.{V4, V6};
ghost use Rattle.srv6_rules.specs.Packet4.{ttl};
ghost use Rattle.walk_rules.specs.Treatment.{judged, lowered, member_of, sent, sent4, ttl_lowered};
ghost use Rattle.node_stage.specs.Fronted.{fronted};
ghost use Rattle.node_stage.specs.StageAnswers.{FrontOf, gave_of};

use crate::content_buf::ContentBuf;
use crate::ip4_packet::Packet4;
use crate::ip6_packet::Packet;
use crate::stage_result::{Staged, dropped_for, too_long};
use net_model::Net;
use srv6_rules::Reason;
use walk_rules::{Outcome, mtu_at};

/// The member of a set of equal next hops that a choice names.
fn member_of(links: &[u32], choice: u32) -> u32
    requires { 0 < length links.now }
    ensures { result ≡ member_of links.now choice }
{
    links[choice as usize % links.len()]
}

/// The packet, with its hop limit lowered or not.
fn lowered(lower: bool, mut packet: Packet) -> Packet
    requires { lower ≡ true → 1 ≤ packet.packet.hop_limit }
    ensures packet { result.packet ≡ lowered lower packet.packet }
    ensures front { result.front ≡ packet.front }
{
    if lower {
        packet.lower_hop_limit();
    }
    packet
}

/// Whether a packet of so many bytes is too long for a link with an MTU (RFC 8200 section 5).
fn exceeds(len: usize, mtu: u32) -> bool
    ensures { result ≡ not (nat_le len mtu) }
{
    len > mtu as usize
}

/// An IPv6 packet over one of a set of equal next hops: the hop limit is judged, then a member is
/// taken, and the packet's length is judged by that link's MTU, before anything of the packet
/// changes (RFC 8200 sections 3 and 5).
pub(crate) fn sent(net: &Net, links: &[u32], lower: bool, packet: Packet, choice: u32) -> Staged
    requires { 0 < length links.now }
    ensures gave { (node : ℕ) → gave_of net.now node result
        ≡ judged net.now node (V6 packet.packet)
        (sent net.now node links.now lower packet.packet choice) }
    ensures front { (node : ℕ) → FrontOf net.now node
        (fronted (V6 packet.packet) packet.front) result }
{
    if lower && packet.hop_limit() <= 1 {
        return dropped_for(Reason::HopLimit, ContentBuf::of(packet));
    }
    let link = member_of(links, choice);
    let mtu = mtu_at(net, link);
    if exceeds(packet.len(), mtu) {
        return too_long(mtu, ContentBuf::of(packet));
    }
    Staged::Goes {
        outcome: Outcome::Send { link },
        after: ContentBuf::of(lowered(lower, packet)),
    }
}

/// The packet, with its time to live lowered or not.
fn ttl_lowered(lower: bool, mut packet: Packet4) -> Packet4
    requires { lower ≡ true → 1 ≤ ttl packet.packet }
    ensures packet { result.packet ≡ ttl_lowered lower packet.packet }
    ensures front { result.front ≡ packet.front }
{
    if lower {
        packet.lower_ttl();
    }
    packet
}

/// An IPv4 packet over one of a set of equal next hops, likewise (RFC 791 section 3.2).
pub(crate) fn sent4(net: &Net, links: &[u32], lower: bool, packet: Packet4, choice: u32) -> Staged
    requires { 0 < length links.now }
    ensures gave { (node : ℕ) → gave_of net.now node result
        ≡ judged net.now node (V4 packet.packet)
        (sent4 net.now node links.now lower packet.packet choice) }
    ensures front { (node : ℕ) → FrontOf net.now node
        (fronted (V4 packet.packet) packet.front) result }
{
    if lower && packet.ttl() <= 1 {
        return dropped_for(Reason::Ttl, ContentBuf::of4(packet));
    }
    let link = member_of(links, choice);
    let mtu = mtu_at(net, link);
    if exceeds(packet.len(), mtu) {
        return too_long(mtu, ContentBuf::of4(packet));
    }
    Staged::Goes {
        outcome: Outcome::Send { link },
        after: ContentBuf::of4(ttl_lowered(lower, packet)),
    }
}
