//! What a node does with a packet that came to its own address.

ghost use Rattle.std.specs.Prelude.{◌≡◌, ◌+◌, ◌≤◌, true, length};
ghost use Rattle.srv6_rules.specs.Chain.{is_extension};
ghost use Rattle.srv6_rules.specs.Endpoint.{at_address, at_address_header};
ghost use Rattle.endpoint_chain.specs.ChainJudging.{IsFaultOf, IsHeaderFault};
ghost use Rattle.ip6_headers.specs.ChainStepping.{header_at};

use crate::passed_headers::{cut_fault, header_fault, unknown_routing_fault};
use ip6_headers::{ChainPlace, Fault, Ip6View, Stands, stands_at};
use srv6_rules::numbers::{EXTENSION_UNIT, MAX_PACKET_LEN, ROUTING};

/// Why a header is refused at the node's own address, where every routing header is unknown, or
/// none where it is passed over (RFC 8200 section 4).
fn fault_of_header(place: ChainPlace, header: &[u8]) -> Option<Fault>
    requires extension { is_extension place.kind ≡ true }
    requires least { EXTENSION_UNIT ≤ length header.now }
    requires fits { place.at + length header.now ≤ MAX_PACKET_LEN }
    ensures { IsHeaderFault (at_address_header (header_at place header.now)) result }
{
    if place.kind == ROUTING {
        return unknown_routing_fault(place, header);
    }
    header_fault(place, header)
}

/// A packet at the node's own address: why it is dropped, or none where its upper layer takes it
/// (RFC 8200 section 4.4, RFC 8754 section 4.3.2).
pub fn fault_at_address(packet: &Ip6View<'_>) -> Option<Fault>
    ensures { IsFaultOf packet.now (at_address packet.now) result }
{
    packet.keeps_rules();
    let mut place = ChainPlace::first(packet.next_header());
    let mut rest = packet.payload();
    'headers: loop {
        match stands_at(place.kind, rest) {
            Stands::Upper => return None,
            Stands::Cut => return Some(cut_fault(place)),
            Stands::Header { len } => {
                let (header, behind) = rest.split_at(len);
                if let Some(fault) = fault_of_header(place, header) {
                    return Some(fault);
                }
                place = place.behind(header);
                rest = behind;
            }
        }
    }
}
