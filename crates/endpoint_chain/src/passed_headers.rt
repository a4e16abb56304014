//! What is done with an extension header, whatever comes after it.

ghost use Rattle.std.specs.Prelude.{◌≡◌, ◌≢◌, ◌+◌, ◌≤◌, true, length};
ghost use Rattle.srv6_rules.specs.Chain.{Header, is_extension};
ghost use Rattle.srv6_rules.specs.Endpoint.{Endpoint, at_header_by, unknown_routing};
ghost use Rattle.endpoint_chain.specs.ChainJudging.{IsHeaderFault};
ghost use Rattle.ip6_headers.specs.ChainStepping.{header_at};

use ip6_headers::{ChainPlace, Fault, options};
use srv6_rules::Reason;
use srv6_rules::numbers::{
    DESTINATION_OPTIONS, EXTENSION_UNIT, HOP_BY_HOP, MAX_PACKET_LEN, NEXT_HEADER_AT, ROUTING,
    ROUTING_TYPE_AT, SEGMENTS_LEFT_AT,
};

/// Why a header that is no routing header is refused, or none where it is passed over: Hop-by-Hop
/// Options where the IPv6 header names them, and Destination Options without a fault (RFC 8200
/// sections 4.1, 4.2 and 4.6); a Fragment header is not processed.
pub fn header_fault(place: ChainPlace, header: &[u8]) -> Option<Fault>
    requires extension { is_extension place.kind ≡ true }
    requires other { place.kind ≢ ROUTING }
    requires least { EXTENSION_UNIT ≤ length header.now }
    requires fits { place.at + length header.now ≤ MAX_PACKET_LEN }
    ensures { (route : Header → Endpoint → Endpoint)
        → IsHeaderFault (at_header_by route (header_at place header.now)) result }
{
    if place.kind == HOP_BY_HOP && place.named_at == NEXT_HEADER_AT {
        return None;
    }
    if place.kind == HOP_BY_HOP {
        return Some(Fault {
            reason: Reason::LateHopByHop,
            at: place.named_at,
        });
    }
    if place.kind == DESTINATION_OPTIONS {
        return match options(header, place.at) {
            Ok(()) => None,
            Err(fault) => Some(fault),
        };
    }
    Some(Fault {
        reason: Reason::Fragment,
        at: place.at,
    })
}

/// Why a routing header that the node does not know is refused, or none where no segments are left
/// (RFC 8200 section 4.4).
pub fn unknown_routing_fault(place: ChainPlace, header: &[u8]) -> Option<Fault>
    requires least { EXTENSION_UNIT ≤ length header.now }
    requires fits { place.at + length header.now ≤ MAX_PACKET_LEN }
    ensures { IsHeaderFault (unknown_routing (header_at place header.now)) result }
{
    if header[SEGMENTS_LEFT_AT] == 0 {
        return None;
    }
    Some(Fault {
        reason: Reason::UnknownRouting,
        at: place.at + ROUTING_TYPE_AT,
    })
}

/// The segments of the segment routing header at a place are out of range, or one is left where
/// none may be, which is a fault in Segments Left (RFC 8754 section 4.3.1.1, RFC 8986 sections 4.1
/// and 4.4 to 4.8).
pub fn bad_segments(at: usize) -> Fault
    requires { at ≤ MAX_PACKET_LEN }
    ensures { result ≡ record { reason = Reason.BadSegments; at = at + SEGMENTS_LEFT_AT } }
{
    Fault {
        reason: Reason::BadSegments,
        at: at + SEGMENTS_LEFT_AT,
    }
}

/// An extension header at a place is cut (RFC 8200 section 4; that the packet is dropped is an own
/// rule).
pub fn cut_fault(place: ChainPlace) -> Fault
    ensures { result ≡ record { reason = Reason.BadChain; at = place.at } }
{
    Fault {
        reason: Reason::BadChain,
        at: place.at,
    }
}
