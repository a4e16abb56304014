//! What is done with an extension header at a SID that decapsulates.

ghost use Rattle.std.specs.Prelude.{◌≡◌, true, false};
ghost use Rattle.srv6_rules.specs.Behaviours.{goes_on};
ghost use Rattle.srv6_rules.specs.Packet.{packet_at};
ghost use Rattle.srv6_rules.specs.Chain.{is_segment_routing};
ghost use Rattle.srv6_rules.specs.ChainTerms.{LiesIn};
ghost use Rattle.srv6_rules.specs.CompressedSteps.{is_next};
ghost use Rattle.srv6_rules.specs.CompressedStepsTerms.{SuitsCompression};
ghost use Rattle.srv6_rules.specs.Endpoint.{at_header, at_sid_routing};
ghost use Rattle.ip6_headers.specs.Ip6Reading.{HoldsPacket};
ghost use Rattle.ip6_headers.specs.ChainStepping.{header_at};
ghost use Rattle.endpoint_chain.specs.ChainJudging.{IsHeaderFault};
ghost use Rattle.decap_behaviours.specs.DecapJudging.{has_ended};

use endpoint_chain::{bad_segments, header_fault, unknown_routing_fault};
use ip6_headers::{ChainPlace, Fault, Ip6View};
use replace_csid::is_at_end;
use srv6_rules::numbers::{ROUTING, ROUTING_TYPE_AT, SEGMENT_ROUTING, SEGMENTS_LEFT_AT};
use srv6_rules::{Csid, SidEntry};

/// No segment is left in the segment routing header at a place of a packet: Segments Left is 0, and
/// with REPLACE-CSID the destination's CSID is the last of the entry at 0 or its index is 0 (RFC
/// 8986 sections 4.4 to 4.8, RFC 9800 section 4.2).
fn has_ended(sid: &SidEntry, packet: &[u8], place: ChainPlace, header: &[u8]) -> bool
    requires suits { SuitsCompression sid.now }
    requires packet { HoldsPacket packet.now }
    requires lies { LiesIn (packet_at packet.now) (header_at place header.now) }
    requires routing { is_segment_routing (header_at place header.now) ≡ true }
    ensures { result ≡ has_ended sid.now (packet_at packet.now) (header_at place header.now) }
{
    match sid.csid {
        Csid::Plain | Csid::Next => header[SEGMENTS_LEFT_AT] == 0,
        Csid::Replace => is_at_end(sid.compression(), place.at, packet),
    }
}

/// Why a routing header is refused, or none where it is passed over: a segment routing header with
/// a segment left has bad segments (RFC 8986 sections 4.4 to 4.8), and another header with segments
/// left is unknown (RFC 8200 section 4.4).
fn routing_fault(sid: &SidEntry, packet: &[u8], place: ChainPlace, header: &[u8]) -> Option<Fault>
    requires ends { goes_on sid.now ≡ false }
    requires suits { SuitsCompression sid.now }
    requires usp { sid.now.usp ≡ false }
    requires packet { HoldsPacket packet.now }
    requires routing { place.kind ≡ ROUTING }
    requires lies { LiesIn (packet_at packet.now) (header_at place header.now) }
    ensures { IsHeaderFault
        (at_sid_routing sid.now (packet_at packet.now) (header_at place header.now)) result }
{
    Ip6View::over(packet).keeps_rules();
    if header[ROUTING_TYPE_AT] != SEGMENT_ROUTING {
        return unknown_routing_fault(place, header);
    }
    if has_ended(sid, packet, place, header) {
        return None;
    }
    Some(bad_segments(place.at))
}

/// Why a header is refused, or none where it is passed over.
pub(crate) fn fault_of_header(
    sid: &SidEntry,
    packet: &[u8],
    place: ChainPlace,
    header: &[u8],
) -> Option<Fault>
    requires ends { goes_on sid.now ≡ false }
    requires suits { SuitsCompression sid.now }
    requires usp { sid.now.usp ≡ false }
    requires next { is_next sid.now.csid ≡ false }
    requires packet { HoldsPacket packet.now }
    requires lies { LiesIn (packet_at packet.now) (header_at place header.now) }
    ensures { IsHeaderFault
        (at_header sid.now (packet_at packet.now) (header_at place header.now)) result }
{
    Ip6View::over(packet).keeps_rules();
    if place.kind == ROUTING {
        return routing_fault(sid, packet, place, header);
    }
    header_fault(place, header)
}
