//! What is done at a header, before anything is written.

ghost use Rattle.std.specs.Prelude.{◌≡◌, ◌≤◌, ◌&&◌, ℕ, List, false, true, not, IfSome};
ghost use Rattle.srv6_rules.specs.declared.sid.SidEntry.{SidEntry as SidValue};
ghost use Rattle.srv6_rules.specs.Chain.{Header, is_segment_routing};
ghost use Rattle.srv6_rules.specs.ChainTerms.{LiesIn, StandsIn};
ghost use Rattle.srv6_rules.specs.CompressedStepsTerms.{SuitsCompression};
ghost use Rattle.srv6_rules.specs.Endpoint.{at_header, is_options, shifts_at};
ghost use Rattle.srv6_rules.specs.Packet.{Packet, packet_at};
ghost use Rattle.endpoint_chain.specs.ChainJudging.{IsHeaderFault};
ghost use Rattle.ip6_headers.specs.Ip6Reading.{HoldsPacket};
ghost use Rattle.ip6_headers.specs.ChainStepping.{header_at, place_view};
ghost use Rattle.end_behaviours.specs.HeaderFinding.{IsFoundAt, is_last};

use endpoint_chain::{header_fault, unknown_routing_fault};
use ip6_headers::{ChainPlace, Fault};
use replace_csid::is_at_end;
use srv6_rules::numbers::{
    DESTINATION_OPTIONS, HOP_BY_HOP, MAX_PACKET_LEN, ROUTING, ROUTING_TYPE_AT, SEGMENT_ROUTING,
    SEGMENTS_LEFT_AT,
};
use srv6_rules::{Csid, Family, SidEntry};

/// What decides what comes of a packet from a place of its chain on, after headers that are passed
/// over or taken out. Places are in bytes from the packet's first.
#[derive(Clone, Copy, Debug)]
pub(crate) enum Decision {
    /// The SID shifts.
    Shift,
    /// The step is taken over the segment routing header at a place.
    Step { place: ChainPlace, len: usize },
    /// The packet inside, of a family and from a place on, is exposed.
    Expose { family: Family, at: usize },
    /// The upper layer takes the packet.
    Deliver,
    /// The packet is dropped.
    Refuse { fault: Fault },
}

/// What is found from a place of a packet's chain on, after headers that are passed over.
#[derive(Clone, Copy, Debug)]
pub(crate) enum Found {
    /// The segment routing header at a place is at its end, and the SID takes it out; what comes of
    /// the packet is found after it.
    Last { place: ChainPlace, next: ChainPlace },
    /// What comes of the packet is decided.
    Decided(Decision),
}

/// The segment routing header at a place is at its end for a SID.
fn is_last(sid: &SidEntry, bytes: &[u8], place: ChainPlace, header: &[u8]) -> bool
    requires suits { SuitsCompression sid.now }
    requires packet { HoldsPacket bytes.now }
    requires lies { LiesIn (packet_at bytes.now) (header_at place header.now) }
    requires routing { is_segment_routing (header_at place header.now) ≡ true }
    ensures { result ≡ is_last sid.now (packet_at bytes.now) (header_at place header.now) }
{
    match sid.csid {
        Csid::Replace => is_at_end(sid.compression(), place.at, bytes),
        Csid::Plain | Csid::Next => header[SEGMENTS_LEFT_AT] == 0,
    }
}

/// A header that a fault refuses, or none where it is passed over.
fn refused(fault: Option<Fault>) -> Option<Found>
    ensures { (s : SidValue) (p : Packet) (h : Header)
        → IsHeaderFault (at_header s p h) fault → IfSome fault (λ f. f.at ≤ MAX_PACKET_LEN)
        → IsFoundAt s p h result }
{
    match fault {
        Some(fault) => Some(Found::Decided(Decision::Refuse { fault })),
        None => None,
    }
}

/// A segment routing header at a SID: at its end it is passed over, or taken out with
/// USP, and else the step is taken over it (RFC 8986 sections 4.1 and 4.16.2, RFC 9800 section
/// 4.2).
fn found_at_segments(
    sid: &SidEntry,
    bytes: &[u8],
    place: ChainPlace,
    header: &[u8],
) -> Option<Found>
    requires suits { SuitsCompression sid.now }
    requires packet { HoldsPacket bytes.now }
    requires lies { LiesIn (packet_at bytes.now) (header_at place header.now) }
    requires stands { StandsIn (packet_at bytes.now) (place_view place) }
    requires unshifted { shifts_at sid.now (packet_at bytes.now) ≡ false }
    requires routing { is_segment_routing (header_at place header.now) ≡ true }
    ensures { IsFoundAt sid.now (packet_at bytes.now) (header_at place header.now) result }
{
    if !is_last(sid, bytes, place, header) {
        return Some(Found::Decided(Decision::Step {
            place,
            len: header.len(),
        }));
    }
    if !sid.usp {
        return None;
    }
    Some(Found::Last {
        place,
        next: place.behind(header),
    })
}

/// A routing header at a SID; one that the node does not know is passed over with no segments left
/// and else refused (RFC 8200 section 4.4).
fn found_at_routing(sid: &SidEntry, bytes: &[u8], place: ChainPlace, header: &[u8]) -> Option<Found>
    requires suits { SuitsCompression sid.now }
    requires packet { HoldsPacket bytes.now }
    requires lies { LiesIn (packet_at bytes.now) (header_at place header.now) }
    requires stands { StandsIn (packet_at bytes.now) (place_view place) }
    requires unshifted { shifts_at sid.now (packet_at bytes.now) ≡ false }
    requires routing { place.kind ≡ ROUTING }
    ensures { IsFoundAt sid.now (packet_at bytes.now) (header_at place header.now) result }
{
    if header[ROUTING_TYPE_AT] != SEGMENT_ROUTING {
        return refused(unknown_routing_fault(place, header));
    }
    found_at_segments(sid, bytes, place, header)
}

/// A SID that shifts does so at the header that stands at a place: at any but options.
fn shifts_in_front(shifts: bool, place: ChainPlace) -> bool
    ensures { (bytes : List ℕ)
        → result ≡ (shifts && not (is_options (header_at place bytes))) }
{
    shifts && place.kind != HOP_BY_HOP && place.kind != DESTINATION_OPTIONS
}

/// What is found at a header, or none where it is passed over. Where the SID shifts, it does
/// so at the first header that has no options, without a look inside.
pub(crate) fn found_at(
    sid: &SidEntry,
    shifts: bool,
    bytes: &[u8],
    place: ChainPlace,
    header: &[u8],
) -> Option<Found>
    requires shifts { shifts ≡ shifts_at sid.now (packet_at bytes.now) }
    requires suits { SuitsCompression sid.now }
    requires packet { HoldsPacket bytes.now }
    requires lies { LiesIn (packet_at bytes.now) (header_at place header.now) }
    requires stands { StandsIn (packet_at bytes.now) (place_view place) }
    ensures { IsFoundAt sid.now (packet_at bytes.now) (header_at place header.now) result }
{
    if shifts_in_front(shifts, place) {
        return Some(Found::Decided(Decision::Shift));
    }
    if place.kind == ROUTING {
        return found_at_routing(sid, bytes, place, header);
    }
    refused(header_fault(place, header))
}
