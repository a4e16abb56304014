//! The step over a whole segment, judged.

ghost use Rattle.std.specs.Prelude.{◌≡◌, ◌<◌};
ghost use Rattle.srv6_rules.specs.Chain.{segments_left};
ghost use Rattle.srv6_rules.specs.ChainTerms.{LiesIn};
ghost use Rattle.srv6_rules.specs.Endpoint.{has_bad_segments};
ghost use Rattle.srv6_rules.specs.Packet.{packet_at};
ghost use Rattle.srv6_rules.specs.Srh.{srh_of};
ghost use Rattle.ip6_headers.specs.Ip6Reading.{HoldsPacket};
ghost use Rattle.ip6_headers.specs.ChainStepping.{header_at, place_view};
ghost use Rattle.end_behaviours.specs.HeaderFinding.{LiesAt, header_of};
ghost use Rattle.end_behaviours.specs.SrhStepping.{IsSegmentStep};

use endpoint_chain::bad_segments;
use ip6_headers::{ChainPlace, Fault, Ip6View};
use srh_codec::{SrhView, tlvs};
use srv6_rules::Reason;
use srv6_rules::numbers::{IPV6_HEADER_LEN, ROUTING};
use v6_addr::Addr;

/// The step over a segment routing header: Segments Left and the destination after it, or why the
/// packet is dropped.
#[derive(Clone, Copy, Debug)]
pub(crate) enum SegmentStep {
    Advance { left: u8, destination: Addr },
    Refuse { fault: Fault },
}

/// Last Entry passes the entries that are there, or Segments Left passes Last Entry by more than 1.
fn has_bad_segments(srh: &SrhView<'_>) -> bool
    ensures { result ≡ has_bad_segments srh.now }
{
    let last_entry = usize::from(srh.last_entry());
    srh.entries() < last_entry + 1 || last_entry + 1 < usize::from(srh.segments_left())
}

/// The step over the segment routing header at a place, with segments left: the hop limit is
/// judged, then the segments, then the type-length-value area (RFC 8754 section 4.3.1.1).
fn judge_step(packet: &Ip6View<'_>, place: ChainPlace, header: &[u8]) -> SegmentStep
    requires routing { place.kind ≡ ROUTING }
    requires lies { LiesIn packet.now (header_at place header.now) }
    requires left { 0 < segments_left (header_at place header.now) }
    ensures { IsSegmentStep packet.now place.at (srh_of header.now) result }
{
    packet.keeps_rules();
    let Ok(srh) = SrhView::read(header) else {
        unreachable!();
    };
    if packet.hop_limit() <= 1 {
        return SegmentStep::Refuse {
            fault: Fault::of(Reason::HopLimit),
        };
    }
    if has_bad_segments(&srh) {
        return SegmentStep::Refuse {
            fault: bad_segments(place.at),
        };
    }
    if let Err(fault) = tlvs(&srh, place.at) {
        return SegmentStep::Refuse { fault };
    }
    let left = srh.segments_left() - 1;
    SegmentStep::Advance {
        left,
        destination: srh.entry(usize::from(left)),
    }
}

/// The same in a packet's bytes, of the header of so many bytes at a place.
pub(crate) fn judge_bytes(bytes: &[u8], place: ChainPlace, len: usize) -> SegmentStep
    requires packet { HoldsPacket bytes.now }
    requires header { LiesAt (packet_at bytes.now) place.at (place_view place) len }
    requires left { 0 < segments_left
        (header_of (packet_at bytes.now) (place_view place) len) }
    ensures { IsSegmentStep (packet_at bytes.now) place.at
        (srh_of (header_of (packet_at bytes.now) (place_view place) len).bytes) result }
{
    let packet = Ip6View::over(bytes);
    let rest = packet.payload().split_at(place.at - IPV6_HEADER_LEN).1;
    judge_step(&packet, place, rest.split_at(len).0)
}
