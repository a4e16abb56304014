//! What comes of a packet at a SID that decapsulates.

ghost use Rattle.std.specs.Prelude.{◌≡◌, false};
ghost use Rattle.srv6_rules.specs.Behaviours.{goes_on};
ghost use Rattle.srv6_rules.specs.Packet.{Packet, packet_at};
ghost use Rattle.srv6_rules.specs.CompressedSteps.{is_next};
ghost use Rattle.srv6_rules.specs.CompressedStepsTerms.{SuitsCompression};
ghost use Rattle.srv6_rules.specs.Endpoint.{at_last_upper, at_sid};
ghost use Rattle.ip6_headers.specs.Ip6Reading.{HoldsPacket};
ghost use Rattle.ip6_headers.specs.ChainStepping.{place_view};
ghost use Rattle.decap_behaviours.specs.DecapJudging.{IsExposure, IsWithin};

use crate::decap_headers::fault_of_header;
use endpoint_chain::{cut_fault, family_inside, is_allowed};
use ip6_headers::{ChainPlace, Fault, Ip6View, Stands, stands_at};
use srv6_rules::{Family, Reason, SidEntry};

/// What comes of a packet at a SID that decapsulates: the packet inside of a family from a place on
/// is exposed, the upper layer takes the packet, or it is dropped.
#[derive(Clone, Copy, Debug)]
pub(crate) enum Exposure {
    Expose { family: Family, at: usize },
    Deliver,
    Refuse { fault: Fault },
}

/// The upper layer at a place: a SID that exposes it exposes the packet inside, and another upper
/// layer is taken where it is allowed (RFC 8986 sections 4.1.1 and 4.4 to 4.8).
fn judge_upper(sid: &SidEntry, allow: &[u8], place: ChainPlace) -> Exposure
    ensures { (p : Packet) → IsWithin p place.at
        → IsExposure p (at_last_upper sid.now allow.now p (place_view place)) result }
{
    if sid.exposes(place.kind) {
        return Exposure::Expose {
            family: family_inside(place.kind),
            at: place.at,
        };
    }
    if is_allowed(allow, place.kind) {
        return Exposure::Deliver;
    }
    Exposure::Refuse {
        fault: Fault {
            reason: Reason::UpperLayer,
            at: place.at,
        },
    }
}

/// A packet at a SID that decapsulates, of a node that takes some upper layers at its SIDs. The
/// first header that is refused decides, and else the chain's end (RFC 8986 sections 4.4 to 4.8).
pub(crate) fn judge(sid: &SidEntry, allow: &[u8], bytes: &[u8]) -> Exposure
    requires ends { goes_on sid.now ≡ false }
    requires suits { SuitsCompression sid.now }
    requires usp { sid.now.usp ≡ false }
    requires next { is_next sid.now.csid ≡ false }
    requires packet { HoldsPacket bytes.now }
    ensures { IsExposure (packet_at bytes.now) (at_sid sid.now allow.now (packet_at bytes.now))
        result }
{
    let packet = Ip6View::over(bytes);
    packet.keeps_rules();
    let mut place = ChainPlace::first(packet.next_header());
    let mut rest = packet.payload();
    'headers: loop {
        match stands_at(place.kind, rest) {
            Stands::Upper => return judge_upper(sid, allow, place),
            Stands::Cut => {
                return Exposure::Refuse {
                    fault: cut_fault(place),
                };
            }
            Stands::Header { len } => {
                let (header, behind) = rest.split_at(len);
                if let Some(fault) = fault_of_header(sid, bytes, place, header) {
                    return Exposure::Refuse { fault };
                }
                place = place.behind(header);
                rest = behind;
            }
        }
    }
}
