//! What is found in a packet's chain, before anything is written.

ghost use Rattle.std.specs.Prelude.{◌≡◌, ℕ, ◌+◌, ◌*◌, ◌<◌, ◌≤◌, ◌^◌, length};
ghost use Rattle.arrayvec.specs.ArrayVec.{array_vec_len};
ghost use Rattle.srv6_rules.specs.Chain.{ChainPlace as PlaceValue};
ghost use Rattle.srv6_rules.specs.ChainTerms.{StandsIn};
ghost use Rattle.srv6_rules.specs.CompressedStepsTerms.{SuitsCompression};
ghost use Rattle.srv6_rules.specs.Endpoint.{Endpoint, at_upper, shifts_at};
ghost use Rattle.srv6_rules.specs.Packet.{Packet, header_len, packet_at};
ghost use Rattle.endpoint_chain.specs.Outcomes.{HoldsAlone};
ghost use Rattle.ip6_headers.specs.Ip6Reading.{HoldsPacket};
ghost use Rattle.ip6_headers.specs.ChainStepping.{place_view};
ghost use Rattle.end_behaviours.specs.HeaderFinding.{IsFound, IsWithin, at_sid_from};
ghost use Rattle.end_behaviours.specs.LastHeaders.{DecidedBehind, TakenOut};

use crate::end_headers::{Decision, Found, found_at};
use crate::last_headers::{LastHeader, LastHeaders};
use endpoint_chain::{cut_fault, family_inside, is_allowed};
use ip6_headers::{ChainPlace, Fault, Stands, stands_at};
use next_csid::shifts;
use srv6_rules::numbers::EXTENSION_UNIT;
use srv6_rules::{Csid, Reason, SidEntry};

/// The upper layer at a SID: the SID shifts in front of it too; else it is exposed, taken or
/// refused (RFC 8986 sections 4.1.1 and 4.16.3).
fn found_upper(sid: &SidEntry, shifts: bool, allow: &[u8], place: ChainPlace) -> Found
    ensures { (p : Packet) (first : ℕ) (rest : PlaceValue → Endpoint)
        → shifts ≡ shifts_at sid.now p → IsWithin p first place.at → length p.payload < 2 ^ 16
        → IsFound sid.now p first rest (at_upper sid.now allow.now p (place_view place)) result }
{
    if shifts {
        return Found::Decided(Decision::Shift);
    }
    if sid.exposes(place.kind) {
        return Found::Decided(Decision::Expose {
            family: family_inside(place.kind),
            at: place.at,
        });
    }
    if is_allowed(allow, place.kind) {
        return Found::Decided(Decision::Deliver);
    }
    Found::Decided(Decision::Refuse {
        fault: Fault {
            reason: Reason::UpperLayer,
            at: place.at,
        },
    })
}

/// The SID shifts a packet: it has NEXT-CSID, and the argument of the packet's destination is not 0
/// (RFC 9800 section 4.1).
fn shifts_at(sid: &SidEntry, bytes: &[u8]) -> bool
    requires suits { SuitsCompression sid.now }
    requires packet { HoldsPacket bytes.now }
    ensures { result ≡ shifts_at sid.now (packet_at bytes.now) }
{
    match sid.csid {
        Csid::Next => shifts(sid.compression(), bytes),
        Csid::Plain | Csid::Replace => false,
    }
}

/// What is found from a place of a packet's chain on.
pub(crate) fn find(sid: &SidEntry, allow: &[u8], bytes: &[u8], start: ChainPlace) -> Found
    requires suits { SuitsCompression sid.now }
    requires packet { HoldsAlone bytes.now }
    requires stands { StandsIn (packet_at bytes.now) (place_view start) }
    ensures { IsFound sid.now (packet_at bytes.now) start.at
        (at_sid_from sid.now allow.now (packet_at bytes.now))
        (at_sid_from sid.now allow.now (packet_at bytes.now) (place_view start)) result }
{
    let shifts = shifts_at(sid, bytes);
    let mut place = start;
    let mut rest = bytes.split_at(start.at).1;
    'headers: loop {
        match stands_at(place.kind, rest) {
            Stands::Upper => return found_upper(sid, shifts, allow, place),
            Stands::Cut => {
                return Found::Decided(Decision::Refuse {
                    fault: cut_fault(place),
                });
            }
            Stands::Header { len } => {
                let (header, behind) = rest.split_at(len);
                if let Some(found) = found_at(sid, shifts, bytes, place, header) {
                    return found;
                }
                place = place.behind(header);
                rest = behind;
            }
        }
    }
}

/// What decides what comes of a packet from a place of its chain on. The headers that stand in
/// front of it there and are taken out are put behind those that are taken out before them.
pub(crate) fn decide(
    sid: &SidEntry,
    allow: &[u8],
    bytes: &[u8],
    start: ChainPlace,
    lasts: &mut LastHeaders,
) -> Decision
    requires suits { SuitsCompression sid.now }
    requires packet { HoldsAlone bytes.now }
    requires stands { StandsIn (packet_at bytes.now) (place_view start) }
    requires room { header_len + EXTENSION_UNIT * array_vec_len lasts.old ≤ start.at }
    ensures { (e : Endpoint) → TakenOut (packet_at bytes.now) lasts.old.items start.at
        (at_sid_from sid.now allow.now (packet_at bytes.now) (place_view start)) e
        → DecidedBehind sid.now (packet_at bytes.now) lasts.new.items e result }
{
    let mut place = start;
    'lasts: loop {
        match find(sid, allow, bytes, place) {
            Found::Last { place: last, next } => {
                lasts.push(LastHeader::new(last, next.at - last.at));
                place = next;
            }
            Found::Decided(decision) => return decision,
        }
    }
}
