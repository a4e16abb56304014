//! A packet at a SID that goes on.

ghost use Rattle.std.specs.Prelude.{◌≡◌, ◌-◌, ◌≤◌, ℕ, true, length};
ghost use Rattle.srv6_rules.specs.Behaviours.{goes_on};
ghost use Rattle.srv6_rules.specs.ChainTerms.{StandsIn};
ghost use Rattle.srv6_rules.specs.CompressedStepsTerms.{SuitsCompression};
ghost use Rattle.srv6_rules.specs.Endpoint.{Endpoint, at_sid, outcome_without};
ghost use Rattle.srv6_rules.specs.Packet.{packet_at};
ghost use Rattle.endpoint_chain.specs.ChainFronts.{FrontAfter};
ghost use Rattle.endpoint_chain.specs.Outcomes.{ComesOf, HoldsAlone};
ghost use Rattle.ip6_headers.specs.ChainStepping.{place_view};
ghost use Rattle.end_behaviours.specs.HeaderFinding.{CanBeDone, IsDecided, LiesAt, at_sid_from, header_of};
ghost use Rattle.end_behaviours.specs.SrhStepping.{Reaches};

use crate::end_headers::{Decision, Found};
use crate::header_finding::{decide, find};
use crate::last_headers::{LastHeader, LastHeaders};
use crate::writing::{shift_on, step_over, take_out_all, take_out_of};
use endpoint_chain::EndOutcome;
use ip6_headers::{ChainPlace, Ip6View};
use pkt_buf::PktBuf;
use srv6_rules::SidEntry;

/// What is decided is done.
fn carry_out(sid: &SidEntry, buf: &mut PktBuf, decision: Decision) -> EndOutcome
    requires goes_on { goes_on sid.now ≡ true }
    requires suits { SuitsCompression sid.now }
    requires packet { HoldsAlone buf.old.bytes }
    requires can { CanBeDone sid.now (packet_at buf.old.bytes) decision }
    ensures outcome { (first : ℕ) (e : Endpoint)
        → IsDecided sid.now (packet_at buf.old.bytes) first e decision
        → ComesOf e buf.old.bytes buf.new.bytes result }
    ensures reaches { (first : ℕ) (e : Endpoint)
        → IsDecided sid.now (packet_at buf.old.bytes) first e decision
        → first ≤ length buf.old.bytes → Reaches first buf.new.bytes result }
    ensures front { FrontAfter buf.old buf.new result }
{
    match decision {
        Decision::Shift => shift_on(sid, buf),
        Decision::Step { place, len } => step_over(sid, buf, place, len),
        Decision::Expose { family, at } => {
            buf.drop_front(at);
            EndOutcome::Hand { family }
        }
        Decision::Deliver => EndOutcome::Local,
        Decision::Refuse { fault } => EndOutcome::dropped(fault),
    }
}

/// What comes of a packet whose segment routing header at a place is taken out, with those after it
/// that are taken out too. They go from the last to the first, once it is known what comes of the
/// packet. The stack has room for the places of as many as a packet has room for, and all of it is
/// written, so this is for packets out of which more than one goes.
#[cold]
#[inline(never)]
fn step_without_all(
    sid: &SidEntry,
    allow: &[u8],
    buf: &mut PktBuf,
    place: ChainPlace,
    next: ChainPlace,
) -> EndOutcome
    requires goes_on { goes_on sid.now ≡ true }
    requires suits { SuitsCompression sid.now }
    requires packet { HoldsAlone buf.old.bytes }
    requires header { LiesAt (packet_at buf.old.bytes) place.at (place_view place)
        (next.at - place.at) }
    requires stands { StandsIn (packet_at buf.old.bytes) (place_view next) }
    ensures outcome { ComesOf (outcome_without
        (header_of (packet_at buf.old.bytes) (place_view place) (next.at - place.at))
        (at_sid_from sid.now allow.now (packet_at buf.old.bytes) (place_view next)))
        buf.old.bytes buf.new.bytes result }
    ensures front { FrontAfter buf.old buf.new result }
{
    let mut lasts = LastHeaders::new();
    lasts.push(LastHeader::new(place, next.at - place.at));
    let decision = decide(sid, allow, buf.view(), next, &mut lasts);
    let outcome = carry_out(sid, buf, decision);
    take_out_all(outcome, buf, &mut lasts);
    outcome
}

/// The same, without that room where the header at the place is the only one that is taken out.
fn step_without(
    sid: &SidEntry,
    allow: &[u8],
    buf: &mut PktBuf,
    place: ChainPlace,
    next: ChainPlace,
) -> EndOutcome
    requires goes_on { goes_on sid.now ≡ true }
    requires suits { SuitsCompression sid.now }
    requires packet { HoldsAlone buf.old.bytes }
    requires header { LiesAt (packet_at buf.old.bytes) place.at (place_view place)
        (next.at - place.at) }
    requires stands { StandsIn (packet_at buf.old.bytes) (place_view next) }
    ensures outcome { ComesOf (outcome_without
        (header_of (packet_at buf.old.bytes) (place_view place) (next.at - place.at))
        (at_sid_from sid.now allow.now (packet_at buf.old.bytes) (place_view next)))
        buf.old.bytes buf.new.bytes result }
    ensures front { FrontAfter buf.old buf.new result }
{
    match find(sid, allow, buf.view(), next) {
        Found::Last { .. } => step_without_all(sid, allow, buf, place, next),
        Found::Decided(decision) => {
            let outcome = carry_out(sid, buf, decision);
            take_out_of(outcome, buf, place, next.at - place.at);
            outcome
        }
    }
}

/// A packet at a SID that goes on, in its bytes, of a node that takes some upper layers at its SIDs
/// (RFC 8986 sections 4.1 to 4.3, 4.13, 4.14 and 4.16, RFC 9800 sections 4.1 and 4.2); of a binding
/// SID it is the step alone, without the policy's header.
///
/// The headers are gone over from the first. `On` comes where the SID shifts the destination, with
/// NEXT-CSID and an argument that is not 0, at the first header but options; or where the step over
/// a segment routing header that is not at its end was taken: the hop limit, the destination and
/// Segments Left are written in their places, and with PSP the header is taken out where no segment
/// is left then. `Hand` comes where the upper layer is an IPv6 or IPv4 packet and the SID has USD:
/// the bytes are those of the packet inside, and all before them become spare. `Local` comes where
/// the upper layer is one of `allow`. With USP each segment routing header at its end that stands
/// in front is taken out, but only where the packet goes on or is delivered. Where a header is
/// taken out, the payload length is as much lower, and the field that named the header names what
/// stood after it. `Drop` has the reason, and the place of the fault in bytes from the first of
/// the packet as it came, 0 where the reason has none; no byte changes then. But for `Hand` as many
/// bytes are spare in front as before.
///
/// It takes no memory. Where USP takes out more than one header, their places, at most 8,191, lie on
/// the stack.
pub fn end_step(sid: &SidEntry, allow: &[u8], buf: &mut PktBuf) -> EndOutcome
    requires goes_on { goes_on sid.now ≡ true }
    requires suits { SuitsCompression sid.now }
    requires packet { HoldsAlone buf.old.bytes }
    ensures outcome { ComesOf (at_sid sid.now allow.now (packet_at buf.old.bytes))
        buf.old.bytes buf.new.bytes result }
    ensures front { FrontAfter buf.old buf.new result }
{
    let next_header = Ip6View::over(buf.view()).next_header();
    match find(sid, allow, buf.view(), ChainPlace::first(next_header)) {
        Found::Last { place, next } => step_without(sid, allow, buf, place, next),
        Found::Decided(decision) => carry_out(sid, buf, decision),
    }
}
