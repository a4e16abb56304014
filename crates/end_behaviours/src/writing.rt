//! What is written into a packet's bytes.

ghost use Rattle.std.specs.Prelude.{◌≡◌, ◌⊎◌, ◌+◌, ◌<◌, ◌≤◌, ◌&&◌, ℕ, List, true, false, length, if◌then◌else◌};
ghost use Rattle.srv6_rules.specs.Chain.{Header, without};
ghost use Rattle.srv6_rules.specs.CompressedSteps.{compression_of, is_replace, replace_step};
ghost use Rattle.srv6_rules.specs.CompressedStepsTerms.{SuitsCompression};
ghost use Rattle.srv6_rules.specs.Behaviours.{goes_on};
ghost use Rattle.srv6_rules.specs.Endpoint.{Endpoint, after_step, at_segment_routing, by_replace_step, next_csid, next_segment, outcome_without, shifts_at};
ghost use Rattle.srv6_rules.specs.Packet.{header_len, packet_at};
ghost use Rattle.srv6_rules.specs.PacketTerms.{Spells};
ghost use Rattle.srv6_rules.specs.Srh.{srh_of};
ghost use Rattle.endpoint_chain.specs.ChainFronts.{FrontAfter};
ghost use Rattle.endpoint_chain.specs.Outcomes.{ComesOf, HoldsAlone};
ghost use Rattle.ip6_headers.specs.Ip6Reading.{HoldsPacket};
ghost use Rattle.replace_csid.specs.Replacing.{with_move};
ghost use Rattle.ip6_headers.specs.ChainStepping.{place_view};
ghost use Rattle.pkt_buf.specs.BufferView.{Buffer};
ghost use Rattle.end_behaviours.specs.HeaderFinding.{LiesAt, header_of, is_last};
ghost use Rattle.end_behaviours.specs.LastHeaders.{CanTakeOut, TakesFrom};
ghost use Rattle.end_behaviours.specs.SrhStepping.{Reaches, Remains, move_to};

use crate::last_headers::LastHeaders;
use crate::stepping::{SegmentStep, judge_bytes};
use endpoint_chain::{EndOutcome, take_out};
use ip6_headers::{ChainPlace, Ip6Edit, Ip6View};
use next_csid::{ShiftOutcome, shift};
use pkt_buf::PktBuf;
use replace_csid::{ReplaceOutcome, replace};
use srv6_rules::numbers::{MAX_PACKET_LEN, NEXT_HEADER_AT, SEGMENTS_LEFT_AT};
use srv6_rules::{Csid, Reason, SidEntry};
use v6_addr::Addr;

/// The next SID is moved up in the destination (RFC 9800 section 4.1).
pub(crate) fn shift_on(sid: &SidEntry, buf: &mut PktBuf) -> EndOutcome
    requires suits { SuitsCompression sid.now }
    requires packet { HoldsAlone buf.old.bytes }
    requires shifts { shifts_at sid.now (packet_at buf.old.bytes) ≡ true }
    ensures outcome { ComesOf (next_csid sid.now (packet_at buf.old.bytes))
        buf.old.bytes buf.new.bytes result }
    ensures long { length buf.new.bytes ≡ length buf.old.bytes }
    ensures front { FrontAfter buf.old buf.new result }
{
    match shift(sid.compression(), buf.view_mut()) {
        ShiftOutcome::Shifted => EndOutcome::On,
        ShiftOutcome::Drop => EndOutcome::Drop {
            reason: Reason::HopLimit,
            at: 0,
        },
    }
}

/// Writes a step: Segments Left of the header at a place, the hop limit and the destination.
fn write_step(bytes: &mut [u8], at: usize, left: u8, destination: Addr)
    requires packet { HoldsPacket bytes.old }
    requires within { at + SEGMENTS_LEFT_AT < length bytes.old }
    requires place { at ≤ MAX_PACKET_LEN }
    requires hop_limit { 1 ≤ (packet_at bytes.old).hop_limit }
    ensures { bytes.new ≡ with_move bytes.old at (move_to left destination.value) }
{
    let hop_limit = Ip6View::over(bytes).hop_limit();
    bytes[at + SEGMENTS_LEFT_AT] = left;
    let mut edit = Ip6Edit::over(bytes);
    edit.set_hop_limit(hop_limit - 1);
    edit.set_destination(destination);
}

/// With PSP the header of so many bytes at a place is taken out where no segment is left.
fn pop(sid: &SidEntry, ended: bool, buf: &mut PktBuf, place: ChainPlace, len: usize)
    requires packet { HoldsAlone buf.old.bytes }
    requires behind { header_len ≤ place.at }
    requires earlier { place.named_at < place.at }
    requires field { (place.named_at ≡ NEXT_HEADER_AT) ⊎ (header_len ≤ place.named_at) }
    requires some { 1 ≤ len }
    requires within { place.at + len ≤ length buf.old.bytes }
    ensures packet { Spells buf.new.bytes (if sid.now.psp && ended
        then without (packet_at buf.old.bytes)
        (header_of (packet_at buf.old.bytes) (place_view place) len)
        else packet_at buf.old.bytes) }
    ensures long { place.at ≤ length buf.new.bytes }
    ensures front { buf.new.front ≡ buf.old.front }
{
    if sid.psp && ended {
        take_out(buf, place, len);
    }
}

/// The step over the segment routing header of so many bytes at a place, one that is not at its
/// end, by whole segments; with PSP the header is taken out where Segments Left becomes 0 (RFC 8986
/// sections 4.1 and 4.16.1).
fn step_whole(sid: &SidEntry, buf: &mut PktBuf, place: ChainPlace, len: usize) -> EndOutcome
    requires whole { is_replace sid.now.csid ≡ false }
    requires packet { HoldsAlone buf.old.bytes }
    requires header { LiesAt (packet_at buf.old.bytes) place.at (place_view place) len }
    requires more { is_last sid.now (packet_at buf.old.bytes)
        (header_of (packet_at buf.old.bytes) (place_view place) len) ≡ false }
    ensures outcome { ComesOf (let h = header_of (packet_at buf.old.bytes) (place_view place) len in
        after_step sid.now h (next_segment (packet_at buf.old.bytes) place.at (srh_of h.bytes)))
        buf.old.bytes buf.new.bytes result }
    ensures reaches { Reaches place.at buf.new.bytes result }
    ensures front { FrontAfter buf.old buf.new result }
{
    match judge_bytes(buf.view(), place, len) {
        SegmentStep::Advance { left, destination } => {
            write_step(buf.view_mut(), place.at, left, destination);
            pop(sid, left == 0, buf, place, len);
            EndOutcome::On
        }
        SegmentStep::Refuse { fault } => EndOutcome::dropped(fault),
    }
}

/// The step over the segment routing header of so many bytes at a place, one that is not at its
/// end, by packed segments; with PSP the header is taken out where no segment is left then (RFC
/// 9800 section 4.2).
fn step_packed(sid: &SidEntry, buf: &mut PktBuf, place: ChainPlace, len: usize) -> EndOutcome
    requires packed { is_replace sid.now.csid ≡ true }
    requires suits { SuitsCompression sid.now }
    requires packet { HoldsAlone buf.old.bytes }
    requires header { LiesAt (packet_at buf.old.bytes) place.at (place_view place) len }
    requires more { is_last sid.now (packet_at buf.old.bytes)
        (header_of (packet_at buf.old.bytes) (place_view place) len) ≡ false }
    ensures outcome { (behind : Endpoint) →
        ComesOf (let h = header_of (packet_at buf.old.bytes) (place_view place) len in
        by_replace_step sid.now h behind (replace_step (compression_of sid.now)
        (packet_at buf.old.bytes) place.at (srh_of h.bytes)))
        buf.old.bytes buf.new.bytes result }
    ensures reaches { Reaches place.at buf.new.bytes result }
    ensures front { FrontAfter buf.old buf.new result }
{
    match replace(sid.compression(), place.at, buf.view_mut()) {
        ReplaceOutcome::Moved { end } => {
            pop(sid, end, buf, place, len);
            EndOutcome::On
        }
        ReplaceOutcome::Drop { reason, at } => EndOutcome::Drop {
            reason,
            at: at as u32,
        },
        ReplaceOutcome::End => unreachable!(),
    }
}

/// The step over the segment routing header of so many bytes at a place, one that is not at its
/// end.
pub(crate) fn step_over(
    sid: &SidEntry,
    buf: &mut PktBuf,
    place: ChainPlace,
    len: usize,
) -> EndOutcome
    requires goes_on { goes_on sid.now ≡ true }
    requires suits { SuitsCompression sid.now }
    requires packet { HoldsAlone buf.old.bytes }
    requires header { LiesAt (packet_at buf.old.bytes) place.at (place_view place) len }
    requires more { is_last sid.now (packet_at buf.old.bytes)
        (header_of (packet_at buf.old.bytes) (place_view place) len) ≡ false }
    ensures outcome { (behind : Endpoint) → ComesOf (at_segment_routing sid.now
        (packet_at buf.old.bytes)
        (header_of (packet_at buf.old.bytes) (place_view place) len) behind)
        buf.old.bytes buf.new.bytes result }
    ensures reaches { Reaches place.at buf.new.bytes result }
    ensures front { FrontAfter buf.old buf.new result }
{
    match sid.csid {
        Csid::Replace => step_packed(sid, buf, place, len),
        Csid::Plain | Csid::Next => step_whole(sid, buf, place, len),
    }
}

/// Takes the header of so many bytes at a place out of a packet that goes on or is delivered;
/// what is exposed has none of the headers in front of it, and what is dropped stays as it is.
pub(crate) fn take_out_of(outcome: EndOutcome, buf: &mut PktBuf, place: ChainPlace, len: usize)
    requires remains { Remains (place.at + len) buf.old.bytes outcome }
    requires behind { header_len ≤ place.at }
    requires earlier { place.named_at < place.at }
    requires field { (place.named_at ≡ NEXT_HEADER_AT) ⊎ (header_len ≤ place.named_at) }
    requires some { 1 ≤ len }
    ensures outcome { (e : Endpoint) (first : List ℕ) (h : Header)
        → h.place ≡ place_view place → length h.bytes ≡ len
        → ComesOf e first buf.old.bytes outcome
        → ComesOf (outcome_without h e) first buf.new.bytes outcome }
    ensures reaches { Reaches place.at buf.new.bytes outcome }
    ensures front { (first : Buffer) → FrontAfter first buf.old outcome
        → FrontAfter first buf.new outcome }
{
    match outcome {
        EndOutcome::On | EndOutcome::Local => take_out(buf, place, len),
        EndOutcome::Hand { .. } | EndOutcome::Drop { .. } => {}
    }
}

/// Takes headers out of a packet that goes on or is delivered, from the last to the first.
pub(crate) fn take_out_all(outcome: EndOutcome, buf: &mut PktBuf, lasts: &mut LastHeaders)
    requires can { CanTakeOut lasts.old.items buf.old.bytes outcome }
    ensures outcome { (e : Endpoint) (first : List ℕ)
        → TakesFrom lasts.old.items buf.old.bytes outcome e first
        → ComesOf e first buf.new.bytes outcome }
    ensures front { (first : Buffer) → FrontAfter first buf.old outcome
        → FrontAfter first buf.new outcome }
{
    'lasts: loop {
        let Some(last) = lasts.pop() else {
            return;
        };
        take_out_of(outcome, buf, last.place(), last.len());
    }
}
