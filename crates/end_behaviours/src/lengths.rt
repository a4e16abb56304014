//! How long a packet would be after the step of a SID that goes on, before anything is written.

ghost use Rattle.std.specs.Prelude.{◌≡◌, ◌-◌, ◌≤◌, ◌+◌, ◌&&◌, ℕ, true, false, not, nat_le, length, if◌then◌else◌, Some, None, IfSome};
ghost use Rattle.srv6_rules.specs.declared.sid.SidEntry.{SidEntry as SidEntryValue};
ghost use Rattle.srv6_rules.specs.Behaviours.{goes_on};
ghost use Rattle.srv6_rules.specs.ChainTerms.{StandsIn};
ghost use Rattle.srv6_rules.specs.CompressedSteps.{compression_of, is_replace, replace_step};
ghost use Rattle.srv6_rules.specs.CompressedStepsTerms.{SuitsCompression};
ghost use Rattle.srv6_rules.specs.Endpoint.{Endpoint, after_step, at_segment_routing, at_sid, by_replace_step, next_csid, next_segment};
ghost use Rattle.srv6_rules.specs.Packet.{packet_at};
ghost use Rattle.srv6_rules.specs.Srh.{srh_of};
ghost use Rattle.endpoint_chain.specs.Outcomes.{HoldsAlone};
ghost use Rattle.ip6_headers.specs.ChainStepping.{place_view};
ghost use Rattle.end_behaviours.specs.HeaderFinding.{CanBeDone, IsDecided, LiesAt, at_sid_from, header_of, is_last};
ghost use Rattle.end_behaviours.specs.Onward.{IsEnd, IsLengthFrom, IsOnwardLength, less_by};

use crate::end_headers::{Decision, Found};
use crate::header_finding::find;
use crate::stepping::{SegmentStep, judge_bytes};
use ip6_headers::{ChainPlace, Ip6View};
use replace_csid::would_end;
use srv6_rules::{Csid, SidEntry};

/// Whether the hop limit can be lowered.
fn can_lower(bytes: &[u8]) -> bool
    requires { HoldsAlone bytes.now }
    ensures { result ≡ not (nat_le (packet_at bytes.now).hop_limit 1) }
{
    Ip6View::over(bytes).hop_limit() > 1
}

/// The length of bytes, or none.
fn len_where(is: bool, bytes: &[u8]) -> Option<usize>
    ensures { result ≡ (if is then Some (length bytes.now) else None) }
{
    if is { Some(bytes.len()) } else { None }
}

/// The length after a shift.
fn shifted_len(bytes: &[u8]) -> Option<usize>
    requires { HoldsAlone bytes.now }
    ensures { (s : SidEntryValue) (first : ℕ) → first ≤ length bytes.now
        → IsLengthFrom first (next_csid s (packet_at bytes.now)) result }
{
    len_where(can_lower(bytes), bytes)
}

/// Whether the step by whole segments over the header of so many bytes at a place, one that is not
/// at its end, leaves no segment, where it is taken.
fn whole_end(sid: &SidEntry, bytes: &[u8], place: ChainPlace, len: usize) -> Option<bool>
    requires whole { is_replace sid.now.csid ≡ false }
    requires packet { HoldsAlone bytes.now }
    requires header { LiesAt (packet_at bytes.now) place.at (place_view place) len }
    requires more { is_last sid.now (packet_at bytes.now)
        (header_of (packet_at bytes.now) (place_view place) len) ≡ false }
    ensures { let h = header_of (packet_at bytes.now) (place_view place) len in
        IsEnd sid.now (packet_at bytes.now) h
        (after_step sid.now h (next_segment (packet_at bytes.now) place.at
        (srh_of h.bytes))) result }
{
    match judge_bytes(bytes, place, len) {
        SegmentStep::Advance { left, .. } => Some(left == 0),
        SegmentStep::Refuse { .. } => None,
    }
}

/// The same by packed segments.
fn packed_end(sid: &SidEntry, bytes: &[u8], place: ChainPlace, len: usize) -> Option<bool>
    requires packed { is_replace sid.now.csid ≡ true }
    requires suits { SuitsCompression sid.now }
    requires packet { HoldsAlone bytes.now }
    requires header { LiesAt (packet_at bytes.now) place.at (place_view place) len }
    requires more { is_last sid.now (packet_at bytes.now)
        (header_of (packet_at bytes.now) (place_view place) len) ≡ false }
    ensures { (behind : Endpoint) →
        let h = header_of (packet_at bytes.now) (place_view place) len in
        IsEnd sid.now (packet_at bytes.now) h
        (by_replace_step sid.now h behind (replace_step (compression_of sid.now)
        (packet_at bytes.now) place.at (srh_of h.bytes))) result }
{
    would_end(sid.compression(), place.at, bytes)
}

/// The same by the SID's compression.
fn step_end(sid: &SidEntry, bytes: &[u8], place: ChainPlace, len: usize) -> Option<bool>
    requires goes_on { goes_on sid.now ≡ true }
    requires suits { SuitsCompression sid.now }
    requires packet { HoldsAlone bytes.now }
    requires header { LiesAt (packet_at bytes.now) place.at (place_view place) len }
    requires more { is_last sid.now (packet_at bytes.now)
        (header_of (packet_at bytes.now) (place_view place) len) ≡ false }
    ensures { (behind : Endpoint) →
        let h = header_of (packet_at bytes.now) (place_view place) len in
        IsEnd sid.now (packet_at bytes.now) h
        (at_segment_routing sid.now (packet_at bytes.now) h behind) result }
{
    match sid.csid {
        Csid::Replace => packed_end(sid, bytes, place, len),
        Csid::Plain | Csid::Next => whole_end(sid, bytes, place, len),
    }
}

/// Whether PSP takes out a header after a step that leaves no segment or some.
fn pops(sid: &SidEntry, ended: bool) -> bool
    ensures { result ≡ (sid.now.psp && ended) }
{
    sid.psp && ended
}

/// The length of bytes, without a header of so many where it is taken out.
fn len_after(taken: bool, bytes: &[u8], len: usize) -> usize
    requires { len ≤ length bytes.now }
    ensures { result ≡ (if taken then length bytes.now - len else length bytes.now) }
{
    if taken {
        bytes.len() - len
    } else {
        bytes.len()
    }
}

/// The length after the step over the header of so many bytes at a place, one that is not at its
/// end.
fn stepped_len(sid: &SidEntry, bytes: &[u8], place: ChainPlace, len: usize) -> Option<usize>
    requires goes_on { goes_on sid.now ≡ true }
    requires suits { SuitsCompression sid.now }
    requires packet { HoldsAlone bytes.now }
    requires header { LiesAt (packet_at bytes.now) place.at (place_view place) len }
    requires more { is_last sid.now (packet_at bytes.now)
        (header_of (packet_at bytes.now) (place_view place) len) ≡ false }
    ensures { (behind : Endpoint) → IsLengthFrom place.at (at_segment_routing sid.now
        (packet_at bytes.now)
        (header_of (packet_at bytes.now) (place_view place) len) behind) result }
{
    match step_end(sid, bytes, place, len) {
        Some(ended) => Some(len_after(pops(sid, ended), bytes, len)),
        None => None,
    }
}

/// The length after what is decided.
fn decided_len(sid: &SidEntry, bytes: &[u8], decision: Decision) -> Option<usize>
    requires goes_on { goes_on sid.now ≡ true }
    requires suits { SuitsCompression sid.now }
    requires packet { HoldsAlone bytes.now }
    requires can { CanBeDone sid.now (packet_at bytes.now) decision }
    ensures { (first : ℕ) (e : Endpoint) → first ≤ length bytes.now
        → IsDecided sid.now (packet_at bytes.now) first e decision
        → IsLengthFrom first e result }
{
    match decision {
        Decision::Shift => shifted_len(bytes),
        Decision::Step { place, len } => stepped_len(sid, bytes, place, len),
        Decision::Expose { .. } | Decision::Deliver | Decision::Refuse { .. } => None,
    }
}

/// A length without so many bytes.
fn without_headers(all: Option<usize>, len: usize) -> Option<usize>
    requires { IfSome all (λ n. len ≤ n) }
    ensures { result ≡ less_by len all }
{
    match all {
        Some(all) => Some(all - len),
        None => None,
    }
}

/// How long the packet would be that goes on, from a place of its chain on.
fn len_from(sid: &SidEntry, allow: &[u8], bytes: &[u8], start: ChainPlace) -> Option<usize>
    requires goes_on { goes_on sid.now ≡ true }
    requires suits { SuitsCompression sid.now }
    requires packet { HoldsAlone bytes.now }
    requires stands { StandsIn (packet_at bytes.now) (place_view start) }
    ensures { IsLengthFrom start.at
        (at_sid_from sid.now allow.now (packet_at bytes.now) (place_view start)) result }
{
    let mut place = start;
    let mut taken = 0;
    'lasts: loop {
        match find(sid, allow, bytes, place) {
            Found::Last { place: last, next } => {
                taken += next.at - last.at;
                place = next;
            }
            Found::Decided(decision) => {
                return without_headers(decided_len(sid, bytes, decision), taken);
            }
        }
    }
}

/// How many bytes the packet would have after `end_step` where that would answer `On`, and none
/// where it would not. No byte is changed, and no memory is taken: a node can know so before the
/// step whether a header in front of the packet would make it too long.
pub fn onward_len(sid: &SidEntry, allow: &[u8], bytes: &[u8]) -> Option<usize>
    requires goes_on { goes_on sid.now ≡ true }
    requires suits { SuitsCompression sid.now }
    requires packet { HoldsAlone bytes.now }
    ensures { IsOnwardLength (at_sid sid.now allow.now (packet_at bytes.now)) result }
{
    let next_header = Ip6View::over(bytes).next_header();
    len_from(sid, allow, bytes, ChainPlace::first(next_header))
}
