//! What is done at a segment routing header, before anything is written.

ghost use Rattle.std.specs.Prelude.{◌≡◌, ◌<◌, ◌≤◌, ◌+◌, false, length};
ghost use Rattle.srv6_rules.specs.Srh.{entries_of};
ghost use Rattle.srv6_rules.specs.Compressed.{csid_count};
ghost use Rattle.srv6_rules.specs.CompressedSteps.{csid_len_of, has_bad_list, is_ended, move_of, replace_step, segments_fault, to_csid, to_entry};
ghost use Rattle.srv6_rules.specs.CompressedStepsTerms.{IsReplace};
ghost use Rattle.ip6_headers.specs.Items.{fault_of};
ghost use Rattle.replace_csid.specs.ReplaceJudging.{IsListMove, step_view};

use crate::csids::{index_in, is_ended, lacks_entry, listed_csid, replaced};
use ip6_headers::{Fault, Ip6View};
use srh_codec::{SrhView, tlvs};
use srv6_rules::numbers::{MAX_PACKET_LEN, SEGMENTS_LEFT_AT};
use srv6_rules::{Compression, Reason};
use v6_addr::Addr;

/// Segments Left and the destination after a step, and whether no segment is left then.
#[derive(Clone, Copy, Debug)]
pub(crate) struct Step {
    pub segments_left: u8,
    pub destination: Addr,
    pub end: bool,
}

/// What is done at a segment routing header.
#[derive(Clone, Copy, Debug)]
pub(crate) enum ListMove {
    Move { step: Step },
    End,
    Refuse { fault: Fault },
}

/// The segments of the header at a place are out of range, which is a fault in Segments Left.
fn segments_fault(at: usize) -> Fault
    requires { at ≤ MAX_PACKET_LEN }
    ensures { fault_of result ≡ segments_fault at }
{
    Fault {
        reason: Reason::BadSegments,
        at: at + SEGMENTS_LEFT_AT,
    }
}

/// Last Entry passes the entries that are there, or Segments Left passes what is in use.
fn has_bad_list(compression: Compression, srh: &SrhView<'_>, destination: Addr) -> bool
    requires { IsReplace compression }
    ensures { result ≡ has_bad_list compression srh.now destination.value }
{
    let last_entry = usize::from(srh.last_entry());
    if srh.entries() < last_entry + 1 {
        return true;
    }
    let most = if index_in(compression, destination) == 0 {
        last_entry + 1
    } else {
        last_entry
    };
    most < usize::from(srh.segments_left())
}

/// The step to the CSID at an index of an entry.
fn to_csid(
    compression: Compression,
    srh: &SrhView<'_>,
    destination: Addr,
    segments_left: u8,
    index: u8,
) -> Step
    requires replace { IsReplace compression }
    requires entry { segments_left < entries_of srh.now }
    requires index { index < csid_count (csid_len_of compression) }
    ensures { step_view result
        ≡ to_csid compression srh.now destination.value segments_left index }
{
    let csid = listed_csid(compression, srh, segments_left, index);
    let next = replaced(compression, destination, csid, index);
    Step {
        segments_left,
        destination: next,
        end: is_ended(compression, srh, segments_left, next),
    }
}

/// The step to the whole of the next entry.
fn to_entry(srh: &SrhView<'_>) -> Step
    requires some { 0 < srh.now.segments_left }
    requires entry { srh.now.segments_left ≤ entries_of srh.now }
    ensures { step_view result ≡ to_entry srh.now }
{
    let segments_left = srh.segments_left() - 1;
    Step {
        segments_left,
        destination: srh.entry(usize::from(segments_left)),
        end: segments_left == 0,
    }
}

/// The step from a destination: at index 0 to the next entry's CSIDs, and else to the CSID at the
/// index below, unless it is 0: then to the next entry, which is a whole segment.
fn step_from(compression: Compression, srh: &SrhView<'_>, destination: Addr) -> Step
    requires replace { IsReplace compression }
    requires going_on { is_ended compression srh.now srh.now.segments_left destination.value
        ≡ false }
    requires list { has_bad_list compression srh.now destination.value ≡ false }
    ensures { step_view result ≡ move_of compression srh.now destination.value }
{
    let segments_left = srh.segments_left();
    let index = index_in(compression, destination);
    if index == 0 {
        let greatest = compression.csid_count() - 1;
        return to_csid(compression, srh, destination, segments_left - 1, greatest);
    }
    if listed_csid(compression, srh, segments_left, index - 1) == 0 {
        return to_entry(srh);
    }
    to_csid(compression, srh, destination, segments_left, index - 1)
}

/// What is done at the segment routing header at a place: where no segment is left it is passed
/// over; else the hop limit is judged, then the segments, then the type-length-value area.
pub(crate) fn judge(
    compression: Compression,
    packet: &Ip6View<'_>,
    at: usize,
    srh: &SrhView<'_>,
) -> ListMove
    requires replace { IsReplace compression }
    requires place { at ≤ MAX_PACKET_LEN }
    ensures { IsListMove packet.now at (replace_step compression packet.now at srh.now) result }
{
    let destination = packet.destination();
    if lacks_entry(compression, srh, destination) {
        return ListMove::Refuse {
            fault: segments_fault(at),
        };
    }
    if is_ended(compression, srh, srh.segments_left(), destination) {
        return ListMove::End;
    }
    if packet.hop_limit() <= 1 {
        return ListMove::Refuse {
            fault: Fault::of(Reason::HopLimit),
        };
    }
    if has_bad_list(compression, srh, destination) {
        return ListMove::Refuse {
            fault: segments_fault(at),
        };
    }
    if let Err(fault) = tlvs(srh, at) {
        return ListMove::Refuse { fault };
    }
    ListMove::Move {
        step: step_from(compression, srh, destination),
    }
}
