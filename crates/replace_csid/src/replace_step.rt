//! The step over a segment routing header, written into the packet's bytes.

ghost use Rattle.std.specs.Prelude.{◌≡◌, ◌+◌, ◌<◌, ◌≤◌, true, length};
ghost use Rattle.srv6_rules.specs.Packet.{V6, content_of, header_len, packet_at};
ghost use Rattle.srv6_rules.specs.Srh.{srh_of};
ghost use Rattle.srv6_rules.specs.Chain.{from_place, is_whole, routing};
ghost use Rattle.srv6_rules.specs.CompressedSteps.{is_at_end, moved};
ghost use Rattle.srv6_rules.specs.CompressedStepsTerms.{IsReplace};
ghost use Rattle.ip6_headers.specs.Ip6Reading.{HoldsPacket};
ghost use Rattle.replace_csid.specs.ReplaceJudging.{IsListMove, step_view};
ghost use Rattle.replace_csid.specs.Replacing.{IsReplaced, WouldMove, step_at, with_move};

use crate::csids::{is_ended, lacks_entry};
use crate::replace_judge::{ListMove, Step, judge};
use ip6_headers::{Ip6Edit, Ip6View};
use srh_codec::SrhView;
use srv6_rules::numbers::{IPV6_HEADER_LEN, SEGMENTS_LEFT_AT};
use srv6_rules::{Compression, Reason};

/// What came of a packet at its segment routing header (RFC 9800 section 4.2).
#[derive(Clone, Copy, Debug, PartialEq, Eq)]
pub enum ReplaceOutcome {
    /// The next SID is active, and the hop limit is one lower.
    Moved {
        /// No segment is left now: after a whole entry Segments Left is 0; after a CSID Segments
        /// Left is 0 and the entry has no CSID after it.
        end: bool,
    },
    /// No segment was left, so the header is passed over; its bytes are as they were.
    End,
    /// The packet is dropped, and its bytes are as they were.
    Drop {
        /// Why.
        reason: Reason,
        /// The place of the fault in bytes from the packet's first, 0 where the reason has none.
        at: usize,
    },
}

/// The whole segment routing header at a place of a packet.
fn header_at<'a>(packet: &Ip6View<'a>, at: usize) -> SrhView<'a>
    requires behind { header_len ≤ at }
    requires whole { is_whole routing (from_place packet.now at) ≡ true }
    ensures { result ≡ srh_of (from_place packet.now at) }
{
    let header = packet.payload().split_at(at - IPV6_HEADER_LEN).1;
    let Ok(srh) = SrhView::read(header) else {
        unreachable!();
    };
    srh
}

/// Judges the packet's segment routing header at a place.
fn judge_bytes(compression: Compression, at: usize, bytes: &[u8]) -> ListMove
    requires packet { HoldsPacket bytes.now }
    requires replace { IsReplace compression }
    requires behind { header_len ≤ at }
    requires whole { is_whole routing (from_place (packet_at bytes.now) at) ≡ true }
    ensures { IsListMove (packet_at bytes.now) at (step_at compression bytes.now at) result }
{
    let packet = Ip6View::over(bytes);
    let srh = header_at(&packet, at);
    judge(compression, &packet, at, &srh)
}

/// Whether the whole segment routing header that stands at a place of a packet, in bytes from its
/// first, is at its end for a SID with REPLACE-CSID: Segments Left is 0, and the destination's
/// index is 0, or the entry at 0 is there and its CSID at the index below is 0. A SID that
/// decapsulates refuses the header where it is not (RFC 8986 sections 4.4 to 4.8, RFC 9800 section
/// 4.2).
pub fn is_at_end(compression: Compression, at: usize, bytes: &[u8]) -> bool
    requires packet { HoldsPacket bytes.now }
    requires replace { IsReplace compression }
    requires behind { header_len ≤ at }
    requires whole { is_whole routing (from_place (packet_at bytes.now) at) ≡ true }
    ensures { result
        ≡ is_at_end compression (srh_of (from_place (packet_at bytes.now) at))
        (packet_at bytes.now).destination }
{
    let packet = Ip6View::over(bytes);
    let srh = header_at(&packet, at);
    let destination = packet.destination();
    if lacks_entry(compression, &srh, destination) {
        return false;
    }
    is_ended(compression, &srh, srh.segments_left(), destination)
}

/// Writes a step: Segments Left of the header at a place, the hop limit and the destination.
fn write_step(bytes: &mut [u8], at: usize, step: Step)
    requires packet { HoldsPacket bytes.old }
    requires behind { header_len ≤ at }
    requires within { at + SEGMENTS_LEFT_AT < header_len + length (packet_at bytes.old).payload }
    requires hop_limit { 1 ≤ (packet_at bytes.old).hop_limit }
    ensures packet { content_of bytes.new ≡ V6 (moved (packet_at bytes.old) at (step_view step)) }
    ensures bytes { bytes.new ≡ with_move bytes.old at (step_view step) }
{
    let hop_limit = Ip6View::over(bytes).hop_limit();
    bytes[at + SEGMENTS_LEFT_AT] = step.segments_left;
    let mut edit = Ip6Edit::over(bytes);
    edit.set_hop_limit(hop_limit - 1);
    edit.set_destination(step.destination);
}

/// The step of a SID with REPLACE-CSID over the whole segment routing header that stands at a place
/// of a packet, in bytes from its first. `End` comes exactly where Segments Left is 0 and the
/// destination's index is 0 or the CSID at the index below it in the entry at 0 is 0; where that
/// entry is not there it is `BadSegments`. Else `Drop` comes exactly for a hop limit of at most 1
/// (`HopLimit`), for a Last Entry past the entries or Segments Left past Last Entry, at index 0
/// past one more (`BadSegments`), and for an item of the type-length-value area (`HmacTlv`,
/// `BadTlv`), in this order. Else Segments Left, the hop limit and the destination are written, and
/// no other byte changes: at index 0 the CSID at the greatest index of the next entry, else the
/// CSID at the index below; where that one is 0, the next entry whole (RFC 9800 section 4.2; own
/// rule on the order).
pub fn replace(compression: Compression, at: usize, bytes: &mut [u8]) -> ReplaceOutcome
    requires packet { HoldsPacket bytes.old }
    requires replace { IsReplace compression }
    requires behind { header_len ≤ at }
    requires whole { is_whole routing (from_place (packet_at bytes.old) at) ≡ true }
    ensures { IsReplaced compression at bytes.old bytes.new result }
{
    match judge_bytes(compression, at, bytes) {
        ListMove::Move { step } => {
            write_step(bytes, at, step);
            ReplaceOutcome::Moved { end: step.end }
        }
        ListMove::End => ReplaceOutcome::End,
        ListMove::Refuse { fault } => ReplaceOutcome::Drop {
            reason: fault.reason,
            at: fault.at,
        },
    }
}

/// Whether no segment would be left after `replace` where it would answer `Moved`, and none where
/// it would not; no byte is changed (RFC 9800 section 4.2).
pub fn would_end(compression: Compression, at: usize, bytes: &[u8]) -> Option<bool>
    requires packet { HoldsPacket bytes.now }
    requires replace { IsReplace compression }
    requires behind { header_len ≤ at }
    requires whole { is_whole routing (from_place (packet_at bytes.now) at) ≡ true }
    ensures { WouldMove (packet_at bytes.now) at (step_at compression bytes.now at) result }
{
    match judge_bytes(compression, at, bytes) {
        ListMove::Move { step } => Some(step.end),
        ListMove::End | ListMove::Refuse { .. } => None,
    }
}
