//! A packet at a SID that decapsulates, in its bytes.

ghost use Rattle.std.specs.Prelude.{◌≡◌, false};
ghost use Rattle.srv6_rules.specs.Behaviours.{goes_on};
ghost use Rattle.srv6_rules.specs.Packet.{packet_at};
ghost use Rattle.srv6_rules.specs.CompressedSteps.{is_next};
ghost use Rattle.srv6_rules.specs.CompressedStepsTerms.{SuitsCompression};
ghost use Rattle.srv6_rules.specs.Endpoint.{at_sid};
ghost use Rattle.endpoint_chain.specs.Outcomes.{ComesOf, HoldsAlone};
ghost use Rattle.endpoint_chain.specs.ChainFronts.{FrontAfter};

use crate::decap_judge::{Exposure, judge};
use endpoint_chain::EndOutcome;
use pkt_buf::PktBuf;
use srv6_rules::SidEntry;

/// A packet at a SID that decapsulates, of a node that takes the upper layers of `allow` at its
/// SIDs: one of End.DX6, End.DX4, End.DT6, End.DT4 and End.DT46, which has neither USP nor
/// NEXT-CSID (RFC 8986 sections 4.4 to 4.8).
///
/// The first fault of an extension header decides: a segment routing header with a segment left is
/// dropped for `BadSegments`, with REPLACE-CSID one that is not at its end, at Segments Left; the
/// other headers are judged as at every SID (`header_fault` and `unknown_routing_fault` of
/// `endpoint_chain`), and one that is cut is dropped for `BadChain`.
///
/// After them `Hand` comes where the upper layer is a packet that the SID exposes: of IPv6 at
/// End.DX6 and End.DT6, of IPv4 at End.DX4 and End.DT4, of either at End.DT46. The buffer is left
/// with the bytes from that packet's first on, of which none is changed, and all before them are
/// spare. `Local` comes for another upper layer that is allowed, and `Drop` for `UpperLayer` where
/// it is not, at its first byte. But for `Hand` the bytes are as they were, and as many are spare.
/// `On` never comes.
pub fn decap_step(sid: &SidEntry, allow: &[u8], buf: &mut PktBuf) -> EndOutcome
    requires ends { goes_on sid.now ≡ false }
    requires suits { SuitsCompression sid.now }
    requires usp { sid.now.usp ≡ false }
    requires next { is_next sid.now.csid ≡ false }
    requires packet { HoldsAlone buf.old.bytes }
    ensures outcome { ComesOf (at_sid sid.now allow.now (packet_at buf.old.bytes)) buf.old.bytes
        buf.new.bytes result }
    ensures front { FrontAfter buf.old buf.new result }
{
    match judge(sid, allow, buf.view()) {
        Exposure::Expose { family, at } => {
            buf.drop_front(at);
            EndOutcome::Hand { family }
        }
        Exposure::Deliver => EndOutcome::Local,
        Exposure::Refuse { fault } => EndOutcome::dropped(fault),
    }
}
