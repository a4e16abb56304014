//! How packets enter at the headend of an intent: they are not read, they end there, or they are
//! encapsulated and walk.

ghost use Rattle.std.specs.Prelude.{◌≡◌, ◌≤◌, IfOk, MatchResult, length};
ghost use Rattle.pcap_io.specs.FrameLending.{body_lent};
ghost use Rattle.srv6_rules.specs.Packet.{most_len};
ghost use Rattle.srv6_rules.specs.PoliciesTerms.{IsPolicy};
ghost use Rattle.policy_encap.specs.Inner.{HoldsInner};
ghost use Rattle.walk_rules.specs.declared.place.Ended.TheVariants as ends;
ghost use Rattle.run_commands.specs.declared.enters.EarlyEnd.TheVariants as stays;
ghost use Rattle.run_commands.specs.Admission.{EndsEarly, entrant_of, early_end_of};
ghost use Rattle.walk_commands.specs.Headend.{IsInnerBy, admission_alone, admission_by_bytes};
ghost use Rattle.walk_commands.specs.WalkCommand.{admission_at_headend, submitted_at};

use crate::inner_packets::inner_packet;
use base::NoMemory;
use command_output::Unread;
use node_stage::Content;
use pcap_io::{LentBody, LentFrame};
use pkt_buf::PktBuf;
use policy_encap::{EncapFault, MAX_FRONT, encap, encap_fault};
use run_commands::{EarlyEnd, Enters, Entrant, refilled};
use srv6_rules::numbers::{IPV6_HEADER_LEN, SEGMENT_LEN, SEGMENT_LIST_AT};
use srv6_rules::{Family, Policy, Reason};
use walk_rules::{Ended, How, Place};

/// The headend of an intent, where inner packets enter. (RFC 8986 sections 5.1 and 5.2)
#[derive(Drop)]
pub struct Headend {
    /// The node's number.
    pub node: u32,
    /// The family of the inner packets.
    pub inner: Family,
    /// What is put in front of them.
    pub policy: Policy,
}

impl Headend {
    /// What is told of a packet that is dropped here.
    fn drops(&self, reason: Reason) -> EarlyEnd
        ensures { result ≡ stays.Ends (ends.Dropped self.now.node reason) }
    {
        EarlyEnd::Ends(Ended::Dropped {
            node: self.node,
            reason,
        })
    }

    /// Where what is encapsulated here stands.
    fn place(&self) -> Place
        ensures { result ≡ submitted_at self.now.node }
    {
        Place {
            node: self.node,
            how: How::Submitted { table: 0 },
            family: Family::V6,
        }
    }

    /// The inner packet that bytes begin with, or what is told of them.
    fn inner_of<'a>(&self, bytes: &'a [u8]) -> Result<&'a [u8], EarlyEnd>
        ensures { MatchResult result
            (λ packet. IsInnerBy self.now (admission_by_bytes self.now bytes.now) packet.now)
            (λ stays. EndsEarly stays ≡ admission_by_bytes self.now bytes.now) }
    {
        match inner_packet(self.inner, bytes) {
            Ok(packet) => Ok(packet),
            Err(reason) => Err(self.drops(reason)),
        }
    }

    /// The inner packet of a frame, or what is told of the frame.
    fn inner_in<'a>(&self, body: LentBody<'a>) -> Result<&'a [u8], EarlyEnd>
        ensures { MatchResult result
            (λ packet. IsInnerBy self.now
            (admission_at_headend self.now (body_lent body.entry)) packet.now)
            (λ stays. EndsEarly stays ≡ admission_at_headend self.now (body_lent body.entry)) }
    {
        match (body, self.inner) {
            (LentBody::V6(bytes), Family::V6) | (LentBody::V4(bytes), Family::V4) => {
                self.inner_of(bytes)
            }
            (LentBody::V6(_), Family::V4) | (LentBody::V4(_), Family::V6) => {
                Err(EarlyEnd::NotRead(Unread::WrongVersion))
            }
            (LentBody::ShortFrame, Family::V6 | Family::V4) => {
                Err(EarlyEnd::NotRead(Unread::ShortFrame))
            }
            (LentBody::NotIp, Family::V6 | Family::V4) => Err(EarlyEnd::NotRead(Unread::NotIp)),
        }
    }

    /// What is told of an inner packet that cannot be encapsulated; none is made.
    fn refused(&self, packet: &[u8]) -> Option<EarlyEnd>
        requires policy { IsPolicy self.now.policy }
        requires packet { HoldsInner self.now.inner packet.now }
        ensures { result ≡ early_end_of (admission_alone self.now packet.now) }
    {
        match encap_fault(&self.policy, self.inner, packet) {
            Some(EncapFault::InnerHop) => Some(self.drops(Reason::InnerHop)),
            Some(EncapFault::TooBig { .. }) => Some(self.drops(Reason::TooBig)),
            Some(EncapFault::NoMemory) | None => None,
        }
    }

    /// The outer packet round an inner one, if it can be encapsulated, in a buffer that is handed
    /// in.
    fn encapsulated(&self, packet: &[u8], buf: &mut PktBuf) -> Result<Option<Entrant>, NoMemory>
        requires policy { IsPolicy self.now.policy }
        requires packet { HoldsInner self.now.inner packet.now }
        requires short { length packet.now ≤ most_len }
        ensures { IfOk result (λ comes. comes ≡ entrant_of (admission_alone self.now packet.now)) }
    {
        // The policy's header fits in front, in either form, and the longest one in front of that.
        let header = IPV6_HEADER_LEN
            + SEGMENT_LIST_AT
            + SEGMENT_LEN * self.policy.segments.as_slice().len();
        let mut outer = refilled(buf, header + MAX_FRONT, packet)?;
        match encap(&self.policy, self.inner, &mut outer) {
            Ok(()) => Ok(Some(Entrant {
                place: self.place(),
                content: Content::enter_buf(Family::V6, outer),
            })),
            Err(EncapFault::InnerHop | EncapFault::TooBig { .. }) => {
                *buf = outer;
                Ok(None)
            }
            Err(EncapFault::NoMemory) => Err(NoMemory),
        }
    }
}

impl Enters for Headend {
    ghost ready = { λ h. IsPolicy h.policy };

    ghost entry = { admission_at_headend };

    fn stays(&self, frame: &LentFrame<'_>) -> Option<EarlyEnd> {
        match self.inner_in(frame.body()) {
            Ok(packet) => self.refused(packet),
            Err(stays) => Some(stays),
        }
    }

    fn enter(&self, frame: &LentFrame<'_>, buf: &mut PktBuf) -> Result<Option<Entrant>, NoMemory> {
        match self.inner_in(frame.body()) {
            Ok(packet) => self.encapsulated(packet, buf),
            Err(_) => Ok(None),
        }
    }
}
