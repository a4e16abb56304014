//! The header of a policy in front of no bytes, and what comes of it at a SID.

ghost use Rattle.std.specs.Prelude.{◌≡◌, ◌<◌, ◌≤◌, ◌-◌, ◌&&◌, nat_le, true, false, [], length, slice_get, Some, IfOk};
ghost use Rattle.srv6_rules.specs.Behaviours.{goes_on};
ghost use Rattle.srv6_rules.specs.CompressedSteps.{is_next};
ghost use Rattle.srv6_rules.specs.CompressedStepsTerms.{SuitsCompression};
ghost use Rattle.srv6_rules.specs.Endpoint.{at_sid};
ghost use Rattle.srv6_rules.specs.Packet.{packet_at};
ghost use Rattle.srv6_rules.specs.Policies.{outer_by};
ghost use Rattle.net_model.specs.declared.parts.NamedPolicy.{NamedPolicy};
ghost use Rattle.walk_rules.specs.Treatment.{lowered};
ghost use Rattle.endpoint_chain.specs.Outcomes.{ComesOf, HoldsAlone};
ghost use Rattle.policy_walks.specs.HeaderWalks.{ComesTo};

use base::NoMemory;
use decap_behaviours::decap_step;
use end_behaviours::end_step;
use endpoint_chain::EndOutcome;
use ip6_headers::Ip6View;
use net_model::Net;
use pkt_buf::PktBuf;
use policy_encap::{PushFault, push};
use srv6_rules::numbers::HOP_LIMIT_AT;
use srv6_rules::{Family, SidEntry};
use std::alloc::Global;
use std::marker::Model;
use v6_addr::Addr;

/// A header in front of no bytes (RFC 8986 sections 4.13 and 4.14), in bytes that spell it.
#[derive(Debug, Drop)]
pub(crate) struct Head {
    bytes: PktBuf,
}

impl Model for Head {
    ghost use Rattle.srv6_rules.specs.Packet.{Packet, packet_at};
    ghost use Rattle.endpoint_chain.specs.Outcomes.{HoldsAlone};

    ghost Value = { Packet };

    ghost view = { λ h. packet_at h.bytes.bytes };

    ghost invariant = { λ h. HoldsAlone h.bytes.bytes };
}

/// What comes of a header at a SID.
#[derive(Debug, Drop)]
pub(crate) enum Came {
    /// It goes on, as another header.
    On {
        /// The header then.
        head: Head,
    },
    /// It is taken off, and a packet of a family was behind it.
    Off {
        /// The family that it named.
        family: Family,
    },
    /// It is delivered, or dropped.
    Lost,
}

impl Head {
    /// The header that a policy of the network puts in front of an IPv6 packet, in the full or the
    /// reduced form (RFC 8986 sections 4.13 and 4.14). None is too long in front of no bytes.
    pub(crate) fn of(alloc: Global, net: &Net, number: u32, reduced: bool) -> Result<Head, NoMemory>
        requires { number < length net.now.policies }
        ensures { IfOk result (λ h. (named : NamedPolicy) →
            slice_get net.now.policies number ≡ Some named →
            h ≡ outer_by named.policy reduced Family.V6 []) }
    {
        net.keeps_rules();
        let policy = net.policy(number);
        let mut bytes = PktBuf::of(Vec::new(alloc));
        match push(policy, reduced, Family::V6, &mut bytes) {
            Ok(()) => Ok(Head { bytes }),
            Err(PushFault::NoMemory | PushFault::TooBig { .. }) => Err(NoMemory),
        }
    }

    /// The destination address.
    pub(crate) fn destination(&self) -> Addr
        ensures { result.value ≡ self.now.destination }
    {
        Ip6View::over(self.bytes.view()).destination()
    }

    /// The hop limit.
    pub(crate) fn hop_limit(&self) -> u8
        ensures { result ≡ self.now.hop_limit }
    {
        Ip6View::over(self.bytes.view()).hop_limit()
    }

    /// Lowers the hop limit by one, in place.
    pub(crate) fn lower_hop_limit(&mut self)
        requires { 1 ≤ self.old.hop_limit }
        ensures { self.new ≡ record self.old { hop_limit = self.old.hop_limit - 1 } }
    {
        let hop_limit = self.hop_limit() - 1;
        self.bytes.set(HOP_LIMIT_AT, hop_limit);
    }

    /// The header, with its hop limit lowered or not.
    pub(crate) fn lowered(mut self, lower: bool) -> Head
        requires { lower ≡ true → 1 ≤ self.hop_limit }
        ensures { result ≡ lowered lower self }
    {
        if lower {
            self.lower_hop_limit();
        }
        self
    }

    /// Whether it goes over no link where the hop limit is lowered or not (RFC 8200 section 3).
    pub(crate) fn runs_out(&self, lower: bool) -> bool
        ensures { result ≡ (lower && nat_le self.now.hop_limit 1) }
    {
        lower && self.hop_limit() <= 1
    }

    /// What comes of it at a SID of a node that takes some upper layers at its SIDs.
    pub(crate) fn come_to(self, sid: &SidEntry, allow: &[u8]) -> Came
        requires suits { SuitsCompression sid.now }
        requires usp { goes_on sid.now ≡ false → sid.now.usp ≡ false }
        requires next { goes_on sid.now ≡ false → is_next sid.now.csid ≡ false }
        ensures { ComesTo (at_sid sid.now allow.now self) result }
    {
        let mut bytes = self.bytes;
        match step_at_sid(sid, allow, &mut bytes) {
            EndOutcome::On => Came::On {
                head: Head { bytes },
            },
            EndOutcome::Hand { family } => Came::Off { family },
            EndOutcome::Local | EndOutcome::Drop { .. } => Came::Lost,
        }
    }
}

/// What comes of a packet at a SID, in its bytes: of one that goes on from it, or of one that ends
/// there.
fn step_at_sid(sid: &SidEntry, allow: &[u8], bytes: &mut PktBuf) -> EndOutcome
    requires suits { SuitsCompression sid.now }
    requires usp { goes_on sid.now ≡ false → sid.now.usp ≡ false }
    requires next { goes_on sid.now ≡ false → is_next sid.now.csid ≡ false }
    requires packet { HoldsAlone bytes.old.bytes }
    ensures { ComesOf (at_sid sid.now allow.now (packet_at bytes.old.bytes)) bytes.old.bytes
        bytes.new.bytes result }
{
    if sid.goes_on() {
        end_step(sid, allow, bytes)
    } else {
        decap_step(sid, allow, bytes)
    }
}
