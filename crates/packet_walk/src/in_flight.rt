//! One packet in flight.

ghost use Rattle.std.specs.Prelude.{◌≡◌, ◌<◌, ◌≤◌, length, None, Some, [], IsSome, IfOk, OnOk, OnErr};
ghost use Rattle.node_stage.specs.Fronted.{most_front};
ghost use Rattle.icmp6_errors.specs.Answer.{error_bytes};
ghost use Rattle.srv6_rules.specs.Packet.{bytes_of};
ghost use Rattle.srv6_rules.specs.PacketTerms.{IsContent};
ghost use Rattle.walk_rules.specs.Relation.{IsPlace};
ghost use Rattle.walk_rules.specs.Walk.{choice_at, decisions, takes_member};
ghost use Rattle.packet_walk.specs.Flight.{advanced, entering, fronted_of, stage_in, staged};
ghost use Rattle.packet_walk.specs.FlightTerms.{IsCounted, IsInFlight, ReservesAs, StagesAs};

use base::NoMemory;
use icmp6_errors::IcmpSlot;
use net_model::Net;
use node_stage::{ContentBuf, stage_buf};
use srv6_rules::Reason;
use std::alloc::Global;
use std::marker::Model;
use walk_rules::{Ended, MAX_STAGES, Outcome, Place, ended_by, next_place};

/// A packet in flight.
#[derive(Debug, Drop)]
pub(crate) struct InFlight<'a> {
    content: ContentBuf,
    place: Place,
    choices: &'a [u32],
    decisions: u32,
    stages: usize,
    ended: Option<Ended>,
}

impl<'a> Model for InFlight<'a> {
    ghost use Rattle.packet_walk.specs.Flight.{InFlight as InFlightValue};
    ghost use Rattle.packet_walk.specs.FlightTerms.{IsCounted, packet_value};

    ghost Value = { InFlightValue };

    ghost view = { λ p. packet_value p.content p.place p.choices.now p.decisions p.stages p.ended };

    ghost invariant = { λ p. IsCounted
        (packet_value p.content p.place p.choices.now p.decisions p.stages p.ended) };
}

/// Whether a drop for a reason takes a member of a set of equal next hops: one for the link's MTU
/// does.
fn takes_member(reason: Reason) -> bool
    ensures { result ≡ takes_member reason }
{
    match reason {
        Reason::MtuExceeded => true,
        Reason::Truncated
        | Reason::BadVersion
        | Reason::Multicast
        | Reason::NoRoute
        | Reason::HopLimit
        | Reason::BadChain
        | Reason::LateHopByHop
        | Reason::OptionDiscard
        | Reason::OptionUnknown
        | Reason::Fragment
        | Reason::BadSegments
        | Reason::HmacTlv
        | Reason::BadTlv
        | Reason::UnknownRouting
        | Reason::UpperLayer
        | Reason::Ttl
        | Reason::TooBig
        | Reason::InnerHop => false,
    }
}

/// The decisions that an outcome takes: one where a member of a set of equal next hops is taken
pub fn decisions_of(outcome: &Outcome) -> usize
    ensures taken { result ≡ decisions outcome.now }
    ensures few { result ≤ 1 }
{
    match outcome {
        Outcome::Send { .. } => 1,
        Outcome::Drop { reason, .. } => usize::from(takes_member(*reason)),
        Outcome::Again { .. } | Outcome::Hand { .. } | Outcome::Local => 0,
    }
}

impl<'a> InFlight<'a> {
    /// A packet that enters at a place, with its list of choices; takes no memory.
    pub(crate) fn new(content: ContentBuf, place: Place, choices: &'a [u32]) -> InFlight<'a>
        requires { 0 < length choices.now }
        ensures { result ≡ entering content place choices.now }
    {
        InFlight {
            content,
            place,
            choices,
            decisions: 0,
            stages: 0,
            ended: None,
        }
    }

    /// What is so of its counts and of what stands there. For the callers' proofs.
    pub(crate) fn keeps_rules(&self)
        ensures counted { IsCounted self.now }
        ensures content { IsContent self.now.content }
    {
        let _ = &self.stages;
        self.content.keeps_rules();
    }

    /// The bytes of what stands there.
    pub(crate) fn bytes(&self) -> &[u8]
        ensures { result.now ≡ bytes_of self.now.content }
    {
        self.content.bytes()
    }

    /// How many bytes are spare in front.
    pub(crate) fn front(&self) -> usize
        ensures { result ≡ self.now.front }
    {
        self.content.front()
    }

    /// Gives room in front for the longest header of a policy. `NoMemory`, which comes only where
    /// there is less, leaves the packet as it was.
    pub(crate) fn reserve(&mut self) -> Result<(), NoMemory>
        ensures room { ReservesAs self.old result self.new }
        ensures place { self.new.place ≡ self.old.place }
    {
        self.content.reserve()
    }

    /// How it ended, if it has.
    pub(crate) fn ended(&self) -> Option<Ended>
        ensures { result ≡ self.now.ended }
    {
        self.ended
    }

    /// The number of the node where it stands.
    pub(crate) fn node(&self) -> u32
        ensures { result ≡ self.now.place.node }
    {
        self.place.node
    }

    /// The choice of its next decision: the list begins anew at its end.
    fn choice(&self) -> u32
        ensures { result ≡ choice_at self.now.choices self.now.decisions }
    {
        self.choices[self.decisions as usize % self.choices.len()]
    }

    /// Counts a stage of an outcome, and goes on, or ends.
    fn advance(&mut self, net: &Net, outcome: &Outcome)
        requires going { self.old.ended ≡ None }
        ensures { self.new ≡ advanced net.now outcome.now (fronted_of self.old) self.old }
    {
        self.decisions += decisions_of(outcome) as u32;
        self.stages += 1;
        match next_place(net, &self.place, outcome) {
            Some(next) => {
                self.place = next;
                if self.stages >= MAX_STAGES {
                    self.ended = Some(Ended::Stages);
                }
            }
            None => self.ended = Some(ended_by(net, &self.place, outcome)),
        }
    }

    /// The next stage of a packet that has not ended and has room in front of it; the slot has the
    /// ICMPv6 error about what it drops.
    pub(crate) fn take_stage(&mut self, alloc: Global, net: &Net, error: &mut IcmpSlot) -> Outcome
        requires place { IsPlace net.now self.old.place }
        requires going { self.old.ended ≡ None }
        requires ready { most_front ≤ self.old.front }
        ensures stage { StagesAs net.now self.old result self.new error.new.items }
        ensures place { IsPlace net.now self.new.place }
    {
        let choice = self.choice();
        let taken = stage_buf(alloc, net, &self.place, &mut self.content, choice, error);
        let Ok(outcome) = taken else { unreachable!() };
        self.advance(net, &outcome);
        outcome
    }
}
