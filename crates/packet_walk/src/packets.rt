//! Packets side by side, whatever the network.

ghost use Rattle.std.specs.Prelude.{◌≡◌, ℕ, ◌+◌, ◌≤◌, ◌<◌, ◌^◌, [], length, IfSome, None, Ok, Some};
ghost use Rattle.net_model.specs.Network.{Network};
ghost use Rattle.srv6_rules.specs.Packet.{bytes_of, entered as entered_as};
ghost use Rattle.srv6_rules.specs.PacketTerms.{IsContent};
ghost use Rattle.node_stage.specs.Fronted.{fronted, most_front};
ghost use Rattle.packet_walk.specs.Flight.{entering, packet_in, within};
ghost use Rattle.packet_walk.specs.FlightTerms.{ArePlaced, Enters, IsCounted, IsNumber, Reserves, StagesIn, Turns, room_where};

use crate::event::Event;
use crate::in_flight::InFlight;
use base::NoMemory;
use icmp6_errors::IcmpSlot;
use net_model::Net;
use node_stage::ContentBuf;
use pkt_buf::PktBuf;
use srv6_rules::numbers::MIN_MTU;
use std::alloc::Global;
use std::marker::Model;
use walk_rules::{Ended, Outcome, Place};

/// Packets in flight, apart from their network: each turn goes by the tables that it is given. They
/// have numbers from 1, in the order in which they entered.
#[derive(Debug, Drop)]
pub struct Packets<'a> {
    alloc: Global,
    error: IcmpSlot,
    packets: Vec<InFlight<'a>>,
}

impl<'a> Model for Packets<'a> {
    ghost use Rattle.std.specs.Prelude.{◌<◌, ◌^◌, length};
    ghost use Rattle.packet_walk.specs.Flight.{Packets as PacketsValue};

    ghost Value = { PacketsValue };

    ghost view = { λ all. record { error = all.error.items; packets = all.packets.items } };

    ghost invariant = { λ all. length all.packets.items < 2 ^ 32 };
}

impl<'a> Packets<'a> {
    /// No packets yet; takes no memory.
    pub fn new(alloc: Global) -> Packets<'a>
        ensures { result ≡ record { error = []; packets = [] } }
    {
        Packets {
            alloc,
            error: IcmpSlot::new(),
            packets: Vec::new(alloc),
        }
    }

    /// How many packets entered.
    pub fn count(&self) -> u32
        ensures { result ≡ length self.now.packets }
    {
        self.packets.len() as u32
    }

    /// What is so of a packet's counts and of what stands where it does. For the
    /// callers' proofs.
    pub fn keeps_rules(&self, number: u32)
        requires { IsNumber self.now.packets number }
        ensures counted { IfSome (packet_in self.now.packets number) IsCounted }
        ensures content { IfSome (packet_in self.now.packets number) (λ p. IsContent p.content) }
    {
        self.packet(number).keeps_rules();
    }

    /// The packet of a number.
    fn packet(&self, number: u32) -> &InFlight<'a>
        requires { IsNumber self.now.packets number }
        ensures { packet_in self.now.packets number ≡ Some result.now }
    {
        &self.packets[(number - 1) as usize]
    }

    /// What stands at a place enters there, with the choices of its decisions: decision d, from 0,
    /// takes the choice at d modulo their number. The answer is its number, the next one
    /// from 1. `NoMemory` leaves the packets as they were.
    pub fn enter_content(
        &mut self,
        content: ContentBuf,
        place: Place,
        choices: &'a [u32],
    ) -> Result<u32, NoMemory>
        requires choices { 0 < length choices.now }
        requires few { length self.old.packets + 1 < 2 ^ 32 }
        ensures { (net : Network) → Enters (within net self.old)
            (entering content place choices.now) result (within net self.new) }
    {
        self.packets.push(InFlight::new(content, place, choices))?;
        Ok(self.count())
    }

    /// A packet's bytes enter at a place, in place: they are read as a packet of the place's
    /// family, and what stands after its end is cut; of bytes that do not read at most 65,575 are
    /// kept. The choices, the answer and `NoMemory` are as in `enter_content`; for want
    /// of memory the buffer is given up.
    pub fn enter(&mut self, buf: PktBuf, place: Place, choices: &'a [u32]) -> Result<u32, NoMemory>
        requires choices { 0 < length choices.now }
        requires few { length self.old.packets + 1 < 2 ^ 32 }
        ensures { (net : Network) → Enters (within net self.old)
            (entering (fronted (entered_as place.family buf.bytes) buf.front) place choices.now)
            result (within net self.new) }
    {
        self.enter_content(ContentBuf::enter_buf(place.family, buf), place, choices)
    }

    /// How many bytes are spare in front of a packet in flight, and 0 of one that has ended.
    pub fn room(&self, number: u32) -> usize
        requires { IsNumber self.now.packets number }
        ensures { IfSome (packet_in self.now.packets number) (λ p.
            result ≡ room_where p.front p.ended) }
    {
        match self.ended(number) {
            Some(_) => 0,
            None => self.packet(number).front(),
        }
    }

    /// Makes room in front of a packet in flight, at least 2,080 bytes, as many as the longest
    /// header of a policy has; nothing else changes, and nothing of a packet that has ended. `NoMemory` comes only where there is less room, and leaves all as it was.
    pub fn reserve(&mut self, number: u32) -> Result<(), NoMemory>
        requires { IsNumber self.old.packets number }
        ensures room { (net : Network) → IfSome (packet_in self.old.packets number) (λ p.
            Reserves number (within net self.old) p result (within net self.new)) }
        ensures places { (net : Network) →
            ArePlaced net self.old.packets → ArePlaced net self.new.packets }
    {
        match self.ended(number) {
            Some(_) => Ok(()),
            None => self.packets[(number - 1) as usize].reserve(),
        }
    }

    /// The next stage of a packet that has not ended and has room in front of it.
    fn stage_of(&mut self, net: &Net, number: u32) -> Outcome
        requires given { IsNumber self.old.packets number }
        requires places { ArePlaced net.now self.old.packets }
        requires going { IfSome (packet_in self.old.packets number) (λ p. p.ended ≡ None) }
        requires ready { IfSome (packet_in self.old.packets number) (λ p. most_front ≤ p.front) }
        ensures stage { IfSome (packet_in self.old.packets number) (λ p.
            StagesIn number (within net.now self.old) p result (within net.now self.new)) }
        ensures places { ArePlaced net.now self.new.packets }
    {
        self.packets[(number - 1) as usize].take_stage(self.alloc, net, &mut self.error)
    }

    /// The next stage of a packet that has ended or has room in front of it, by the tables of a
    /// network, as `turn` has it; takes no memory.
    pub fn turn_ready(&mut self, net: &Net, number: u32) -> Option<Event>
        requires given { IsNumber self.old.packets number }
        requires places { ArePlaced net.now self.old.packets }
        requires ready { IfSome (packet_in self.old.packets number) (λ p.
            p.ended ≡ None → most_front ≤ p.front) }
        ensures turn { IfSome (packet_in self.old.packets number) (λ p.
            Turns number (within net.now self.old) p (Ok result) (within net.now self.new)) }
        ensures places { ArePlaced net.now self.new.packets }
    {
        if self.ended(number).is_some() {
            return None;
        }
        let node = self.packet(number).node();
        let outcome = self.stage_of(net, number);
        Some(Event {
            packet: number,
            node,
            outcome,
        })
    }

    /// The next stage of a packet by the tables of a network, unless the packet has ended: then
    /// there is none, and nothing changes. A stage changes this packet and the last
    /// error alone; there is room in front of the packet before it. `NoMemory`, which comes only
    /// where there is less room, leaves all as it was.
    pub fn turn(&mut self, net: &Net, number: u32) -> Result<Option<Event>, NoMemory>
        requires given { IsNumber self.old.packets number }
        requires places { ArePlaced net.now self.old.packets }
        ensures turn { IfSome (packet_in self.old.packets number) (λ p.
            Turns number (within net.now self.old) p result (within net.now self.new)) }
        ensures places { ArePlaced net.now self.new.packets }
    {
        match self.reserve(number) {
            Ok(()) => Ok(self.turn_ready(net, number)),
            Err(why) => Err(why),
        }
    }

    /// The bytes of what stands where a packet stands, or ended.
    pub fn bytes(&self, number: u32) -> &[u8]
        requires { IsNumber self.now.packets number }
        ensures { IfSome (packet_in self.now.packets number)
            (λ p. result.now ≡ bytes_of p.content) }
    {
        self.packet(number).bytes()
    }

    /// The bytes of the ICMPv6 error that the last stage sent: none where it sent none, and before
    /// the first. They are at most 1,280 (RFC 4443 section 2.4).
    pub fn error(&self) -> &[u8]
        ensures bytes { result.now ≡ self.now.error }
        ensures short { length result.now ≤ MIN_MTU }
    {
        self.error.as_slice()
    }

    /// How a packet ended, if it has.
    pub fn ended(&self, number: u32) -> Option<Ended>
        requires { IsNumber self.now.packets number }
        ensures { IfSome (packet_in self.now.packets number) (λ p. result ≡ p.ended) }
    {
        self.packet(number).ended()
    }
}
