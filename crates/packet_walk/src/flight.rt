//! Packets side by side in a network.

ghost use Rattle.std.specs.Prelude.{◌≡◌, ◌+◌, ◌≤◌, ◌<◌, ◌^◌, [], length, IfSome, None, Ok};
ghost use Rattle.net_model.specs.NetworkKeeps.{Keeps};
ghost use Rattle.srv6_rules.specs.Packet.{bytes_of, entered as entered_as};
ghost use Rattle.walk_rules.specs.Relation.{IsPlace};
ghost use Rattle.node_stage.specs.Fronted.{fronted, most_front};
ghost use Rattle.packet_walk.specs.Flight.{entering, packet_of};
ghost use Rattle.packet_walk.specs.FlightTerms.{Enters, IsGiven, IsInFlight, Reserves, Turns, room_where};
ghost use Rattle.packet_walk.specs.Rest.{Walks};

use crate::event::Event;
use crate::packets::Packets;
use base::NoMemory;
use net_model::Net;
use node_stage::ContentBuf;
use pkt_buf::PktBuf;
use srv6_rules::numbers::MIN_MTU;
use std::alloc::Global;
use std::marker::Model;
use walk_rules::{Ended, Place};

/// Packets in flight in a network. They have numbers from 1, in the order in which they entered,
/// and each takes its own walk, whatever turns the others have in between.
#[derive(Debug, Drop)]
pub struct Flight<'a> {
    net: &'a Net,
    packets: Packets<'a>,
}

impl<'a> Model for Flight<'a> {
    ghost use Rattle.packet_walk.specs.Flight.{Flight as FlightValue, within};
    ghost use Rattle.packet_walk.specs.FlightTerms.{ArePlaced};

    ghost Value = { FlightValue };

    ghost view = { λ f. within f.net.now f.packets };

    ghost invariant = { λ f. ArePlaced f.net.now f.packets.packets };
}

impl<'a> Flight<'a> {
    /// No packets yet; takes no memory.
    pub fn new(alloc: Global, net: &'a Net) -> Flight<'a>
        ensures { result ≡ record { net = net.now; error = []; packets = [] } }
    {
        Flight {
            net,
            packets: Packets::new(alloc),
        }
    }

    /// How many packets entered.
    pub fn count(&self) -> u32
        ensures { result ≡ length self.now.packets }
    {
        self.packets.count()
    }

    /// The network keeps its rules, and a packet is at a place of it. For the callers'
    /// proofs.
    pub fn keeps_rules(&self, number: u32)
        requires { IsGiven self.now number }
        ensures network { Keeps self.now.net }
        ensures packet { IfSome (packet_of self.now number) (IsInFlight self.now.net) }
    {
        self.net.keeps_rules();
        self.packets.keeps_rules(number);
    }

    /// What stands at a place enters there, with the choices of its decisions: decision d, from 0,
    /// takes the choice at d modulo their number. The answer is its number, the next one
    /// from 1. `NoMemory` leaves the flight as it was.
    pub fn enter_content(
        &mut self,
        content: ContentBuf,
        place: Place,
        choices: &'a [u32],
    ) -> Result<u32, NoMemory>
        requires place { IsPlace self.old.net place }
        requires choices { 0 < length choices.now }
        requires few { length self.old.packets + 1 < 2 ^ 32 }
        ensures { Enters self.old (entering content place choices.now) result self.new }
    {
        self.packets.enter_content(content, place, choices)
    }

    /// A packet's bytes enter at a place, in place: they are read as a packet of the place's
    /// family, and what stands after its end is cut; of bytes that do not read at most 65,575 are
    /// kept. The choices, the answer and `NoMemory` are as in `enter_content`; for want
    /// of memory the buffer is given up.
    pub fn enter(&mut self, buf: PktBuf, place: Place, choices: &'a [u32]) -> Result<u32, NoMemory>
        requires place { IsPlace self.old.net place }
        requires choices { 0 < length choices.now }
        requires few { length self.old.packets + 1 < 2 ^ 32 }
        ensures { Enters self.old
            (entering (fronted (entered_as place.family buf.bytes) buf.front) place choices.now)
            result self.new }
    {
        self.packets.enter(buf, place, choices)
    }

    /// How many bytes are spare in front of a packet in flight, and 0 of one that has ended.
    pub fn room(&self, number: u32) -> usize
        requires { IsGiven self.now number }
        ensures { IfSome (packet_of self.now number) (λ p. result ≡ room_where p.front p.ended) }
    {
        self.packets.room(number)
    }

    /// Makes room in front of a packet in flight, at least 2,080 bytes, as many as the longest
    /// header of a policy has; nothing else changes, and nothing of a packet that has ended. `NoMemory` comes only where there is less room, and leaves the flight as it was.
    pub fn reserve(&mut self, number: u32) -> Result<(), NoMemory>
        requires { IsGiven self.old number }
        ensures { IfSome (packet_of self.old number) (λ p.
            Reserves number self.old p result self.new) }
    {
        self.packets.reserve(number)
    }

    /// The next stage of a packet that has ended or has room in front of it, as `turn` has it;
    /// takes no memory.
    pub fn turn_ready(&mut self, number: u32) -> Option<Event>
        requires given { IsGiven self.old number }
        requires ready { IfSome (packet_of self.old number) (λ p.
            p.ended ≡ None → most_front ≤ p.front) }
        ensures { IfSome (packet_of self.old number) (λ p.
            Turns number self.old p (Ok result) self.new) }
    {
        self.packets.turn_ready(self.net, number)
    }

    /// The next stage of a packet, unless it has ended: then there is none, and nothing changes
    ///. A stage changes this packet and the last error alone; there is room in front of
    /// the packet before it. `NoMemory`, which comes only where there is less room, leaves the
    /// flight as it was.
    pub fn turn(&mut self, number: u32) -> Result<Option<Event>, NoMemory>
        requires { IsGiven self.old number }
        ensures { IfSome (packet_of self.old number) (λ p.
            Turns number self.old p result self.new) }
    {
        self.packets.turn(self.net, number)
    }

    /// The bytes of what stands where a packet stands, or ended.
    pub fn bytes(&self, number: u32) -> &[u8]
        requires { IsGiven self.now number }
        ensures { IfSome (packet_of self.now number) (λ p. result.now ≡ bytes_of p.content) }
    {
        self.packets.bytes(number)
    }

    /// The bytes of the ICMPv6 error that the last stage sent: none where it sent none, and before
    /// the first. They are at most 1,280 (RFC 4443 section 2.4).
    pub fn error(&self) -> &[u8]
        ensures bytes { result.now ≡ self.now.error }
        ensures short { length result.now ≤ MIN_MTU }
    {
        self.packets.error()
    }

    /// How a packet ended, if it has.
    pub fn ended(&self, number: u32) -> Option<Ended>
        requires { IsGiven self.now number }
        ensures { IfSome (packet_of self.now number) (λ p. result ≡ p.ended) }
    {
        self.packets.ended(number)
    }

    /// Takes a packet to its end, which is that of its walk of at most 10,000 stages, and gives it;
    /// where it has ended nothing changes. After `NoMemory` the turns before it stand, and the last
    /// error is that of the last of them.
    pub fn walk(&mut self, number: u32) -> Result<Ended, NoMemory>
        requires { IsGiven self.old number }
        ensures { IfSome (packet_of self.old number) (λ p.
            Walks number self.old p result self.new) }
    {
        self.keeps_rules(number);
        'turns: loop {
            match self.ended(number) {
                Some(end) => return Ok(end),
                None => {
                    self.turn(number)?;
                }
            }
        }
    }
}
