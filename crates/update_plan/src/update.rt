//! An update on its way.

ghost use Rattle.std.specs.Prelude.{◌≡◌, ◌+◌, ◌<◌, ◌^◌, length, IfOk, IfSome, OnOk, OnErr};
ghost use Rattle.srv6_rules.specs.Packet.{bytes_of, entered as entered_as};
ghost use Rattle.net_model.specs.NetworkKeeps.{Keeps};
ghost use Rattle.walk_rules.specs.Relation.{IsPlace};
ghost use Rattle.node_stage.specs.Fronted.{fronted};
ghost use Rattle.packet_walk.specs.Flight.{entering, packet_in, stage_in, within};
ghost use Rattle.packet_walk.specs.FlightTerms.{IsInFlight, IsNumber, Turns};
ghost use Rattle.update_flight.specs.Interleaving.{own_of};
ghost use Rattle.update_flight.specs.MomentTables.{HasRoute};
ghost use Rattle.update_flight.specs.MomentTablesTerms.{AreAlike};
ghost use Rattle.update_flight.specs.Transition.{is_before_switch};
ghost use Rattle.update_flight.specs.TransitionTerms.{EntersAs, IsTransition};
ghost use Rattle.update_plan.specs.UpdateState.{starting_by, tables_now, tables_of};
ghost use Rattle.update_plan.specs.UpdateStateTerms.{CanChange, EditsAs, IsAddition, IsChanged};

use crate::edit_fault::EditFault;
use crate::planned::Plan;
use base::NoMemory;
use net_model::Net;
use node_stage::ContentBuf;
use packet_walk::{Event, Packets};
use pkt_buf::PktBuf;
use std::alloc::{AllocError, Global};
use std::marker::Model;
use update_flight::{Edit, Transition};
use walk_rules::{Ended, Place};

/// A network that passes from an old description to a new one, and packets in flight in it. They
/// have numbers from 1, in the order in which they entered.
#[derive(Debug, Drop)]
pub struct Update<'a> {
    alloc: Global,
    net: Net,
    transition: Transition<'a>,
}

impl<'a> Model for Update<'a> {
    ghost use Rattle.update_plan.specs.UpdateState.{Update as UpdateValue};
    ghost use Rattle.update_plan.specs.UpdateStateTerms.{IsUpdate, whole};

    ghost Value = { UpdateValue };

    ghost view = { λ u. record { joined = whole u.net; transition = u.transition } };

    ghost invariant = { λ u. IsUpdate u.net u.transition };
}

/// What an edit shows or hides of a network. After want of memory, which comes where it shows an
/// entry, the network is as it was.
fn change(alloc: Global, net: &mut Net, edit: Edit) -> Result<(), AllocError>
    requires { CanChange edit net.old }
    ensures ok { OnOk result (IsChanged edit net.old net.new) }
    ensures err { OnErr result (IsAddition edit × (net.new ≡ net.old)) }
{
    match edit {
        Edit::Added { entry } => net.show(alloc, entry),
        Edit::Removed { entry } => {
            net.hide(entry);
            Ok(())
        }
        Edit::Switched | Edit::Finished => Ok(()),
    }
}

impl<'a> Update<'a> {
    /// A plan of which no edit is done, and no packet has entered; takes no memory.
    pub fn new(alloc: Global, plan: Plan) -> Update<'a>
        ensures { result ≡ starting_by plan }
    {
        let (net, added, removed) = plan.into_parts();
        Update {
            alloc,
            net,
            transition: Transition::new(alloc, added, removed),
        }
    }

    /// The packets in flight.
    pub fn packets(&self) -> &Packets<'a>
        ensures { result.now ≡ self.now.transition.packets }
    {
        self.transition.packets()
    }

    /// The bytes that stand where a packet does, or where it ended, as `Packets::bytes` has them.
    pub fn bytes(&self, number: u32) -> &[u8]
        requires { IsNumber self.now.transition.packets.packets number }
        ensures { IfSome (packet_in self.now.transition.packets.packets number)
            (λ p. result.now ≡ bytes_of p.content) }
    {
        self.packets().bytes(number)
    }

    /// The ICMPv6 error of the last stage of any packet; no bytes where it sent none, and before the
    /// first.
    pub fn error(&self) -> &[u8]
        ensures { result.now ≡ self.now.transition.packets.error }
    {
        self.packets().error()
    }

    /// How a packet ended; nothing while it is in flight.
    pub fn ended(&self, number: u32) -> Option<Ended>
        requires { IsNumber self.now.transition.packets.packets number }
        ensures { IfSome (packet_in self.now.transition.packets.packets number)
            (λ p. result ≡ p.ended) }
    {
        self.packets().ended(number)
    }

    /// How many nodes there are.
    pub fn nodes(&self) -> u32
        ensures { result ≡ length self.now.joined.nodes }
    {
        self.net.nodes()
    }

    /// The network as it is at the moment: with its tables, and with all entries of both descriptions
    /// at their numbers.
    pub fn net(&self) -> &Net
        ensures { AreAlike (tables_now self.now) result.now }
    {
        &self.net
    }

    /// Whether packets that enter are those of the old description: the switch is still to come.
    pub fn is_before_switch(&self) -> bool
        ensures { result ≡ is_before_switch self.now.transition }
    {
        self.transition.is_before_switch()
    }

    /// The tables keep the rules, and a packet is at a place of them. For the callers' proofs.
    pub fn keeps_packet(&self, number: u32)
        requires { IsNumber self.now.transition.packets.packets number }
        ensures network { Keeps (tables_now self.now) }
        ensures packet { IfSome (packet_in self.now.transition.packets.packets number)
            (IsInFlight (tables_now self.now)) }
    {
        self.net.keeps_rules();
        self.transition.packets().keeps_rules(number);
    }

    /// What is so of the edits and the packets. For the callers' proofs.
    pub fn keeps_rules(&self)
        ensures { IsTransition self.now.transition }
    {
        self.transition.keeps_rules();
    }

    /// What stands at a place enters there, with the choices of its decisions, as a packet of the old
    /// description before the switch and as one of the new after it, as `Packets::enter_content` has
    /// it. `NoMemory` leaves all as it was.
    pub fn enter_content(
        &mut self,
        content: ContentBuf,
        place: Place,
        choices: &'a [u32],
    ) -> Result<u32, NoMemory>
        requires place { IsPlace self.old.joined place }
        requires choices { 0 < length choices.now }
        requires few { length self.old.transition.packets.packets + 1 < 2 ^ 32 }
        ensures enter { EntersAs self.old.transition (entering content place choices.now)
            (entering content place choices.now) result self.new.transition }
        ensures same { self.new.joined ≡ self.old.joined }
    {
        self.transition.enter_content(content, place, choices)
    }

    /// A packet enters at a place with the choices of its decisions, as `Packets::enter` has it: with
    /// the first buffer before the switch, and with the second after it. `NoMemory` leaves all as it
    /// was, and both buffers are given up.
    pub fn enter(
        &mut self,
        old: PktBuf,
        new: PktBuf,
        place: Place,
        choices: &'a [u32],
    ) -> Result<u32, NoMemory>
        requires place { IsPlace self.old.joined place }
        requires choices { 0 < length choices.now }
        requires few { length self.old.transition.packets.packets + 1 < 2 ^ 32 }
        ensures enter { EntersAs self.old.transition
            (entering (fronted (entered_as place.family old.bytes) old.front) place choices.now)
            (entering (fronted (entered_as place.family new.bytes) new.front) place choices.now)
            result self.new.transition }
        ensures same { self.new.joined ≡ self.old.joined }
    {
        self.transition.enter(old, new, place, choices)
    }

    /// The next stage of a packet by the tables of the moment, as `Packets::turn` has it. Where the
    /// stage in the packet's own description is no drop for want of a route, it is that stage: in the
    /// old description for a packet that entered before the switch, else in the new one.
    pub fn turn(&mut self, number: u32) -> Result<Option<Event>, NoMemory>
        requires { IsNumber self.old.transition.packets.packets number }
        ensures turn { IfSome (packet_in self.old.transition.packets.packets number) (λ p.
            Turns number (within (tables_now self.old) self.old.transition.packets) p result
            (within (tables_now self.old) self.new.transition.packets)) }
        ensures own { let own = own_of (tables_of self.old) self.old.transition number in
            IfSome (packet_in self.old.transition.packets.packets number) (λ p.
            HasRoute (stage_in own p) → Turns number (within own self.old.transition.packets) p result
            (within own self.new.transition.packets)) }
        ensures rest { self.new ≡ record self.old {
          transition = record self.old.transition {
            packets = self.new.transition.packets;
          };
        } }
    {
        self.transition.keeps_rules();
        self.transition.turn(&self.net, number)
    }

    /// The next edit is done, where it is no removal that has to wait: `Busy` comes exactly where it is
    /// a removal and a packet that entered before the switch is in flight, with the least number of
    /// such a packet; `Finished` exactly where no edit is left. The edits are each addition, the
    /// switch, and each removal. What an edit adds or removes is found or not found from then on, and
    /// all else is as it was; no packet is changed. `Busy` and `NoMemory` leave all as it was.
    pub fn edit(&mut self) -> Result<Edit, EditFault>
        ensures edit { EditsAs self.old result self.new }
        ensures changed { IfOk result (λ edit.
            IsChanged edit (tables_now self.old) (tables_now self.new)) }
    {
        match self.transition.answer() {
            Err(busy) => Err(EditFault::Busy {
                packet: busy.packet,
            }),
            Ok(edit) => match change(self.alloc, &mut self.net, edit) {
                Err(_) => Err(EditFault::NoMemory),
                Ok(()) => {
                    let _ = self.transition.edit();
                    Ok(edit)
                }
            },
        }
    }
}
