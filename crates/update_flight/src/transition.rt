//! An update on its way: packets in flight, and the edits between their stages.

ghost use Rattle.std.specs.Prelude.{◌≡◌, ◌+◌, ◌<◌, ◌^◌, IfSome, length};
ghost use Rattle.net_model.specs.Network.{Network};
ghost use Rattle.srv6_rules.specs.Packet.{entered as entered_as};
ghost use Rattle.node_stage.specs.Fronted.{fronted};
ghost use Rattle.packet_walk.specs.Flight.{entering, packet_in, stage_in, within};
ghost use Rattle.packet_walk.specs.FlightTerms.{ArePlaced, IsNumber, Turns};
ghost use Rattle.update_flight.specs.MomentTables.{HasRoute};
ghost use Rattle.update_flight.specs.MomentTablesTerms.{KeepsOwn};
ghost use Rattle.update_flight.specs.Transition.{answer_of, edited, first_early, is_before_switch, next_edit, starting, steps};
ghost use Rattle.update_flight.specs.TransitionTerms.{EntersAs, IsTransition};

use crate::table_edit::{Busy, Edit};
use base::NoMemory;
use net_model::{EntryId, Net};
use node_stage::ContentBuf;
use packet_walk::{Event, Packets};
use pkt_buf::PktBuf;
use std::alloc::Global;
use std::marker::Model;
use walk_rules::Place;

/// An update on its way, apart from the tables: its edits, in their order, and the packets in
/// flight between them. The tables are the caller's, who changes them as each edit says.
#[derive(Debug, Drop)]
pub struct Transition<'a> {
    added: Vec<EntryId>,
    removed: Vec<EntryId>,
    done: usize,
    early: u32,
    passed: u32,
    packets: Packets<'a>,
}

impl<'a> Model for Transition<'a> {
    ghost use Rattle.update_flight.specs.Transition.{Transition as TransitionValue};
    ghost use Rattle.update_flight.specs.TransitionTerms.{IsPassed, transition_value};

    ghost Value = { TransitionValue };

    ghost view = { λ t. transition_value t.added.items t.removed.items t.done t.early t.packets };

    ghost invariant = { λ t. IsPassed t.passed
        (transition_value t.added.items t.removed.items t.done t.early t.packets) };
}

/// How many edits an edit is: one, and none where it is finished.
fn steps(edit: Edit) -> usize
    ensures { result ≡ steps edit }
{
    match edit {
        Edit::Added { .. } | Edit::Switched | Edit::Removed { .. } => 1,
        Edit::Finished => 0,
    }
}

impl<'a> Transition<'a> {
    /// No edit is done, and no packet has entered; takes no memory. The entries are those that are
    /// added and those that are removed, each in the order of its edits.
    pub fn new(alloc: Global, added: Vec<EntryId>, removed: Vec<EntryId>) -> Transition<'a>
        requires { length added.items + length removed.items + 1 < 2 ^ 32 }
        ensures { result ≡ starting added.items removed.items }
    {
        Transition {
            added,
            removed,
            done: 0,
            early: 0,
            passed: 0,
            packets: Packets::new(alloc),
        }
    }

    /// The packets in flight, by numbers from 1 in the order in which they entered.
    pub fn packets(&self) -> &Packets<'a>
        ensures { result.now ≡ self.now.packets }
    {
        &self.packets
    }

    /// Whether packets that enter are those of the old description: the switch is still to come.
    pub fn is_before_switch(&self) -> bool
        ensures { result ≡ is_before_switch self.now }
    {
        self.done <= self.added.len()
    }

    /// What is so of a transition. For the callers' proofs.
    pub fn keeps_rules(&self)
        ensures { IsTransition self.now }
    {
        let _ = &self.passed;
    }

    /// The next edit: each addition, then the switch, then each removal, and then none.
    fn next_edit(&self) -> Edit
        ensures { result ≡ next_edit self.now }
    {
        if self.done < self.added.len() {
            return Edit::Added {
                entry: self.added[self.done],
            };
        }
        if self.done == self.added.len() {
            return Edit::Switched;
        }
        match self.removed.get(self.done - self.added.len() - 1) {
            Some(entry) => Edit::Removed { entry: *entry },
            None => Edit::Finished,
        }
    }

    /// The first packet in flight of those that entered before the switch. Those in front of it are
    /// passed, and not seen again.
    fn first_early(&mut self) -> Option<u32>
        ensures first { result ≡ first_early self.old }
        ensures same { self.new ≡ self.old }
    {
        'packets: while self.passed < self.early {
            let number = self.passed + 1;
            match self.packets.ended(number) {
                Some(_) => self.passed = number,
                None => return Some(number),
            }
        }
        None
    }

    /// What the next edit answers, as `edit` does; nothing is done yet.
    pub fn answer(&mut self) -> Result<Edit, Busy>
        ensures answer { result ≡ answer_of self.old }
        ensures same { self.new ≡ self.old }
    {
        let next = self.next_edit();
        if let Edit::Removed { .. } = next {
            if let Some(packet) = self.first_early() {
                return Err(Busy { packet });
            }
        }
        Ok(next)
    }

    /// The next edit is done, where it is no removal that has to wait: `Busy` comes exactly where it is
    /// a removal and a packet that entered before the switch is in flight, and leaves all as it was;
    /// `Finished` exactly where no edit is left. No packet is changed. The caller changes the tables
    /// as the edit says before the next turn.
    pub fn edit(&mut self) -> Result<Edit, Busy>
        ensures answer { result ≡ answer_of self.old }
        ensures edited { self.new ≡ edited self.old }
    {
        match self.answer() {
            Ok(edit) => {
                self.done += steps(edit);
                Ok(edit)
            }
            Err(busy) => Err(busy),
        }
    }

    /// What stands at a place enters there, with the choices of its decisions, as a packet of the old
    /// description before the switch and as one of the new after it, as `Packets::enter_content` has
    /// it. `NoMemory` leaves all as it was.
    pub fn enter_content(
        &mut self,
        content: ContentBuf,
        place: Place,
        choices: &'a [u32],
    ) -> Result<u32, NoMemory>
        requires choices { 0 < length choices.now }
        requires few { length self.old.packets.packets + 1 < 2 ^ 32 }
        ensures { EntersAs self.old (entering content place choices.now)
            (entering content place choices.now) result self.new }
    {
        if self.added.len() < self.done {
            return self.packets.enter_content(content, place, choices);
        }
        match self.packets.enter_content(content, place, choices) {
            Ok(number) => {
                self.early = number;
                Ok(number)
            }
            Err(why) => Err(why),
        }
    }

    /// A packet enters at a place with the choices of its decisions, as `Packets::enter` has it: with
    /// the first buffer before the switch, and with the second after it. `NoMemory` leaves all as it
    /// was, and both buffers are given up.
    pub fn enter(
        &mut self,
        old: PktBuf,
        new: PktBuf,
        place: Place,
        choices: &'a [u32],
    ) -> Result<u32, NoMemory>
        requires choices { 0 < length choices.now }
        requires few { length self.old.packets.packets + 1 < 2 ^ 32 }
        ensures { EntersAs self.old
            (entering (fronted (entered_as place.family old.bytes) old.front) place choices.now)
            (entering (fronted (entered_as place.family new.bytes) new.front) place choices.now)
            result self.new }
    {
        if self.done > self.added.len() {
            return self.packets.enter(new, place, choices);
        }
        match self.packets.enter(old, place, choices) {
            Ok(number) => {
                self.early = number;
                Ok(number)
            }
            Err(why) => Err(why),
        }
    }

    /// The next stage of a packet by the tables of the moment, as `Packets::turn` has it.
    /// Where the tables keep the matches of the packet's own description, and its stage there is no
    /// drop for want of a route, it is that stage.
    pub fn turn(&mut self, net: &Net, number: u32) -> Result<Option<Event>, NoMemory>
        requires given { IsNumber self.old.packets.packets number }
        requires places { ArePlaced net.now self.old.packets.packets }
        ensures turn { IfSome (packet_in self.old.packets.packets number) (λ p.
            Turns number (within net.now self.old.packets) p result
            (within net.now self.new.packets)) }
        ensures own { (own : Network) → KeepsOwn own net.now →
            IfSome (packet_in self.old.packets.packets number) (λ p. HasRoute (stage_in own p) →
            Turns number (within own self.old.packets) p result (within own self.new.packets)) }
        ensures rest { self.new ≡ record self.old { packets = self.new.packets } }
        ensures places { ArePlaced net.now self.new.packets.packets }
    {
        self.packets.turn(net, number)
    }
}
