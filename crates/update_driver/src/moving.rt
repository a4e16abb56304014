//! Packets while the tables pass from one description to another, event by event.

ghost use Rattle.std.specs.Prelude.{◌≡◌, ◌≤◌, ◌<◌, ◌+◌, ◌^◌, ◌∷◌, [], IfOk, IfSome, OnOk, Some, length, slice_get, string_bytes, ◌-◌};
ghost use Rattle.packet_walk.specs.Flight.{packet_in};
ghost use Rattle.packet_walk.specs.FlightTerms.{IsNumber};
ghost use Rattle.packet_walk.specs.Schedule.{frame_of};
ghost use Rattle.pcap_io.specs.FrameLending.{body_lent};
ghost use Rattle.update_flight.specs.Transition.{answer_of};
ghost use Rattle.walk_rules.specs.Relation.{IsPlace};
ghost use Rattle.command_output.specs.CommandAnswers.{ending_of_step};
ghost use Rattle.command_output.specs.GatheredTerms.{Goes, pooled};
ghost use Rattle.command_output.specs.OutputPieces.{ForErr};
ghost use Rattle.command_output.specs.Sent.{IsEnd};
ghost use Rattle.run_commands.specs.Scheduled.{line_by};
ghost use Rattle.update_driver.specs.declared.seat.Seat.TheVariants as seats;
ghost use Rattle.update_driver.specs.Events.{pieces_of};
ghost use Rattle.update_driver.specs.EventsTerms.{line_of_answer};
ghost use Rattle.update_driver.specs.Going.{GoesOn, GoesOnAs, HasEntered, IsGoing, StandsOn, entered_at, moving_of, to_come, written};
ghost use Rattle.update_driver.specs.Moving.{coming_by, editing, entered_count, first_member, side_of, sides_by, turning};

use crate::edit_lines::{write_busy_line, write_edit_line};
use crate::seat::Seat;
use base::NoMemory;
use command_output::{Failure, Pool, write_packet_line};
use net_model::Net;
use pcap_io::{Body, LentBody, LentFrame};
use pkt_buf::PktBuf;
use run_commands::{Enters, Entrant, put_sent, put_stays};
use srx_edge::Sink;
use std::alloc::Global;
use std::mem;
use update_plan::{EditFault, Update};

/// How packets enter by the old description, and how by the new one.
#[derive(Drop)]
pub struct Sides<W> {
    /// By the old one.
    pub old: W,
    /// By the new one.
    pub new: W,
}

/// A packet that entered, and the number of its frame.
#[derive(Clone, Copy)]
struct Turn {
    packet: u32,
    number: u32,
}

/// An update, the seats of the packets of all frames, and the numbers of the frames of those that
/// entered; a network with the names of both descriptions, and the choices of each packet's
/// decisions.
#[derive(Drop)]
pub(crate) struct Moving<'a> {
    pub(crate) net: &'a Net,
    pub(crate) choices: &'a [u32],
    pub(crate) update: Update<'a>,
    pub(crate) seats: Vec<Seat>,
    pub(crate) numbers: Vec<u32>,
    /// Lines are written here, each in place of the one before.
    pub(crate) line: String,
}

/// What a frame held, lent.
fn lent(body: &Body) -> LentBody<'_>
    ensures { body_lent result ≡ body.now }
{
    match body {
        Body::V6(bytes) => LentBody::V6(bytes.as_slice()),
        Body::V4(bytes) => LentBody::V4(bytes.as_slice()),
        Body::ShortFrame => LentBody::ShortFrame,
        Body::NotIp => LentBody::NotIp,
    }
}

impl<'a> Moving<'a> {
    /// The number of the frame of a packet that entered.
    fn frame_of(&self, packet: u32) -> u32
        ensures { result ≡ frame_of self.now.numbers.items packet }
    {
        if packet == 0 {
            return 0;
        }
        match self.numbers.get((packet - 1) as usize) {
            Some(number) => *number,
            None => 0,
        }
    }

    /// Asks for an edit, and has its line, or that of the packet that it waits for.
    fn edit(&mut self) -> Result<(), NoMemory>
        ensures stands { OnOk result (StandsOn self.old self.new) }
        ensures after { OnOk result (moving_of self.new ≡ (editing (moving_of self.old)).after) }
        ensures line { OnOk result (string_bytes self.new.line
            ≡ line_of_answer self.old.numbers.items (answer_of self.old.update.transition)) }
    {
        match self.update.edit() {
            Ok(edit) => Ok(write_edit_line(&mut self.line, edit)?),
            Err(EditFault::Busy { packet }) => {
                let number = self.frame_of(packet);
                Ok(write_busy_line(&mut self.line, number)?)
            }
            Err(EditFault::NoMemory) => Err(NoMemory),
        }
    }

    /// Asks for an edit, and writes its line, or that of the packet that it waits for.
    #[tactic(auto, using(command_output::proofs::PublicLaws::going, crate::proofs::EditLines::edits))]
    fn put_edit<O: Sink, E: Sink>(
        &mut self,
        pool: &mut Pool,
        out: &mut O,
        err: &mut E,
    ) -> Result<(), Failure>
        ensures stands { OnOk result (StandsOn self.old self.new) }
        ensures after { OnOk result (moving_of self.new ≡ (editing (moving_of self.old)).after) }
        ensures wrote { Goes (ending_of_step result)
            (pieces_of self.old.net.now (editing (moving_of self.old)).happens)
            (pooled pool.old (O.seen out.old) (E.seen err.old))
            (pooled pool.new (O.seen out.new) (E.seen err.new)) }
    {
        self.edit()?;
        pool.put_err(self.line.as_bytes(), out, err)
    }

    /// Writes the line of a packet that has ended.
    #[tactic(auto, using(command_output::proofs::PublicLaws::going))]
    fn put_end<O: Sink, E: Sink>(
        &mut self,
        turn: Turn,
        pool: &mut Pool,
        out: &mut O,
        err: &mut E,
    ) -> Result<(), Failure>
        requires given { IsNumber self.old.update.transition.packets.packets turn.packet }
        requires within { IfSome (packet_in self.old.update.transition.packets.packets turn.packet)
            (λ p. IfSome p.ended (IsEnd self.old.net.now)) }
        ensures same { self.new ≡ record self.old { line = self.new.line } }
        ensures wrote { IfSome
            (packet_in self.old.update.transition.packets.packets turn.packet) (λ p.
            Goes (ending_of_step result)
            (ForErr (line_by self.old.net.now turn.number p.ended) ∷ [])
            (pooled pool.old (O.seen out.old) (E.seen err.old))
            (pooled pool.new (O.seen out.new) (E.seen err.new))) }
    {
        match self.update.packets().ended(turn.packet) {
            Some(ended) => {
                write_packet_line(&mut self.line, self.net, turn.number, &ended)?;
                pool.put_err(self.line.as_bytes(), out, err)
            }
            None => Ok(()),
        }
    }

    /// A packet that entered takes a stage, and what that sends is written; after its last stage
    /// its line.
    fn put_turn<O: Sink, E: Sink>(
        &mut self,
        turn: Turn,
        pool: &mut Pool,
        out: &mut O,
        err: &mut E,
    ) -> Result<(), Failure>
        requires given { IsNumber self.old.update.transition.packets.packets turn.packet }
        requires nodes { self.old.update.joined.nodes ≡ self.old.net.now.nodes }
        requires links { self.old.update.joined.links ≡ self.old.net.now.links }
        ensures stands { OnOk result (StandsOn self.old self.new) }
        ensures after { OnOk result (moving_of self.new
            ≡ (turning turn.number turn.packet (moving_of self.old)).after) }
        ensures wrote { Goes (ending_of_step result)
            (pieces_of self.old.net.now
            (turning turn.number turn.packet (moving_of self.old)).happens)
            (pooled pool.old (O.seen out.old) (E.seen err.old))
            (pooled pool.new (O.seen out.new) (E.seen err.new)) }
    {
        self.update.keeps_packet(turn.packet);
        let event = match self.update.turn(turn.packet)? {
            Some(event) => event,
            None => return Ok(()),
        };
        let packets = self.update.packets();
        let (packet, error) = (packets.bytes(turn.packet), packets.error());
        put_sent(turn.number, &event.outcome, packet, error, pool, out, err)?;
        self.put_end(turn, pool, out, err)
    }

    /// How packets enter at the moment.
    fn side<'b, W: Enters>(&self, sides: &'b Sides<W>) -> &'b W
        ensures entry { W.entry result.now ≡ side_of
            (sides_by (W.entry sides.now.old) (W.entry sides.now.new)) self.now.update }
        ensures ready { W.ready sides.now.old → W.ready sides.now.new → W.ready result.now }
    {
        if self.update.is_before_switch() {
            &sides.old
        } else {
            &sides.new
        }
    }

    /// A packet enters, and has its seat.
    fn enter(&mut self, at: usize, number: u32, comes: Entrant) -> Result<Turn, NoMemory>
        requires place { IsPlace self.old.update.joined comes.place }
        requires few { length self.old.update.transition.packets.packets + 1 < 2 ^ 32 }
        requires choices { self.old.choices.now ≡ first_member }
        requires at { at < length self.old.seats.items }
        requires number { number ≡ at + 1 }
        ensures stands { OnOk result (StandsOn self.old self.new) }
        ensures entered { OnOk result (HasEntered at comes (moving_of self.old)
            (moving_of self.new)) }
        ensures packet { IfOk result (λ turn. turn.packet
            ≡ entered_count (moving_of self.old) + 1) }
        ensures number { IfOk result (λ turn. turn.number ≡ number) }
    {
        let content = comes.content.into_buf();
        let packet = self
            .update
            .enter_content(content, comes.place, self.choices)?;
        self.numbers.push(number)?;
        self.seats[at] = Seat::Entered(packet);
        Ok(Turn { packet, number })
    }

    /// The packet of a frame enters and takes its first stage, or stays where its list makes it too
    /// big.
    fn put_coming<W: Enters, O: Sink, E: Sink>(
        &mut self,
        alloc: Global,
        sides: &Sides<W>,
        frame: &LentFrame<'_>,
        pool: &mut Pool,
        out: &mut O,
        err: &mut E,
    ) -> Result<(), Failure>
        requires old { W.ready sides.now.old }
        requires new { W.ready sides.now.new }
        requires going { IsGoing (sides_by (W.entry sides.now.old) (W.entry sides.now.new))
            self.old }
        requires at { frame.now.number ≤ length self.old.seats.items }
        requires number { 1 ≤ frame.now.number }
        requires there { slice_get self.old.seats.items (frame.now.number - 1) ≡ Some seats.Gone }
        requires few { length self.old.update.transition.packets.packets
            + (to_come self.old.seats.items + 1) < 2 ^ 32 }
        ensures after { OnOk result (GoesOnAs
            (sides_by (W.entry sides.now.old) (W.entry sides.now.new))
            (coming_by (frame.now.number - 1) (moving_of self.old)
            (side_of (sides_by (W.entry sides.now.old) (W.entry sides.now.new))
            self.old.update frame.now.body)) self.old self.new) }
        ensures wrote { Goes (ending_of_step result)
            (pieces_of self.old.net.now (coming_by (frame.now.number - 1) (moving_of self.old)
            (side_of (sides_by (W.entry sides.now.old) (W.entry sides.now.new))
            self.old.update frame.now.body)).happens)
            (pooled pool.old (O.seen out.old) (E.seen err.old))
            (pooled pool.new (O.seen out.new) (E.seen err.new)) }
    {
        let enters = self.side(sides);
        let number = frame.number();
        if let Some(stays) = enters.stays(frame) {
            return put_stays(&mut self.line, self.net, number, &stays, pool, out, err);
        }
        let mut buf = PktBuf::of(Vec::new(alloc));
        match enters.enter(frame, &mut buf)? {
            Some(comes) => {
                let turn = self.enter((number - 1) as usize, number, comes)?;
                self.put_turn(turn, pool, out, err)
            }
            None => Ok(()),
        }
    }

    /// The number among those that entered of the packet that has a seat, if it entered.
    fn entered_at(&self, at: usize) -> Option<u32>
        requires { at < length self.now.seats.items }
        ensures { result ≡ entered_at (slice_get self.now.seats.items at) }
    {
        match &self.seats[at] {
            Seat::Entered(packet) => Some(*packet),
            Seat::ToCome(_) | Seat::Gone => None,
        }
    }

    /// Does what an event asks for the packet of a frame, and writes what happens.
    pub(crate) fn put_packet<W: Enters, O: Sink, E: Sink>(
        &mut self,
        alloc: Global,
        sides: &Sides<W>,
        number: u32,
        pool: &mut Pool,
        out: &mut O,
        err: &mut E,
    ) -> Result<(), Failure>
        requires old { W.ready sides.now.old }
        requires new { W.ready sides.now.new }
        requires going { IsGoing (sides_by (W.entry sides.now.old) (W.entry sides.now.new))
            self.old }
        requires number { 1 ≤ number }
        ensures after { OnOk result (GoesOn
            (sides_by (W.entry sides.now.old) (W.entry sides.now.new))
            (number ∷ []) self.old self.new) }
        ensures wrote { Goes (ending_of_step result) (written
            (sides_by (W.entry sides.now.old) (W.entry sides.now.new)) self.old (number ∷ []))
            (pooled pool.old (O.seen out.old) (E.seen err.old))
            (pooled pool.new (O.seen out.new) (E.seen err.new)) }
    {
        let at = (number - 1) as usize;
        if at >= self.seats.len() {
            return Ok(());
        }
        match self.entered_at(at) {
            Some(packet) => return self.put_turn(Turn { packet, number }, pool, out, err),
            None => {}
        }
        match mem::replace(&mut self.seats[at], Seat::Gone) {
            Seat::ToCome(body) => {
                let frame = LentFrame::new(number, lent(&body));
                self.put_coming(alloc, sides, &frame, pool, out, err)
            }
            Seat::Entered(_) => Ok(()),
            Seat::Gone => Ok(()),
        }
    }

    /// Does what an event asks for, and writes what happens: 0 is an edit.
    pub(crate) fn put_event<W: Enters, O: Sink, E: Sink>(
        &mut self,
        alloc: Global,
        sides: &Sides<W>,
        event: u32,
        pool: &mut Pool,
        out: &mut O,
        err: &mut E,
    ) -> Result<(), Failure>
        requires old { W.ready sides.now.old }
        requires new { W.ready sides.now.new }
        requires going { IsGoing (sides_by (W.entry sides.now.old) (W.entry sides.now.new))
            self.old }
        ensures after { OnOk result (GoesOn
            (sides_by (W.entry sides.now.old) (W.entry sides.now.new))
            (event ∷ []) self.old self.new) }
        ensures wrote { Goes (ending_of_step result) (written
            (sides_by (W.entry sides.now.old) (W.entry sides.now.new)) self.old (event ∷ []))
            (pooled pool.old (O.seen out.old) (E.seen err.old))
            (pooled pool.new (O.seen out.new) (E.seen err.new)) }
    {
        if event == 0 {
            return self.put_edit(pool, out, err);
        }
        self.put_packet(alloc, sides, event, pool, out, err)
    }
}
