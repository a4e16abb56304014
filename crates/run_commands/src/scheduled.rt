//! Packets side by side, in turns by a schedule, written by the pool as they go.

ghost use Rattle.std.specs.Prelude.{◌≡◌, ◌<◌, ◌+◌, ◌^◌, ◌∷◌, [], IfSome, None, OnErr, OnOk, Option, Some, length};
ghost use Rattle.icmp6_errors.specs.Answer.{error_bytes};
ghost use Rattle.packet_walk.specs.Flight.{entering, packet_of, turned};
ghost use Rattle.packet_walk.specs.FlightTerms.{IsGiven};
ghost use Rattle.packet_walk.specs.ScheduleTerms.{comings_of, next_of};
ghost use Rattle.node_stage.specs.Fronted.{fronted};
ghost use Rattle.srv6_rules.specs.Packet.{Packet as PacketValue, bytes_of};
ghost use Rattle.walk_rules.specs.WalkLawsTerms.{TellsOfError};
ghost use Rattle.walk_rules.specs.Relation.{IsPlace};
ghost use Rattle.command_output.specs.CommandAnswers.{ending_of_step};
ghost use Rattle.run_commands.specs.WrittenCapture.{frame_by};
ghost use Rattle.run_commands.specs.WrittenCaptureTerms.{IsWritable};
ghost use Rattle.command_output.specs.GatheredTerms.{Goes, pooled};
ghost use Rattle.command_output.specs.OutputPieces.{ForErr, ForOut};
ghost use Rattle.run_commands.specs.Scheduled.{line_by, pieces_of_stage, scheduled_pieces};
ghost use Rattle.run_commands.specs.ScheduledTerms.{IsEntered, IsInStep};
ghost use Rattle.command_output.specs.Sent.{IsEnd};

use crate::course::Course;
use crate::put_stage::put_sent;
use base::NoMemory;
use command_output::{Failure, Pool, write_packet_line};
use net_model::Net;
use node_stage::Content;
use packet_walk::{Flight, Turns};
use srx_edge::Sink;
use std::alloc::Global;
use walk_rules::{Outcome, Place};

/// Packets that entered, with the numbers of their frames.
#[derive(Debug, Drop)]
pub(crate) struct Entered<'a> {
    /// The packets.
    pub(crate) flight: Flight<'a>,
    /// The numbers of their frames, in the order of entering, in which they rise.
    pub(crate) numbers: Vec<u32>,
}

impl<'a> Entered<'a> {
    /// None yet; takes no memory.
    pub(crate) fn new(alloc: Global, net: &'a Net) -> Entered<'a>
        ensures flight { result.flight ≡ record { net = net.now; error = []; packets = [] } }
        ensures numbers { result.numbers.items ≡ [] }
    {
        Entered {
            flight: Flight::new(alloc, net),
            numbers: Vec::new(alloc),
        }
    }

    /// What stands at a place enters there after the packets before it, with the number of its
    /// frame, and with the choices of its decisions. `NoMemory` leaves all as it was.
    pub(crate) fn enter(
        &mut self,
        number: u32,
        content: Content,
        place: Place,
        choices: &'a [u32],
    ) -> Result<(), NoMemory>
        requires place { IsPlace self.old.flight.net place }
        requires choices { 0 < length choices.now }
        requires few { length self.old.flight.packets + 1 < 2 ^ 32 }
        ensures entered { OnOk result (IsEntered number
            (Some (entering (fronted content 0) place choices.now))
            self.old.numbers.items self.old.flight self.new.numbers.items self.new.flight) }
        ensures kept_flight { OnErr result (self.new.flight ≡ self.old.flight) }
        ensures kept_numbers { OnErr result (self.new.numbers.items ≡ self.old.numbers.items) }
    {
        // With room for the number only the flight's own room can be wanting.
        self.numbers.reserve(1)?;
        self.flight
            .enter_content(content.into_buf(), place, choices)?;
        self.numbers.push(number)?;
        Ok(())
    }
}

/// A packet of a flight, and the number of its frame.
#[derive(Clone, Copy)]
struct Turn {
    packet: u32,
    number: u32,
}

/// Writes what a packet's stage sends, with the number of its frame.
fn put_stage<O: Sink, E: Sink>(
    flight: &Flight<'_>,
    turn: Turn,
    outcome: &Outcome,
    pool: &mut Pool,
    out: &mut O,
    err: &mut E,
) -> Result<(), Failure>
    requires given { IsGiven flight.now turn.packet }
    requires writable { IfSome (packet_of flight.now turn.packet)
        (λ p. IsWritable outcome.now (bytes_of p.content)) }
    ensures { IfSome (packet_of flight.now turn.packet) (λ p. (told : Option PacketValue)
        → TellsOfError outcome.now told → flight.now.error ≡ error_bytes told
        → Goes (ending_of_step result)
        (ForOut (frame_by turn.number outcome.now p.content told) ∷ [])
        (pooled pool.old (O.seen out.old) (E.seen err.old))
        (pooled pool.new (O.seen out.new) (E.seen err.new))) }
{
    let (packet, error) = (flight.bytes(turn.packet), flight.error());
    put_sent(turn.number, outcome, packet, error, pool, out, err)
}

/// Writes the line of a packet, with the number of its frame, if it has ended.
#[tactic(auto, using(command_output::proofs::PublicLaws::going))]
fn put_end<O: Sink, E: Sink>(
    alloc: Global,
    net: &Net,
    flight: &Flight<'_>,
    turn: Turn,
    pool: &mut Pool,
    out: &mut O,
    err: &mut E,
) -> Result<(), Failure>
    requires given { IsGiven flight.now turn.packet }
    requires within { IfSome (packet_of flight.now turn.packet)
        (λ p. IfSome p.ended (IsEnd net.now)) }
    ensures { IfSome (packet_of flight.now turn.packet) (λ p. Goes (ending_of_step result)
        (ForErr (line_by net.now turn.number p.ended) ∷ [])
        (pooled pool.old (O.seen out.old) (E.seen err.old))
        (pooled pool.new (O.seen out.new) (E.seen err.new))) }
{
    match flight.ended(turn.packet) {
        Some(ended) => {
            let mut line = String::new(alloc);
            write_packet_line(&mut line, net, turn.number, &ended)?;
            pool.put_err(line.as_bytes(), out, err)
        }
        None => Ok(()),
    }
}

/// A packet takes its next stage, and what that sends is written with the number of the packet's
/// frame; after its last stage its line.
#[tactic(auto, using(command_output::proofs::PublicLaws::going))]
fn put_turn<O: Sink, E: Sink>(
    alloc: Global,
    net: &Net,
    flight: &mut Flight<'_>,
    turn: Turn,
    pool: &mut Pool,
    out: &mut O,
    err: &mut E,
) -> Result<(), Failure>
    requires given { IsGiven flight.old turn.packet }
    requires going { IfSome (packet_of flight.old turn.packet) (λ p. p.ended ≡ None) }
    requires net { flight.old.net ≡ net.now }
    ensures turned { OnOk result (flight.new ≡ turned turn.packet flight.old) }
    ensures wrote { IfSome (packet_of flight.old turn.packet) (λ p.
        Goes (ending_of_step result)
        (pieces_of_stage net.now (next_of turn.number net.now p))
        (pooled pool.old (O.seen out.old) (E.seen err.old))
        (pooled pool.new (O.seen out.new) (E.seen err.new))) }
{
    flight.keeps_rules(turn.packet);
    let Some(event) = flight.turn(turn.packet)? else {
        return Ok(());
    };
    put_stage(flight, turn, &event.outcome, pool, out, err)?;
    put_end(alloc, net, flight, turn, pool, out, err)
}

/// Writes all stages of the packets that entered, in the order of the schedule.
#[tactic(auto, using(crate::proofs::DriverTurning::by_turns))]
pub(crate) fn put_turns<O: Sink, E: Sink>(
    alloc: Global,
    course: &Course<'_>,
    entered: Entered<'_>,
    pool: &mut Pool,
    out: &mut O,
    err: &mut E,
) -> Result<(), Failure>
    requires { IsInStep course.now.net.now entered.numbers.items entered.flight }
    ensures { Goes (ending_of_step result)
        (scheduled_pieces course.now.net.now course.now.schedule.now
        (comings_of entered.entry.numbers.items entered.entry.flight))
        (pooled pool.old (O.seen out.old) (E.seen err.old))
        (pooled pool.new (O.seen out.new) (E.seen err.new)) }
{
    let Entered {
        mut flight,
        numbers,
    } = entered;
    let mut turns = Turns::new(course.schedule, numbers.as_slice());
    'turns: while let Some(packet) = turns.next(&flight) {
        let number = numbers[(packet - 1) as usize];
        let turn = Turn { packet, number };
        put_turn(alloc, course.net, &mut flight, turn, pool, out, err)?;
    }
    Ok(())
}
