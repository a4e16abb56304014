//! The one driver of packets: what enters the network is walked, in the order of a schedule or one
//! after the other, and what goes out and comes of it is written.

ghost use Rattle.std.specs.Prelude.{◌≡◌, ◌<◌, ◌+◌, ◌^◌, ◌∷◌, [], IfOk, IfSome, OnOk, length};
ghost use Rattle.packet_walk.specs.ScheduleTerms.{comings_of};
ghost use Rattle.command_output.specs.CommandAnswers.{ending_of_step};
ghost use Rattle.command_output.specs.GatheredTerms.{Goes, WroteInGroups, pooled};
ghost use Rattle.command_output.specs.OutputPieces.{ForErr};
ghost use Rattle.command_output.specs.OutputPiecesTerms.{sinks_of};
ghost use Rattle.command_inputs.specs.InputPackets.{fault_of, reading_of};
ghost use Rattle.command_inputs.specs.InputPacketsTerms.{HasHead};
ghost use Rattle.walk_rules.specs.Relation.{IsPlace};
ghost use Rattle.run_commands.specs.Admission.{coming_of_frame, comings_of_frames, driven_pieces, first_pieces, entrant_of, line_of_early_end, walk_of_entrant};
ghost use Rattle.run_commands.specs.AdmissionTerms.{AllEnterIn, EarlyEndIn, in_flight_if_admitted, line_pieces, packet_pieces, pieces_of_frame};
ghost use Rattle.run_commands.specs.Scheduled.{scheduled_pieces};
ghost use Rattle.run_commands.specs.ScheduledTerms.{IsEntered, IsInStep};

use crate::course::Course;
use crate::enters::{EarlyEnd, Enters, Entrant};
use crate::put_stage::put_head;
use crate::put_walk::put_walk;
use crate::scheduled::{Entered, put_turns};
use base::NoMemory;
use command_inputs::{Found, Frames, Packets, Puts, put_frames};
use command_output::{Failure, Pool, Refusal, write_packet_line, write_unread_line};
use net_model::Net;
use pcap_io::LentFrame;
use pkt_buf::PktBuf;
use srx_edge::Sink;
use std::alloc::Global;

/// Room for the longest line of a packet, so that no line asks for memory: it has a number of at
/// most 10 digits, a reason, and a name of at most 32 bytes.
const LINE_ROOM: usize = 128;

/// Writes the line of a packet that stays, by a text whose bytes are replaced.
#[tactic(auto, using(command_output::proofs::PublicLaws::going))]
pub fn put_stays<O: Sink, E: Sink>(
    line: &mut String,
    net: &Net,
    number: u32,
    stays: &EarlyEnd,
    pool: &mut Pool,
    out: &mut O,
    err: &mut E,
) -> Result<(), Failure>
    requires { EarlyEndIn net.now stays.now }
    ensures { Goes (ending_of_step result) (ForErr (line_of_early_end net.now number stays.now) ∷ [])
        (pooled pool.old (O.seen out.old) (E.seen err.old))
        (pooled pool.new (O.seen out.new) (E.seen err.new)) }
{
    match stays {
        EarlyEnd::NotRead(cause) => write_unread_line(line, number, *cause)?,
        EarlyEnd::Ends(ended) => write_packet_line(line, net, number, ended)?,
    }
    pool.put_err(line.as_bytes(), out, err)
}

/// What is written of the packets that stay. The text of a line is handed on to the next.
#[derive(Drop)]
struct EndsEarly<'a, W> {
    net: &'a Net,
    enters: &'a W,
    line: String,
}

impl<W: Enters> Puts for EndsEarly<'_, W> {
    ghost ready = { λ s. W.ready s.enters.now × AllEnterIn s.net.now (W.entry s.enters.now) };

    ghost pieces = { λ s. line_pieces s.net.now (W.entry s.enters.now) };

    #[tactic(auto, using(command_output::proofs::PublicLaws::going))]
    fn put<O: Sink, E: Sink>(
        &mut self,
        _alloc: Global,
        frame: &LentFrame<'_>,
        pool: &mut Pool,
        out: &mut O,
        err: &mut E,
    ) -> Result<(), Failure> {
        match self.enters.stays(frame) {
            Some(stays) => {
                let number = frame.number();
                put_stays(&mut self.line, self.net, number, &stays, pool, out, err)
            }
            None => Ok(()),
        }
    }
}

/// What is written of the packets that enter, each of which is walked to its end before the next.
/// No packet is kept in memory after its end: its buffer is handed on to the next, and so is the
/// text of its line.
#[derive(Drop)]
struct Walking<'a, W> {
    course: &'a Course<'a>,
    enters: &'a W,
    buf: PktBuf,
    line: String,
}

impl<W: Enters> Walking<'_, W> {
    /// Writes what the walk of a packet that enters sends, and then its line; the buffer in which
    /// it stood is handed on.
    fn walk<O: Sink, E: Sink>(
        &mut self,
        alloc: Global,
        comes: Entrant,
        number: u32,
        pool: &mut Pool,
        out: &mut O,
        err: &mut E,
    ) -> Result<(), Failure>
        requires place { IsPlace self.old.course.now.net.now comes.place }
        requires choices { 0 < length self.old.course.now.choices.now }
        ensures course { self.new.course ≡ self.old.course }
        ensures enters { self.new.enters ≡ self.old.enters }
        ensures wrote { Goes (ending_of_step result)
            (packet_pieces self.old.course.now.net.now number
            (walk_of_entrant self.old.course.now.net.now self.old.course.now.choices.now comes))
            (pooled pool.old (O.seen out.old) (E.seen err.old))
            (pooled pool.new (O.seen out.new) (E.seen err.new)) }
    {
        let walked = put_walk(alloc, self.course, comes, number, pool, out, err)?;
        write_packet_line(&mut self.line, self.course.net, number, &walked.ended)?;
        pool.put_err(self.line.as_bytes(), out, err)?;
        self.buf = walked.content.into_bytes();
        Ok(())
    }
}

impl<W: Enters> Puts for Walking<'_, W> {
    ghost ready = { λ w. W.ready w.enters.now
        × AllEnterIn w.course.now.net.now (W.entry w.enters.now)
        × (0 < length w.course.now.choices.now) };

    ghost pieces = { λ w. pieces_of_frame w.course.now.net.now
        (coming_of_frame w.course.now.net.now w.course.now.choices.now (W.entry w.enters.now)) };

    #[tactic(auto, using(command_output::proofs::PublicLaws::going))]
    fn put<O: Sink, E: Sink>(
        &mut self,
        alloc: Global,
        frame: &LentFrame<'_>,
        pool: &mut Pool,
        out: &mut O,
        err: &mut E,
    ) -> Result<(), Failure> {
        match self.enters.enter(frame, &mut self.buf)? {
            Some(comes) => self.walk(alloc, comes, frame.number(), pool, out, err),
            None => Ok(()),
        }
    }
}

/// The packet of the frame at hand enters beside those before it, if it does.
fn enter_at_hand<'a, N: Frames, W: Enters>(
    alloc: Global,
    course: &Course<'a>,
    enters: &W,
    frames: &N,
    entered: &mut Entered<'a>,
) -> Result<(), NoMemory>
    requires ready { W.ready enters.now }
    requires within { AllEnterIn entered.old.flight.net (W.entry enters.now) }
    requires choices { 0 < length course.now.choices.now }
    requires few { length entered.old.flight.packets + 1 < 2 ^ 32 }
    ensures { IfSome (N.seen frames.now).at (λ frame. OnOk result (IsEntered frame.number
        (in_flight_if_admitted course.now.choices.now (entrant_of (W.entry enters.now frame.body)))
        entered.old.numbers.items entered.old.flight
        entered.new.numbers.items entered.new.flight)) }
{
    let Some(frame) = frames.frame() else {
        return Ok(());
    };
    // Each packet in flight keeps its buffer.
    let mut buf = PktBuf::of(Vec::new(alloc));
    match enters.enter(&frame, &mut buf)? {
        Some(comes) => entered.enter(frame.number(), comes.content, comes.place, course.choices),
        None => Ok(()),
    }
}

/// The packets of all frames that enter, side by side; and the refusal of what comes after the
/// frames, if anything does.
fn enter_frames<'a, N: Frames, W: Enters>(
    alloc: Global,
    course: &Course<'a>,
    enters: &W,
    frames: &mut N,
) -> Result<(Entered<'a>, Option<Refusal>), NoMemory>
    requires ready { W.ready enters.now }
    requires within { AllEnterIn course.now.net.now (W.entry enters.now) }
    requires choices { 0 < length course.now.choices.now }
    ensures fault { IfOk result (λ read. read.1 ≡ (N.seen frames.old).end) }
    ensures in_step { IfOk result (λ read.
        IsInStep course.now.net.now read.0.numbers.items read.0.flight) }
    ensures packets { IfOk result (λ read. comings_of read.0.numbers.items read.0.flight
        ≡ comings_of_frames course.now.net.now course.now.choices.now (W.entry enters.now)
        (N.seen frames.old).frames) }
{
    let mut entered = Entered::new(alloc, course.net);
    'frames: loop {
        match frames.next()? {
            Found::Frame => enter_at_hand(alloc, course, enters, frames, &mut entered)?,
            Found::End(fault) => return Ok((entered, fault)),
        }
    }
}

/// Walks the packets of all frames that enter, in the order of the schedule or one after the other,
/// and gives the refusal of what comes after the frames, if anything does.
fn walk_by_schedule<N: Frames, W: Enters, O: Sink, E: Sink>(
    alloc: Global,
    course: &Course<'_>,
    enters: &W,
    frames: &mut N,
    pool: &mut Pool,
    out: &mut O,
    err: &mut E,
) -> Result<Option<Refusal>, Failure>
    requires ready { W.ready enters.now }
    requires within { AllEnterIn course.now.net.now (W.entry enters.now) }
    requires choices { 0 < length course.now.choices.now }
    ensures fault { IfOk result (λ fault. fault ≡ (N.seen frames.old).end) }
    ensures wrote { Goes (ending_of_step result)
        (scheduled_pieces course.now.net.now course.now.schedule.now
        (comings_of_frames course.now.net.now course.now.choices.now (W.entry enters.now)
        (N.seen frames.old).frames))
        (pooled pool.old (O.seen out.old) (E.seen err.old))
        (pooled pool.new (O.seen out.new) (E.seen err.new)) }
{
    if course.schedule.is_empty() {
        let buf = PktBuf::of(Vec::new(alloc));
        let line = String::with_capacity(alloc, LINE_ROOM)?;
        let mut walking = Walking {
            course,
            enters,
            buf,
            line,
        };
        return put_frames(alloc, &mut walking, frames, pool, out, err);
    }
    let (entered, fault) = enter_frames(alloc, course, enters, frames)?;
    put_turns(alloc, course, entered, pool, out, err)?;
    Ok(fault)
}

/// Writes the capture's head, then the lines of the packets that stay.
fn put_first<N: Frames, W: Enters, O: Sink, E: Sink>(
    alloc: Global,
    course: &Course<'_>,
    enters: &W,
    frames: &mut N,
    pool: &mut Pool,
    out: &mut O,
    err: &mut E,
) -> Result<(), Failure>
    requires ready { W.ready enters.now }
    requires within { AllEnterIn course.now.net.now (W.entry enters.now) }
    ensures { Goes (ending_of_step result)
        (first_pieces course.now.net.now (W.entry enters.now) (N.seen frames.old).frames)
        (pooled pool.old (O.seen out.old) (E.seen err.old))
        (pooled pool.new (O.seen out.new) (E.seen err.new)) }
{
    let line = String::with_capacity(alloc, LINE_ROOM)?;
    put_head(alloc, pool, out, err)?;
    let mut staying = EndsEarly {
        net: course.net,
        enters,
        line,
    };
    put_frames(alloc, &mut staying, frames, pool, out, err)?;
    Ok(())
}

/// Writes the capture's head, then the lines of the packets that stay, of a first source of the
/// frames, and walks the others, of a second; gives the refusal of what comes after the frames, if
/// anything does. All of it goes out by one pool, in which nothing waits at the end.
fn drive_frames<N: Frames, W: Enters, O: Sink, E: Sink>(
    alloc: Global,
    course: &Course<'_>,
    enters: &W,
    first: &mut N,
    again: &mut N,
    out: &mut O,
    err: &mut E,
) -> Result<Option<Refusal>, Failure>
    requires ready { W.ready enters.now }
    requires within { AllEnterIn course.now.net.now (W.entry enters.now) }
    requires choices { 0 < length course.now.choices.now }
    requires same { N.seen again.old ≡ N.seen first.old }
    ensures fault { IfOk result (λ fault. fault ≡ (N.seen first.old).end) }
    ensures wrote { WroteInGroups (ending_of_step result)
        (driven_pieces course.now.net.now course.now.choices.now course.now.schedule.now
        (W.entry enters.now) (N.seen first.old).frames)
        (sinks_of (O.seen out.old) (E.seen err.old)) (sinks_of (O.seen out.new) (E.seen err.new)) }
{
    let mut pool = Pool::new(alloc)?;
    put_first(alloc, course, enters, first, &mut pool, out, err)?;
    let fault = walk_by_schedule(alloc, course, enters, again, &mut pool, out, err)?;
    pool.pour(out, err)?;
    Ok(fault)
}

/// Writes the capture's head, the lines of the packets of the input that stay, by their numbers,
/// and then walks those that enter, in the order of the schedule, or one after the other where
/// there is none: what each stage sends, and after a packet's last stage its line. It goes out in
/// groups, and nothing waits at the end; after a fault or want of memory what still waited is lost.
/// Gives the refusal of what comes after the frames, if anything does.
pub fn drive<W: Enters, O: Sink, E: Sink>(
    alloc: Global,
    course: &Course<'_>,
    enters: &W,
    packets: &Packets,
    out: &mut O,
    err: &mut E,
) -> Result<Option<Refusal>, Failure>
    requires ready { W.ready enters.now }
    requires within { AllEnterIn course.now.net.now (W.entry enters.now) }
    requires choices { 0 < length course.now.choices.now }
    requires head { HasHead packets.now }
    ensures fault { IfOk result (λ fault. fault ≡ fault_of (reading_of packets.now)) }
    ensures wrote { WroteInGroups (ending_of_step result)
        (driven_pieces course.now.net.now course.now.choices.now course.now.schedule.now
        (W.entry enters.now) (reading_of packets.now).frames)
        (sinks_of (O.seen out.old) (E.seen err.old)) (sinks_of (O.seen out.new) (E.seen err.new)) }
{
    let mut first = packets.frames();
    let mut again = packets.frames();
    drive_frames(alloc, course, enters, &mut first, &mut again, out, err)
}
