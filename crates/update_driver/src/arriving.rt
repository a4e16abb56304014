//! Packets before the first event.

ghost use Rattle.std.specs.Prelude.{◌≡◌, ◌≤◌, ◌∷◌, ◌++◌, [], IfOk, IfSome, OnOk, length, map};
ghost use Rattle.command_output.specs.CommandAnswers.{ending_of_step};
ghost use Rattle.command_output.specs.GatheredTerms.{Goes, pooled};
ghost use Rattle.command_output.specs.OutputPieces.{ForErr, ForOut};
ghost use Rattle.run_commands.specs.AdmissionTerms.{AllEnterIn};
ghost use Rattle.pcap_io.specs.Capture.{written_head_bytes};
ghost use Rattle.pcap_io.specs.declared.numbers.TheConstants.{MAX_FRAMES};
ghost use Rattle.pcap_io.specs.FrameLending.{body_lent};
ghost use Rattle.std.specs.List.{flat_map};
ghost use Rattle.update_driver.specs.Arriving.{early_at, is_too_big, line_of_early, seat_of, stays_early};
ghost use Rattle.update_driver.specs.ArrivingTerms.{early_pieces};

use crate::seat::Seat;
use base::{NoMemory, Seq};
use command_inputs::{Found, Frames, Puts, put_frames};
use command_output::{Failure, Pool, Refusal};
use net_model::Net;
use pcap_io::{Body, LentBody, LentFrame};
use run_commands::{EarlyEnd, Enters, put_head, put_stays};
use srv6_rules::Reason;
use srx_edge::Sink;
use std::alloc::Global;
use walk_rules::Ended;

/// Whether a reason is that the packet is too big with what is put in front of it.
fn is_too_big(reason: Reason) -> bool
    ensures { result ≡ is_too_big reason }
{
    match reason {
        Reason::TooBig => true,
        Reason::Truncated
        | Reason::BadVersion
        | Reason::Multicast
        | Reason::NoRoute
        | Reason::HopLimit
        | Reason::BadChain
        | Reason::LateHopByHop
        | Reason::OptionDiscard
        | Reason::OptionUnknown
        | Reason::Fragment
        | Reason::BadSegments
        | Reason::HmacTlv
        | Reason::BadTlv
        | Reason::UnknownRouting
        | Reason::UpperLayer
        | Reason::Ttl
        | Reason::InnerHop
        | Reason::MtuExceeded => false,
    }
}

/// Whether a packet stays before the first event.
fn stays_early(stays: &EarlyEnd) -> bool
    ensures { result ≡ stays_early stays.now }
{
    match stays {
        EarlyEnd::NotRead(_) => true,
        EarlyEnd::Ends(Ended::Dropped { reason, .. }) => !is_too_big(*reason),
        EarlyEnd::Ends(Ended::Left { .. } | Ended::Delivered { .. } | Ended::Stages) => true,
    }
}

/// How a frame's packet stays before the first event, if it does.
fn early_at<W: Enters>(enters: &W, frame: &LentFrame<'_>) -> Option<EarlyEnd>
    requires { W.ready enters.now }
    ensures { result ≡ early_at (W.entry enters.now) frame.now.body }
{
    match enters.stays(frame) {
        Some(stays) => {
            if stays_early(&stays) {
                Some(stays)
            } else {
                None
            }
        }
        None => None,
    }
}

/// What is written of the packets that stay before the first event.
#[derive(Drop)]
struct Arriving<'a, W> {
    net: &'a Net,
    enters: &'a W,
    line: String,
}

impl<W: Enters> Puts for Arriving<'_, W> {
    ghost ready = { λ a. W.ready a.enters.now × AllEnterIn a.net.now (W.entry a.enters.now) };

    ghost pieces = { λ a. early_pieces a.net.now (W.entry a.enters.now) };

    #[tactic(auto, using(command_output::proofs::PublicLaws::going))]
    fn put<O: Sink, E: Sink>(
        &mut self,
        _alloc: Global,
        frame: &LentFrame<'_>,
        pool: &mut Pool,
        out: &mut O,
        err: &mut E,
    ) -> Result<(), Failure> {
        match early_at(self.enters, frame) {
            Some(stays) => {
                let number = frame.number();
                put_stays(&mut self.line, self.net, number, &stays, pool, out, err)
            }
            None => Ok(()),
        }
    }
}

/// Writes the capture's head, and then the lines of the packets that stay before the first event.
pub(crate) fn put_first<N: Frames, W: Enters, O: Sink, E: Sink>(
    alloc: Global,
    net: &Net,
    enters: &W,
    frames: &mut N,
    pool: &mut Pool,
    out: &mut O,
    err: &mut E,
) -> Result<(), Failure>
    requires ready { W.ready enters.now }
    requires within { AllEnterIn net.now (W.entry enters.now) }
    ensures { Goes (ending_of_step result) (ForOut written_head_bytes
        ∷ ForErr (flat_map (line_of_early net.now (W.entry enters.now)) (N.seen
        frames.old).frames) ∷ [])
        (pooled pool.old (O.seen out.old) (E.seen err.old))
        (pooled pool.new (O.seen out.new) (E.seen err.new)) }
{
    put_head(alloc, pool, out, err)?;
    let mut arriving = Arriving {
        net,
        enters,
        line: String::new(alloc),
    };
    put_frames(alloc, &mut arriving, frames, pool, out, err)?;
    Ok(())
}

/// A copy of what a frame holds.
fn copied(alloc: Global, body: LentBody<'_>) -> Result<Body, NoMemory>
    ensures { IfOk result (λ copy. copy ≡ body_lent body.entry) }
{
    match body {
        LentBody::V6(bytes) => Ok(Body::V6(Seq::new(bytes.to_vec(alloc)?))),
        LentBody::V4(bytes) => Ok(Body::V4(Seq::new(bytes.to_vec(alloc)?))),
        LentBody::ShortFrame => Ok(Body::ShortFrame),
        LentBody::NotIp => Ok(Body::NotIp),
    }
}

/// The seat of a frame's packet before the first event: a copy of the frame, where the packet is to
/// come.
fn seat_of<W: Enters>(alloc: Global, enters: &W, frame: &LentFrame<'_>) -> Result<Seat, NoMemory>
    requires { W.ready enters.now }
    ensures { IfOk result (λ seat. seat ≡ seat_of (W.entry enters.now) frame.now) }
{
    match early_at(enters, frame) {
        Some(_) => Ok(Seat::Gone),
        None => Ok(Seat::ToCome(copied(alloc, frame.body())?)),
    }
}

/// The seat of the packet of the frame at hand, behind those before it.
fn seat_at_hand<N: Frames, W: Enters>(
    alloc: Global,
    enters: &W,
    frames: &N,
    seats: &mut Vec<Seat>,
) -> Result<(), NoMemory>
    requires { W.ready enters.now }
    ensures { IfSome (N.seen frames.now).at (λ frame. OnOk result (seats.new.items
        ≡ seats.old.items ++ seat_of (W.entry enters.now) frame ∷ [])) }
{
    match frames.frame() {
        Some(frame) => {
            seats.push(seat_of(alloc, enters, &frame)?)?;
            Ok(())
        }
        None => Ok(()),
    }
}

/// The seats of the packets of all frames before the first event, and the refusal of what comes
/// after the frames, if anything does.
pub(crate) fn seats_of<N: Frames, W: Enters>(
    alloc: Global,
    enters: &W,
    frames: &mut N,
) -> Result<(Vec<Seat>, Option<Refusal>), NoMemory>
    requires { W.ready enters.now }
    ensures seats { IfOk result (λ read. read.0.items ≡ map (seat_of (W.entry enters.now)) (N.seen
        frames.old).frames) }
    ensures few { IfOk result (λ read. length read.0.items ≤ MAX_FRAMES) }
    ensures fault { IfOk result (λ read. read.1 ≡ (N.seen frames.old).end) }
{
    let mut seats = Vec::new(alloc);
    'frames: loop {
        match frames.next()? {
            Found::Frame => seat_at_hand(alloc, enters, frames, &mut seats)?,
            Found::End(fault) => return Ok((seats, fault)),
        }
    }
}
