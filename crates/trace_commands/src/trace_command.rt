//! The command `trace`: the walks of the packets of the input, from a node of the network that a
//! file describes, as text.

ghost use Rattle.std.specs.Prelude.{◌≡◌, ◌<◌, ◌∷◌, [], IfOk, IfSome, Some, length};
ghost use Rattle.srv6_rules.specs.Packet.{bytes_of};
ghost use Rattle.srx_edge.specs.CallStepsTerms.{Wrote};
ghost use Rattle.command_output.specs.CommandAnswers.{CommandsOut, ending_of_step};
ghost use Rattle.trace_commands.specs.TraceCommand.{text_of, trace_spec, trace_words, traced_as};
ghost use Rattle.trace_commands.specs.TraceCommandTerms.{trace_asked};
ghost use Rattle.trace_commands.specs.Teller.{MayTell, frame_trace};
ghost use Rattle.command_output.specs.GatheredTerms.{Goes, pooled};
ghost use Rattle.command_output.specs.OutputLines.{line};
ghost use Rattle.command_output.specs.OutputPieces.{ForOut};
ghost use Rattle.command_output.specs.Verbs.{words_of};
ghost use Rattle.command_inputs.specs.InputPackets.{fault_of, reading_of};
ghost use Rattle.command_inputs.specs.InputPacketsTerms.{HasHead};
ghost use Rattle.trace_replay.specs.TraceLines.{outcome_text, stages_text};
ghost use Rattle.trace_replay.specs.Numbered.{IsNumbered};
ghost use Rattle.trace_replay.specs.Written.{packet_trace, trace_head_bytes, trace_end_bytes};
ghost use Rattle.trace_replay.specs.WrittenTerms.{walk_trace};
ghost use Rattle.walk_rules.specs.Relation.{IsPlace};
ghost use Rattle.walk_rules.specs.Walk.{choice_at};

use base::NoMemory;
use command_inputs::{
    Packets, Puts, choices_of_words, network_of_file, node_of_name, packets_of_input, put_frames,
};
use command_output::{Conclusion, Failure, Halt, Pool, Refusal, Status, Text, two_words_after};
use icmp6_errors::IcmpSlot;
use net_model::Net;
use node_stage::Content;
use packet_walk::decisions_of;
use pcap_io::{LentBody, LentFrame};
use run_commands::{Silent, take_stage};
use srv6_rules::Family;
use srx_edge::{Files, Sink, Source};
use std::alloc::{AllocError, Global};
use trace_replay::{print_end, print_event, print_head, print_packet, print_stages};
use walk_rules::{How, MAX_STAGES, Outcome, Place, next_place};

/// What the words of `trace` ask for.
#[derive(Debug, Drop)]
pub struct TraceWords<'a> {
    /// The file's name.
    pub file: &'a str,
    /// The node's name.
    pub node: &'a str,
    /// The choices that each packet takes, at least one.
    pub choices: Vec<u32>,
}

/// What these words ask for, if they are those of `trace`.
pub fn trace_of_words(alloc: Global, words: &[String]) -> Result<Option<TraceWords<'_>>, AllocError>
    ensures spelled { IfOk result (λ asked. trace_asked asked ≡ trace_words (words_of words.now)) }
    ensures some { IfOk result (λ asked. IfSome asked (λ a. 0 < length a.choices.items)) }
{
    let Some(two) = two_words_after("trace", words) else {
        return Ok(None);
    };
    let Some(choices) = choices_of_words(alloc, two.more)? else {
        return Ok(None);
    };
    Ok(Some(TraceWords {
        file: two.first,
        node: two.second,
        choices,
    }))
}

/// Writes the first line.
#[tactic(auto, using(command_output::proofs::PublicLaws::going))]
pub(crate) fn put_head<O: Sink, E: Sink>(
    alloc: Global,
    pool: &mut Pool,
    out: &mut O,
    err: &mut E,
) -> Result<(), Failure>
    ensures { Goes (ending_of_step result) (ForOut trace_head_bytes ∷ [])
        (pooled pool.old (O.seen out.old) (E.seen err.old))
        (pooled pool.new (O.seen out.new) (E.seen err.new)) }
{
    let mut text = Vec::new(alloc);
    print_head(alloc, &mut text)?;
    pool.put_out(text.as_slice(), out, err)
}

/// The line of one stage: its outcome, the packet after it, and the error about a drop.
fn line_of_event(
    alloc: Global,
    net: &Net,
    outcome: &Outcome,
    content: &Content,
    error: &IcmpSlot,
) -> Result<Vec<u8>, NoMemory>
    requires { IsNumbered net.now outcome.now }
    ensures { IfOk result (λ text. text.items
        ≡ line (outcome_text net.now outcome.now (bytes_of content.now) error.now.items)) }
{
    let mut text = Vec::new(alloc);
    let (packet, error) = (content.bytes(), error.as_slice());
    print_event(alloc, net, outcome, packet, error, &mut text)?;
    Ok(text)
}

/// Writes the line of a packet that used all its stages.
#[tactic(auto, using(command_output::proofs::PublicLaws::going))]
fn put_stopped<O: Sink, E: Sink>(
    alloc: Global,
    pool: &mut Pool,
    out: &mut O,
    err: &mut E,
) -> Result<(), Failure>
    ensures { Goes (ending_of_step result) (ForOut (line stages_text) ∷ [])
        (pooled pool.old (O.seen out.old) (E.seen err.old))
        (pooled pool.new (O.seen out.new) (E.seen err.new)) }
{
    let mut text = Vec::new(alloc);
    print_stages(alloc, &mut text)?;
    pool.put_out(text.as_slice(), out, err)
}

/// What is written of a frame by the walk of its packet: the network, the node that packets enter
/// at, and the choices of each walk.
#[derive(Drop)]
pub(crate) struct WalkTeller<'a> {
    pub(crate) net: &'a Net,
    pub(crate) node: u32,
    pub(crate) choices: &'a [u32],
}

/// Walks a packet from a place and writes a line for each stage, as it goes. Decision d takes the
/// choice at d modulo the number of choices. The walk ends as its last stage does; where 10,000
/// stages had no end, one more line says so.
fn put_stages<O: Sink, E: Sink>(
    alloc: Global,
    teller: &WalkTeller<'_>,
    start: Place,
    content: Content,
    pool: &mut Pool,
    out: &mut O,
    err: &mut E,
) -> Result<(), Failure>
    requires place { IsPlace teller.now.net.now start }
    requires choices { 0 < length teller.now.choices.now }
    ensures { Goes (ending_of_step result)
        (ForOut (walk_trace MAX_STAGES teller.now.net.now (Some start) content
        (choice_at teller.now.choices.now) 0) ∷ [])
        (pooled pool.old (O.seen out.old) (E.seen err.old))
        (pooled pool.new (O.seen out.new) (E.seen err.new)) }
{
    let (net, choices) = (teller.net, teller.choices);
    let mut content = content;
    let mut place = start;
    let mut error = IcmpSlot::new();
    let mut taken = 0;
    for used in 0..MAX_STAGES {
        let choice = choices[taken % choices.len()];
        let outcome = take_stage(alloc, net, &place, &mut content, choice, &mut error)?;
        let line = line_of_event(alloc, net, &outcome, &content, &error)?;
        pool.put_out(line.as_slice(), out, err)?;
        taken += decisions_of(&outcome);
        match next_place(net, &place, &outcome) {
            Some(next) => place = next,
            None => return Ok(()),
        }
    }
    put_stopped(alloc, pool, out, err)
}

/// A packet that is traced: its number, and what enters of it as a packet of a family.
#[derive(Drop)]
pub(crate) struct Entering {
    pub(crate) number: u32,
    pub(crate) family: Family,
    pub(crate) content: Content,
}

/// Writes the lines of a packet: its bytes as it enters at the node, and its walk from there.
#[tactic(auto, using(crate::proofs::TraceSteps::lines))]
pub(crate) fn put_packet<O: Sink, E: Sink>(
    alloc: Global,
    teller: &WalkTeller<'_>,
    packet: Entering,
    pool: &mut Pool,
    out: &mut O,
    err: &mut E,
) -> Result<(), Failure>
    requires { MayTell teller.now }
    ensures { Goes (ending_of_step result)
        (ForOut (packet_trace teller.now.net.now
        (traced_as teller.now.node teller.now.choices.now packet.number packet.family
        packet.content)) ∷ [])
        (pooled pool.old (O.seen out.old) (E.seen err.old))
        (pooled pool.new (O.seen out.new) (E.seen err.new)) }
{
    let (net, node) = (teller.net, teller.node);
    let Entering {
        number,
        family,
        content,
    } = packet;
    let mut text = Vec::new(alloc);
    print_packet(alloc, net, number, family, node, content.bytes(), &mut text)?;
    pool.put_out(text.as_slice(), out, err)?;
    let place = Place {
        node,
        how: How::Arrived { table: 0 },
        family,
    };
    put_stages(alloc, teller, place, content, pool, out, err)
}

impl Puts for WalkTeller<'_> {
    ghost ready = { MayTell };

    ghost pieces = { λ teller frame. ForOut (frame_trace teller frame) ∷ [] };

    #[tactic(auto, using(crate::proofs::TraceSteps::packet))]
    fn put<O: Sink, E: Sink>(
        &mut self,
        alloc: Global,
        frame: &LentFrame<'_>,
        pool: &mut Pool,
        out: &mut O,
        err: &mut E,
    ) -> Result<(), Failure> {
        let number = frame.number();
        let (family, bytes) = match frame.body() {
            LentBody::V6(bytes) => (Family::V6, bytes),
            LentBody::V4(bytes) => (Family::V4, bytes),
            LentBody::ShortFrame | LentBody::NotIp => return Ok(()),
        };
        let content = Content::enter(family, bytes.to_vec(alloc)?);
        let packet = Entering {
            number,
            family,
            content,
        };
        put_packet(alloc, self, packet, pool, out, err)
    }
}

/// Writes the last line.
#[tactic(auto, using(command_output::proofs::PublicLaws::going))]
pub(crate) fn put_end<O: Sink, E: Sink>(
    alloc: Global,
    pool: &mut Pool,
    out: &mut O,
    err: &mut E,
) -> Result<(), Failure>
    ensures { Goes (ending_of_step result) (ForOut trace_end_bytes ∷ [])
        (pooled pool.old (O.seen out.old) (E.seen err.old))
        (pooled pool.new (O.seen out.new) (E.seen err.new)) }
{
    let mut text = Vec::new(alloc);
    print_end(alloc, &mut text)?;
    pool.put_out(text.as_slice(), out, err)
}

/// Writes the trace, which has its last line where nothing that is refused follows the frames, and
/// gives the refusal of what is after them, if anything is.
fn put_trace<O: Sink, E: Sink>(
    alloc: Global,
    teller: &mut WalkTeller<'_>,
    packets: &Packets,
    pool: &mut Pool,
    out: &mut O,
    err: &mut E,
) -> Result<Option<Refusal>, Failure>
    requires teller { MayTell teller.old }
    requires head { HasHead packets.now }
    ensures fault { IfOk result (λ fault. fault ≡ fault_of (reading_of packets.now)) }
    ensures wrote { Goes (ending_of_step result)
        (ForOut (text_of teller.old.net.now teller.old.node teller.old.choices.now
        (reading_of packets.now)) ∷ [])
        (pooled pool.old (O.seen out.old) (E.seen err.old))
        (pooled pool.new (O.seen out.new) (E.seen err.new)) }
{
    put_head(alloc, pool, out, err)?;
    let mut frames = packets.frames();
    let fault = put_frames(alloc, teller, &mut frames, pool, out, err)?;
    match fault {
        Some(refusal) => Ok(Some(refusal)),
        None => {
            put_end(alloc, pool, out, err)?;
            Ok(None)
        }
    }
}

/// Writes the same for `out` alone. It goes out in groups, and nothing waits at the end.
fn write_trace<O: Sink>(
    alloc: Global,
    teller: &mut WalkTeller<'_>,
    packets: &Packets,
    out: &mut O,
) -> Result<Option<Refusal>, Failure>
    requires teller { MayTell teller.old }
    requires head { HasHead packets.now }
    ensures fault { IfOk result (λ fault. fault ≡ fault_of (reading_of packets.now)) }
    ensures wrote { Wrote (ending_of_step result)
        (text_of teller.old.net.now teller.old.node teller.old.choices.now
        (reading_of packets.now))
        (O.seen out.old) (O.seen out.new) }
{
    let mut pool = Pool::new(alloc)?;
    let mut silent = Silent;
    let fault = put_trace(alloc, teller, packets, &mut pool, out, &mut silent)?;
    pool.pour(out, &mut silent)?;
    Ok(fault)
}

/// Writes the walks of the packets of the input, one after the other, from a node of the network
/// that a file describes, as text. Decision d of each packet, counted in its sends from 0, takes
/// the choice at d modulo the number of choices. The file is judged, then the node's name, then the
/// input, each before the next is read. What is after the last frame of a capture is refused once
/// all packets were written, and then the trace has no last line.
pub fn trace<F: Files, S: Source, O: Sink>(
    alloc: Global,
    file: &str,
    node: &str,
    choices: &[u32],
    files: &mut F,
    input: &mut S,
    out: &mut O,
) -> Result<Conclusion, Halt>
    requires { 0 < length choices.now }
    ensures { CommandsOut (trace_spec file.now node.now choices.now) result
        (F.seen files.old) (F.seen files.new) (S.seen input.old) (S.seen input.new)
        (O.seen out.old) (O.seen out.new) }
{
    let net = network_of_file(alloc, files, file)?;
    let node = node_of_name(&net, node)?;
    let packets = packets_of_input(alloc, input)?;
    let mut teller = WalkTeller {
        net: &net,
        node,
        choices,
    };
    match write_trace(alloc, &mut teller, &packets, out)? {
        Some(refusal) => Err(Halt::Refused(refusal)),
        None => Ok(Conclusion {
            line: Text::Fixed(b""),
            status: Status::Done,
        }),
    }
}
