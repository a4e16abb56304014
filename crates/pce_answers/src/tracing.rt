//! Packets that are traced.

ghost use Rattle.std.specs.Prelude.{◌≡◌, ◌<◌, ◌^◌, ◌∷◌, [], true, All, IfOk, length};
ghost use Rattle.srv6_rules.specs.Packet.{entered};
ghost use Rattle.pcap_io.specs.Frames.{by_version};
ghost use Rattle.trace_replay.specs.Written.{trace_text};
ghost use Rattle.trace_commands.specs.TraceCommand.{traced_as, traced_by};
ghost use Rattle.pce_protocol.specs.Kinds.{is_packet};
ghost use Rattle.pce_answers.specs.NetAnswers.{IsTraceReply};
ghost use Rattle.pce_answers.specs.NetAnswersTerms.{body_as};

use crate::held_net::HeldNet;
use crate::texts::text_of_bytes;
use base::NoMemory;
use command_output::Failure;
use net_model::{Name, Net};
use pce_protocol::{Answer, Choices, Packet, Reply, ReplyError, Text};
use srv6_rules::Family;
use srx_edge::SureSink;
use std::alloc::{AllocError, Global};
use trace_commands::write_packet_trace;

/// The family of a packet, by its version.
fn family_of(packet: &[u8]) -> Family
    requires { is_packet packet.now ≡ true }
    ensures { by_version packet.now ≡ body_as result packet.now }
{
    match packet {
        [first, ..] if *first / 16 == 6 => Family::V6,
        _ => Family::V4,
    }
}

/// Each byte is below 256.
fn are_bytes(bytes: &[u8])
    ensures { All (λ b. b < 2 ^ 8) bytes.now }
{}

/// The bytes of the trace of a packet of a family from a node.
#[tactic(auto, using(crate::proofs::PacketTraces::sunk))]
fn traced_bytes(
    alloc: Global,
    net: &Net,
    node: u32,
    choices: &[u32],
    family: Family,
    packet: &[u8],
) -> Result<Vec<u8>, NoMemory>
    requires node { node < length net.now.nodes }
    requires choices { 0 < length choices.now }
    ensures { IfOk result (λ bytes. bytes.items ≡ trace_text net.now
        (traced_as node choices.now 1 family (entered family packet.now) ∷ [])) }
{
    let mut sink = SureSink::new(alloc);
    match write_packet_trace(alloc, net, node, choices, family, packet, &mut sink) {
        Ok(()) => Ok(sink.held().to_vec(alloc)?),
        // The sink has no faults, so it is memory that was wanting.
        Err(Failure::Fault | Failure::NoMemory) => Err(NoMemory),
    }
}

/// The trace of a packet from a node.
#[tactic(auto, using(crate::proofs::PacketTraces::traced))]
fn trace_of(
    alloc: Global,
    net: &Net,
    node: u32,
    packet: &Packet,
    choices: &Choices,
) -> Result<Text, NoMemory>
    requires { node < length net.now.nodes }
    ensures { IfOk result (λ text. text
        ≡ trace_text net.now (traced_by node choices.now 1 (by_version packet.now))) }
{
    net.keeps_rules();
    let bytes = packet.as_bytes();
    are_bytes(bytes);
    let family = family_of(bytes);
    let trace = traced_bytes(alloc, net, node, choices.as_slice(), family, bytes)?;
    Ok(text_of_bytes(trace))
}

/// The reply to a request to trace a packet from the node of a name, under choices that its
/// decisions take in turn: `UnknownName` exactly where no node has the name; else the text of
/// `srv6 trace` of this packet alone, which is packet 1. `NoMemory` may come in the place of either.
pub fn trace_answer(
    alloc: Global,
    held: &HeldNet,
    node: &Name,
    packet: &Packet,
    choices: &Choices,
) -> Reply
    ensures { IsTraceReply held.now node.now packet.now choices.now result }
{
    let net = held.net();
    let Some(number) = net.node_named(node.as_bytes()) else {
        return match String::from_str(alloc, node.as_str()) {
            Ok(name) => Err(ReplyError::UnknownName(Name::new(name))),
            Err(AllocError) => Err(ReplyError::NoMemory),
        };
    };
    match trace_of(alloc, net, number, packet, choices) {
        Ok(text) => Ok(Answer::Traced(text)),
        Err(NoMemory) => Err(ReplyError::NoMemory),
    }
}
