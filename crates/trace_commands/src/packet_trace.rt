//! The trace of one packet, from a node of a network that is there already.

ghost use Rattle.std.specs.Prelude.{◌≡◌, ◌<◌, ◌∷◌, [], IfOk, length};
ghost use Rattle.srv6_rules.specs.Packet.{entered};
ghost use Rattle.srx_edge.specs.CallStepsTerms.{Wrote};
ghost use Rattle.command_output.specs.CommandAnswers.{ending_of_step};
ghost use Rattle.command_output.specs.GatheredTerms.{Goes, pooled};
ghost use Rattle.command_output.specs.OutputPieces.{ForOut};
ghost use Rattle.trace_replay.specs.Written.{trace_text};
ghost use Rattle.trace_commands.specs.TraceCommand.{traced_as};
ghost use Rattle.trace_commands.specs.Teller.{MayTell};

use crate::trace_command::{Entering, WalkTeller, put_end, put_head, put_packet};
use command_output::{Failure, Pool};
use net_model::Net;
use node_stage::Content;
use run_commands::Silent;
use srv6_rules::Family;
use srx_edge::Sink;
use std::alloc::{AllocError, Global};

/// Writes the trace of one packet: the head, the packet's lines, and the end.
fn put_packet_trace<O: Sink, E: Sink>(
    alloc: Global,
    teller: &WalkTeller<'_>,
    packet: Entering,
    pool: &mut Pool,
    out: &mut O,
    err: &mut E,
) -> Result<(), Failure>
    requires { MayTell teller.now }
    ensures { Goes (ending_of_step result)
        (ForOut (trace_text teller.now.net.now
        (traced_as teller.now.node teller.now.choices.now packet.number packet.family
        packet.content ∷ [])) ∷ [])
        (pooled pool.old (O.seen out.old) (E.seen err.old))
        (pooled pool.new (O.seen out.new) (E.seen err.new)) }
{
    put_head(alloc, pool, out, err)?;
    put_packet(alloc, teller, packet, pool, out, err)?;
    put_end(alloc, pool, out, err)
}

/// Packet 1, with what enters of these bytes.
fn entering_of(alloc: Global, family: Family, packet: &[u8]) -> Result<Entering, AllocError>
    ensures { IfOk result (λ entering. entering ≡ record {
      number = 1;
      family = family;
      content = entered family packet.now;
    }) }
{
    let bytes = packet.to_vec(alloc)?;
    Ok(Entering {
        number: 1,
        family,
        content: Content::enter(family, bytes),
    })
}

/// Writes what `trace` writes of one packet, numbered 1: its walk from a node of the network, under
/// choices that decisions take in turn, as a whole trace.
pub fn write_packet_trace<O: Sink>(
    alloc: Global,
    net: &Net,
    node: u32,
    choices: &[u32],
    family: Family,
    packet: &[u8],
    out: &mut O,
) -> Result<(), Failure>
    requires node { node < length net.now.nodes }
    requires choices { 0 < length choices.now }
    ensures { Wrote (ending_of_step result)
        (trace_text net.now
        (traced_as node choices.now 1 family (entered family packet.now) ∷ []))
        (O.seen out.old) (O.seen out.new) }
{
    let teller = WalkTeller { net, node, choices };
    let entering = entering_of(alloc, family, packet)?;
    let mut pool = Pool::new(alloc)?;
    let mut silent = Silent;
    put_packet_trace(alloc, &teller, entering, &mut pool, out, &mut silent)?;
    pool.pour(out, &mut silent)?;
    Ok(())
}
