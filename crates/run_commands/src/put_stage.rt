//! A packet's stage, and the capture's head, written by the pool.

ghost use Rattle.std.specs.Prelude.{◌≡◌, ◌≤◌, ◌∷◌, [], IfOk, IfSome, OnErr, OnOk, Option, length};
ghost use Rattle.icmp6_errors.specs.Answer.{error_bytes};
ghost use Rattle.pcap_io.specs.Capture.{written_head_bytes};
ghost use Rattle.srv6_rules.specs.Packet.{Content as ContentValue, Packet as PacketValue, bytes_of};
ghost use Rattle.command_output.specs.CommandAnswers.{ending_of_step};
ghost use Rattle.command_output.specs.GatheredTerms.{Goes, pooled};
ghost use Rattle.command_output.specs.OutputPieces.{ForOut};
ghost use Rattle.command_output.specs.Sent.{IsEnd};
ghost use Rattle.run_commands.specs.WrittenCapture.{frame_by};
ghost use Rattle.run_commands.specs.WrittenCaptureTerms.{IsWritable};
ghost use Rattle.trace_replay.specs.Numbered.{IsNumbered};
ghost use Rattle.walk_rules.specs.WalkLawsTerms.{TellsOfError};
ghost use Rattle.walk_rules.specs.Relation.{IsPlace};
ghost use Rattle.walk_rules.specs.Treatment.{step_of};
ghost use Rattle.walk_rules.specs.Walk.{next_place as place_after, end_by};

use base::NoMemory;
use command_output::{Failure, Pool};
use icmp6_errors::IcmpSlot;
use net_model::Net;
use node_stage::{Content, stage};
use srv6_rules::numbers::MAX_PACKET_LEN;
use srx_edge::Sink;
use std::alloc::Global;
use trace_replay::an_outcome_names_what_is_there;
use walk_rules::{Outcome, Place};

/// Writes the capture's head.
#[tactic(auto, using(command_output::proofs::PublicLaws::going))]
pub fn put_head<O: Sink, E: Sink>(
    alloc: Global,
    pool: &mut Pool,
    out: &mut O,
    err: &mut E,
) -> Result<(), Failure>
    ensures { Goes (ending_of_step result) (ForOut written_head_bytes ∷ [])
        (pooled pool.old (O.seen out.old) (E.seen err.old))
        (pooled pool.new (O.seen out.new) (E.seen err.new)) }
{
    let mut head = Vec::new(alloc);
    pcap_io::write_head(&mut head)?;
    pool.put_out(head.as_slice(), out, err)
}

/// Writes what a stage sends: the packet on a link, with the link's number from 1 as microseconds,
/// or the ICMPv6 error about what is dropped, with 0.
#[tactic(auto, using(crate::proofs::DriverWalking::errors))]
pub fn put_sent<O: Sink, E: Sink>(
    number: u32,
    outcome: &Outcome,
    packet: &[u8],
    error: &[u8],
    pool: &mut Pool,
    out: &mut O,
    err: &mut E,
) -> Result<(), Failure>
    requires writable { IsWritable outcome.now packet.now }
    requires error { length error.now ≤ MAX_PACKET_LEN }
    ensures { (after : ContentValue) (told : Option PacketValue) → TellsOfError outcome.now told
        → packet.now ≡ bytes_of after → error.now ≡ error_bytes told
        → Goes (ending_of_step result) (ForOut (frame_by number outcome.now after told) ∷ [])
        (pooled pool.old (O.seen out.old) (E.seen err.old))
        (pooled pool.new (O.seen out.new) (E.seen err.new)) }
{
    match outcome {
        Outcome::Send { link } => pool.put_frame(number, *link + 1, packet, out, err),
        Outcome::Drop { error: told, .. } => {
            if !*told {
                return Ok(());
            }
            pool.put_frame(number, 0, error, out, err)
        }
        Outcome::Again { .. } | Outcome::Hand { .. } | Outcome::Local => Ok(()),
    }
}

/// Takes one stage, of which what it sends can be written; the slot has the error about what it
/// drops. `NoMemory` leaves what stands there as it was, and the slot too.
pub fn take_stage(
    alloc: Global,
    net: &Net,
    place: &Place,
    content: &mut Content,
    choice: u32,
    error: &mut IcmpSlot,
) -> Result<Outcome, NoMemory>
    requires { IsPlace net.now place.now }
    ensures function { IfOk result (λ outcome.
        let gave = step_of net.now place.now content.old choice in
        gave ≡ record { outcome = outcome; after = content.new; error = gave.error }) }
    ensures error { OnOk result (error.new.items
        ≡ error_bytes (step_of net.now place.now content.old choice).error) }
    ensures tells { IfOk result (λ outcome.
        TellsOfError outcome (step_of net.now place.now content.old choice).error) }
    ensures writable { IfOk result (λ outcome. IsWritable outcome (bytes_of content.new)) }
    ensures next { IfOk result (λ outcome.
        IfSome (place_after net.now place.now outcome) (IsPlace net.now)) }
    ensures ends { IfOk result (λ outcome. IsEnd net.now (end_by net.now place.now outcome)) }
    ensures numbered { IfOk result (IsNumbered net.now) }
    ensures kept { OnErr result (content.new ≡ content.old) }
    ensures last { OnErr result (error.new.items ≡ error.old.items) }
{
    net.keeps_rules();
    an_outcome_names_what_is_there();
    content.keeps_rules();
    stage(alloc, net, place, content, choice, error)
}
