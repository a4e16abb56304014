//! What a network, an intent, its list and the walks of generated packets come to, in numbers.

ghost use Rattle.std.specs.Prelude.{◌≡◌, ◌≤◌, ◌<◌, ◌∷◌, [], cond, IfOk, length};
ghost use Rattle.srv6_rules.specs.PoliciesTerms.{IsPolicy};
ghost use Rattle.walk_rules.specs.Relation.{IsPlace};
ghost use Rattle.intent_reader.specs.IntentRulesTerms.{IsIntent};
ghost use Rattle.walk_commands.specs.WalkLists.{IsCompiledFor};
ghost use Rattle.run_commands.specs.Admission.{walk_of_entrant};
ghost use Rattle.run_commands.specs.AdmissionTerms.{AllEnterIn};
ghost use Rattle.walk_commands.specs.WalkCommand.{admission_at_headend};
ghost use Rattle.generate_commands.specs.Summary.{frames_in, has_left, is_send, left_in, summary_of, walks_of, walks_of_packet};
ghost use Rattle.generate_commands.specs.SummaryTerms.{SummaryAnswers};

use crate::summed::Summary;
use base::NoMemory;
use icmp6_errors::IcmpSlot;
use intent_reader::Intent;
use net_generator::write_packet;
use net_model::Net;
use packet_walk::decisions_of;
use path_compiler::{CompileFault, Compiled};
use pcap_io::{LentBody, LentFrame};
use pkt_buf::PktBuf;
use run_commands::{Enters, Entrant, take_stage};
use std::alloc::Global;
use walk_commands::walk_lists::least_list;
use walk_commands::{Headend, headend_of};
use walk_rules::{Ended, MAX_STAGES, Outcome, ended_by, next_place};

/// The most packets of a summary.
pub const MAX_PACKETS: u32 = 65_535;

/// The choices that each walk takes.
const CHOICES: [u32; 2] = [0, 1];

/// What walks come to.
#[derive(Clone, Copy, Debug)]
pub struct Counts {
    /// How many of their stages send.
    pub frames: u32,
    /// How many of them leave the network.
    pub left: u32,
}

/// Whether a walk that ended so left the network.
fn has_left(ended: &Ended) -> bool
    ensures { result ≡ has_left ended.now }
{
    match ended {
        Ended::Left { .. } => true,
        Ended::Delivered { .. } | Ended::Dropped { .. } | Ended::Stages => false,
    }
}

/// How many frames an outcome writes: one where it sends, and none about a member that is taken but
/// too small.
fn frames_of(outcome: &Outcome) -> usize
    ensures sent { result ≡ cond (is_send outcome.now) 1 0 }
    ensures few { result ≤ 1 }
{
    match outcome {
        Outcome::Send { .. } => 1,
        Outcome::Again { .. } | Outcome::Hand { .. } | Outcome::Local | Outcome::Drop { .. } => 0,
    }
}

/// What a walk comes to that sent so often and ended so.
fn counts_by(sent: usize, ended: &Ended) -> Counts
    requires { sent ≤ MAX_STAGES }
    ensures frames { result.frames ≡ sent }
    ensures left { result.left ≡ cond (has_left ended.now) 1 0 }
    ensures one { result.left ≤ 1 }
{
    Counts {
        frames: sent as u32,
        left: if has_left(ended) { 1 } else { 0 },
    }
}

/// Walks a packet from where it enters as `drive` does, and counts what it would write.
fn count_walk(alloc: Global, net: &Net, comes: Entrant, choices: &[u32]) -> Result<Counts, NoMemory>
    requires place { IsPlace net.now comes.place }
    requires choices { 0 < length choices.now }
    ensures frames { IfOk result (λ counts. counts.frames
        ≡ frames_in (walk_of_entrant net.now choices.now comes ∷ [])) }
    ensures left { IfOk result (λ counts. counts.left
        ≡ left_in net.now (walk_of_entrant net.now choices.now comes ∷ [])) }
    ensures few { IfOk result (λ counts. counts.frames ≤ MAX_STAGES) }
    ensures one { IfOk result (λ counts. counts.left ≤ 1) }
{
    let Entrant {
        mut place,
        mut content,
    } = comes;
    let mut error = IcmpSlot::new();
    let mut taken = 0;
    let mut sent = 0;
    for used in 0..MAX_STAGES {
        let choice = choices[taken % choices.len()];
        let outcome = take_stage(alloc, net, &place, &mut content, choice, &mut error)?;
        taken += decisions_of(&outcome);
        sent += frames_of(&outcome);
        match next_place(net, &place, &outcome) {
            Some(next) => place = next,
            None => return Ok(counts_by(sent, &ended_by(net, &place, &outcome))),
        }
    }
    Ok(counts_by(sent, &Ended::Stages))
}

/// What the walk of generated packet k comes to, if the headend encapsulates it.
fn count_packet(alloc: Global, net: &Net, headend: &Headend, k: u32) -> Result<Counts, NoMemory>
    requires ready { IsPolicy headend.now.policy }
    requires within { AllEnterIn net.now (admission_at_headend headend.now) }
    requires number { k ≤ MAX_PACKETS }
    ensures frames { IfOk result (λ counts. counts.frames
        ≡ frames_in (walks_of_packet net.now headend.now k)) }
    ensures left { IfOk result (λ counts. counts.left
        ≡ left_in net.now (walks_of_packet net.now headend.now k)) }
    ensures few { IfOk result (λ counts. counts.frames ≤ MAX_STAGES) }
    ensures one { IfOk result (λ counts. counts.left ≤ 1) }
{
    let mut bytes = Vec::new(alloc);
    write_packet(k as u16, &mut bytes)?;
    let frame = LentFrame::new(k, LentBody::V6(bytes.as_slice()));
    let mut buf = PktBuf::of(Vec::new(alloc));
    match headend.enter(&frame, &mut buf)? {
        Some(comes) => count_walk(alloc, net, comes, &CHOICES),
        None => Ok(Counts { frames: 0, left: 0 }),
    }
}

/// What the walks of so many generated packets come to, one after the other.
fn count_packets(
    alloc: Global,
    net: &Net,
    headend: &Headend,
    packets: u32,
) -> Result<Counts, NoMemory>
    requires ready { IsPolicy headend.now.policy }
    requires within { AllEnterIn net.now (admission_at_headend headend.now) }
    requires number { packets ≤ MAX_PACKETS }
    ensures frames { IfOk result (λ counts. counts.frames
        ≡ frames_in (walks_of net.now headend.now packets)) }
    ensures left { IfOk result (λ counts. counts.left
        ≡ left_in net.now (walks_of net.now headend.now packets)) }
{
    let mut frames = 0;
    let mut left = 0;
    for before in 0..packets {
        let counts = count_packet(alloc, net, headend, before + 1)?;
        frames += counts.frames;
        left += counts.left;
    }
    Ok(Counts { frames, left })
}

/// The summary of a list that the intent is compiled to.
#[tactic(auto, using(walk_commands::proofs::PublicLaws::valued))]
fn summary_of_list(
    alloc: Global,
    net: &Net,
    intent: &Intent,
    compiled: &Compiled,
    packets: u32,
) -> Result<Summary, NoMemory>
    requires intent { IsIntent net.now intent.now }
    requires compiled { IsCompiledFor net.now intent.now compiled.now }
    requires packets { packets ≤ MAX_PACKETS }
    ensures { IfOk result (λ summary.
        summary ≡ summary_of net.now intent.now compiled.now packets) }
{
    net.keeps_rules();
    let headend = headend_of(alloc, net, intent, compiled)?;
    let counts = count_packets(alloc, net, &headend, packets)?;
    Ok(Summary {
        nodes: net.nodes(),
        links: net.links(),
        routes: net.routes(),
        sids: net.sids(),
        containers: compiled.containers,
        header: compiled.header,
        need: compiled.need,
        packets,
        frames: counts.frames,
        left: counts.left,
    })
}

/// Compiles an intent that keeps the rules in a network, as `compile` does, to a list that may
/// execute binding SIDs, and walks so many generated packets, numbered from 1, from its
/// headend with the list, one after the other, as the command `walk` does with choices 0 and 1:
/// what all that comes to in numbers. A packet that the headend drops,
/// or that is not of the intent's family, is counted in `packets` alone. The refusals are those of
/// `compile`, and come where it gives them.
pub fn summary(
    alloc: Global,
    net: &Net,
    intent: &Intent,
    packets: u32,
) -> Result<Summary, CompileFault>
    requires whole { net.now.hidden ≡ [] }
    requires intent { IsIntent net.now intent.now }
    requires packets { packets ≤ MAX_PACKETS }
    ensures { SummaryAnswers net.now intent.now packets result }
{
    let list = least_list(alloc, net, intent)?;
    match summary_of_list(alloc, net, intent, &list, packets) {
        Ok(summary) => Ok(summary),
        Err(NoMemory) => Err(CompileFault::NoMemory),
    }
}
