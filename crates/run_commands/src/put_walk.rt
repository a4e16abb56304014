//! A packet's walk, written by the pool as it goes.

ghost use Rattle.std.specs.Prelude.{◌≡◌, ◌<◌, ◌∷◌, [], IfOk, length};
ghost use Rattle.command_output.specs.CommandAnswers.{ending_of_step};
ghost use Rattle.command_output.specs.GatheredTerms.{Goes, pooled};
ghost use Rattle.command_output.specs.OutputPieces.{ForOut};
ghost use Rattle.command_output.specs.Sent.{IsEnd};
ghost use Rattle.run_commands.specs.WrittenCapture.{frames_of};
ghost use Rattle.run_commands.specs.Admission.{walk_of_entrant};
ghost use Rattle.walk_rules.specs.Relation.{IsPlace};
ghost use Rattle.walk_rules.specs.Walk.{end_of};

use crate::course::Course;
use crate::enters::Entrant;
use crate::put_stage::{put_sent, take_stage};
use command_output::{Failure, Pool};
use icmp6_errors::IcmpSlot;
use node_stage::Content;
use packet_walk::decisions_of;
use srx_edge::Sink;
use std::alloc::Global;
use walk_rules::{Ended, MAX_STAGES, ended_by, next_place};

/// A packet whose walk ended.
#[derive(Debug, Drop)]
pub(crate) struct Walked {
    /// How it ended.
    pub(crate) ended: Ended,
    /// What its last stage left.
    pub(crate) content: Content,
}

/// Walks a packet from where it enters and writes each of its frames, with its number, and that of
/// the ICMPv6 error about it, if a node sends one. Decision d takes the choice at d modulo the
/// number of choices. The walk ends as its last stage does, after at most 10,000 stages.
pub(crate) fn put_walk<O: Sink, E: Sink>(
    alloc: Global,
    course: &Course<'_>,
    comes: Entrant,
    number: u32,
    pool: &mut Pool,
    out: &mut O,
    err: &mut E,
) -> Result<Walked, Failure>
    requires place { IsPlace course.now.net.now comes.place }
    requires choices { 0 < length course.now.choices.now }
    ensures ended { IfOk result (λ walked. walked.ended ≡ end_of course.now.net.now
        (walk_of_entrant course.now.net.now course.now.choices.now comes)) }
    ensures within { IfOk result (λ walked. IsEnd course.now.net.now walked.ended) }
    ensures wrote { Goes (ending_of_step result)
        (ForOut (frames_of number
        (walk_of_entrant course.now.net.now course.now.choices.now comes)) ∷ [])
        (pooled pool.old (O.seen out.old) (E.seen err.old))
        (pooled pool.new (O.seen out.new) (E.seen err.new)) }
{
    let Entrant {
        mut place,
        mut content,
    } = comes;
    let (net, choices) = (course.net, course.choices);
    let mut error = IcmpSlot::new();
    let mut taken = 0;
    for used in 0..MAX_STAGES {
        let choice = choices[taken % choices.len()];
        let outcome = take_stage(alloc, net, &place, &mut content, choice, &mut error)?;
        let (packet, told) = (content.bytes(), error.as_slice());
        put_sent(number, &outcome, packet, told, pool, out, err)?;
        taken += decisions_of(&outcome);
        match next_place(net, &place, &outcome) {
            Some(next) => place = next,
            None => {
                let ended = ended_by(net, &place, &outcome);
                return Ok(Walked { ended, content });
            }
        }
    }
    Ok(Walked {
        ended: Ended::Stages,
        content,
    })
}
