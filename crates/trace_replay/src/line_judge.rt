//! The line of a stage, judged.

ghost use Rattle.std.specs.Prelude.{◌≡◌, ◌<◌, IfOk, length, max};
ghost use Rattle.walk_rules.specs.WalkLaws.{hops_at};
ghost use Rattle.walk_rules.specs.Relation.{IsPlace};
ghost use Rattle.trace_replay.specs.JudgedLines.{IsFound, IsGiven, JudgesStage};
ghost use Rattle.trace_replay.specs.Replays.{choices_at};

use crate::print::text_of_outcome;
use base::NoMemory;
use icmp6_errors::IcmpSlot;
use net_model::Net;
use node_stage::{Content, next_hops, stage};
use std::alloc::Global;
use walk_rules::{Outcome, Place};

/// The judgement of a stage's line.
#[derive(Debug, Drop)]
pub(crate) enum LineVerdict {
    /// It is the line of this outcome.
    Right {
        /// The outcome.
        outcome: Outcome,
    },
    /// It is the line of no outcome that there is.
    Wrong {
        /// The line for choice 0.
        expected: String,
    },
}

/// What a choice gives, with its line.
#[derive(Debug, Drop)]
pub(crate) struct GivenLine {
    /// The outcome.
    pub(crate) outcome: Outcome,
    /// The line.
    pub(crate) text: String,
}

/// What a choice gives.
#[derive(Debug, Drop)]
pub(crate) struct Given {
    /// The outcome.
    pub(crate) outcome: Outcome,
    /// What stands there afterwards.
    pub(crate) after: Content,
}

/// What a choice gives at a place, with its line; what stands there afterwards takes its place.
fn given_line(
    alloc: Global,
    net: &Net,
    place: &Place,
    content: &mut Content,
    choice: u32,
) -> Result<GivenLine, NoMemory>
    requires { IsPlace net.now place.now }
    ensures { IfOk result (λ given.
        IsGiven net.now place.now content.old choice given content.new) }
{
    net.keeps_rules();
    let mut slot = IcmpSlot::new();
    let outcome = stage(alloc, net, place, content, choice, &mut slot)?;
    let text = text_of_outcome(alloc, net, &outcome, content.bytes(), slot.as_slice())?;
    Ok(GivenLine { outcome, text })
}

/// What the first choice that gives a line gives, if one does. Each choice has a copy, since of two
/// members one may carry a packet that is too long for the other.
fn given_among(
    alloc: Global,
    net: &Net,
    place: &Place,
    content: &Content,
    choices: u32,
    line: &[u8],
) -> Result<Option<Given>, NoMemory>
    requires place { IsPlace net.now place.now }
    requires all { choices ≡ choices_at net.now place.now content.now }
    ensures { IfOk result (λ found. IsFound net.now place.now content.now line.now found) }
{
    for choice in 0..choices {
        let mut copy = content.copy(alloc)?;
        let given = given_line(alloc, net, place, &mut copy, choice)?;
        if line == given.text.as_bytes() {
            return Ok(Some(Given {
                outcome: given.outcome,
                after: copy,
            }));
        }
    }
    Ok(None)
}

/// Judges a line as that of the one stage that there is at a place.
fn judge_one(
    alloc: Global,
    net: &Net,
    place: &Place,
    content: &mut Content,
    line: &[u8],
) -> Result<LineVerdict, NoMemory>
    requires place { IsPlace net.now place.now }
    requires one { choices_at net.now place.now content.old ≡ 1 }
    ensures { IfOk result (λ judged.
        JudgesStage net.now place.now content.old line.now judged content.new) }
{
    let given = given_line(alloc, net, place, content, 0)?;
    if line == given.text.as_bytes() {
        return Ok(LineVerdict::Right {
            outcome: given.outcome,
        });
    }
    Ok(LineVerdict::Wrong {
        expected: given.text,
    })
}

/// Judges a line as that of one of the stages that there are at a place, one for each choice.
fn judge_many(
    alloc: Global,
    net: &Net,
    place: &Place,
    content: &mut Content,
    choices: u32,
    line: &[u8],
) -> Result<LineVerdict, NoMemory>
    requires place { IsPlace net.now place.now }
    requires all { choices ≡ choices_at net.now place.now content.old }
    ensures { IfOk result (λ judged.
        JudgesStage net.now place.now content.old line.now judged content.new) }
{
    match given_among(alloc, net, place, content, choices, line)? {
        Some(Given { outcome, after }) => {
            *content = after;
            Ok(LineVerdict::Right { outcome })
        }
        None => {
            let given = given_line(alloc, net, place, content, 0)?;
            Ok(LineVerdict::Wrong {
                expected: given.text,
            })
        }
    }
}

/// Judges a line as that of the stage at a place; what stands there afterwards takes its place.
/// With want of memory what stands there may be the one or the other.
pub(crate) fn judge_stage(
    alloc: Global,
    net: &Net,
    place: &Place,
    content: &mut Content,
    line: &[u8],
) -> Result<LineVerdict, NoMemory>
    requires { IsPlace net.now place.now }
    ensures { IfOk result (λ judged.
        JudgesStage net.now place.now content.old line.now judged content.new) }
{
    net.keeps_rules();
    let hops = next_hops(net, place, content);
    if hops.len() <= 1 {
        judge_one(alloc, net, place, content, line)
    } else {
        let choices = hops.len() as u32;
        judge_many(alloc, net, place, content, choices, line)
    }
}
