//! A packet's lines, judged one after the other.

ghost use Rattle.std.specs.Prelude.{◌≡◌, IfOk};
ghost use Rattle.trace_replay.specs.ReplayJudging.{IsState, JudgesLine};
ghost use Rattle.trace_replay.specs.Replays.{ended_text, going};
ghost use Rattle.walk_rules.specs.Relation.{IsPlace};

use crate::line::{Line, read_line};
use crate::line_judge::{LineVerdict, judge_stage};
use crate::state::ReplayState;
use base::{NoMemory, Seq};
use net_model::Net;
use node_stage::Content;
use std::alloc::{AllocError, Global};
use walk_rules::{MAX_STAGES, Place, arrival, next_place};

/// Why a line is not judged right.
#[derive(Debug, Drop)]
pub(crate) enum LineFault {
    /// It is wrong.
    Wrong {
        /// What should stand there.
        expected: Seq<u8>,
    },
    /// There was no memory.
    NoMemory,
}

impl From<NoMemory> for LineFault {
    ghost use Rattle.trace_replay.specs.declared.replay_flight.LineFault.TheVariants as faults;

    ghost from_gives = { λ _ fault. fault ≡ faults.NoMemory };

    fn from(_: NoMemory) -> LineFault {
        LineFault::NoMemory
    }
}

impl From<AllocError> for LineFault {
    ghost use Rattle.trace_replay.specs.declared.replay_flight.LineFault.TheVariants as faults;

    ghost from_gives = { λ _ fault. fault ≡ faults.NoMemory };

    fn from(_: AllocError) -> LineFault {
        LineFault::NoMemory
    }
}

/// What there is of a packet where it stands after a stage, if it goes on, with so many stages
/// left.
fn going(place: Option<Place>, content: Content, left: usize) -> ReplayState
    ensures { result ≡ going place content left }
{
    match place {
        Some(place) => {
            if left == 0 {
                return ReplayState::Stopped;
            }
            ReplayState::Going {
                place,
                content,
                left: left - 1,
            }
        }
        None => ReplayState::Ended,
    }
}

/// A line where a packet has a stage still to come.
fn judge_going(
    alloc: Global,
    net: &Net,
    place: Place,
    mut content: Content,
    left: usize,
    line: &[u8],
) -> Result<ReplayState, LineFault>
    requires { IsPlace net.now place }
    ensures { JudgesLine net.now (ReplayState.Going place content left) line.now result }
{
    net.keeps_rules();
    match judge_stage(alloc, net, &place, &mut content, line)? {
        LineVerdict::Right { outcome } => Ok(going(
            next_place(net, &place, &outcome),
            content,
            left,
        )),
        LineVerdict::Wrong { expected } => Err(LineFault::Wrong {
            expected: Seq::new(expected.into_bytes()),
        }),
    }
}

/// A line where a packet used all its stages.
#[tactic(auto, unfolding(crate::specs::TraceLines::stages_text))]
fn judge_stopped(alloc: Global, net: &Net, line: &[u8]) -> Result<ReplayState, LineFault>
    ensures { JudgesLine net.now ReplayState.Stopped line.now result }
{
    if line == b"stages".as_slice() {
        return Ok(ReplayState::Ended);
    }
    let expected = b"stages".to_vec(alloc)?;
    Err(LineFault::Wrong {
        expected: Seq::new(expected),
    })
}

/// What should stand where a packet has ended.
#[tactic(auto, unfolding(crate::specs::Replays::ended_text))]
fn text_of_ended(alloc: Global) -> Result<Vec<u8>, AllocError>
    ensures { IfOk result (λ text. text.items ≡ ended_text) }
{
    b"ended".to_vec(alloc)
}

/// A line where no packet is on its way.
fn judge_ended(alloc: Global, net: &Net, line: &[u8]) -> Result<ReplayState, LineFault>
    ensures { JudgesLine net.now ReplayState.Ended line.now result }
{
    match read_line(alloc, net, line)? {
        Some(
            Line::Packet {
                family,
                node,
                packet,
            },
        ) => Ok(ReplayState::Going {
            place: arrival(node, family),
            content: Content::enter(family, packet.into_vec()),
            left: MAX_STAGES - 1,
        }),
        Some(Line::End) => Ok(ReplayState::Ended),
        Some(Line::Stage | Line::Stages) | None => Err(LineFault::Wrong {
            expected: Seq::new(text_of_ended(alloc)?),
        }),
    }
}

/// What comes of a line.
pub(crate) fn judge_line(
    alloc: Global,
    net: &Net,
    state: ReplayState,
    line: &[u8],
) -> Result<ReplayState, LineFault>
    requires { IsState net.now state }
    ensures { JudgesLine net.now state line.now result }
{
    match state {
        ReplayState::Ended => judge_ended(alloc, net, line),
        ReplayState::Going {
            place,
            content,
            left,
        } => judge_going(alloc, net, place, content, left, line),
        ReplayState::Stopped => judge_stopped(alloc, net, line),
    }
}
