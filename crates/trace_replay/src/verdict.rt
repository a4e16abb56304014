//! Traces, run again.

ghost use Rattle.std.specs.Prelude.{◌≡◌, ◌≤◌, count_by, length};
ghost use Rattle.trace_replay.specs.ReplayJudging.{Replays};
ghost use Rattle.trace_replay.specs.TraceReadingTerms.{IsTrace};
ghost use Rattle.trace_replay.specs.Replays.{begins_packet, counts_of};

use crate::replay_flight::{LineFault, judge_line};
use crate::state::ReplayState;
use crate::trace_reading::Trace;
use base::Seq;
use net_model::{MAX_TEXT_BYTES, Net};
use std::alloc::Global;

/// What a trace that is right has.
#[derive(Clone, Copy, Debug, PartialEq, Eq)]
pub struct Replayed {
    /// How many packets.
    pub packets: u32,
    /// How many lines of packets and stages, and lines that say that a packet used all its stages.
    pub lines: u32,
}

/// Why a trace is not right.
#[derive(Debug, Drop)]
pub enum ReplayFault {
    /// A line is wrong, the first that is.
    Mismatch {
        /// Its number, counted from 1.
        line: u32,
        /// What should stand there.
        expected: Seq<u8>,
    },
    /// There was no memory.
    NoMemory,
}

/// How many of the lines are a packet's first.
fn packets_of(lines: &[Seq<u8>]) -> u32
    requires { length lines.now ≤ MAX_TEXT_BYTES }
    ensures { result ≡ count_by begins_packet lines.now }
{
    let mut packets = 0;
    for line in lines {
        if line.as_slice().starts_with(b"packet ") {
            packets += 1;
        }
    }
    packets
}

/// What a trace of these lines has.
fn counts_of(lines: &[Seq<u8>]) -> Replayed
    requires { length lines.now ≤ MAX_TEXT_BYTES }
    ensures { result ≡ counts_of lines.now }
{
    Replayed {
        packets: packets_of(lines),
        lines: lines.len().saturating_sub(2) as u32,
    }
}

/// Runs each packet of a trace from its bytes as it entered, and tests each line in order: that of
/// a stage is right where it is the line of an outcome that there is, whichever of the equal next
/// hops a packet is sent on. After 10,000 stages without an end only the line that says so is
/// right, and after a packet's end only another packet's first line or the trace's last.
/// `Mismatch` tells the first wrong line: where a stage is to come the line of the stage under
/// choice 0 should stand there, after all stages `stages`, and after a packet's end `ended` is
/// told. The trace's lines are those of a text that is a trace of this network.
pub fn replay(alloc: Global, net: &Net, trace: &Trace) -> Result<Replayed, ReplayFault>
    requires { IsTrace net.now trace.now }
    ensures { Replays net.now trace.now result }
{
    let lines = trace.lines();
    let mut state = ReplayState::Ended;
    for n in 1..lines.len() {
        match judge_line(alloc, net, state, lines[n].as_slice()) {
            Ok(next) => state = next,
            Err(LineFault::Wrong { expected }) => {
                return Err(ReplayFault::Mismatch {
                    line: n as u32 + 1,
                    expected,
                });
            }
            Err(LineFault::NoMemory) => return Err(ReplayFault::NoMemory),
        }
    }
    Ok(counts_of(lines))
}
