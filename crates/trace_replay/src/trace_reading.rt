//! Traces, read.

ghost use Rattle.std.specs.Prelude.{◌≡◌, ◌<◌, ◌≤◌, IfOk, length, map};
ghost use Rattle.net_model.specs.Network.{Network};
ghost use Rattle.trace_replay.specs.TraceReading.{bad_from, behind_head, behind_packet, is_over, phase_behind, pieces_of};
ghost use Rattle.trace_replay.specs.TraceReadingTerms.{Reads};

use crate::line::{Line, read_line};
use base::{NoMemory, Seq};
use net_model::{MAX_TEXT_BYTES, Net};
use std::alloc::{AllocError, Global};
use std::marker::Model;

/// How far a trace has come.
#[derive(Clone, Copy, Debug)]
pub(crate) enum Phase {
    /// Its first line is to come.
    Begins,
    /// It has its first line, and no packet.
    Empty,
    /// It has packets.
    Packets,
    /// It has its last line.
    Over,
}

/// Why a text is no trace.
#[derive(Clone, Copy, Debug, PartialEq, Eq)]
pub enum TraceFault {
    /// A line is bad, the first that is.
    BadTrace {
        /// Its number, counted from 1.
        line: u32,
    },
    /// There was no memory.
    NoMemory,
}

impl From<NoMemory> for TraceFault {
    ghost use Rattle.trace_replay.specs.declared.trace_reading.TraceFault.TheVariants as faults;

    ghost from_gives = { λ _ fault. fault ≡ faults.NoMemory };

    fn from(_: NoMemory) -> TraceFault {
        TraceFault::NoMemory
    }
}

impl From<AllocError> for TraceFault {
    ghost use Rattle.trace_replay.specs.declared.trace_reading.TraceFault.TheVariants as faults;

    ghost from_gives = { λ _ fault. fault ≡ faults.NoMemory };

    fn from(_: AllocError) -> TraceFault {
        TraceFault::NoMemory
    }
}

/// The lines of a trace, each without its line feed. Contracts see the list of them.
#[derive(Debug, Drop)]
pub struct Trace {
    lines: Vec<Seq<u8>>,
}

impl Model for Trace {
    ghost use Rattle.std.specs.Prelude.{List, ℕ};

    ghost Value = { List (List ℕ) };

    ghost view = { λ t. t.lines.items };
}

impl Trace {
    /// The lines, in order.
    pub fn lines(&self) -> &[Seq<u8>]
        ensures { result.now ≡ self.now }
    {
        self.lines.as_slice()
    }
}

/// How far a trace has come after a line that stands after its first, where no packet has begun.
fn behind_head(line: &Option<Line>) -> Option<Phase>
    ensures { result ≡ behind_head line.now }
{
    match line {
        Some(Line::Packet { .. }) => Some(Phase::Packets),
        Some(Line::End) => Some(Phase::Over),
        Some(Line::Stage | Line::Stages) | None => None,
    }
}

/// How far a trace has come after a line, where a packet has begun.
fn behind_packet(line: &Option<Line>) -> Option<Phase>
    ensures { result ≡ behind_packet line.now }
{
    match line {
        Some(Line::Packet { .. } | Line::Stage | Line::Stages) => Some(Phase::Packets),
        Some(Line::End) => Some(Phase::Over),
        None => None,
    }
}

/// How far a trace has come after its first line, if this is it.
#[tactic(auto, unfolding(crate::specs::TraceLines::head_text))]
fn behind_first(line: &[u8]) -> Option<Phase>
    ensures { (net : Network) → result ≡ phase_behind net Phase.Begins line.now }
{
    if line == b"srv6 trace 1".as_slice() {
        return Some(Phase::Empty);
    }
    None
}

/// How far a trace has come after a line, if the line may stand there.
fn phase_behind(
    alloc: Global,
    net: &Net,
    phase: Phase,
    line: &[u8],
) -> Result<Option<Phase>, NoMemory>
    ensures { IfOk result (λ next. next ≡ phase_behind net.now phase line.now) }
{
    match phase {
        Phase::Begins => Ok(behind_first(line)),
        Phase::Empty => Ok(behind_head(&read_line(alloc, net, line)?)),
        Phase::Packets => Ok(behind_packet(&read_line(alloc, net, line)?)),
        Phase::Over => Ok(None),
    }
}

/// Whether a trace has its last line.
fn is_over(phase: Phase) -> bool
    ensures { result ≡ is_over phase }
{
    match phase {
        Phase::Begins | Phase::Empty | Phase::Packets => false,
        Phase::Over => true,
    }
}

/// The number of the first bad line, with what stands after the lines.
fn first_bad(
    alloc: Global,
    net: &Net,
    lines: &[&[u8]],
    rest: &[u8],
) -> Result<Option<u32>, NoMemory>
    requires { length lines.now ≤ MAX_TEXT_BYTES }
    ensures { IfOk result (λ bad. bad
        ≡ bad_from net.now Phase.Begins 1 rest.now (map (λ line. line.now) lines.now)) }
{
    let mut phase = Phase::Begins;
    for n in 0..lines.len() {
        match phase_behind(alloc, net, phase, lines[n])? {
            Some(next) => phase = next,
            None => return Ok(Some(n as u32 + 1)),
        }
    }
    if is_over(phase) && rest.is_empty() {
        return Ok(None);
    }
    Ok(Some(lines.len() as u32 + 1))
}

/// A text parted at its line feeds.
fn pieces_of(alloc: Global, text: &[u8]) -> Result<Vec<&[u8]>, AllocError>
    ensures { IfOk result (λ pieces. map (λ piece. piece.now) pieces.items ≡ pieces_of text.now) }
{
    text.split(|byte| *byte == 10).collect(alloc)
}

/// Copies of lines.
fn copies_of(alloc: Global, lines: &[&[u8]]) -> Result<Vec<Seq<u8>>, AllocError>
    ensures { IfOk result (λ copies. copies.items ≡ map (λ line. line.now) lines.now) }
{
    let mut copies = Vec::new(alloc);
    for line in lines {
        copies.push(Seq::new((*line).to_vec(alloc)?))?;
    }
    Ok(copies)
}

/// The trace that a text of at most 4 MiB is. `BadTrace` tells its first bad line: one that has no
/// line's shape or that no line feed ends; a stage's line, or one that says that a packet used all
/// its stages, before the first packet's; a packet's first line whose node is not the network's, or
/// whose packet is longer than 65,575 bytes or, where it reads as one, has bytes after its end;
/// line 1 where the head is missing, and the line after the last one where `end` is; and one
/// after `end`.
pub fn read_trace(alloc: Global, net: &Net, text: &[u8]) -> Result<Trace, TraceFault>
    requires { length text.now ≤ MAX_TEXT_BYTES }
    ensures { Reads net.now text.now result }
{
    let pieces = pieces_of(alloc, text)?;
    let Some((rest, lines)) = pieces.as_slice().split_last() else {
        return Err(TraceFault::BadTrace { line: 1 });
    };
    match first_bad(alloc, net, lines, *rest)? {
        Some(line) => Err(TraceFault::BadTrace { line }),
        None => Ok(Trace {
            lines: copies_of(alloc, lines)?,
        }),
    }
}
