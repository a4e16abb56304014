//! The command `replay`: the trace of a file, run again in the network that another describes.

ghost use Rattle.std.specs.Prelude.{◌≡◌, IfOk};
ghost use Rattle.command_output.specs.CommandAnswers.{CommandsUnread};
ghost use Rattle.command_output.specs.OutputsTerms.{output_of_judgement};
ghost use Rattle.trace_commands.specs.ReplayCommand.{replay_spec, replay_words, replayed, right_line, wrong_line};
ghost use Rattle.trace_commands.specs.ReplayCommandTerms.{replay_asked};
ghost use Rattle.command_output.specs.OutputLinesTerms.{bytes_of_text};
ghost use Rattle.command_output.specs.Verbs.{words_of};
ghost use Rattle.trace_replay.specs.TraceReadingTerms.{IsTrace};

use command_inputs::{network_of_file, trace_of_file};
use command_output::{Conclusion, Halt, Judgement, Status, Text, two_words_after, write_all};
use net_model::Net;
use srx_edge::{Files, Sink};
use std::alloc::{AllocError, Global};
use trace_replay::{ReplayFault, Trace};

/// What the words of `replay` ask for.
#[derive(Debug, Drop)]
pub struct ReplayWords<'a> {
    /// The description's name.
    pub file: &'a str,
    /// The trace's name.
    pub trace: &'a str,
}

/// What these words ask for, if they are those of `replay`.
pub fn replay_of_words(words: &[String]) -> Option<ReplayWords<'_>>
    ensures { replay_asked result ≡ replay_words (words_of words.now) }
{
    let two = two_words_after("replay", words)?;
    if !two.more.is_empty() {
        return None;
    }
    Some(ReplayWords {
        file: two.first,
        trace: two.second,
    })
}

/// The line of a trace that is right: its packets, and its lines but for the first and the last.
#[tactic(auto, unfolding(crate::specs::ReplayCommand::right_line))]
fn line_of_right(alloc: Global, packets: u32, lines: u32) -> Result<Text, AllocError>
    ensures { IfOk result (λ line. bytes_of_text line ≡ right_line packets lines) }
{
    Ok(Text::Made(format!(in alloc; "ok {packets} {lines}\n")?))
}

/// The line of a trace that is not: its first wrong line, from 1, and what should stand there.
#[tactic(auto, unfolding(crate::specs::ReplayCommand::wrong_line))]
fn line_of_wrong(alloc: Global, number: u32, expected: &[u8]) -> Result<Text, AllocError>
    ensures { IfOk result (λ line. bytes_of_text line ≡ wrong_line number expected.now) }
{
    let mut line = format!(in alloc; "no {number} ")?.into_bytes();
    line.extend_from_slice(expected)?;
    line.push(10)?;
    Ok(Text::Bytes(line))
}

/// What is to be written of a trace of the network.
fn judgement_of_trace(alloc: Global, net: &Net, trace: &Trace) -> Result<Judgement, AllocError>
    requires { IsTrace net.now trace.now }
    ensures { IfOk result (λ judgement.
        output_of_judgement judgement ≡ replayed net.now trace.now) }
{
    match trace_replay::replay(alloc, net, trace) {
        Ok(counts) => Ok(Judgement {
            line: line_of_right(alloc, counts.packets, counts.lines)?,
            status: Status::Done,
        }),
        Err(ReplayFault::Mismatch { line, expected }) => Ok(Judgement {
            line: line_of_wrong(alloc, line, expected.as_slice())?,
            status: Status::SaysNo,
        }),
        Err(ReplayFault::NoMemory) => Err(AllocError),
    }
}

/// Runs the trace of a file again in the network that another describes. The description is judged
/// before the trace is read, and the trace before it is run. What is written is made before any of
/// it goes out.
pub fn replay<F: Files, O: Sink>(
    alloc: Global,
    file: &str,
    trace: &str,
    files: &mut F,
    out: &mut O,
) -> Result<Conclusion, Halt>
    ensures { CommandsUnread (replay_spec file.now trace.now) result
        (F.seen files.old) (F.seen files.new) (O.seen out.old) (O.seen out.new) }
{
    let net = network_of_file(alloc, files, file)?;
    let trace = trace_of_file(alloc, files, &net, trace)?;
    let judgement = judgement_of_trace(alloc, &net, &trace)?;
    write_all(out, judgement.line.as_bytes())?;
    Ok(Conclusion {
        line: Text::Fixed(b""),
        status: judgement.status,
    })
}
