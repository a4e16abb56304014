//! The command `show`: the headers of the packets of the input, as lines.

ghost use Rattle.std.specs.Prelude.{◌≡◌, ◌∷◌, [], ⊤, IfOk, string_bytes};
ghost use Rattle.srx_edge.specs.CallStepsTerms.{Wrote};
ghost use Rattle.command_output.specs.CommandAnswers.{CommandsOfInput, ending_of_step};
ghost use Rattle.run_commands.specs.ShowCommand.{frame_lines, frames_lines, is_show, not_read_lines, show_spec};
ghost use Rattle.command_inputs.specs.InputPackets.{fault_of, reading_of};
ghost use Rattle.command_inputs.specs.InputPacketsTerms.{HasHead};
ghost use Rattle.command_output.specs.OutputPieces.{ForOut};
ghost use Rattle.command_output.specs.Verbs.{words_of};

use crate::silent::Silent;
use command_inputs::{Packets, Puts, packets_of_input, put_frames};
use command_output::{Conclusion, Failure, Halt, Pool, Refusal, Status, Text, Unread};
use header_lines::lines_of_packet;
use pcap_io::{LentBody, LentFrame};
use srv6_rules::Family;
use srx_edge::{Sink, Source};
use std::alloc::{AllocError, Global};

/// Whether these words are those of `show`, which is one.
pub fn is_show(words: &[String]) -> bool
    ensures { result ≡ is_show (words_of words.now) }
{
    words.len() == 1 && words[0].as_str() == "show"
}

/// The lines of a packet that is not read.
#[tactic(auto, unfolding(crate::specs::ShowCommand::not_read_lines))]
fn lines_of_unread(alloc: Global, number: u32, cause: Unread) -> Result<String, AllocError>
    ensures { IfOk result (λ lines. string_bytes lines ≡ not_read_lines number cause) }
{
    format!(in alloc; "packet {number}\nnot read {cause}\n")
}

/// The lines of a frame, by the family of its packet.
fn lines_of_frame(alloc: Global, frame: &LentFrame<'_>) -> Result<String, AllocError>
    ensures { IfOk result (λ lines. string_bytes lines ≡ frame_lines frame.now) }
{
    let number = frame.number();
    match frame.body() {
        LentBody::V6(packet) => lines_of_packet(alloc, number, Family::V6, packet),
        LentBody::V4(packet) => lines_of_packet(alloc, number, Family::V4, packet),
        LentBody::ShortFrame => lines_of_unread(alloc, number, Unread::ShortFrame),
        LentBody::NotIp => lines_of_unread(alloc, number, Unread::NotIp),
    }
}

/// What is written of a frame by the headers of its packet.
#[derive(Drop)]
struct Showing;

impl Puts for Showing {
    ghost ready = { λ _. ⊤ };

    ghost pieces = { λ _ frame. ForOut (frame_lines frame) ∷ [] };

    #[tactic(auto, using(command_output::proofs::PublicLaws::going))]
    fn put<O: Sink, E: Sink>(
        &mut self,
        alloc: Global,
        frame: &LentFrame<'_>,
        pool: &mut Pool,
        out: &mut O,
        err: &mut E,
    ) -> Result<(), Failure> {
        let lines = lines_of_frame(alloc, frame)?;
        pool.put_out(lines.as_bytes(), out, err)
    }
}

/// Writes the lines of the packets of the input, and gives the refusal of what is after the
/// frames, if anything is. They go out in groups, and nothing waits at the end.
fn show_packets<O: Sink>(
    alloc: Global,
    packets: &Packets,
    out: &mut O,
) -> Result<Option<Refusal>, Failure>
    requires { HasHead packets.now }
    ensures fault { IfOk result (λ fault. fault ≡ fault_of (reading_of packets.now)) }
    ensures wrote { Wrote (ending_of_step result) (frames_lines (reading_of packets.now).frames)
        (O.seen out.old) (O.seen out.new) }
{
    let mut pool = Pool::new(alloc)?;
    let mut frames = packets.frames();
    let mut silent = Silent;
    let fault = put_frames(
        alloc,
        &mut Showing,
        &mut frames,
        &mut pool,
        out,
        &mut silent,
    )?;
    pool.pour(out, &mut silent)?;
    Ok(fault)
}

/// Shows the headers of the packets of the input, one packet after the other. What is after the
/// last frame of a capture is refused once all packets were shown.
pub fn show<S: Source, O: Sink>(
    alloc: Global,
    input: &mut S,
    out: &mut O,
) -> Result<Conclusion, Halt>
    ensures { CommandsOfInput show_spec result
        (S.seen input.old) (S.seen input.new) (O.seen out.old) (O.seen out.new) }
{
    let packets = packets_of_input(alloc, input)?;
    match show_packets(alloc, &packets, out)? {
        Some(refusal) => Err(Halt::Refused(refusal)),
        None => Ok(Conclusion {
            line: Text::Fixed(b""),
            status: Status::Done,
        }),
    }
}
