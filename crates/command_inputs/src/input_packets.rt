//! The packets of the input, each with its number.

ghost use Rattle.std.specs.Prelude.{◌≡◌, ◌≤◌, IfOk, length};
ghost use Rattle.command_output.specs.CommandAnswers.{JudgesInput};
ghost use Rattle.command_inputs.specs.InputPackets.{is_bare, ng_in, packets_in, refusal_of_ng_end};
ghost use Rattle.command_inputs.specs.InputPacketsTerms.{HasHead, refusal_of_capture_end};

use crate::input_bytes::InputBytes;
use base::Seq;
use command_output::{Halt, MAX_INPUT_BYTES, Refusal};
use pcap_io::{CaptureEnd, CaptureFault, CaptureHead, read_head};
use pcapng_io::{NgEnd, NgFault, end_at_start};
use srx_edge::{Source, draw};
use std::alloc::Global;

/// What the input is.
#[derive(Debug, Drop)]
pub enum Packets {
    /// One bare packet, which is packet 1, and what stands after its end.
    Bare(Seq<u8>),
    /// A capture: what its head says, and all its bytes, the head's among them.
    Capture(CaptureHead, InputBytes),
    /// A pcapng file: all its bytes.
    Ng(InputBytes),
}

/// Whether the input begins as a bare IPv6 packet does.
fn begins_as_ipv6(input: &[u8]) -> bool
    ensures { result ≡ is_bare input.now }
{
    match input {
        [first, ..] => *first / 16 == 6,
        [] => false,
    }
}

/// The refusal of how a capture ends; `None` where it ends with its last whole frame.
pub(crate) fn refusal_of_capture_end(end: CaptureEnd) -> Option<Refusal>
    ensures { result ≡ refusal_of_capture_end end }
{
    match end {
        CaptureEnd::Whole => None,
        CaptureEnd::CutIn(frame) => Some(Refusal::CutFrame { frame }),
        CaptureEnd::AtLimit => Some(Refusal::Capture(CaptureFault::FrameLimit)),
    }
}

/// The refusal of how a pcapng file ends; `None` where it ends with its last block.
pub(crate) fn refusal_of_ng_end(end: NgEnd) -> Option<Refusal>
    ensures { result ≡ refusal_of_ng_end end }
{
    match end {
        NgEnd::Whole => None,
        NgEnd::CutIn(block) => Some(Refusal::NgCut { block }),
        NgEnd::Faulty(NgFault::NgMagic { block }) => Some(Refusal::NgMagic { block }),
        NgEnd::Faulty(NgFault::NgBlock { block }) => Some(Refusal::NgBlock { block }),
        NgEnd::Faulty(NgFault::NgVersion { block }) => Some(Refusal::NgVersion { block }),
        NgEnd::Faulty(NgFault::NgOldBlock { block }) => Some(Refusal::NgOldBlock { block }),
        NgEnd::Faulty(NgFault::NgInterface { block }) => Some(Refusal::NgInterface { block }),
        NgEnd::Faulty(NgFault::FrameLimit) => Some(Refusal::Capture(CaptureFault::FrameLimit)),
        NgEnd::Faulty(NgFault::NoMemory) => None,
    }
}

/// A pcapng file, or the refusal of its first block.
fn ng_in(bytes: Vec<u8>) -> Result<Packets, Refusal>
    requires { length bytes.items ≤ MAX_INPUT_BYTES }
    ensures judged { result ≡ ng_in bytes.items }
    ensures head { IfOk result HasHead }
{
    let refusal = match end_at_start(bytes.as_slice()) {
        Some(end) => refusal_of_ng_end(end),
        None => None,
    };
    match refusal {
        Some(refusal) => Err(refusal),
        None => Ok(Packets::Ng(InputBytes::new(bytes))),
    }
}

/// What these bytes are.
#[tactic(auto, using(crate::proofs::InputJudging::contents))]
fn packets_of_bytes(bytes: Vec<u8>) -> Result<Packets, Refusal>
    requires { length bytes.items ≤ MAX_INPUT_BYTES }
    ensures judged { packets_in bytes.items ≡ result }
    ensures head { IfOk result HasHead }
{
    if begins_as_ipv6(bytes.as_slice()) {
        return Ok(Packets::Bare(Seq::new(bytes)));
    }
    match read_head(bytes.as_slice()) {
        Ok(head) => Ok(Packets::Capture(head, InputBytes::new(bytes))),
        Err(CaptureFault::PcapNg) => ng_in(bytes),
        Err(fault) => Err(Refusal::Capture(fault)),
    }
}

/// What the input is, which is read to its end.
#[tactic(auto, using(crate::proofs::InputJudging::inputs))]
pub fn packets_of_input<S: Source>(alloc: Global, input: &mut S) -> Result<Packets, Halt>
    ensures judged { JudgesInput packets_in result (S.seen input.old) (S.seen input.new) }
    ensures head { IfOk result HasHead }
{
    let bytes = draw(alloc, input, MAX_INPUT_BYTES)?;
    Ok(packets_of_bytes(bytes)?)
}
