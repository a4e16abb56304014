//! Where the frames of an input come from: a bare packet, a capture, or a pcapng file.

ghost use Rattle.std.specs.Prelude.{◌≡◌, ◌≤◌, false, length, drop, None};
ghost use Rattle.pcap_io.specs.FrameLending.{body_lent};
ghost use Rattle.pcapng_io.specs.declared.numbers.TheConstants.{MAX_INPUT};
ghost use Rattle.pcapng_io.specs.NgReading.{ng_capture_of};
ghost use Rattle.pcapng_io.specs.NgPieces.{all_of};
ghost use Rattle.command_inputs.specs.InputFrames.{all_frames, bare_by, ng_seen_at, seen_at};
ghost use Rattle.command_inputs.specs.InputPackets.{reading_of};
ghost use Rattle.command_inputs.specs.InputPacketsTerms.{HasHead};
ghost use Rattle.command_inputs.specs.FrameSources.{bare_seen, capture_seen, ng_seen, packets_seen};

use crate::frames::{Found, Frames};
use crate::input_bytes::InputBytes;
use crate::input_packets::{Packets, refusal_of_capture_end, refusal_of_ng_end};
use base::NoMemory;
use pcap_io::{Body, CaptureHead, CapturePieces, Frame, FrameNext, HEAD_LEN, LentBody, LentFrame};
use pcapng_io::{NgNext, NgPieces};

/// The only frame of a bare packet, which is packet 1.
#[derive(Debug, Drop)]
pub struct BareFrames<'a> {
    packet: &'a [u8],
    given: bool,
}

impl<'a> BareFrames<'a> {
    /// The frame of a packet and what stands after its end.
    pub fn new(packet: &'a [u8]) -> BareFrames<'a>
        ensures { bare_seen result ≡ bare_by false packet.now }
    {
        BareFrames {
            packet,
            given: false,
        }
    }
}

impl Frames for BareFrames<'_> {
    ghost seen = { bare_seen };

    fn next(&mut self) -> Result<Found, NoMemory> {
        if self.given {
            return Ok(Found::End(None));
        }
        self.given = true;
        Ok(Found::Frame)
    }

    fn frame(&self) -> Option<LentFrame<'_>> {
        if self.given {
            Some(LentFrame::new(1, LentBody::V6(self.packet)))
        } else {
            None
        }
    }
}

/// The frames of a classic capture, fed in pieces and lent.
#[derive(Drop)]
pub struct CaptureFrames<'a> {
    pieces: CapturePieces<'a>,
}

impl<'a> CaptureFrames<'a> {
    /// The frames after a capture's head, of all its bytes.
    pub fn new(head: CaptureHead, capture: &'a InputBytes) -> CaptureFrames<'a>
        requires { HEAD_LEN ≤ length capture.now }
        ensures { capture_seen result
            ≡ seen_at None (record { head = head; taken = 0; rest = drop HEAD_LEN capture.now }) }
    {
        let frames = capture.as_slice().split_at(HEAD_LEN).1;
        CaptureFrames {
            pieces: CapturePieces::new(capture.alloc(), head, frames),
        }
    }
}

impl Frames for CaptureFrames<'_> {
    ghost seen = { capture_seen };

    fn next(&mut self) -> Result<Found, NoMemory> {
        match self.pieces.next()? {
            FrameNext::Frame => Ok(Found::Frame),
            FrameNext::End(end) => Ok(Found::End(refusal_of_capture_end(end))),
        }
    }

    fn frame(&self) -> Option<LentFrame<'_>> {
        self.pieces.frame()
    }
}

/// The frames of a pcapng file; the one at hand is lent.
#[derive(Drop)]
pub struct NgFrames<'a> {
    pieces: NgPieces<'a>,
    at_hand: Option<Frame>,
}

impl<'a> NgFrames<'a> {
    /// The frames of a file.
    pub fn new(file: &'a InputBytes) -> NgFrames<'a>
        requires { length file.now ≤ MAX_INPUT }
        ensures { ng_seen result ≡ ng_seen_at None (all_of (ng_capture_of file.now)) }
    {
        NgFrames {
            pieces: NgPieces::new(file.alloc(), file.as_slice()),
            at_hand: None,
        }
    }
}

/// What a frame holds, lent.
fn lent(body: &Body) -> LentBody<'_>
    ensures { body_lent result ≡ body.now }
{
    match body {
        Body::V6(packet) => LentBody::V6(packet.as_slice()),
        Body::V4(packet) => LentBody::V4(packet.as_slice()),
        Body::ShortFrame => LentBody::ShortFrame,
        Body::NotIp => LentBody::NotIp,
    }
}

impl Frames for NgFrames<'_> {
    ghost seen = { ng_seen };

    fn next(&mut self) -> Result<Found, NoMemory> {
        match self.pieces.next()? {
            NgNext::Frame(frame) => {
                self.at_hand = Some(frame);
                Ok(Found::Frame)
            }
            NgNext::End(end) => Ok(Found::End(refusal_of_ng_end(end))),
        }
    }

    fn frame(&self) -> Option<LentFrame<'_>> {
        match &self.at_hand {
            Some(frame) => Some(LentFrame::new(frame.number, lent(&frame.body))),
            None => None,
        }
    }
}

/// The frames of an input, whatever it is.
#[derive(Drop)]
pub enum PacketFrames<'a> {
    /// That of a bare packet.
    Bare(BareFrames<'a>),
    /// Those of a classic capture.
    Capture(CaptureFrames<'a>),
    /// Those of a pcapng file.
    Ng(NgFrames<'a>),
}

impl Frames for PacketFrames<'_> {
    ghost seen = { packets_seen };

    fn next(&mut self) -> Result<Found, NoMemory> {
        match self {
            PacketFrames::Bare(frames) => frames.next(),
            PacketFrames::Capture(frames) => frames.next(),
            PacketFrames::Ng(frames) => frames.next(),
        }
    }

    fn frame(&self) -> Option<LentFrame<'_>> {
        match self {
            PacketFrames::Bare(frames) => frames.frame(),
            PacketFrames::Capture(frames) => frames.frame(),
            PacketFrames::Ng(frames) => frames.frame(),
        }
    }
}

impl Packets {
    /// The frames of the input from the first on, lent; each call gives them anew.
    pub fn frames(&self) -> PacketFrames<'_>
        requires { HasHead self.now }
        ensures { packets_seen result ≡ all_frames (reading_of self.now) }
    {
        match self {
            Packets::Bare(packet) => PacketFrames::Bare(BareFrames::new(packet.as_slice())),
            Packets::Capture(head, capture) => {
                PacketFrames::Capture(CaptureFrames::new(*head, capture))
            }
            Packets::Ng(file) => PacketFrames::Ng(NgFrames::new(file)),
        }
    }
}
