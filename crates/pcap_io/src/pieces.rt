//! The frames of a capture that stands in memory whole, fed in pieces.

ghost use Rattle.std.specs.Prelude.{◌≡◌};
ghost use Rattle.pcap_io.specs.CaptureTerms.{IsDone};
ghost use Rattle.pcap_io.specs.Feeding.{EndsWith, HasAtHand, after_hand};

use crate::capture_head::CaptureHead;
use crate::fault::FrameLimit;
use crate::lent::LentFrame;
use crate::numbers::PIECE;
use crate::reader::FrameReader;
use base::NoMemory;
use std::alloc::Global;
use std::marker::Model;

/// How a capture ends.
#[derive(Debug, Clone, Copy, PartialEq, Eq)]
pub enum CaptureEnd {
    /// With its last whole frame, or before any.
    Whole,
    /// Within the frame of a number, from 1 on, of which bytes are missing.
    CutIn(u32),
    /// After 65,536 frames, with a further byte.
    AtLimit,
}

/// What `CapturePieces::next` finds.
#[derive(Debug, Clone, Copy, PartialEq, Eq)]
pub enum FrameNext {
    /// A frame, which is at hand until the next call.
    Frame,
    /// No whole frame is left.
    End(CaptureEnd),
}

/// How a capture ends of which all bytes were fed.
fn end_of(reader: &FrameReader) -> CaptureEnd
    requires { IsDone reader.now }
    ensures { EndsWith reader.now result }
{
    match reader.finish() {
        Ok(()) => CaptureEnd::Whole,
        Err(cut) => CaptureEnd::CutIn(cut.number),
    }
}

/// Passes the frame at hand, if one is.
fn put_down(at_hand: bool, reader: &mut FrameReader)
    requires { HasAtHand at_hand reader.old }
    ensures { reader.new ≡ after_hand at_hand reader.old }
{
    if at_hand {
        reader.pass();
    }
}

/// A reader, and the bytes that it wasn't fed yet.
#[derive(Drop)]
pub(crate) struct Feeding<'a> {
    pub(crate) reader: FrameReader,
    pub(crate) more: &'a [u8],
}

impl Feeding<'_> {
    ghost use Rattle.std.specs.Prelude.{◌≡◌, ◌<◌, length, OnOk};
    ghost use Rattle.pcap_io.specs.Feeding.{Feeds, Readies};

    /// Feeds the next piece.
    fn feed(&mut self) -> Result<(), NoMemory>
        ensures { OnOk result (Feeds self.old self.new) }
    {
        let (piece, more) = self.more.split_at(PIECE.min(self.more.len()));
        self.reader.feed(piece)?;
        self.more = more;
        Ok(())
    }

    /// Feeds pieces until a frame is whole, or none is left.
    fn ready(&mut self) -> Result<FrameNext, NoMemory>
        ensures { Readies self.old result self.new }
    {
        'pieces: loop {
            match self.reader.peek() {
                Ok(Some(_)) => return Ok(FrameNext::Frame),
                Ok(None) => {}
                Err(FrameLimit) => return Ok(FrameNext::End(CaptureEnd::AtLimit)),
            }
            if self.more.is_empty() {
                return Ok(FrameNext::End(end_of(&self.reader)));
            }
            self.feed()?;
        }
    }
}

/// Gives the frames of a capture one by one, lent, whose bytes it feeds to a reader in pieces of
/// 65,536. It is seen as the frame at hand, and as a reader that was fed all and has
/// taken this frame.
#[derive(Drop)]
pub struct CapturePieces<'a> {
    feeding: Feeding<'a>,
    at_hand: bool,
}

impl<'a> Model for CapturePieces<'a> {
    ghost use Rattle.pcap_io.specs.Feeding.{HasAtHand, PiecesSeen, pieces_seen};

    ghost Value = { PiecesSeen };

    ghost view = { λ p. pieces_seen p.at_hand p.feeding };

    ghost invariant = { λ p. HasAtHand p.at_hand p.feeding.reader };
}

impl<'a> CapturePieces<'a> {
    ghost use Rattle.std.specs.Prelude.{◌≡◌};
    ghost use Rattle.pcap_io.specs.Feeding.{GoesOn, before_all};

    /// The frames after a capture's head, of all that follows its 24 bytes.
    pub fn new(alloc: Global, head: CaptureHead, bytes: &'a [u8]) -> CapturePieces<'a>
        ensures { result ≡ before_all head bytes.now }
    {
        CapturePieces {
            feeding: Feeding {
                reader: FrameReader::new(alloc, head),
                more: bytes,
            },
            at_hand: false,
        }
    }

    /// Goes to the next frame, which is at hand then. The end comes exactly where no whole frame is
    /// left, or 65,536 came. After want of memory nothing is said of the frames.
    pub fn next(&mut self) -> Result<FrameNext, NoMemory>
        ensures { GoesOn self.old result self.new }
    {
        put_down(self.at_hand, &mut self.feeding.reader);
        self.at_hand = false;
        let found = self.feeding.ready()?;
        if let FrameNext::Frame = found {
            self.at_hand = true;
        }
        Ok(found)
    }

    /// The frame at hand, lent, if one is.
    pub fn frame(&self) -> Option<LentFrame<'_>>
        ensures { result ≡ self.now.at }
    {
        if !self.at_hand {
            return None;
        }
        match self.feeding.reader.peek() {
            Ok(frame) => frame,
            Err(FrameLimit) => None,
        }
    }
}
